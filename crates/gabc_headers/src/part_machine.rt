//! The machine of the headers' lines, a character at a time. It knows no end: neither the line `%%`
//! nor a limit.

ghost use Rattle.std.specs.Prelude.{◌≡◌, ◌+◌, ◌<◌, ◌^◌};
ghost use Rattle.gabc_headers.specs.declared.characters.HeaderChar.TheVariants.{Colon};
ghost use Rattle.gabc_headers.specs.machine.PartMachine.{trim_at, next_trim, span_of, is_good_span, at_line_start, event_at_end, name_step, value_step, next_part_machine, open_in};

use crate::characters::{HeaderChar, Run};
use crate::events::HeaderEvent;
use gabc_places::Span;

/// The part of a text that is left when it is trimmed: the byte at which it begins, so far, the
/// byte after it, and whether all of it is left out.
#[derive(Clone, Copy)]
pub(crate) struct Trim {
    pub from: usize,
    pub to: usize,
    pub leading: bool,
}

impl Trim {
    /// Returns the trimming of a text that begins at the byte `at`.
    fn at(at: usize) -> Trim
        ensures { result ≡ trim_at at }
    {
        Trim {
            from: at,
            to: at,
            leading: true,
        }
    }

    /// Returns the trimming with one character more, which ends before the byte `next`, and is left
    /// out at the start if `lead`, or at the end if `last`.
    fn after(self, next: usize, lead: bool, last: bool) -> Trim
        ensures { result ≡ next_trim self next lead last }
    {
        Trim {
            from: if self.leading && lead {
                next
            } else {
                self.from
            },
            to: if last { self.to } else { next },
            leading: self.leading && lead,
        }
    }

    /// Returns the span of the bytes that are left.
    fn span(self) -> Span
        ensures { result ≡ span_of self }
    {
        Span {
            from: self.from,
            to: if self.to < self.from {
                self.from
            } else {
                self.to
            },
        }
    }
}

/// The state of the machine: in a line that begins no header yet or in its name; in the rest of a
/// line that is skipped; or in a value, on the header's own line or a later one (`long`).
#[derive(Clone, Copy)]
pub(crate) enum PartState {
    Name,
    Skip,
    Value { long: bool, run: Run },
}

/// A machine of lines. `line` is the current one, from 1; `header` and `name` are those of the
/// value in which it is, the name unless its header is left out.
#[derive(Clone, Copy)]
pub(crate) struct PartMachine {
    pub state: PartState,
    pub line: u64,
    pub trim: Trim,
    pub header: u64,
    pub name: Option<Span>,
}

// Whether a name has 1 to 64 bytes.
fn is_good(name: Span) -> bool
    ensures { result ≡ is_good_span name }
{
    name.from < name.to && name.to - name.from <= 64
}

impl PartMachine {
    /// Returns the machine at the start of the line `line`, whose first byte is `at`.
    pub(crate) fn fresh(line: u64, at: usize) -> PartMachine
        ensures { result ≡ at_line_start line at }
    {
        PartMachine {
            state: PartState::Name,
            line,
            trim: Trim::at(at),
            header: line,
            name: None,
        }
    }

    // The same machine in another state.
    fn in_state(self, state: PartState) -> PartMachine
        ensures { result ≡ record self { state = state } }
    {
        PartMachine { state, ..self }
    }

    // One character more of what is trimmed.
    fn grown(self, next: usize, lead: bool, last: bool) -> PartMachine
        ensures { result ≡ record self { trim = next_trim self.trim next lead last } }
    {
        PartMachine {
            trim: self.trim.after(next, lead, last),
            ..self
        }
    }

    // A header ends at its mark, known at this point.
    fn finish(self, point: usize) -> Option<HeaderEvent>
        ensures { result ≡ event_at_end self point }
    {
        match self.name {
            Some(name) => Some(HeaderEvent::Header {
                line: self.header,
                name,
                value: self.trim.span(),
                point,
            }),
            None => None,
        }
    }

    // After the `:` of a name.
    fn value(self, point: usize, next: usize) -> (PartMachine, Option<HeaderEvent>)
        ensures { result ≡ name_step self Colon point next (is_good_span (span_of self.trim)) }
    {
        let name = self.trim.span();
        let good = is_good(name);
        let value = PartMachine {
            state: PartState::Value {
                long: false,
                run: Run::Text,
            },
            line: self.line,
            trim: Trim::at(next),
            header: self.line,
            name: if good { Some(name) } else { None },
        };
        if good {
            (value, None)
        } else {
            let line = self.line;
            (value, Some(HeaderEvent::LeftOut { line, point }))
        }
    }

    // In a line that begins no header yet, or in its name.
    fn step_in_name(
        self,
        kind: HeaderChar,
        point: usize,
        next: usize,
    ) -> (PartMachine, Option<HeaderEvent>)
        requires { self.line + 1 < 2 ^ 64 }
        ensures { result ≡ name_step self kind point next (is_good_span (span_of self.trim)) }
    {
        let bare = self.trim.leading;
        match kind {
            HeaderChar::LineEnd if bare => (PartMachine::fresh(self.line + 1, next), None),
            HeaderChar::LineEnd => {
                let left_out = HeaderEvent::LeftOut {
                    line: self.line,
                    point,
                };
                (PartMachine::fresh(self.line + 1, next), Some(left_out))
            }
            HeaderChar::Percent if bare => (self.in_state(PartState::Skip), None),
            HeaderChar::Colon => self.value(point, next),
            HeaderChar::Blank => (self.grown(next, true, true), None),
            _ => (self.grown(next, false, false), None),
        }
    }

    // In a value, on the header's own line or a later one.
    fn step_in_value(
        self,
        long: bool,
        run: Run,
        kind: HeaderChar,
        point: usize,
        next: usize,
    ) -> (PartMachine, Option<HeaderEvent>)
        requires { self.line + 1 < 2 ^ 64 }
        ensures { result ≡ value_step self long run kind point next }
    {
        let ends = run.closes();
        let on = self.in_state(PartState::Value {
            long,
            run: run.after(long, kind),
        });
        match kind {
            HeaderChar::LineEnd if ends => (
                PartMachine::fresh(self.line + 1, next),
                self.finish(point),
            ),
            HeaderChar::LineEnd => {
                let below = PartMachine {
                    state: PartState::Value {
                        long: true,
                        run: Run::Text,
                    },
                    line: self.line + 1,
                    ..self
                };
                (below.grown(next, true, true), None)
            }
            HeaderChar::Percent if ends => (self.in_state(PartState::Skip), self.finish(point)),
            HeaderChar::Blank => (on.grown(next, true, true), None),
            HeaderChar::Semicolon => (on.grown(next, false, true), None),
            _ => (on.grown(next, false, false), None),
        }
    }

    /// The machine after a character with this point, which ends before the byte `next`, and what
    /// that makes known.
    pub(crate) fn step(
        self,
        kind: HeaderChar,
        point: usize,
        next: usize,
    ) -> (PartMachine, Option<HeaderEvent>)
        requires { self.line + 1 < 2 ^ 64 }
        ensures { result
            ≡ next_part_machine self kind point next (is_good_span (span_of self.trim)) }
    {
        match self.state {
            PartState::Name => self.step_in_name(kind, point, next),
            PartState::Skip => match kind {
                HeaderChar::LineEnd => (PartMachine::fresh(self.line + 1, next), None),
                _ => (self, None),
            },
            PartState::Value { long, run } => self.step_in_value(long, run, kind, point, next),
        }
    }

    /// Returns the line of the header whose value would be open if the text ended here, if there is
    /// one.
    pub(crate) fn open_line(self) -> Option<u64>
        ensures { result ≡ open_in self.state self.header }
    {
        match self.state {
            PartState::Value { long: _, run } => if run.closes() {
                None
            } else {
                Some(self.header)
            },
            _ => None,
        }
    }
}
