//! A stage from the characters of a text to its headers and the characters after them.

ghost use Rattle.std.specs.Prelude.{◌≡◌, ◌↔◌, IsSome, IfSome, ◌<◌, ◌≤◌, ◌^◌, [], ◌∷◌, ◌++◌, length, map, IfOk};
ghost use Rattle.std.specs.Str.{chars};
ghost use Rattle.std.specs.Hash.DefaultHasher.{initial};
ghost use Rattle.gabc_places.specs.BoundedList.{Fits, extended_by};
ghost use Rattle.gabc_headers.specs.declared.head_event.HeadEvent.TheVariants.{Found, Stop};
ghost use Rattle.gabc_headers.specs.Canonical.{header_lines};
ghost use Rattle.gabc_headers.specs.FreshStage.{EmitsHeaders};
ghost use Rattle.gabc_headers.specs.HeadEvents.{event_of_book};
ghost use Rattle.gabc_headers.specs.witness.HeadEvents.{IsInHeaders, reading, over, fresh_stage, stage_at, stage_after, progress_with, events_at, events_of_input, events_of_end, text_held};
ghost use Rattle.gabc_headers.specs.HeldText.{IsHeld};
ghost use Rattle.gabc_headers.specs.Lines.{bytes_len};
ghost use Rattle.gabc_headers.specs.machine.Collected.{found_list, name_found};
ghost use Rattle.gabc_headers.specs.machine.HeaderStage.{part_over};

use crate::collected::take_event;
use crate::entry_map::EntryMap;
use crate::events::HeaderEnding;
use crate::head_event::HeadEvent;
use crate::header_machine::{HeaderMachine, HeaderStep};
use crate::headers::Headers;
use crate::laws;
use crate::score_line::{end_fault, score_len};
use gabc_places::{Char, Code, Fault, Finding, Limits, Memory, Place, Room, Stage};
use std::alloc::{AllocError, Global};
use std::hash::DefaultHasher;
use std::marker::Model;

/// The part of the text in which a stage is: in the headers, after their `%%`, or after its last
/// event, which came before their `%%` or after it.
#[derive(Clone, Copy)]
pub(crate) enum HeadPart {
    InHeaders,
    After,
    Stopped,
    Over,
}

impl HeadPart {
    /// Returns the part after the last event.
    fn over(self) -> HeadPart
        ensures { result ≡ part_over self }
    {
        match self {
            HeadPart::InHeaders | HeadPart::Stopped => HeadPart::Stopped,
            HeadPart::After | HeadPart::Over => HeadPart::Over,
        }
    }
}

/// Reads the headers of a text one character at a time (GregorioRef, "Headers"), and passes on the
/// characters after them.
#[derive(Drop)]
pub struct HeaderStage {
    limits: Limits,
    part: HeadPart,
    /// In the headers, the machine that reads their text.
    machine: HeaderMachine,
    /// The text of the headers. Once they are whole it is unchanged, since it has their values.
    text: String<Memory>,
    headers: EntryMap,
}

impl Model for HeaderStage {
    ghost use Rattle.std.specs.Prelude.{string_bytes};
    ghost use Rattle.std.specs.String.{string_capacity};
    ghost use Rattle.std.specs.Str.{chars};
    ghost use Rattle.gabc_headers.specs.witness.HeadEvents.{HeaderStageState};
    ghost use Rattle.gabc_headers.specs.ShownStage.{book_in, progress_in};
    ghost use Rattle.gabc_headers.specs.machine.HeaderStage.{IsStageIn};

    ghost Value = { HeaderStageState };

    ghost view = { λ s.
        let book = book_in s.part (string_bytes s.text) s.headers.0 in
        record {
          limits = s.limits;
          progress = progress_in s.part (string_bytes s.text) book;
          book = book;
          hasher = s.headers.2;
        } };

    ghost invariant = { λ s. IsStageIn s.part s.limits (string_bytes s.text)
        (string_capacity s.text) s.machine s.headers };
}

/// Emits the finding `found`, if there is one.
fn emit_finding(found: Option<Finding>, out: &mut Room<HeadEvent>)
    requires { Fits out.old 1 }
    ensures { out.new ≡ extended_by out.old (map (λ f. Found f) (found_list found)) }
{
    if let Some(finding) = found {
        out.push(HeadEvent::Found(finding));
    }
}

/// Emits the headers at the line `%%`, whose first character is at `place`. Their canonical lines
/// have `size` bytes.
fn emit_heads(book: &Headers<'_>, place: Place, size: usize, out: &mut Room<HeadEvent>)
    requires size { size ≡ bytes_len (header_lines book.now) }
    requires small { size < 2 ^ 31 }
    requires room { Fits out.old 2 }
    ensures { out.new ≡ extended_by out.old
        (map (λ f. Found f) (name_found place book.now) ++ event_of_book book.now ∷ []) }
{
    if book.get("name").is_none() {
        out.push(HeadEvent::Found(Finding {
            place,
            code: Code::W1,
        }));
    }
    out.push(HeadEvent::Heads {
        nabc_lines: book.nabc_lines(),
        macros: book.macros(),
        canonical: (size + 2) as u32,
    });
}

impl HeaderStage {
    /// Returns a stage under `limits` before the first character of a text, and reserves all the
    /// memory that it needs. Fails only if memory cannot be allocated. Names are hashed with a
    /// fixed key, so names can be chosen that are slow to read: 1,872 of 8 bytes took 31 ms, while
    /// others take 3. If strangers write the text, use `with_hasher`. It emits at most two events a
    /// call.
    pub fn with_limits(alloc: Global, limits: Limits) -> Result<HeaderStage, AllocError>
        ensures fresh { IfOk result (λ stage. stage ≡ fresh_stage limits initial) }
        ensures events { IfOk result (EmitsHeaders limits) }
    {
        HeaderStage::with_hasher(alloc, limits, DefaultHasher::new())
    }

    /// Returns a stage as `with_limits` does, which hashes names from `hasher` on, such as
    /// `RandomState::new(&rt)?.build_hasher()`. The events of the stage do not depend on it, but
    /// whoever does not know how it begins cannot choose names that make the reading slow.
    pub fn with_hasher(
        alloc: Global,
        limits: Limits,
        hasher: DefaultHasher,
    ) -> Result<HeaderStage, AllocError>
        ensures fresh { IfOk result (λ stage. stage ≡ fresh_stage limits hasher) }
        ensures events { IfOk result (EmitsHeaders limits) }
    {
        HeaderStage::in_memory(&Memory::with_capacity(alloc, 0)?, limits, hasher)
    }

    /// Returns a stage as `with_hasher` does, whose text lies in `memory`. Fails only if memory
    /// cannot be allocated.
    pub fn in_memory(
        memory: &Memory,
        limits: Limits,
        hasher: DefaultHasher,
    ) -> Result<HeaderStage, AllocError>
        ensures fresh { IfOk result (λ stage. stage ≡ fresh_stage limits hasher) }
        ensures events { IfOk result (EmitsHeaders limits) }
    {
        laws::events_make_the_headers();
        let bytes = limits.header as usize;
        Ok(HeaderStage {
            limits,
            part: HeadPart::InHeaders,
            machine: HeaderMachine::new(limits.header),
            text: String::with_capacity(memory.share()?, bytes + 1)?,
            headers: EntryMap::with_limit(memory.global(), bytes / 3 + 1, hasher)?,
        })
    }

    /// Begins a new text, as a new stage does, whatever the stage has read. It keeps its limits,
    /// its hasher and its memory, and does not allocate.
    pub fn restart(&mut self)
        ensures { self.new ≡ fresh_stage self.old.limits self.old.hasher }
    {
        self.part = HeadPart::InHeaders;
        self.machine = HeaderMachine::new(self.limits.header);
        self.text.clear();
        self.headers.clear();
    }

    /// Emits the stop of the text at `fault`. No event follows.
    fn stop(&mut self, fault: Fault, out: &mut Room<HeadEvent>)
        requires { Fits out.old 1 }
        ensures state { self.new ≡ stage_at self.old over }
        ensures out { out.new ≡ extended_by out.old (Stop fault ∷ []) }
    {
        self.part = self.part.over();
        out.push(HeadEvent::Stop(fault));
    }

    /// Reads the character `c` in the headers.
    fn read(&mut self, c: char, out: &mut Room<HeadEvent>)
        requires reading { IsInHeaders self.old.progress }
        requires room { Fits out.old 2 }
        ensures state { self.new
            ≡ stage_at self.old (progress_with self.old.limits (text_held self.old.progress) c) }
        ensures out { out.new
            ≡ extended_by out.old (events_at self.old.limits (text_held self.old.progress) c) }
        ensures few { length (events_at self.old.limits (text_held self.old.progress) c) ≤ 2 }
    {
        let mut machine = self.machine;
        match machine.push(c) {
            HeaderStep::Read(event) => {
                let Ok(()) = self.text.push(c) else {
                    unreachable!()
                };
                self.machine = machine;
                if let Some(event) = event {
                    let found = take_event(&mut self.headers, self.text.as_str(), event);
                    emit_finding(found, out);
                }
            }
            HeaderStep::Ended(
                HeaderEnding::Score {
                    place,
                    body: _,
                    open_line,
                },
            ) => {
                let text = self.text.as_str();
                match score_len(self.limits, text, &self.headers, place, open_line) {
                    Ok(size) => {
                        self.part = HeadPart::After;
                        emit_heads(&Headers::of(text, &self.headers), place, size, out);
                    }
                    Err(fault) => self.stop(fault, out),
                }
            }
            HeaderStep::Ended(HeaderEnding::Limit(place)) => {
                let code = Code::F4;
                self.stop(Fault { place, code }, out);
            }
            HeaderStep::Ended(
                HeaderEnding::Text {
                    place: _,
                    open_line: _,
                },
            ) => unreachable!(),
        }
    }

    /// Takes `input`, and adds its events to `out`.
    fn take(&mut self, input: Result<Char, Fault>, out: &mut Room<HeadEvent>)
        requires { Fits out.old 2 }
        ensures state { self.new ≡ stage_after self.old input }
        ensures out { out.new ≡ extended_by out.old
            (events_of_input self.old.limits self.old.progress input) }
        ensures few { length (events_of_input self.old.limits self.old.progress input) ≤ 2 }
    {
        match self.part {
            HeadPart::InHeaders => match input {
                Ok(x) => self.read(x.c, out),
                Err(fault) => self.stop(fault, out),
            },
            HeadPart::After => match input {
                Ok(x) => out.push(HeadEvent::Body(x)),
                Err(fault) => self.stop(fault, out),
            },
            HeadPart::Stopped | HeadPart::Over => {}
        }
    }

    /// Ends the inputs, and adds the last events to `out`.
    fn end(&mut self, out: &mut Room<HeadEvent>)
        requires { Fits out.old 2 }
        ensures state { self.new ≡ stage_at self.old over }
        ensures out { out.new ≡ extended_by out.old
            (events_of_end self.old.limits self.old.progress) }
        ensures few { length (events_of_end self.old.limits self.old.progress) ≤ 2 }
    {
        match self.part {
            HeadPart::InHeaders => {
                let HeaderEnding::Text { place, open_line } = self.machine.end() else {
                    unreachable!()
                };
                out.push(HeadEvent::Stop(end_fault(place, open_line)));
            }
            HeadPart::After => out.push(HeadEvent::End),
            HeadPart::Stopped => {}
            HeadPart::Over => {}
        }
        self.part = self.part.over();
    }

    /// Returns the text of the headers as far as it is read, with its comments. From the headers'
    /// end on it returns `None`. Pushed into a fresh stage under the same limits, whatever the
    /// places of its characters, the text restores the stage. The headers in this text are stopped
    /// by its end alone.
    pub fn text(&self) -> Option<&str>
        ensures in_headers { IsSome result ↔ IsInHeaders self.now.progress }
        ensures text { IfSome result (λ t. self.now.progress ≡ reading (chars t.now)) }
        ensures held { IfSome result (λ t. IsHeld self.now.limits (chars t.now)) }
    {
        match self.part {
            HeadPart::InHeaders => Some(self.text.as_str()),
            HeadPart::After => None,
            HeadPart::Stopped | HeadPart::Over => None,
        }
    }

    /// Returns the headers by name and in order, borrowed, from the event of whole headers on.
    /// Before it, and if the text was stopped before their `%%`, there are none.
    pub fn book(&self) -> Headers<'_>
        ensures { result ≡ self.now.book }
    {
        let text = self.text.as_str();
        match self.part {
            HeadPart::InHeaders | HeadPart::Stopped => Headers::none(text, &self.headers),
            HeadPart::After | HeadPart::Over => Headers::of(text, &self.headers),
        }
    }
}

impl Stage for HeaderStage {
    type Input = Result<Char, Fault>;

    type Output = HeadEvent;

    ghost use Rattle.std.specs.Prelude.{◌≡◌};
    ghost use Rattle.gabc_places.specs.BoundedList.{Fits};
    ghost use Rattle.gabc_places.specs.StageLaw.{Pushes, Finishes, EmitsNothing, StopsAtEnd};
    ghost use Rattle.gabc_headers.specs.HeadEvents.{is_last_event};
    ghost use Rattle.gabc_headers.specs.witness.HeadEvents.{over, stage_at, stage_after, events_left};

    ghost rest = { λ s xs. events_left s.limits s.progress xs };

    ghost most_of = { λ _. 2 };

    ghost is_end = { is_last_event };

    fn most(&self) -> usize {
        2
    }

    fn push(&mut self, input: Result<Char, Fault>, out: &mut Room<HeadEvent>)
        requires { Fits out.old 2 }
        ensures events { Pushes (events_left self.old.limits self.old.progress)
            (events_left self.new.limits self.new.progress) input 2 out.old out.new }
        ensures end { StopsAtEnd is_last_event (events_left self.new.limits self.new.progress)
            out.old out.new }
        ensures state { self.new ≡ stage_after self.old input }
    {
        self.take(input, out);
    }

    fn finish(&mut self, out: &mut Room<HeadEvent>)
        requires { Fits out.old 2 }
        ensures ends { Finishes (events_left self.old.limits self.old.progress) 2 out.old out.new }
        ensures end { StopsAtEnd is_last_event (events_left self.new.limits self.new.progress)
            out.old out.new }
        ensures over { EmitsNothing (events_left self.new.limits self.new.progress) }
        ensures state { self.new ≡ stage_at self.old over }
    {
        self.end(out);
    }
}
