//! The machine of the headers of a text, a character at a time, in bounded memory.

ghost use Rattle.std.specs.Prelude.{◌≡◌, ◌<◌, ◌^◌};
ghost use Rattle.gabc_headers.specs.machine.HeaderMachine.{IsBounded, fresh_machine, take_one, push_one, end_here};

use crate::characters::HeaderChar;
use crate::events::{HeaderEnding, HeaderEvent};
use crate::part_machine::PartMachine;
use gabc_places::Place;

/// The result of a character: an event, nothing, or the headers' end.
#[derive(Clone, Copy)]
pub(crate) enum HeaderStep {
    Read(Option<HeaderEvent>),
    Ended(HeaderEnding),
}

/// The machine. It has read `point` characters, and the next one is at its place. A `%` that begins
/// a line is pending, until the next character shows whether that is the line `%%`.
#[derive(Clone, Copy)]
pub(crate) struct HeaderMachine {
    pub parts: PartMachine,
    pub limit: usize,
    pub point: usize,
    pub bytes: usize,
    pub place: Place,
    pub at_line: bool,
    pub held: bool,
}

impl HeaderMachine {
    /// Returns the machine at the start of a text, of which at most `limit` bytes may come before
    /// the line `%%`.
    pub(crate) fn new(limit: u32) -> HeaderMachine
        requires { limit < 2 ^ 31 }
        ensures starts { result ≡ fresh_machine limit }
        ensures bounds { IsBounded result }
    {
        HeaderMachine {
            parts: PartMachine::fresh(1, 0),
            limit: limit as usize,
            point: 0,
            bytes: 0,
            place: Place::START,
            at_line: true,
            held: false,
        }
    }

    // Reads a character, unless the text is too long with it.
    fn take(&mut self, c: char) -> HeaderStep
        requires { IsBounded self.old }
        ensures pushes { (self.new, result) ≡ take_one self.old c }
        ensures bounds { IsBounded self.new }
    {
        let next = self.bytes + c.len_utf8();
        if next > self.limit {
            return HeaderStep::Ended(HeaderEnding::Limit(self.place));
        }
        let (parts, event) = self.parts.step(HeaderChar::of(c), self.point, next);
        self.parts = parts;
        self.point += 1;
        self.bytes = next;
        self.place = self.place.after(c);
        self.at_line = c == '\n';
        HeaderStep::Read(event)
    }

    /// Reads the next character. After the headers' end the caller may not push again.
    pub(crate) fn push(&mut self, c: char) -> HeaderStep
        requires { IsBounded self.old }
        ensures pushes { (self.new, result) ≡ push_one self.old c }
        ensures bounds { IsBounded self.new }
    {
        if self.held {
            if c == '%' {
                return HeaderStep::Ended(HeaderEnding::Score {
                    place: self.place,
                    body: self.bytes + 2,
                    open_line: self.parts.open_line(),
                });
            }
            self.held = false;
            return match self.take('%') {
                HeaderStep::Ended(end) => HeaderStep::Ended(end),
                HeaderStep::Read(_) => self.take(c),
            };
        }
        if self.at_line && c == '%' {
            self.held = true;
            return HeaderStep::Read(None);
        }
        self.take(c)
    }

    /// Returns the ending of the headers at the end of the text.
    pub(crate) fn end(self) -> HeaderEnding
        requires { IsBounded self }
        ensures { result ≡ end_here self }
    {
        let place = if self.held {
            self.place.after('%')
        } else {
            self.place
        };
        HeaderEnding::Text {
            place,
            open_line: self.parts.open_line(),
        }
    }
}
