//! A snippet as a whole.

ghost use Rattle.std.specs.Prelude.{◌≡◌, ◌+◌, ◌^◌, ◌<◌, [], length, take, IfOk, OnOk, string_bytes};
ghost use Rattle.std.specs.Str.{chars};
ghost use Rattle.std.specs.String.Boundary.{IsSplitPoint};
ghost use Rattle.gabc_notes.specs.machine.BuiltSnippet.{built_snippet_of, with_event, with_events, no_snippet, PushIsAdded, EndIsAdded};
ghost use Rattle.gabc_notes.specs.NotesRead.{IsSnippetRead};

use crate::snippet_read::{SnippetEnding, SnippetRead};
use crate::stage::{NoteEnd, NoteEvent, NoteStage};
use gabc_places::{Char, Findings, Place, Room, Stage};
use std::alloc::{AllocError, Global};

/// The reading so far.
#[derive(Drop)]
struct SnippetBuilder {
    kept: String,
    findings: Findings,
    /// The end of the snippet, and the bytes of the kept text.
    end: Option<(NoteEnd, usize)>,
}

impl SnippetBuilder {
    /// Returns an empty reading.
    fn new(alloc: Global) -> SnippetBuilder
        ensures { built_snippet_of result ≡ no_snippet }
    {
        SnippetBuilder {
            kept: String::new(alloc),
            findings: Findings::new(alloc),
            end: None,
        }
    }

    /// Adds an event of the machine.
    fn add(&mut self, event: NoteEvent) -> Result<(), AllocError>
        ensures { OnOk result (built_snippet_of self.new
            ≡ with_event (built_snippet_of self.old) event) }
    {
        match event {
            NoteEvent::Kept(x) => self.kept.push(x.c)?,
            NoteEvent::Found(finding) => self.findings.push(finding)?,
            NoteEvent::Ended { how, kept } => self.end = Some((how, kept)),
        }
        Ok(())
    }

    /// Adds all events of the machine.
    fn add_all(&mut self, events: &[NoteEvent]) -> Result<(), AllocError>
        ensures { OnOk result (built_snippet_of self.new
            ≡ with_events (built_snippet_of self.old) events.now) }
    {
        for event in events {
            self.add(*event)?;
        }
        Ok(())
    }

    /// Passes a character to the machine, and adds its events. `room` is left empty.
    fn feed(
        &mut self,
        stage: &mut NoteStage,
        x: Char,
        room: &mut Room<NoteEvent>,
    ) -> Result<(), AllocError>
        requires { room.old ≡ record { items = []; limit = 3 } }
        ensures fed { OnOk result (PushIsAdded stage.old stage.new x
            (built_snippet_of self.old) (built_snippet_of self.new)) }
        ensures room { OnOk result (room.new ≡ record { items = []; limit = 3 }) }
    {
        stage.push(x, room);
        self.add_all(room.slice())?;
        room.clear();
        Ok(())
    }

    /// Ends the machine, and adds its events.
    fn close(&mut self, stage: &mut NoteStage, room: &mut Room<NoteEvent>) -> Result<(), AllocError>
        requires { room.old ≡ record { items = []; limit = 3 } }
        ensures { OnOk result (EndIsAdded stage.old (built_snippet_of self.old)
            (built_snippet_of self.new)) }
    {
        stage.finish(room);
        self.add_all(room.slice())
    }

    /// Returns the reading of a snippet with the end `how`, with `bytes` bytes of the kept text.
    fn into_read(self, how: SnippetEnding, bytes: usize) -> SnippetRead
        requires { IsSplitPoint (string_bytes self.kept) bytes }
        ensures kept { string_bytes result.kept ≡ take bytes (string_bytes self.kept) }
        ensures findings { result.findings ≡ self.findings }
        ensures how { result.how ≡ how }
    {
        let SnippetBuilder {
            mut kept,
            findings,
            end: _,
        } = self;
        kept.truncate(bytes);
        SnippetRead {
            kept,
            findings,
            how,
        }
    }
}

/// Reads the snippet of notes with which `body` begins, up to the mark that ends it or the end of
/// `body` (GregorioRef, "Notation — Note Syntax"). Returns the kept text, without an unfinished end
/// unless the snippet is cut; the findings; and the end, with the byte of its mark, or if it is cut
/// with the place of the open `[`, if one is open. Each number of `at` and the bytes of `body`
/// together have to be below 2^64. The first character of `body` is at `at`, a line and a column
/// from 1, as `gabc_places` counts them in a `Text`. With `split` a `|` ends the snippet too. The
/// bit `d` of `macros`, from 0 to 9, says that the macro of the digit `d` is defined. Fails only if
/// memory cannot be allocated.
pub fn snippet_whole(
    alloc: Global,
    body: &str,
    at: Place,
    split: bool,
    macros: u16,
) -> Result<SnippetRead, AllocError>
    requires line { at.line + length body.now < 2 ^ 64 }
    requires column { at.column + length body.now < 2 ^ 64 }
    ensures { IfOk result (λ read. IsSnippetRead at split macros (chars body.now) read) }
{
    let mut room = Room::with_limit(alloc, 3)?;
    let mut builder = SnippetBuilder::new(alloc);
    let mut stage = NoteStage::new(split, macros);
    let mut place = at;
    let mut index = 0;
    for c in body.chars() {
        builder.feed(&mut stage, Char { c, place }, &mut room)?;
        if let Some((end, bytes)) = builder.end {
            return Ok(builder.into_read(SnippetEnding::at(end, index), bytes));
        }
        place = place.after(c);
        index += c.len_utf8();
    }
    builder.close(&mut stage, &mut room)?;
    // At the latest this call emitted an end, so the default is never taken.
    let (end, bytes) = builder.end.unwrap_or((NoteEnd::Close, 0));
    Ok(builder.into_read(SnippetEnding::at(end, index), bytes))
}
