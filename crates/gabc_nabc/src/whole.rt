//! An NABC snippet as a whole.

ghost use Rattle.std.specs.Prelude.{◌≡◌, ◌+◌, ◌^◌, ◌<◌, ◌≤◌, [], ◌∷◌, length, take, IfOk, OnOk, string_bytes};
ghost use Rattle.std.specs.Str.{chars, IsCharBoundary};
ghost use Rattle.gabc_nabc.specs.witness.DescriptorMachine.{stage_events_at, stage_after, events_of_cut};
ghost use Rattle.gabc_nabc.specs.NabcRead.{IsNabcRead};
ghost use Rattle.gabc_nabc.specs.machine.BuiltNabc.{built_nabc_of, with_event, with_events, no_nabc};

use crate::stage::NabcStage;
use gabc_notes::{NoteEnd, NoteEvent, SnippetEnding, SnippetRead};
use gabc_places::{Char, Findings, Place, Room};
use std::alloc::{AllocError, Global};

/// The reading so far.
#[derive(Drop)]
struct NabcBuilder {
    kept: String,
    findings: Findings,
    /// The end, if it was emitted, and the bytes of the kept text at it.
    end: Option<(NoteEnd, usize)>,
}

impl NabcBuilder {
    /// Returns an empty reading.
    fn new(alloc: Global) -> NabcBuilder
        ensures { built_nabc_of result ≡ no_nabc }
    {
        NabcBuilder {
            kept: String::new(alloc),
            findings: Findings::new(alloc),
            end: None,
        }
    }

    /// Adds an event of the stage.
    fn add(&mut self, output: NoteEvent) -> Result<(), AllocError>
        ensures { OnOk result (built_nabc_of self.new
            ≡ with_event (built_nabc_of self.old) output) }
    {
        match output {
            NoteEvent::Kept(kept) => self.kept.push(kept.c)?,
            NoteEvent::Found(finding) => self.findings.push(finding)?,
            NoteEvent::Ended { how, kept } => self.end = Some((how, kept)),
        }
        Ok(())
    }

    /// Adds all events of the stage.
    fn add_all(&mut self, events: &[NoteEvent]) -> Result<(), AllocError>
        ensures { OnOk result (built_nabc_of self.new ≡
            with_events (built_nabc_of self.old) events.now) }
    {
        for event in events {
            self.add(*event)?;
        }
        Ok(())
    }

    /// Returns the end, if it was emitted.
    fn emitted_end(&self) -> Option<(NoteEnd, usize)>
        ensures { result ≡ (built_nabc_of self.now).end }
    {
        self.end
    }

    /// Passes a character to the stage, and adds its events. `room` is left empty.
    fn feed(
        &mut self,
        stage: &mut NabcStage,
        x: Char,
        room: &mut Room<NoteEvent>,
    ) -> Result<(), AllocError>
        requires { room.old ≡ record { items = []; limit = 3 } }
        ensures stage { stage.new ≡ stage_after stage.old x.c }
        ensures gathered { let now = with_events (built_nabc_of self.old)
            (stage_events_at stage.old x) in
            OnOk result (built_nabc_of self.new ≡ now) }
        ensures room { OnOk result (room.new ≡ record { items = []; limit = 3 }) }
    {
        stage.take(x, room);
        self.add_all(room.slice())?;
        room.clear();
        Ok(())
    }

    /// Ends the stage, and adds its events.
    fn close(&mut self, stage: &NabcStage, room: &mut Room<NoteEvent>) -> Result<(), AllocError>
        requires { room.old ≡ record { items = []; limit = 3 } }
        ensures { let now = with_events (built_nabc_of self.old) (events_of_cut stage.now) in
            OnOk result (built_nabc_of self.new ≡ now) }
    {
        stage.stop(room);
        self.add_all(room.slice())
    }

    /// Cuts the kept text to `len` bytes.
    fn cut(&mut self, len: usize)
        requires { IsCharBoundary (string_bytes self.old.kept) len }
        ensures kept { string_bytes self.new.kept ≡ take len (string_bytes self.old.kept) }
        ensures findings { self.new.findings ≡ self.old.findings }
    {
        self.kept.truncate(len);
    }

    /// Returns the reading of a snippet with the end `how`.
    fn into_read(self, how: SnippetEnding) -> SnippetRead
        ensures kept { string_bytes result.kept ≡ string_bytes self.kept }
        ensures findings { result.findings ≡ self.findings }
        ensures how { result.how ≡ how }
    {
        let NabcBuilder {
            kept,
            findings,
            end: _,
        } = self;
        SnippetRead {
            kept,
            findings,
            how,
        }
    }
}

/// Reads the NABC snippet with which `body` begins, up to its `)` or `|`, or the end of `body`.
/// Returns the kept text, the findings in order, and the end with the byte of its mark. The first
/// character of `body` is at `at`, a line and a column from 1, as `gabc_places` counts them in a
/// `Text`. Each number of `at` and the bytes of `body` together have to be below 2^64. Fails only
/// if memory cannot be allocated.
pub fn nabc_whole(alloc: Global, body: &str, at: Place) -> Result<SnippetRead, AllocError>
    requires line { at.line + length body.now < 2 ^ 64 }
    requires column { at.column + length body.now < 2 ^ 64 }
    ensures { IfOk result (λ read. IsNabcRead at (chars body.now) read) }
{
    let mut room = Room::with_limit(alloc, 3)?;
    let mut builder = NabcBuilder::new(alloc);
    let mut stage = NabcStage::new();
    let mut place = at;
    let mut index = 0;
    for c in body.chars() {
        builder.feed(&mut stage, Char { c, place }, &mut room)?;
        if let Some((end, kept)) = builder.emitted_end() {
            builder.cut(kept);
            return Ok(builder.into_read(SnippetEnding::at(end, index)));
        }
        place = place.after(c);
        index += c.len_utf8();
    }
    builder.close(&stage, &mut room)?;
    Ok(builder.into_read(SnippetEnding::Cut(Place { line: 0, column: 0 })))
}
