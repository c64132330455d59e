//! The text of a syllable as a whole.

ghost use Rattle.std.specs.Prelude.{◌≡◌, ◌==◌, ◌+◌, ◌^◌, ◌<◌, [], length, take, true, IfOk, OnOk, string_bytes};
ghost use Rattle.std.specs.Str.{chars, NonePass};
ghost use Rattle.gabc_text.specs.Token.{before_first};
ghost use Rattle.gabc_text.specs.machine.RawPart.{stage_past, events_of_pushes, is_in_raw};
ghost use Rattle.gabc_text.specs.machine.BuiltText.{built_text_of, ending_of};
ghost use Rattle.gabc_text.specs.BuiltText.{with_event, with_events, empty_text};
ghost use Rattle.gabc_text.specs.TextRead.{IsTextRead};
ghost use Rattle.gabc_text.specs.machine.TextStage.{push_stage, events_of_push, events_of_finish};

use crate::stage::TextStage;
use crate::text_event::{TextEnd, TextEvent};
use crate::view::{TextEnding, TextView};
use gabc_places::{Findings, Place, Room};
use memchr::memchr;
use std::alloc::{AllocError, Global};

/// The reading of a text.
#[derive(Debug, Drop)]
pub struct TextRead {
    /// Its view.
    pub view: TextView,
    /// The text without comments and what was left out, each run of blanks as one U+0020. Spans
    /// count its bytes.
    pub kept: String,
    /// The findings, in the order of places.
    pub findings: Findings,
    /// Its end.
    pub how: TextEnding,
}

/// The reading of a text so far.
#[derive(Drop)]
struct TextBuilder {
    kept: String,
    view: TextView,
    findings: Findings,
    end: TextEnd,
}

impl TextBuilder {
    fn new(alloc: Global) -> TextBuilder
        ensures { built_text_of result ≡ empty_text }
    {
        TextBuilder {
            kept: String::new(alloc),
            view: TextView::new(alloc),
            findings: Findings::new(alloc),
            end: TextEnd::Finished,
        }
    }

    /// Adds an event of the machine.
    fn add(&mut self, event: TextEvent) -> Result<(), AllocError>
        ensures { OnOk result (built_text_of self.new ≡ with_event (built_text_of self.old) event) }
    {
        match event {
            TextEvent::Kept(kept) => self.kept.push(kept.c)?,
            TextEvent::Part(part) => self.view.add(part)?,
            TextEvent::Found(finding) => self.findings.push(finding)?,
            TextEvent::Ended(end) => self.end = end,
        }
        Ok(())
    }

    /// Adds all `events` of the machine.
    fn add_all(&mut self, events: &[TextEvent]) -> Result<(), AllocError>
        ensures { OnOk result (built_text_of self.new
            ≡ with_events (built_text_of self.old) events.now) }
    {
        for event in events {
            self.add(*event)?;
        }
        Ok(())
    }

    /// Passes the character `c` to the machine, and adds its events. `room` is left empty.
    fn feed(
        &mut self,
        stage: &mut TextStage,
        c: char,
        room: &mut Room<TextEvent>,
    ) -> Result<(), AllocError>
        requires { room.old ≡ record { items = []; limit = 8 } }
        ensures stage { stage.new ≡ push_stage stage.old c }
        ensures events { OnOk result (built_text_of self.new
            ≡ with_events (built_text_of self.old) (events_of_push stage.old c)) }
        ensures room { OnOk result (room.new ≡ record { items = []; limit = 8 }) }
    {
        stage.take(c, room);
        self.add_all(room.slice())?;
        room.clear();
        Ok(())
    }

    /// Passes the characters of `text` in a raw part to the machine, and adds its events: it keeps
    /// them all, since none of them begins the ending.
    fn pass(&mut self, stage: &mut TextStage, text: &str) -> Result<(), AllocError>
        requires raw { is_in_raw stage.old ≡ true }
        requires no_ending { NonePass (λ c. c == 60) (chars text.now) }
        ensures stage { stage.new ≡ stage_past stage.old (chars text.now) }
        ensures events { OnOk result (built_text_of self.new
            ≡ with_events (built_text_of self.old) (events_of_pushes stage.old (chars text.now))) }
    {
        stage.pass(text);
        self.kept.push_str(text)
    }

    /// Ends the machine, and adds its events.
    fn close(&mut self, stage: &mut TextStage, room: &mut Room<TextEvent>) -> Result<(), AllocError>
        requires { room.old ≡ record { items = []; limit = 8 } }
        ensures { OnOk result (built_text_of self.new
            ≡ with_events (built_text_of self.old) (events_of_finish stage.old)) }
    {
        stage.stop(room);
        self.add_all(room.slice())
    }

    /// Returns the reading of a text with the end `how`.
    fn into_read(self, how: TextEnding) -> TextRead
        ensures kept { string_bytes result.kept ≡ string_bytes self.kept }
        ensures view { result.view ≡ self.view }
        ensures findings { result.findings ≡ self.findings }
        ensures how { result.how ≡ how }
    {
        let TextBuilder {
            kept,
            view,
            findings,
            end: _,
        } = self;
        TextRead {
            view,
            kept,
            findings,
            how,
        }
    }
}

/// Returns the end of a text after `index` bytes.
fn ending_of(end: TextEnd, index: usize) -> TextEnding
    ensures { result ≡ ending_of end index }
{
    match end {
        TextEnd::Notes => TextEnding::Notes(index),
        TextEnd::Finished => TextEnding::Finished,
        TextEnd::Cut(place) => TextEnding::Cut(place),
    }
}

/// Returns the text before the first `<`, or all of it.
fn before_tag(text: &str) -> &str
    ensures prefix { chars result.now ≡ before_first 60 (chars text.now) }
    ensures begins { result.now ≡ take (length result.now) text.now }
{
    match memchr(b'<', text.as_bytes()) {
        Some(at) => &text[..at],
        None => text,
    }
}

/// Reads the text of a syllable, up to its `(` or the end of `body` (GregorioRef, "Syllable Text
/// Syntax"). Returns the kept text, the view (whether it begins a word, its pieces with kind,
/// styles and span, its centre and its translation), the findings with their places, and the end.
/// The first character of `body` is at `at`; each number of `at` and the bytes of `body` together
/// have to be below 2^64. If the text is cut, `kept` has all that was kept up to the end. Fails
/// only if memory cannot be allocated.
pub fn text_whole(alloc: Global, body: &str, at: Place) -> Result<TextRead, AllocError>
    requires line { at.line + length body.now < 2 ^ 64 }
    requires column { at.column + length body.now < 2 ^ 64 }
    ensures { IfOk result (λ read. IsTextRead at (chars body.now) read) }
{
    let mut room = Room::with_limit(alloc, 8)?;
    let mut builder = TextBuilder::new(alloc);
    let mut stage = TextStage::new(at);
    let mut rest = body;
    while let Some(c) = rest.chars().next() {
        if c != '<' && stage.is_in_raw() {
            // None of these characters begins the ending of the raw part.
            let raw = before_tag(rest);
            builder.pass(&mut stage, raw)?;
            rest = &rest[raw.len()..];
        } else {
            builder.feed(&mut stage, c, &mut room)?;
            if stage.is_done() {
                let how = ending_of(builder.end, body.len() - rest.len());
                return Ok(builder.into_read(how));
            }
            rest = &rest[c.len_utf8()..];
        }
    }
    builder.close(&mut stage, &mut room)?;
    let how = ending_of(builder.end, body.len());
    Ok(builder.into_read(how))
}
