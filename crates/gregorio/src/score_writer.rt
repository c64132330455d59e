//! The writer of a score, which takes the events of a stage of headers.

ghost use Rattle.std.specs.Prelude.{◌≡◌, ℕ, Bool, List, [], ◌∷◌, take, true, false, None, IfOk, IfSome};
ghost use Rattle.std.specs.List.{All};
ghost use Rattle.std.specs.Str.{chars};
ghost use Rattle.std.specs.String.Boundary.{IsSplitPoint};
ghost use Rattle.gabc_places.specs.Place.{place_past};
ghost use Rattle.gabc_places.specs.TextOfAnInput.{IsPlain};
ghost use Rattle.gabc_headers.specs.declared.head_event.HeadEvent.{HeadEvent as HeadItem};
ghost use Rattle.gabc_score.specs.witness.BodyStage.{texts_by_stage};
ghost use Rattle.gabc_body.specs.ScoreEvents.{ScoreOutput, score_outputs};
ghost use Rattle.gabc_score.specs.ScoreStage.{AreCountsBelow};
ghost use Rattle.gabc_score.specs.witness.ScoreStage.{left_of};
ghost use Rattle.gabc_score.specs.declared.score_machine.ScorePart.{ScorePart};
ghost use Rattle.gregorio.specs.machine.ClefInForce.{HasClefOfSounds};
ghost use Rattle.gregorio.specs.machine.InStep.{HasForce, TakesEvent};
ghost use Rattle.gregorio.specs.machine.InSync.{BeginsBody};
ghost use Rattle.gabc_score.specs.ScoreReports.{IsInFront};
ghost use Rattle.gregorio.specs.machine.RunWriter.{HasRoomFor, IsInRoom, TakesRuns, heads_at, past_output, past_outputs};
ghost use Rattle.gregorio.specs.machine.ScoreWriter.{output_of_event, outputs_of_events, IsOver, IsShortBook, begun_again, emptied, fresh_writer, IsReserved, KeepsJobAndRooms, FitsEvents, WritesLast, WritesRun};

use crate::run_ending::RunEnding;
use crate::run_writer::RunWriter;
use gabc_headers::{HeadEvent, HeaderStage};
use gabc_places::{Char, Fault, Limits, Memory, Place, Room, Stage};
use gabc_score::{Run, ScoreEvent, ScoreStage};
use gregorio_jobs::Job;
use std::alloc::AllocError;
use std::marker::Model;

/// Reads the score after a stage of headers, and writes it.
#[derive(Drop)]
pub(crate) struct ScoreWriter {
    pub(crate) score: ScoreStage,
    events: Room<ScoreEvent>,
    writer: RunWriter,
}

impl Model for ScoreWriter {
    ghost use Rattle.gregorio.specs.machine.ScoreWriter.{IsScoreWriter, ScoreWriterState};

    ghost Value = { ScoreWriterState };

    ghost view = { λ w. record { score = w.score; writer = w.writer } };

    ghost invariant = { λ w. IsScoreWriter w.score w.events w.writer };
}

/// Writes the text of `event` of `score`. A stop or the end ends the run.
#[inline(never)]
fn write_event(writer: &mut RunWriter, score: &ScoreStage, event: &ScoreEvent)
    requires { HasRoomFor score.now.limits writer.old (output_of_event score.now event.now ∷ []) }
    ensures writes { writer.new ≡ past_output writer.old (output_of_event score.now event.now) }
    ensures room { (lines texts : ℕ) (outputs : List ScoreOutput) →
        IsInRoom score.now.limits lines texts writer.old (output_of_event score.now event.now ∷ outputs) →
        IsInRoom score.now.limits lines texts writer.new outputs }
{
    match event {
        ScoreEvent::Found(finding) => writer.found(*finding),
        ScoreEvent::Stop(fault) => writer.fault(*fault),
        ScoreEvent::Syllable(lent) => writer.syllable(score.lent(*lent)),
        ScoreEvent::End => writer.end(),
    }
}

/// Writes the texts of `events` of `score`.
#[inline(always)]
fn write_events(writer: &mut RunWriter, score: &ScoreStage, events: &[ScoreEvent])
    requires { HasRoomFor score.now.limits writer.old (outputs_of_events score.now events.now) }
    ensures writes { writer.new ≡ past_outputs writer.old (outputs_of_events score.now events.now) }
    ensures room { (lines texts : ℕ) →
        IsInRoom score.now.limits lines texts writer.old (outputs_of_events score.now events.now) →
        IsInRoom score.now.limits lines texts writer.new [] }
{
    for event in events {
        write_event(writer, score, event);
    }
}

impl ScoreWriter {
    /// Returns a writer before the headers, and reserves in `memory` all the memory that it needs.
    pub(crate) fn with_limits(
        memory: &Memory,
        job: &Job,
        limits: Limits,
    ) -> Result<ScoreWriter, AllocError>
        ensures fresh { IfOk result (λ writer. writer.writer.written ≡ fresh_writer job.now) }
        ensures limits { IfOk result (λ writer. writer.score.limits ≡ limits) }
        ensures part { IfOk result (λ writer. writer.score.part ≡ ScorePart.Heads) }
        ensures reserved { IfOk result IsReserved }
        ensures empty { IfOk result (λ writer. writer ≡ emptied writer) }
        ensures score { IfOk result (λ writer. (xs : List HeadItem) → AreCountsBelow xs →
            left_of writer.score xs ≡ score_outputs texts_by_stage limits xs) }
    {
        let events = Room::in_memory(memory, 16)?;
        let writer = RunWriter::with_limits(memory, job, limits)?;
        match ScoreStage::in_memory(memory, limits) {
            Ok(score) => Ok(ScoreWriter {
                score,
                events,
                writer,
            }),
            Err(error) => {
                // A proof follows a call faster than all that lies inside a writer.
                drop(writer);
                Err(error)
            }
        }
    }

    /// Begins a new score, as a new writer does. It keeps its job, its limits and its memory.
    pub(crate) fn restart(&mut self)
        ensures fresh { self.new.writer.written ≡ begun_again self.old.writer.written }
        ensures part { self.new.score.part ≡ ScorePart.Heads }
        ensures steady { KeepsJobAndRooms self.old self.new }
        ensures empty { self.new ≡ emptied self.new }
        ensures score { (xs : List HeadItem) → AreCountsBelow xs →
            left_of self.new.score xs ≡ score_outputs texts_by_stage self.old.score.limits xs }
    {
        self.score.restart();
        self.writer.restart();
    }

    /// Returns a writer that resumes with `score` and `writer`, whose run goes on, and reserves the
    /// room of its events in `memory`.
    pub(crate) fn resume(
        memory: &Memory,
        score: ScoreStage,
        writer: RunWriter,
    ) -> Result<ScoreWriter, AllocError>
        requires runs { writer.written.ended ≡ None }
        requires clef { HasClefOfSounds score writer.written }
        ensures { IfOk result (λ w. w ≡ record { score = score; writer = writer }) }
    {
        match Room::in_memory(memory, 16) {
            Ok(events) => Ok(ScoreWriter {
                score,
                events,
                writer,
            }),
            Err(error) => {
                // A proof follows a call faster than all that lies inside them.
                drop(score);
                drop(writer);
                Err(error)
            }
        }
    }

    /// Takes `event` of `heads`, and writes the texts that follow from it: first the headers, if it
    /// says that they are whole.
    pub(crate) fn push(&mut self, event: HeadEvent, heads: &HeaderStage)
        requires room { FitsEvents self.old false (event ∷ []) }
        requires book { IsShortBook self.old.score.limits heads.now.book }
        ensures takes { TakesEvent self.old.score (heads_at self.old.writer event heads.now.book)
            event self.new }
        ensures room { (ends : Bool) (events : List HeadItem) →
            FitsEvents self.old ends (event ∷ events) → FitsEvents self.new ends events }
    {
        if let HeadEvent::Heads { .. } = event {
            self.writer.heads(heads.book());
        }
        self.pass(event);
    }

    /// Passes `event` on to the score, and writes the texts of its events.
    #[inline(always)]
    pub(crate) fn pass(&mut self, event: HeadEvent)
        requires { FitsEvents self.old false (event ∷ []) }
        ensures takes { TakesEvent self.old.score self.old.writer event self.new }
        ensures room { (ends : Bool) (events : List HeadItem) →
            FitsEvents self.old ends (event ∷ events) → FitsEvents self.new ends events }
    {
        gabc_write::laws::where_nothing_sounds_the_clef_stays();
        self.events.clear();
        self.score.push(event, &mut self.events);
        write_events(&mut self.writer, &self.score, self.events.slice());
    }

    /// Begins the body after `item`, the last character of the headers, if the headers are written.
    pub(crate) fn begin_body(&mut self, item: Result<Char, Fault>)
        requires front { self.old.writer.written.headed ≡ true → IsInFront self.old.score }
        ensures { BeginsBody item self.old self.new }
    {
        let Ok(x) = item else {
            return;
        };
        if !self.headed() {
            return;
        }
        gabc_score::stage_laws::a_body_may_begin_anywhere(&self.score);
        self.score.go_to(x.place.saturating_after(x.c));
    }

    /// Takes whole syllables from the front of `text`, of which the first character is at `at`, and
    /// returns how far it went. At their characters it writes syllables and nothing else. From then
    /// on it writes what it would write had each of the characters been passed on. It may stop
    /// early, and `pass` takes the rest.
    #[inline(always)]
    pub(crate) fn take_run(&mut self, at: Place, text: &str) -> Run
        requires { TakesRuns self.old.writer.written }
        ensures within { IsSplitPoint text.now result.bytes }
        ensures plain { All IsPlain (chars (take result.bytes text.now)) }
        ensures next { result.next ≡ place_past at (chars (take result.bytes text.now)) }
        ensures writes { WritesRun self.old at (chars (take result.bytes text.now)) self.new }
        ensures steady { KeepsJobAndRooms self.old self.new }
    {
        gabc_write::laws::where_nothing_sounds_the_clef_stays();
        self.score.take_run(at, text, &mut self.writer)
    }

    /// Ends the inputs, and returns the ending of the run. If neither a stop nor the end has come,
    /// the source has failed.
    pub(crate) fn finish(&mut self) -> RunEnding
        requires room { FitsEvents self.old true [] }
        ensures writes { WritesLast self.old self.new result }
        ensures steady { KeepsJobAndRooms self.old self.new }
        ensures over { IsOver self.new.writer.written self.new.score result }
        ensures force { HasForce self.old.writer.written → HasForce self.new.writer.written }
    {
        self.events.clear();
        self.score.finish(&mut self.events);
        write_events(&mut self.writer, &self.score, self.events.slice());
        self.writer.cease()
    }

    /// Returns the stage over the score.
    pub(crate) fn score(&self) -> &ScoreStage
        ensures { result.now ≡ self.now.score }
    {
        &self.score
    }

    /// Returns the writer of the run.
    pub(crate) fn run_writer(&self) -> &RunWriter
        ensures writer { result.now ≡ self.now.writer }
        ensures clef { HasClefOfSounds self.now.score self.now.writer.written }
    {
        &self.writer
    }

    /// Returns whether the headers were written.
    pub(crate) fn headed(&self) -> bool
        ensures { result ≡ self.now.writer.written.headed }
    {
        self.writer.headed()
    }

    /// Returns the ending of the run, if it is over.
    pub(crate) fn ended(&self) -> Option<RunEnding>
        ensures ended { result ≡ self.now.writer.written.ended }
        ensures over { IfSome result (λ how.
            IsOver self.now.writer.written self.now.score how) }
    {
        self.writer.ended()
    }

    /// Returns the bytes of the output that wait.
    pub(crate) fn out(&self) -> &[u8]
        ensures { result.now ≡ self.now.writer.out.items }
    {
        self.writer.out()
    }

    /// Returns the bytes of the messages that wait.
    pub(crate) fn messages(&self) -> &[u8]
        ensures { result.now ≡ self.now.writer.messages.items }
    {
        self.writer.messages()
    }

    /// Drops the bytes that wait.
    pub(crate) fn clear(&mut self)
        ensures { self.new ≡ emptied self.old }
    {
        self.writer.clear();
    }
}
