//! A stage that makes a score of the events of a stage of headers.

ghost use Rattle.std.specs.Prelude.{◌≡◌, List, [], take, None, Some, IfOk, MatchOption};
ghost use Rattle.gabc_headers.specs.declared.head_event.HeadEvent.{HeadEvent};
ghost use Rattle.gabc_score.specs.witness.BodyStage.{texts_by_stage};
ghost use Rattle.gabc_body.specs.ScoreEvents.{score_outputs};
ghost use Rattle.std.specs.List.{All};
ghost use Rattle.std.specs.Str.{chars};
ghost use Rattle.std.specs.String.Boundary.{IsSplitPoint};
ghost use Rattle.gabc_places.specs.Place.{place_past};
ghost use Rattle.gabc_places.specs.TextOfAnInput.{IsPlain};
ghost use Rattle.gabc_body.specs.Canonical.{StandsFrom};
ghost use Rattle.gabc_score.specs.GivesSyllables.{Runs};
ghost use Rattle.gabc_score.specs.ScoreStage.{AreCountsBelow, borrowed_in};
ghost use Rattle.gabc_score.specs.witness.ScoreStage.{left_of};
ghost use Rattle.gabc_score.specs.ScoreReports.{before_of, held_of, in_body, is_in_comment, moved_to, next_of, openers_of, reading_of};
ghost use Rattle.gabc_body.specs.Syllable.{placed_of, unplaced_of};

use crate::body_stage::BodyStage;
use crate::body_tells::Openers;
use crate::give::{Give, Run};
use crate::score_event::{BorrowedSyllable, ScoreEvent};
use crate::score_machine::{ScoreMachine, ScorePart};
use crate::slot_pair::SlotPair;
use gabc_body::{Before, LentSyllable, Syllable};
use gabc_headers::HeadEvent;
use gabc_places::{Limits, Memory, Place, Room, Stage};
use std::alloc::{AllocError, Global};
use std::marker::Model;

/// Takes the events of a stage of headers, and emits the score: the findings, each whole syllable
/// with its position, and the fault that stops the reading (GregorioRef, "Syllable Text Syntax"). A
/// call emits at most 16 events. Once made, it does not allocate.
#[derive(Drop)]
pub struct ScoreStage {
    pub(crate) machine: ScoreMachine,
}

impl Model for ScoreStage {
    ghost use Rattle.gabc_score.specs.witness.ScoreStage.{ScoreStageState};
    ghost use Rattle.gabc_score.specs.machine.ScoreMachine.{shown, IsScore};

    ghost Value = { ScoreStageState };

    ghost view = { λ s. shown s.machine };

    ghost invariant = { λ s. IsScore s.machine };
}

impl ScoreStage {
    /// Returns a stage before the first event of the headers, and reserves all the memory that it
    /// needs, for two syllables of `limits.syllable` bytes. It emits what the definition says of
    /// all events of which no count reaches its last value. A call emits at most 16 events, of
    /// which at most two are syllables, at a character or a stop at most one; those after the first
    /// have no notes, but one empty snippet. Their kept texts are within the limits, and so are
    /// their canonical texts, but for the LF before them. A finding of the headers is passed on by
    /// itself, until a stop or the end has come. After an LF of the body no comment is open. Fails
    /// only if memory cannot be allocated.
    pub fn with_limits(alloc: Global, limits: Limits) -> Result<ScoreStage, AllocError>
        ensures outputs { IfOk result (λ stage. (xs : List HeadEvent) → AreCountsBelow xs →
            left_of stage xs ≡ score_outputs texts_by_stage limits xs) }
        ensures limits { IfOk result (λ stage. stage.limits ≡ limits) }
        ensures part { IfOk result (λ stage. stage.part ≡ ScorePart.Heads) }
    {
        ScoreStage::in_memory(&Memory::with_capacity(alloc, 0)?, limits)
    }

    /// Returns a stage as `with_limits` does, most of whose memory is reserved in `memory`.
    pub fn in_memory(memory: &Memory, limits: Limits) -> Result<ScoreStage, AllocError>
        ensures outputs { IfOk result (λ stage. (xs : List HeadEvent) → AreCountsBelow xs →
            left_of stage xs ≡ score_outputs texts_by_stage limits xs) }
        ensures limits { IfOk result (λ stage. stage.limits ≡ limits) }
        ensures part { IfOk result (λ stage. stage.part ≡ ScorePart.Heads) }
    {
        let body = BodyStage::new(memory, 0, 0)?;
        let pair = SlotPair::with_limit(memory, limits.syllable as usize)?;
        let found = Room::in_memory(memory, 9)?;
        Ok(ScoreStage {
            machine: ScoreMachine {
                limits,
                part: ScorePart::Heads,
                body,
                pair,
                found,
                next: Place::START,
            },
        })
    }

    /// Begins a new score, as a new stage does, whatever the stage has read. Syllables borrowed
    /// from it are taken back. It keeps its limits and its memory, and does not allocate.
    pub fn restart(&mut self)
        ensures outputs { (xs : List HeadEvent) → AreCountsBelow xs →
            left_of self.new xs ≡ score_outputs texts_by_stage self.old.limits xs }
        ensures limits { self.new.limits ≡ self.old.limits }
        ensures part { self.new.part ≡ ScorePart.Heads }
    {
        self.machine.restart();
    }

    /// Takes whole syllables from the front of `text`, of which the first character is at `at`, and
    /// returns how far it went. At their characters it passes syllables and nothing else to `out`.
    /// From then on it emits what it would emit had each of the characters been pushed. It may stop
    /// early, and `push` takes the rest.
    pub fn take_run<G: Give>(&mut self, at: Place, text: &str, out: &mut G) -> Run
        ensures within { IsSplitPoint text.now result.bytes }
        ensures plain { All IsPlain (chars (take result.bytes text.now)) }
        ensures next { result.next ≡ place_past at (chars (take result.bytes text.now)) }
        ensures runs { Runs G.given self.old at (chars (take result.bytes text.now)) self.new
            out.old out.new }
    {
        self.machine.take_run(at, text, out)
    }

    /// Returns its limits.
    pub fn limits(&self) -> Limits
        ensures { result ≡ self.now.limits }
    {
        self.machine.limits
    }

    /// Returns the context of the pending syllable, or, if none is pending, of the one that is
    /// read: the number of NABC lines and the macros, of the headers; and of the syllables before
    /// it their number, the bytes of the canonical headers and of their canonical texts, the spans
    /// that are open after them, and whether one of them has a note or a clef in GABC. Before the
    /// headers are whole, and after the last event, it returns `None`.
    pub fn before(&self) -> Option<Before>
        ensures { result ≡ before_of self.now }
    {
        match self.machine.part {
            ScorePart::Body => Some(self.machine.before()),
            ScorePart::Heads | ScorePart::Over => None,
        }
    }

    /// Returns the pending syllable, if there is one: it is whole, and is emitted when the next one
    /// is whole, or at the last event. Outside the body it returns `None`. The position of the
    /// syllable is not known yet, and the one that it has counts for nothing.
    pub fn held(&self) -> Option<&Syllable>
        ensures { MatchOption result (held_of self.now ≡ None)
            (λ s. held_of self.now ≡ Some (unplaced_of s.now)) }
    {
        self.machine.held()
    }

    /// Returns the kept text of the syllable that is read. Outside the body it returns an empty
    /// text.
    pub fn reading(&self) -> &str
        ensures { result.now ≡ reading_of self.now }
    {
        self.machine.reading()
    }

    /// Returns the places of the open brackets: of the `(` of notes, and of a `<` or `[` inside.
    /// Outside the body it returns `None`.
    pub fn openers(&self) -> Option<Openers>
        ensures { result ≡ in_body self.now.part (openers_of self.now.body.part) }
    {
        match self.machine.part {
            ScorePart::Body => Some(self.machine.body.openers()),
            ScorePart::Heads | ScorePart::Over => None,
        }
    }

    /// Returns whether a comment is open. Outside the body it returns `None`.
    pub fn in_comment(&self) -> Option<bool>
        ensures { result ≡ in_body self.now.part (is_in_comment self.now.body.part) }
    {
        match self.machine.part {
            ScorePart::Body => Some(self.machine.body.in_comment()),
            ScorePart::Heads | ScorePart::Over => None,
        }
    }

    /// Returns the place of the next character: after the last one that was pushed, or as `go_to`
    /// set it. A text that is read has counted this place as long as each character is where the
    /// one before it ends. Outside the body it returns `None`.
    pub fn next(&self) -> Option<Place>
        ensures { result ≡ next_of self.now }
    {
        match self.machine.part {
            ScorePart::Body => Some(self.machine.next),
            ScorePart::Heads | ScorePart::Over => None,
        }
    }

    /// Sets the place of the next character to `at`. What is open keeps the place where it began.
    pub fn go_to(&mut self, at: Place)
        ensures { self.new ≡ moved_to at self.old }
    {
        self.machine.go_to(at);
    }

    /// Returns the syllable that the last call emitted as `lent`. If it emitted none, the result is
    /// not specified.
    pub fn syllable(&self, lent: BorrowedSyllable) -> &Syllable
        ensures { placed_of result.now ≡ borrowed_in lent self.now }
    {
        self.lent(lent).syllable
    }

    /// Returns the syllable that `syllable` returns, with the byte of its kept text at which its
    /// canonical text begins, if it is known: the stage has looked for it at the `)`.
    pub fn lent(&self, lent: BorrowedSyllable) -> LentSyllable<'_>
        ensures placed { placed_of result.syllable.now ≡ borrowed_in lent self.now }
        ensures stands { StandsFrom result.kept_from (unplaced_of result.syllable.now) }
    {
        match lent {
            BorrowedSyllable::First => self.machine.pair.first(),
            BorrowedSyllable::Second => self.machine.pair.second(),
        }
    }
}

impl Stage for ScoreStage {
    type Input = HeadEvent;

    type Output = ScoreEvent;

    ghost use Rattle.gabc_places.specs.BoundedList.{Fits};
    ghost use Rattle.gabc_places.specs.StageLaw.{Pushes, Finishes, EmitsNothing, StopsAtEnd};
    ghost use Rattle.gabc_score.specs.ScoreStage.{GivesAt, GivesLast, events_left, is_last_event};

    ghost rest = { events_left };

    ghost most_of = { λ _. 16 };

    ghost is_end = { is_last_event };

    fn most(&self) -> usize {
        16
    }

    #[inline(always)]
    fn push(&mut self, input: HeadEvent, out: &mut Room<ScoreEvent>)
        requires { Fits out.old 16 }
        ensures events { Pushes (events_left self.old) (events_left self.new)
            input 16 out.old out.new }
        ensures end { StopsAtEnd is_last_event (events_left self.new) out.old out.new }
        ensures step { GivesAt self.old input self.new out.old out.new }
    {
        self.machine.push(input, out);
    }

    fn finish(&mut self, out: &mut Room<ScoreEvent>)
        requires { Fits out.old 16 }
        ensures ends { Finishes (events_left self.old) 16 out.old out.new }
        ensures end { StopsAtEnd is_last_event (events_left self.new) out.old out.new }
        ensures over { EmitsNothing (events_left self.new) }
        ensures step { GivesLast self.old self.new out.old out.new }
    {
        self.machine.finish(out);
    }
}
