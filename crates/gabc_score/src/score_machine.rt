//! A machine that makes a score of the events of a stage of headers.

ghost use Rattle.std.specs.Prelude.{◌≡◌, ◌≢◌, ◌<◌, ◌^◌, List, take, None, Some, IfOk, MatchOption};
ghost use Rattle.gabc_headers.specs.declared.head_event.HeadEvent.{HeadEvent as HeadItem};
ghost use Rattle.gabc_score.specs.declared.body_stage.BodyPart.{BodyPart};
ghost use Rattle.gabc_score.specs.witness.BodyStage.{running_events_left};
ghost use Rattle.gabc_places.specs.BoundedList.{Fits};
ghost use Rattle.gabc_body.specs.ScoreEvents.{Stop, characters_in};
ghost use Rattle.gabc_score.specs.ScoreReports.{before_with, held_of, reading_of};
ghost use Rattle.gabc_body.specs.Syllable.{unplaced_of};
ghost use Rattle.gabc_score.specs.witness.ScoreStage.{left_of};
ghost use Rattle.gabc_score.specs.machine.ScoreStage.{begun_score, body_left};
ghost use Rattle.gabc_score.specs.machine.ScoreMachine.{shown, IsInBody, IsBeforeBody, IsScore};
ghost use Rattle.gabc_score.specs.machine.ReadsChar.{EndsInputs, Gathers, ReadsChar, StandsInBody, StopsWith, TakesInput};

use crate::body_stage::{BodyPart, BodyStage};
use crate::emit::{find_first, give_broken, give_end, give_point, give_stop};
use crate::preceding::Preceding;
use crate::score_event::ScoreEvent;
use crate::slot_pair::{SlotPair, SlotUse};
use gabc_body::{Before, Syllable};
use gabc_headers::HeadEvent;
use gabc_places::{Char, Fault, Finding, Limits, Memory, Place, Room};
use std::alloc::AllocError;

/// The part of a score in which a machine is: before the body, in it, or after its last event.
#[derive(Clone, Copy)]
pub(crate) enum ScorePart {
    Heads,
    Body,
    Over,
}

/// Takes the events of a stage of headers, and emits the score.
#[derive(Drop)]
pub(crate) struct ScoreMachine {
    pub(crate) limits: Limits,
    pub(crate) part: ScorePart,
    pub(crate) body: BodyStage,
    pub(crate) pair: SlotPair,
    /// The findings of the current input.
    pub(crate) found: Room<Finding>,
    /// The place of the next character of the body.
    pub(crate) next: Place,
}

impl ScoreMachine {
    /// Returns a machine in the body, whose first character is at `at`, and reserves in `memory`
    /// all the memory that it needs. The canonical headers have `head` bytes, and `body` is a new
    /// stage.
    pub(crate) fn in_body(
        memory: &Memory,
        limits: Limits,
        body: BodyStage,
        at: Place,
        head: usize,
    ) -> Result<ScoreMachine, AllocError>
        requires { body.part ≡ BodyPart.Comment }
        ensures left { IfOk result (λ m. (xs : List HeadItem) → left_of (shown m) xs
            ≡ body_left limits (begun_score limits at head)
            (running_events_left body (characters_in xs)) xs) }
        ensures rests { IfOk result (λ m. IsScore m) }
        ensures head { head < 2 ^ 64 }
    {
        let mut pair = SlotPair::with_limit(memory, limits.syllable as usize)?;
        pair.follow(Preceding::after_headers(head));
        let found = Room::in_memory(memory, 9)?;
        Ok(ScoreMachine {
            limits,
            part: ScorePart::Body,
            body,
            pair,
            found,
            next: at,
        })
    }

    /// Goes back to before the headers, and drops what was gathered. The memory stays reserved.
    pub(crate) fn restart(&mut self)
        requires rests { IsScore self.old }
        ensures rests { IsScore self.new }
        ensures part { self.new.part ≡ ScorePart.Heads }
        ensures limits { self.new.limits ≡ self.old.limits }
    {
        self.part = ScorePart::Heads;
        self.body.restart(0, 0);
        self.pair.restart();
        self.found.clear();
        self.next = Place::START;
    }

    /// Emits the last whole syllable and the fault. No event follows.
    fn stop(&mut self, fault: Fault, out: &mut Room<ScoreEvent>)
        requires used { self.old.pair.used ≢ SlotUse.Lent }
        requires fits { Fits out.old 16 }
        ensures { StopsWith self.old fault self.new out.old out.new }
    {
        give_stop(&mut self.pair, fault, out);
        self.part = ScorePart::Over;
    }

    /// Reads the character `x` of the body, and adds its events to what was gathered, and their
    /// findings to `found`.
    #[inline(always)]
    pub(crate) fn gather(&mut self, x: Char)
        requires { IsInBody self.old }
        ensures gathers { Gathers self.old x self.new.body self.new.pair self.new.found }
        ensures same { self.new ≡ record self.old {
          body = self.new.body;
          pair = self.new.pair;
          found = self.new.found;
        } }
    {
        self.pair.free();
        self.body.take(x);
        self.body.hold(&mut self.pair, &mut self.found);
    }

    /// Reads the character `x` of the body.
    pub(crate) fn read(&mut self, x: Char, out: &mut Room<ScoreEvent>)
        requires stands { StandsInBody self.old }
        requires fits { Fits out.old 16 }
        ensures { ReadsChar self.old x out.old out.new self.new }
    {
        let was = self.pair.sounded();
        self.gather(x);
        find_first(was, self.pair.sounded(), x.place, &mut self.found);
        if self.pair.reads_on() && self.found.slice().is_empty() {
            // Most characters bring nothing to give.
            self.next = x.place.saturating_after(x.c);
            return;
        }
        match self.pair.code(self.limits) {
            Some(code) => self.stop(
                Fault {
                    place: x.place,
                    code,
                },
                out,
            ),
            None => {
                give_point(&mut self.pair, &mut self.found, out);
                self.next = x.place.saturating_after(x.c);
            }
        }
    }

    /// Reads the end of the body.
    #[inline(never)]
    fn end(&mut self, out: &mut Room<ScoreEvent>)
        requires stands { StandsInBody self.old }
        requires fits { Fits out.old 16 }
        ensures { TakesInput self.old HeadEvent.End out.old out.new self.new }
    {
        self.pair.free();
        self.body.close();
        self.body.hold(&mut self.pair, &mut self.found);
        let has_last = self.pair.close_last();
        match self.pair.end_fault(self.limits, self.next) {
            Some(fault) => self.stop(fault, out),
            None => {
                give_end(&mut self.pair, has_last, self.next, self.found.slice(), out);
                self.part = ScorePart::Over;
            }
        }
    }

    /// Reads an input in the body.
    #[inline(always)]
    fn push_in_body(&mut self, input: HeadEvent, out: &mut Room<ScoreEvent>)
        requires stands { StandsInBody self.old }
        requires fits { Fits out.old 16 }
        ensures { TakesInput self.old input out.old out.new self.new }
    {
        match input {
            HeadEvent::Body(x) => self.read(x, out),
            HeadEvent::End => self.end(out),
            HeadEvent::Stop(fault) => {
                self.pair.free();
                self.stop(fault, out);
            }
            HeadEvent::Found(finding) => out.push(ScoreEvent::Found(finding)),
            HeadEvent::Heads { .. } => {}
        }
    }

    /// Reads an input in the headers.
    #[inline(never)]
    fn push_in_heads(&mut self, input: HeadEvent, out: &mut Room<ScoreEvent>)
        requires part { self.old.part ≡ ScorePart.Heads }
        requires rests { IsBeforeBody self.old }
        requires fits { Fits out.old 16 }
        ensures { TakesInput self.old input out.old out.new self.new }
    {
        match input {
            HeadEvent::Found(finding) => out.push(ScoreEvent::Found(finding)),
            HeadEvent::Heads {
                nabc_lines,
                macros,
                canonical,
            } => {
                self.body.restart(nabc_lines, macros);
                self.pair
                    .follow(Preceding::after_headers(canonical as usize));
                self.next = Place::START;
                self.part = ScorePart::Body;
            }
            HeadEvent::Body(_) => {}
            HeadEvent::Stop(fault) => {
                out.push(ScoreEvent::Stop(fault));
                self.part = ScorePart::Over;
            }
            HeadEvent::End => {
                out.push(ScoreEvent::End);
                self.part = ScorePart::Over;
            }
        }
    }

    /// Reads an input.
    #[inline(always)]
    pub(crate) fn push(&mut self, input: HeadEvent, out: &mut Room<ScoreEvent>)
        requires rests { IsScore self.old }
        requires fits { Fits out.old 16 }
        ensures { TakesInput self.old input out.old out.new self.new }
    {
        match self.part {
            ScorePart::Heads => self.push_in_heads(input, out),
            ScorePart::Body => self.push_in_body(input, out),
            ScorePart::Over => {}
        }
    }

    /// Returns the context of the pending syllable, or, if none is pending, of the one that is
    /// read.
    pub(crate) fn before(&self) -> Before
        ensures { result ≡ before_with self.now.body self.now.pair.contexts.before }
    {
        let before = self.pair.before();
        Before {
            nabc_lines: self.body.nabc_lines(),
            macros: self.body.macros(),
            syllables: before.syllables,
            canonical: before.canonical,
            spans: before.spans,
            sounded: before.sounded,
        }
    }

    /// Returns the pending syllable, if there is one.
    pub(crate) fn held(&self) -> Option<&Syllable>
        requires rests { IsScore self.now }
        ensures { MatchOption result (held_of (shown self.now) ≡ None)
            (λ s. held_of (shown self.now) ≡ Some (unplaced_of s.now)) }
    {
        match self.part {
            ScorePart::Body => self.pair.held(),
            ScorePart::Heads | ScorePart::Over => None,
        }
    }

    /// Returns the kept text of the syllable that is read.
    pub(crate) fn reading(&self) -> &str
        ensures { result.now ≡ reading_of (shown self.now) }
    {
        match self.part {
            ScorePart::Body => self.pair.reading(),
            ScorePart::Heads | ScorePart::Over => "",
        }
    }

    /// Breaks off in the body, as the source has failed.
    fn break_off(&mut self, out: &mut Room<ScoreEvent>)
        requires stands { StandsInBody self.old }
        requires fits { Fits out.old 16 }
        ensures { EndsInputs self.old out.old out.new self.new }
    {
        self.pair.free();
        give_broken(&mut self.pair, out);
        self.part = ScorePart::Over;
    }

    /// Ends the inputs. If neither a stop nor the end has come, the source has failed.
    pub(crate) fn finish(&mut self, out: &mut Room<ScoreEvent>)
        requires rests { IsScore self.old }
        requires fits { Fits out.old 16 }
        ensures { EndsInputs self.old out.old out.new self.new }
    {
        match self.part {
            ScorePart::Body => self.break_off(out),
            ScorePart::Heads | ScorePart::Over => self.part = ScorePart::Over,
        }
    }
}
