//! A machine over the texts and notes of a body, one part after the other.

ghost use Rattle.std.specs.Prelude.{◌≡◌, ◌≢◌, ℕ, List, [], length, ◌≤◌, IfOk, true, false};
ghost use Rattle.gabc_places.specs.declared.place.Char.{Char};
ghost use Rattle.gabc_places.specs.declared.place.Place.{Place};
ghost use Rattle.gabc_places.specs.BoundedList.{Fits, extended_by};
ghost use Rattle.gabc_places.specs.Place.{placed_characters_from};
ghost use Rattle.gabc_text.specs.Events.{CountsFit};
ghost use Rattle.gabc_text.specs.TextStage.{fresh_stage};
ghost use Rattle.gabc_body.specs.Events.{InComment, events_from, body_events, after_mark, next_line as line_after};
ghost use Rattle.gabc_body.specs.witness.Gatherer.{Gathered};
ghost use Rattle.gabc_score.specs.machine.HoldsEvents.{CanHold, HoldsEvents};
ghost use Rattle.gabc_score.specs.machine.PartCounts.{CountsHold};
ghost use Rattle.gabc_score.specs.machine.PartPushes.{ClosesLast, EmitsLast};
ghost use Rattle.gabc_score.specs.machine.PartSteps.{Begins, TakesChar};
ghost use Rattle.gabc_score.specs.machine.Slot.{FitEach};
ghost use Rattle.gabc_score.specs.witness.BodyStage.{events_left, running_events_left, texts_by_stage};

use crate::part_ends::{ends_at_close, ends_at_next, ends_text};
use crate::part_events::{emit_notes, emit_text, hold_notes, hold_text};
use crate::part_pushes::{finish_part, push_gabc, push_nabc, push_text};
use crate::slot_pair::SlotPair;
use gabc_body::BodyEvent;
use gabc_nabc::NabcStage;
use gabc_notes::{NoteEvent, NoteStage};
use gabc_places::{Char, Finding, Memory, Place, Room, Stage};
use gabc_text::{TextEnd, TextEvent, TextStage};
use std::alloc::AllocError;
use std::marker::Model;

/// The part of a body in which the next character is. The notes have the place of their `(`.
#[derive(Drop)]
pub(crate) enum BodyPart {
    /// The comment after the `%%`, up to the first LF.
    Comment,
    Text(TextStage),
    Notes {
        opened: Place,
        stage: NoteStage,
    },
    /// A snippet of NABC, of that line from 1.
    Nabc {
        line: u8,
        opened: Place,
        stage: NabcStage,
    },
}

/// The part that emitted the events of the last point, which are in its room.
#[derive(Clone, Copy)]
pub(crate) enum Emitter {
    Nothing,
    Text,
    /// A snippet of `line`, whose `(` is at `opened`.
    Notes { line: u8, opened: Place },
}

/// Reads the body of a score a character at a time, and emits the events of its texts and notes.
/// Once made, it does not allocate.
#[derive(Drop)]
pub struct BodyStage {
    pub(crate) nabc_lines: u8,
    pub(crate) macros: u16,
    pub(crate) part: BodyPart,
    /// Whether the input has ended.
    ended: bool,
    emitter: Emitter,
    texts: Room<TextEvent>,
    notes: Room<NoteEvent>,
}

impl Model for BodyStage {
    ghost use Rattle.std.specs.Prelude.{◌≤◌};
    ghost use Rattle.gabc_score.specs.witness.BodyStage.{BodyStageState, events_in_rooms};

    ghost Value = { BodyStageState };

    ghost view = { λ b. record {
      nabc_lines = b.nabc_lines;
      macros = b.macros;
      part = b.part;
      ended = b.ended;
      events = events_in_rooms b.emitter b.texts.items b.notes.items;
    } };

    ghost invariant = { λ b. (8 ≤ b.texts.limit) × (3 ≤ b.notes.limit) };
}

/// Returns the line after `line`: after the last of `lines` NABC lines comes GABC, 0.
pub(crate) fn next_line(lines: u8, line: u8) -> u8
    ensures { result ≡ line_after lines line }
{
    if line < lines { line + 1 } else { 0 }
}

/// Returns the text after the `)` at `mark`.
fn text_after(mark: Place) -> BodyPart
    ensures { result ≡ BodyPart.Text (fresh_stage (after_mark mark)) }
{
    BodyPart::Text(TextStage::new(mark.saturating_after(')')))
}

impl BodyStage {
    /// Returns a stage before the first character of a body, after the `%%` of the headers.
    /// `nabc_lines` is the number of NABC lines under each GABC snippet, and the bit `d` of
    /// `macros` says that the macro of the digit `d` is defined. It emits what the definition says
    /// of each body in which no count reaches its last value: the events of its texts, notes and
    /// NABC, one part after the other, each read from its own beginning. A call emits at most 8
    /// events. Its rooms lie in `memory`; once made, it does not allocate.
    pub fn new(memory: &Memory, nabc_lines: u8, macros: u16) -> Result<BodyStage, AllocError>
        ensures run { IfOk result (λ stage. (xs : List Char) →
            events_left stage xs ≡ events_from texts_by_stage nabc_lines macros InComment xs) }
        ensures open { IfOk result (λ stage. stage.ended ≡ false) }
        ensures part { IfOk result (λ stage. stage.part ≡ BodyPart.Comment) }
        ensures facts { IfOk result (λ stage. (at : Place) (t : List ℕ) → CountsFit at t →
            events_left stage (placed_characters_from at t)
            ≡ body_events nabc_lines macros (placed_characters_from at t)) }
    {
        // Its clause says when the machine over a text emits what the definition says.
        gabc_text::laws::a_fresh_stage_emits_the_events_by_point();
        let texts = Room::in_memory(memory, 8)?;
        let notes = Room::in_memory(memory, 3)?;
        Ok(BodyStage {
            nabc_lines,
            macros,
            part: BodyPart::Comment,
            ended: false,
            emitter: Emitter::Nothing,
            texts,
            notes,
        })
    }

    /// Begins a body, as a new stage does.
    pub(crate) fn restart(&mut self, nabc_lines: u8, macros: u16)
        ensures { self.new ≡ record {
          nabc_lines = nabc_lines;
          macros = macros;
          part = BodyPart.Comment;
          ended = false;
          events = [];
        } }
    {
        self.nabc_lines = nabc_lines;
        self.macros = macros;
        self.part = BodyPart::Comment;
        self.ended = false;
        self.emitter = Emitter::Nothing;
    }

    /// Returns the snippet of `line` (0 for GABC, from 1 for NABC), whose `(` is at `opened`.
    fn snippet(&self, line: u8, opened: Place) -> BodyPart
        ensures { Begins self.now.nabc_lines self.now.macros line opened result }
    {
        gabc_notes::laws::what_is_emitted_is_computed();
        gabc_nabc::laws::what_is_emitted_is_computed();
        if line == 0 {
            BodyPart::Notes {
                opened,
                stage: NoteStage::new(0 < self.nabc_lines, self.macros),
            }
        } else {
            BodyPart::Nabc {
                line,
                opened,
                stage: NabcStage::new(),
            }
        }
    }

    /// Returns the snippet after one of `line` that ended at a `|`; the `(` of both is at `opened`.
    fn next_snippet(&self, line: u8, opened: Place) -> BodyPart
        ensures { Begins self.now.nabc_lines self.now.macros
            (line_after self.now.nabc_lines line) opened result }
    {
        self.snippet(next_line(self.nabc_lines, line), opened)
    }

    /// Pushes the character `x` to its part, which is not the comment after the `%%`.
    fn push_part(&mut self, x: Char)
        requires { self.old.part ≢ BodyPart.Comment }
        ensures steps { TakesChar self.old.nabc_lines self.old.macros x
            self.old.part self.new.events self.new.part }
        ensures same { self.new
            ≡ record self.old { part = self.new.part; events = self.new.events } }
    {
        match &mut self.part {
            BodyPart::Comment => self.emitter = Emitter::Nothing,
            BodyPart::Text(stage) => {
                push_text(stage, x, &mut self.texts);
                let ended = ends_text(self.texts.slice());
                self.emitter = Emitter::Text;
                if ended {
                    self.part = self.snippet(0, x.place);
                }
            }
            BodyPart::Notes { opened, stage } => {
                let opened = *opened;
                push_gabc(stage, x, &mut self.notes);
                let next = ends_at_next(self.notes.slice());
                let close = ends_at_close(self.notes.slice());
                self.emitter = Emitter::Notes { line: 0, opened };
                if next {
                    self.part = self.next_snippet(0, opened);
                } else if close {
                    self.part = text_after(x.place);
                }
            }
            BodyPart::Nabc {
                line,
                opened,
                stage,
            } => {
                let (line, opened) = (*line, *opened);
                push_nabc(stage, x, &mut self.notes);
                let next = ends_at_next(self.notes.slice());
                let close = ends_at_close(self.notes.slice());
                self.emitter = Emitter::Notes { line, opened };
                if next {
                    self.part = self.next_snippet(line, opened);
                } else if close {
                    self.part = text_after(x.place);
                }
            }
        }
    }

    /// Takes the character `x`. Its events are in the part's room until the next call.
    pub(crate) fn take(&mut self, x: Char)
        ensures steps { TakesChar self.old.nabc_lines self.old.macros x
            self.old.part self.new.events self.new.part }
        ensures same { self.new
            ≡ record self.old { part = self.new.part; events = self.new.events } }
    {
        if let BodyPart::Comment = self.part {
            if x.c != '\n' {
                self.emitter = Emitter::Nothing;
                return;
            }
            self.part = BodyPart::Text(TextStage::new(x.place));
        }
        self.push_part(x);
    }

    /// Ends the input. Its events are in the part's room.
    pub(crate) fn close(&mut self)
        ensures events { EmitsLast (running_events_left self.old) 8 self.new.events }
        ensures once { ClosesLast self.new.events }
        ensures fit { (g : Gathered) → CountsHold self.old.part g.builder →
            length g.builder.kept ≤ g.limit → FitEach g self.new.events }
        ensures over { self.new.ended ≡ true }
    {
        self.ended = true;
        match &mut self.part {
            BodyPart::Comment => {
                self.texts.clear();
                self.texts.push(TextEvent::Ended(TextEnd::Finished));
                self.emitter = Emitter::Text;
            }
            BodyPart::Text(stage) => {
                finish_part(stage, &mut self.texts);
                self.emitter = Emitter::Text;
            }
            BodyPart::Notes { opened, stage } => {
                let opened = *opened;
                finish_part(stage, &mut self.notes);
                self.emitter = Emitter::Notes { line: 0, opened };
            }
            BodyPart::Nabc {
                line,
                opened,
                stage,
            } => {
                let (line, opened) = (*line, *opened);
                finish_part(stage, &mut self.notes);
                self.emitter = Emitter::Notes { line, opened };
            }
        }
    }

    /// Adds the events of the last point to `out`.
    fn emit(&self, out: &mut Room<BodyEvent>)
        requires { Fits out.old (length self.now.events) }
        ensures { out.new ≡ extended_by out.old self.now.events }
    {
        match self.emitter {
            Emitter::Nothing => {}
            Emitter::Text => emit_text(self.texts.slice(), out),
            Emitter::Notes { line, opened } => emit_notes(line, opened, self.notes.slice(), out),
        }
    }

    /// Adds the events of the last point to what was gathered, and their findings to `found`.
    #[inline(always)]
    pub(crate) fn hold(&self, pair: &mut SlotPair, found: &mut Room<Finding>)
        requires { CanHold self.now.events pair.old found.old }
        ensures { HoldsEvents self.now.events pair.old found.old pair.new found.new }
    {
        match self.emitter {
            Emitter::Nothing => {}
            Emitter::Text => hold_text(self.texts.slice(), pair, found),
            Emitter::Notes { line, opened } => {
                hold_notes(line, opened, self.notes.slice(), pair, found)
            }
        }
    }
}

impl Stage for BodyStage {
    type Input = Char;

    type Output = BodyEvent;

    ghost rest = { events_left };

    ghost most_of = { λ _. 8 };

    ghost is_end = { λ _. false };

    fn most(&self) -> usize {
        8
    }

    fn push(&mut self, x: Char, out: &mut Room<BodyEvent>) {
        if self.ended {
            return;
        }
        self.take(x);
        self.emit(out);
    }

    #[tactic(auto, using(gabc_places::proofs::PushesAreOne::joined_silence))]
    fn finish(&mut self, out: &mut Room<BodyEvent>) {
        if self.ended {
            return;
        }
        self.close();
        self.emit(out);
    }
}
