//! A stage over a score that resumes after syllables which another one has read.

ghost use Rattle.std.specs.Prelude.{◌≡◌, ◌<◌, ◌^◌, ℕ, None, IfOk, [], length, true, false};
ghost use Rattle.std.specs.Str.{chars};
ghost use Rattle.gabc_text.specs.TextStage.{fresh_stage};
ghost use Rattle.gabc_score.specs.Before.{preceding_of};
ghost use Rattle.gabc_score.specs.HeldAgain.{MayBeHeld};
ghost use Rattle.gabc_score.specs.Resumed.{BeginsText, HoldsAgain, IsAfterSyllables};
ghost use Rattle.gabc_score.specs.ScoreReports.{before_of, before_with, held_of};
ghost use Rattle.gabc_body.specs.Syllable.{UnplacedSyllable};
ghost use Rattle.gabc_places.specs.TextOfAnInput.{IsText};
ghost use Rattle.gabc_score.specs.ReportedWithin.{IsAtOutset, ReportsText};
ghost use Rattle.gabc_score.specs.machine.PartCounts.{CountsHold};
ghost use Rattle.gabc_score.specs.machine.PartKeeps.{in_text, PartKeeps};
ghost use Rattle.gabc_body.specs.witness.SyllableBuilder.{nothing_open};
ghost use Rattle.gabc_score.specs.machine.ReadAlone.{BeginsAlone, HoldsAlone};
ghost use Rattle.gabc_score.specs.machine.Resumed.{gathered_resumed};
ghost use Rattle.gabc_score.specs.machine.ScoreMachine.{shown, IsScore};
ghost use Rattle.gabc_score.specs.machine.SlotPair.{is_made, slots_after};

use crate::body_stage::{BodyPart, BodyStage};
use crate::first_sound::FirstSound;
use crate::preceding::Preceding;
use crate::reading_again::SyllableRead;
use crate::score_machine::{ScoreMachine, ScorePart};
use crate::score_stage::ScoreStage;
use crate::slot_pair::SlotPair;
use crate::{kept_laws, machine_laws, stage_laws};
use gabc_body::Before;
use gabc_places::{Limits, Memory, Place, Room};
use gabc_text::TextStage;
use std::alloc::AllocError;

impl SlotPair {
    /// Sets the context of the current syllable to what `before` reports, and drops the pending
    /// one.
    fn resume(&mut self, before: Before)
        requires { is_made self.old.used ≡ false }
        ensures { self.new ≡ record (slots_after (preceding_of before) self.old) {
          gathered = gathered_resumed before self.old.gathered;
        } }
    {
        self.follow(Preceding::of(before));
        self.sounded = if before.sounded {
            Some(FirstSound::Either)
        } else {
            None
        };
    }
}

impl BodyStage {
    /// Begins to read a text, whose first character is at `at`.
    pub(crate) fn begin_text(&mut self, at: Place)
        ensures text { self.new ≡ record self.old { part = BodyPart.Text (fresh_stage at) } }
        ensures counts { CountsHold self.new.part nothing_open }
        ensures keeps { (lines macros : ℕ) → PartKeeps lines macros self.new.part (in_text []) }
    {
        self.part = BodyPart::Text(TextStage::new(at));
    }
}

impl ScoreMachine {
    /// Returns a machine in the body, after the syllables that `before` reports, and reserves in
    /// `memory` all the memory that it needs.
    fn resume(memory: &Memory, limits: Limits, before: Before) -> Result<ScoreMachine, AllocError>
        requires { IsAtOutset (preceding_of before) }
        ensures stands { IfOk result (λ m. IsAfterSyllables limits before (shown m)) }
        ensures rests { IfOk result (λ m. IsScore m) }
    {
        let mut body = BodyStage::new(memory, 0, 0)?;
        body.restart(before.nabc_lines, before.macros);
        body.begin_text(Place::START);
        let mut pair = SlotPair::with_limit(memory, limits.syllable as usize)?;
        pair.resume(before);
        let found = Room::in_memory(memory, 9)?;
        Ok(ScoreMachine {
            limits,
            part: ScorePart::Body,
            body,
            pair,
            found,
            next: Place::START,
        })
    }
}

impl ScoreMachine {
    /// Reads `text` as one syllable, which is pending from then on, and begins to read the next
    /// text. Returns whether `text` is one syllable, with which no limit is passed and in which no
    /// error is found. If not, the reading is over.
    fn hold_again(&mut self, text: &str) -> bool
        requires alone { BeginsAlone self.old }
        requires short { length text.now < 2 ^ 63 }
        ensures rests { IsScore self.new }
        ensures holds { HoldsAlone self.old text.now result self.new }
    {
        stage_laws::a_text_is_read_from_its_beginning();
        kept_laws::a_syllable_is_read_by_kept();
        let SyllableRead::Whole = self.read_text_silently(text, true) else {
            self.part = ScorePart::Over;
            return false;
        };
        machine_laws::at_most_one_is_held(&self.pair);
        self.body.begin_text(Place::START);
        self.next = Place::START;
        true
    }
}

impl ScoreStage {
    /// Returns a stage in the body after the syllables that `before` reports, and reserves all the
    /// memory that it needs, as `in_memory` does. It has no pending syllable, and the next
    /// character is the first of a text, at 1:1 unless `go_to` sets another place. `before` is what
    /// another stage under the same limits reported as the context of its pending syllable: if
    /// there is no syllable before that one, no span is open and no note or clef has come. Fails
    /// only if memory cannot be allocated.
    pub fn resume(memory: &Memory, limits: Limits, before: Before) -> Result<ScoreStage, AllocError>
        requires { IsAtOutset (preceding_of before) }
        ensures { IfOk result (λ stage. IsAfterSyllables limits before stage) }
    {
        Ok(ScoreStage {
            machine: ScoreMachine::resume(memory, limits, before)?,
        })
    }

    /// Reads `text`, less than 2^63 bytes, as one syllable, which is pending from then on, and
    /// begins to read the next text. The stage has to begin a text at 1:1 and to have no pending
    /// syllable. Returns whether `text` is one syllable: whole with its last character and not
    /// before, with which no limit is passed and in which no error is found. The spans that are
    /// open before it count, and the context of the stage is unchanged. If `text` is no syllable,
    /// the stage is over. If it is one of an input, what the stage reports stays that of a text.
    pub fn hold_again(&mut self, text: &str) -> bool
        requires begins { BeginsText self.old }
        requires none { held_of self.old ≡ None }
        requires short { length text.now < 2 ^ 63 }
        ensures held { result ≡ true → HoldsAgain (chars text.now) self.old self.new }
        ensures told { result ≡ true → IsText text.now → ReportsText self.old →
            ReportsText self.new }
        ensures refused { result ≡ false → (m : UnplacedSyllable) →
            MayBeHeld self.old.limits (before_with self.old.body self.old.before)
            (chars text.now) m → ⊥ }
        ensures over { result ≡ false → before_of self.new ≡ None }
        ensures ends { result ≡ false → self.new.part ≡ ScorePart.Over }
    {
        self.machine.hold_again(text)
    }
}
