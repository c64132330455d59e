//! Laws of a machine over a score and of its slots. Each function's contract is a law, and its body
//! calls other laws or does nothing.

ghost use Rattle.std.specs.Prelude.{◌≡◌, ◌+◌, ◌≤◌, List, [], length, true, false, is_some, option_to_list};
ghost use Rattle.gabc_headers.specs.declared.head_event.HeadEvent.{HeadEvent};
ghost use Rattle.gabc_places.specs.declared.place.Place.{Place};
ghost use Rattle.gabc_places.specs.StageLaw.{concat_of};
ghost use Rattle.gabc_body.specs.ScoreEvents.{syllables_in};
ghost use Rattle.gabc_score.specs.ScoreReports.{before_of, held_of, moved_to, IsInFront};
ghost use Rattle.gabc_score.specs.ReportedWithin.{whole_syllables};
ghost use Rattle.gabc_score.specs.witness.IsReachable.{IsReachable};
ghost use Rattle.gabc_score.specs.witness.ReadAgain.{CanBeReadAgain};
ghost use Rattle.gabc_score.specs.witness.ScoreStage.{left_of};
ghost use Rattle.gabc_score.specs.machine.ReadsChar.{StandsInBody};
ghost use Rattle.gabc_score.specs.machine.ScoreMachine.{shown, IsScore};
ghost use Rattle.gabc_score.specs.machine.SlotPair.{is_made};

use crate::score_machine::{ScoreMachine, ScorePart};
use crate::slot_pair::SlotPair;

/// Law: if no slot has a syllable beside the pending one, at most one was gathered.
#[inline(always)]
pub(crate) fn at_most_one_is_held(pair: &SlotPair)
    requires { is_made pair.now.used ≡ false }
    ensures { length pair.now.gathered.made ≤ 1 }
{
    let _ = &pair.held;
}

/// Law: when the inputs cease, at most one syllable is given.
#[inline(always)]
pub(crate) fn at_most_one_is_given(machine: &ScoreMachine)
    requires { IsScore machine.now }
    ensures { length (syllables_in (concat_of (left_of (shown machine.now) []))) ≤ 1 }
{
    match machine.part {
        ScorePart::Body => at_most_one_is_held(&machine.pair),
        ScorePart::Heads | ScorePart::Over => {}
    }
}

/// Law: a machine between two calls is in a state that a stage may reach.
pub(crate) fn a_stage_may_stand_so(machine: &ScoreMachine)
    requires { IsScore machine.now }
    ensures { IsReachable (shown machine.now) }
{
    match machine.part {
        ScorePart::Body => at_most_one_is_held(&machine.pair),
        ScorePart::Heads | ScorePart::Over => {}
    }
}

/// Law: in the body the whole syllables are those that were given, and the pending one.
pub(crate) fn whole_ones_are_given_or_held(machine: &ScoreMachine)
    requires { StandsInBody machine.now }
    ensures { whole_syllables (shown machine.now) ≡ machine.now.pair.contexts.before.syllables
        + length (option_to_list (held_of (shown machine.now))) }
{
    at_most_one_is_held(&machine.pair);
}

/// Law: in front of the first text a machine emits the same, whatever the place of the next
/// character.
pub(crate) fn a_body_begins_anywhere(machine: &ScoreMachine)
    requires rests { IsScore machine.now }
    requires front { IsInFront (shown machine.now) }
    ensures { (place : Place) (xs : List HeadEvent) →
        left_of (moved_to place (shown machine.now)) xs ≡ left_of (shown machine.now) xs }
{}

/// Law: in the body the kept text of the syllable that is read can be read again.
pub(crate) fn what_is_read_can_be_read(machine: &ScoreMachine)
    requires { IsScore machine.now }
    ensures { is_some (before_of (shown machine.now)) ≡ true →
        CanBeReadAgain (shown machine.now) }
{}
