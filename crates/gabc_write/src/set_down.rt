//! The law on which saved states rest: a stage over a score is restored from its reports. The
//! function's contract is the law, and its body makes the calls.

ghost use Rattle.std.specs.Prelude.{◌≡◌, false, true, is_some, IfSome};
ghost use Rattle.gabc_score.specs.Resumed.{IsAfterSyllables};
ghost use Rattle.gabc_score.specs.ScoreReports.{IsAt, before_of, before_with, held_of, is_in_front};
ghost use Rattle.gabc_score.specs.ReportedWithin.{written_after};
ghost use Rattle.gabc_write.specs.SetDown.{GoesOnEquivalently};
ghost use Rattle.gabc_write.specs.machine.SetDown.{BeginsAlike, HasHeldText, TellsAlike};

use crate::laws;
use gabc_score::ScoreStage;

/// Reads in `stage` the canonical text `held` of the pending syllable of `told`, if there is one:
/// the syllable is pending in `stage` then. Returns whether this text is a syllable.
fn hold_reported(stage: &mut ScoreStage, told: &ScoreStage, held: &str) -> bool
    requires text { HasHeldText told.now held.now }
    requires stands { IsAfterSyllables told.now.limits (before_with told.now.body told.now.before)
        stage.old }
    ensures holds { result ≡ true }
    ensures begins { BeginsAlike told.now stage.new }
{
    let Some(_) = told.held() else {
        return true;
    };
    laws::what_is_held_may_be_held_by_its_text(told);
    gabc_score::stage_laws::a_stage_is_reachable(told);
    laws::what_is_held_is_read_from_its_own_text();
    gabc_score::kept_laws::a_syllable_is_read_by_kept();
    gabc_score::stage_laws::what_is_held_holds_a_unit();
    gabc_score::stage_laws::spans_of_what_is_held_follow();
    gabc_score::unit_laws::snippets_of_a_unit_stand_between_characters();
    stage.hold_again(held)
}

/// Reads in `stage` the kept text that `told` reports of the syllable that is not whole. Returns
/// whether it is a part of a syllable.
fn read_reported(stage: &mut ScoreStage, told: &ScoreStage) -> bool
    requires runs { is_some (before_of told.now) ≡ true }
    requires front { is_in_front told.now.body.part ≡ false }
    requires begins { BeginsAlike told.now stage.old }
    ensures reads { result ≡ true }
    ensures tells { TellsAlike told.now stage.new }
{
    gabc_score::stage_laws::what_is_read_can_be_read_again(told);
    let Some(openers) = told.openers() else {
        return false;
    };
    let Some(in_comment) = told.in_comment() else {
        return false;
    };
    let Some(next) = told.next() else {
        return false;
    };
    stage.read_again(told.reading(), openers, in_comment, next)
}

/// Restores in `stage`, from what `told` reports in the body, not in front of the first text, a
/// stage that emits the same of whatever follows. `stage` is made by `ScoreStage::resume`, under
/// the same limits, of the context that `told` reports. The pending syllable of the restored stage
/// is that of which `held` is the canonical text there, if `told` has one; and the stage reads the
/// kept text of the next one. Only the pending syllable is as it is read from this text: it says
/// the same, and as the first of the score it begins a word. The place of the next character has to
/// be the one that a text that is read has counted. Returns `true`.
pub fn a_stage_is_restored(told: &ScoreStage, stage: &mut ScoreStage, held: &str) -> bool
    requires runs { is_some (before_of told.now) ≡ true }
    requires front { is_in_front told.now.body.part ≡ false }
    requires next { IsAt told.now.held.next told.now.body.part }
    requires text { IfSome (held_of told.now) (λ m. held.now ≡ written_after told.now.before m) }
    requires stands { IsAfterSyllables told.now.limits (before_with told.now.body told.now.before)
        stage.old }
    ensures is { result ≡ true }
    ensures alike { GoesOnEquivalently told.now stage.new }
{
    gabc_score::stage_laws::a_stage_is_reachable(told);
    gabc_score::stage_laws::what_is_reported_is_within_the_limits();
    if !hold_reported(stage, told, held) {
        return false;
    }
    if !read_reported(stage, told) {
        return false;
    }
    gabc_score::stage_laws::a_stage_is_reachable(stage);
    gabc_score::stage_laws::stages_that_report_the_same_agree();
    true
}
