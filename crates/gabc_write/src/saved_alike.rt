//! Laws by which a saved state stands for a stage: two stages over a score of which the same is
//! saved go on alike, and their pending syllables are written alike. Each function's contract is a
//! law, and its body calls the laws that it rests on.

ghost use Rattle.gabc_score.specs.ScoreReports.{held_of};
ghost use Rattle.gabc_score.specs.witness.IsReachable.{IsReachable};
ghost use Rattle.gabc_score.specs.witness.ScoreStage.{ScoreStageState};
ghost use Rattle.gabc_write.specs.SavedAlike.{AreSavedAlike};
ghost use Rattle.gabc_write.specs.SetDown.{AreWrittenAlike, GoesOnEquivalentlyInLine};

use crate::laws;

/// Law: in the body two stages of which the same is saved go on alike, over characters that come
/// one after the other. They run under the same limits after the same, with pending syllables that
/// have one canonical text there, or none, and report the same of the syllable that is not whole.
/// What the one reports is that of a text, and the place of the next character is the one that a
/// text that is read has counted. Of syllables with one canonical text each is equivalent to the
/// other, since both are read from this text.
pub fn what_is_saved_alike_goes_on_alike()
    ensures { (one other : ScoreStageState) → IsReachable one → IsReachable other →
        AreSavedAlike one other → GoesOnEquivalentlyInLine one other }
{
    gabc_score::stage_laws::what_is_reported_is_within_the_limits();
    gabc_score::stage_laws::what_is_held_is_a_text();
    laws::what_is_held_is_read_from_its_own_text();
    gabc_score::kept_laws::a_syllable_is_read_by_kept();
    gabc_score::stage_laws::what_is_held_holds_a_unit();
    gabc_score::stage_laws::spans_of_what_is_held_follow();
    gabc_score::unit_laws::some_events_leave_spans_open();
    gabc_score::unit_laws::snippets_of_a_unit_stand_between_characters();
    gabc_score::stage_laws::stages_that_report_the_same_agree_in_line();
}

/// Law: the pending syllables of two stages that go on alike are written alike, whatever their
/// position in their word: each has the canonical text of the other, and the dump of the other.
pub fn what_goes_on_alike_is_written_alike()
    ensures { (one other : ScoreStageState) → IsReachable one → IsReachable other →
        GoesOnEquivalentlyInLine one other → AreWrittenAlike (held_of one) (held_of other) }
{
    gabc_score::stage_laws::what_is_held_holds_a_unit();
    gabc_score::unit_laws::snippets_of_a_unit_stand_between_characters();
    laws::held_syllables_that_say_the_same_have_one_dump();
}
