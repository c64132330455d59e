//! Laws of kept texts that are read by themselves. Each function is there for its clauses, and
//! calls the laws on which it rests.

ghost use Rattle.std.specs.Prelude.{◌≡◌, ◌↔◌, ◌≤◌, ◌<◌, ◌^◌, ℕ, List, Bool, length, encode_utf8_all};
ghost use Rattle.std.specs.Char.{IsScalar};
ghost use Rattle.std.specs.List.{All};
ghost use Rattle.gabc_places.specs.declared.limits.Limits.{Limits};
ghost use Rattle.gabc_score.specs.declared.body_tells.Openers.{Openers};
ghost use Rattle.gabc_text.specs.Events.{CountsFit};
ghost use Rattle.gabc_body.specs.declared.before.Spans.{Spans};
ghost use Rattle.gabc_body.specs.OneSyllable.{IsOneSyllable};
ghost use Rattle.gabc_body.specs.ReadAlone.{IsReadAsSyllable};
ghost use Rattle.gabc_body.specs.ScoreEvents.{first_place};
ghost use Rattle.gabc_body.specs.Syllable.{UnplacedSyllable};
ghost use Rattle.gabc_score.specs.KeptAgain.{IsKeptAgain};
ghost use Rattle.gabc_score.specs.ReadAgain.{IsReported, ReportsReading};
ghost use Rattle.gabc_score.specs.machine.StageLaws.{StageLaws};
ghost use Rattle.gabc_score.specs.witness.EmittedAgain.{IsEmittedAgain};
ghost use Rattle.gabc_score.specs.witness.ReadAgain.{CanBeReadAgain};
ghost use Rattle.gabc_score.specs.witness.ScoreStage.{ScoreStageState};

use crate::stage_laws;

/// Law: the laws of the stages of texts and snippets on which the reading of a kept text rests.
pub(crate) fn laws_of_stages()
    ensures { StageLaws }
{
    gabc_text::laws::a_stage_takes_each_character();
    gabc_text::laws::an_opener_may_be_anywhere();
    gabc_text::laws::a_kept_character_is_kept_again();
    gabc_text::laws::what_is_open_follows_from_the_kept_text();
    gabc_text::laws::events_need_nothing_after();
    gabc_notes::laws::a_stage_takes_each_character();
    gabc_notes::laws::an_opener_may_be_anywhere();
    gabc_notes::laws::a_kept_character_is_kept_again();
    gabc_notes::laws::an_opener_is_reported_inside_raw();
    gabc_nabc::laws::a_stage_takes_each_character();
}

/// Law: a text is kept again, read by itself, by all that its characters emit exactly if it is so
/// by what is kept of it, if they are Unicode scalar values and it has fewer than 2^63 bytes.
pub fn a_text_is_kept_again_by_kept()
    ensures { (lines macros : ℕ) (t : List ℕ) (openers : Openers) (comment : Bool) →
        All IsScalar t → length (encode_utf8_all t) < 2 ^ 63 →
        IsEmittedAgain lines macros t openers comment
        ↔ IsKeptAgain lines macros t openers comment }
{
    laws_of_stages();
    stage_laws::a_text_is_read_from_its_beginning();
    gabc_body::by_kept_laws::texts_go_by_kept();
}

/// Law: what a stage reports of the syllable that it reads is kept again if it is read by itself,
/// and what is open after it is what the stage reports. It is no longer than the limit of a
/// syllable.
pub fn what_is_reported_is_kept_again()
    ensures again { (s : ScoreStageState) (t : List ℕ) (openers : Openers) (comment : Bool) →
        All IsScalar t → CanBeReadAgain s → ReportsReading s (encode_utf8_all t) openers comment →
        IsKeptAgain s.body.nabc_lines s.body.macros t openers comment }
    ensures short { (s : ScoreStageState) (t : List ℕ) (openers : Openers) (comment : Bool) →
        CanBeReadAgain s → ReportsReading s (encode_utf8_all t) openers comment →
        length (encode_utf8_all t) ≤ s.limits.syllable }
{
    laws_of_stages();
    stage_laws::a_text_is_read_from_its_beginning();
    a_text_is_kept_again_by_kept();
}

/// Law: a text that is kept again if it is read by itself, and no longer than the limit of a
/// syllable, is what some stage reports of the syllable that it reads, whatever the places of its
/// openers. It is kept again if each of its characters is kept, no syllable is whole, and what is
/// open after it is reported: the `(` of notes, an inner opener, and a comment only if a `%` after
/// it begins one.
pub fn what_is_kept_again_is_reported()
    ensures { (limits : Limits) (lines macros : ℕ) (t : List ℕ) (openers : Openers)
        (comment : Bool) → All IsScalar t → IsKeptAgain lines macros t openers comment →
        length (encode_utf8_all t) ≤ limits.syllable →
        IsReported limits lines macros t openers comment }
{
    laws_of_stages();
    stage_laws::a_text_is_read_from_its_beginning();
    a_text_is_kept_again_by_kept();
}

/// Law: after open spans, a text is one syllable, within a limit and with warnings alone, exactly
/// if it is so by what is kept.
pub fn a_syllable_is_read_by_kept()
    ensures { (lines macros : ℕ) (t : List ℕ) (spans : Spans) (limit : ℕ)
        (m : UnplacedSyllable) → All IsScalar t → CountsFit first_place t →
        IsOneSyllable lines macros first_place t spans limit m
        ↔ IsReadAsSyllable lines macros t spans limit m }
{
    gabc_body::by_kept_laws::texts_go_by_kept();
}
