//! A stage over a score that is restored from the fields of a state.

ghost use Rattle.std.specs.Prelude.{◌≡◌, ◌≢◌, ◌↔◌, ◌≤◌, [], length, true, Err, IfErr, IfOk, IsTrue};
ghost use Rattle.gabc_score.specs.ScoreReports.{held_of};
ghost use Rattle.gabc_score.specs.ReportedWithin.{IsPlace};
ghost use Rattle.gabc_score.specs.declared.score_machine.ScorePart.TheVariants.{Body};
ghost use Rattle.gregorio_state.specs.Conditions.{AreScoreFields, IsHeldWithin};
ghost use Rattle.gregorio_state.specs.Fields.{InScore, fields_of, score_of};
ghost use Rattle.gregorio.specs.Saved.{held_text};
ghost use Rattle.gregorio.specs.SavedState.{IsHeldRead, IsKeptRead, IsScoreRead, before_held};
ghost use Rattle.gregorio.specs.machine.Restoring.{AreFieldsIn, IsSetDown};
ghost use Rattle.gregorio.specs.machine.SettingDown.{HasRead, HoldsHeld, IsResumed, ReadsOn, openers_reported};

use crate::comparison::Comparison;
use crate::saving::HeldSyllable;
use crate::state_fault::StateFault;
use gabc_places::Memory;
use gabc_score::{Before, Openers, ScoreStage, Spans};
use gregorio_state::{PutText, ScoreFields, StateFields};

/// Returns the context of the pending syllable of `fields`.
fn before_held(fields: &ScoreFields<'_>) -> Before
    requires { length fields.now.held.now ≤ fields.now.canonical }
    ensures { result ≡ before_held (score_of fields.now) }
{
    Before {
        nabc_lines: fields.nabc_lines,
        macros: fields.macros,
        syllables: u64::from(fields.syllables.saturating_sub(1)),
        canonical: fields.canonical as usize - fields.held.len(),
        spans: Spans {
            eu: fields.in_eu,
            nlba: fields.in_nlba,
        },
        sounded: fields.sounded,
    }
}

/// Returns the places of the open brackets of `fields`.
fn openers(fields: &ScoreFields<'_>) -> Openers
    ensures { result ≡ openers_reported (score_of fields.now) }
{
    Openers {
        notes: fields.notes_opener,
        inner: fields.inner_opener,
    }
}

/// Returns a stage in `memory` under the limits of `state`, after the syllables before the pending
/// one of `fields`.
fn stage_after(
    memory: &Memory,
    state: &StateFields<'_>,
    fields: &ScoreFields<'_>,
) -> Result<ScoreStage, StateFault>
    requires { AreScoreFields (fields_of state.now) (score_of fields.now) }
    ensures stands { IfOk result (IsResumed state.now.limits (score_of fields.now)) }
    ensures fault { IfErr result (λ fault. fault ≡ StateFault.K0) }
{
    gabc_score::stage_laws::a_resumed_stage_reports_a_text();
    match ScoreStage::resume(memory, state.limits, before_held(fields)) {
        Ok(stage) => Ok(stage),
        Err(_) => Err(StateFault::K0),
    }
}

/// Returns whether `text` is the canonical text of the pending syllable of `stage`.
fn is_held_text(stage: &ScoreStage, text: &str) -> bool
    ensures { IsTrue result ↔ held_text stage.now.before (held_of stage.now) ≡ text.now }
{
    let mut comparison = Comparison::with(text.as_bytes());
    HeldSyllable::of(stage).put_into(&mut comparison);
    comparison.is_same()
}

/// Reads the pending text of `fields` as one syllable, the pending one of `stage` then; without
/// such a text, does nothing. Returns whether the text is read as `fields` say.
fn hold(stage: &mut ScoreStage, fields: &ScoreFields<'_>) -> bool
    requires held { IsHeldWithin stage.old.limits.syllable (score_of fields.now) }
    requires stands { IsResumed stage.old.limits (score_of fields.now) stage.old }
    ensures read { IsTrue result ↔
        (fields.now.held.now ≢ [] → IsHeldRead stage.old.limits (score_of fields.now)) }
    ensures limits { result ≡ true → stage.new.limits ≡ stage.old.limits }
    ensures holds { result ≡ true → HoldsHeld (score_of fields.now) stage.new }
{
    if fields.held.is_empty() {
        return true;
    }
    gabc_score::stage_laws::a_text_is_one_syllable();
    if !stage.hold_again(fields.held) {
        return false;
    }
    is_held_text(stage, fields.held)
}

/// Returns whether `stage`, which is in the body, reports the kept text, the brackets and the
/// comment of `fields`.
fn has_read(stage: &ScoreStage, fields: &ScoreFields<'_>) -> bool
    requires { stage.now.part ≡ Body }
    ensures { IsTrue result ↔ HasRead (score_of fields.now) stage.now }
{
    stage.reading() == fields.kept
        && stage.openers() == Some(openers(fields))
        && stage.in_comment() == Some(fields.in_comment)
}

/// Reads the kept text of `fields`, after which the next character is at the place of `state`.
/// Returns whether it is read as `fields` say.
fn read_kept(stage: &mut ScoreStage, state: &StateFields<'_>, fields: &ScoreFields<'_>) -> bool
    requires fields { AreScoreFields (fields_of state.now) (score_of fields.now) }
    requires place { IsPlace state.now.place }
    requires holds { HoldsHeld (score_of fields.now) stage.old }
    ensures read { IsTrue result ↔ IsKeptRead stage.old.limits (score_of fields.now) }
    ensures limits { stage.new.limits ≡ stage.old.limits }
    ensures reads { result ≡ true →
        ReadsOn state.now.place (score_of fields.now) stage.new }
{
    gabc_score::stage_laws::a_text_begins_outside_a_comment();
    gabc_score::stage_laws::a_comment_in_front_can_be_read_in_a_text();
    gabc_score::kept_laws::what_is_reported_is_kept_again();
    gabc_score::kept_laws::what_is_kept_again_is_reported();
    if !stage.read_again(fields.kept, openers(fields), fields.in_comment, state.place) {
        return false;
    }
    gabc_score::stage_laws::what_is_read_can_be_read_again(stage);
    has_read(stage, fields)
}

/// Reads the texts of `fields`. Returns whether they are read as the fields say.
fn read_texts(stage: &mut ScoreStage, state: &StateFields<'_>, fields: &ScoreFields<'_>) -> bool
    requires fields { AreScoreFields (fields_of state.now) (score_of fields.now) }
    requires place { IsPlace state.now.place }
    requires stands { IsResumed state.now.limits (score_of fields.now) stage.old }
    ensures read { IsTrue result ↔ IsScoreRead state.now.limits (score_of fields.now) }
    ensures told { result ≡ true →
        IsSetDown (fields_of state.now) (score_of fields.now) stage.new }
{
    if !hold(stage, fields) {
        return false;
    }
    if !read_kept(stage, state, fields) {
        return false;
    }
    gabc_score::stage_laws::whole_syllables_are_given_or_held(stage);
    true
}

/// Returns a stage over a score in `memory` that reports what `fields` say, the fields of the score
/// of `state`. Fails with `K1` if a text of them is not read as they say, under the limits of the
/// state, and with `K0` if memory cannot be allocated.
pub(crate) fn set_down(
    memory: &Memory,
    state: &StateFields<'_>,
    fields: &ScoreFields<'_>,
) -> Result<ScoreStage, StateFault>
    requires { AreFieldsIn (InScore (score_of fields.now)) (fields_of state.now) }
    ensures told { IfOk result (λ stage.
        IsSetDown (fields_of state.now) (score_of fields.now) stage) }
    ensures read { IfOk result (λ stage. IsScoreRead state.now.limits (score_of fields.now)) }
    ensures refused { result ≡ Err StateFault.K1 →
        IsScoreRead state.now.limits (score_of fields.now) → ⊥ }
    ensures never { result ≡ Err StateFault.K2 → ⊥ }
{
    let mut stage = stage_after(memory, state, fields)?;
    if read_texts(&mut stage, state, fields) {
        Ok(stage)
    } else {
        drop(stage);
        Err(StateFault::K1)
    }
}
