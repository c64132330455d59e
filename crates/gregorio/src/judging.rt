//! The judgement whether bytes of another run are a saved state. They are read in memory of their
//! own, no larger than their texts need, whatever limits they name.

ghost use Rattle.std.specs.Prelude.{◌≡◌, ◌≢◌, ◌↔◌, ◌<◌, ◌≤◌, ◌^◌, length, IfErr, IfOk, IsTrue};
ghost use Rattle.std.specs.Str.{chars};
ghost use Rattle.gregorio_state.specs.Conditions.{AreStateFields};
ghost use Rattle.gregorio_state.specs.Fields.{InHeaders, InScore, fields_of, score_of};
ghost use Rattle.gregorio.specs.Saved.{GivesHeaders};
ghost use Rattle.gregorio.specs.SavedState.{AreOfState, IsScoreRead};
ghost use Rattle.gregorio.specs.machine.Judging.{IsEnough, IsEnoughFor};
ghost use Rattle.gregorio.specs.machine.Restoring.{AreFieldsIn};

use crate::held_headers::{HeldHeaders, holds_text};
use crate::restoring::{fresh_heads, head_room};
use crate::set_down::set_down;
use crate::state_fault::StateFault;
use gabc_places::{Limits, Memory};
use gregorio_state::{Phase, ScoreFields, StateFields};
use std::alloc::Global;
use std::hash::DefaultHasher;

/// Returns limits that are no larger than `limits`, under which headers may be as long as `text`,
/// if they may be so under `limits`.
fn limits_for(limits: Limits, text: &str) -> Limits
    ensures { IsEnough limits (length text.now) result }
{
    let len = u32::try_from(text.len()).unwrap_or(u32::MAX);
    let header = limits.header.min(len.max(64));
    Limits::new(header, limits.syllable, limits.input).unwrap_or(limits)
}

/// Returns limits that are no larger than `limits`, under which the texts of `fields` are read as
/// under `limits`: a syllable may have as many bytes as the longer of them.
fn limits_of_texts(limits: Limits, fields: &ScoreFields<'_>) -> Limits
    ensures { IsEnoughFor (score_of fields.now) limits result }
{
    let held = u32::try_from(fields.held.len()).unwrap_or(u32::MAX);
    let kept = u32::try_from(fields.kept.len()).unwrap_or(u32::MAX);
    let most = held.max(kept).max(64);
    let syllable = limits.syllable.min(most);
    Limits::new(limits.header, syllable, limits.input).unwrap_or(limits)
}

/// Returns an arena, which grows as it is used.
fn own_memory(alloc: Global) -> Result<Memory, StateFault>
    ensures { IfErr result (λ fault. fault ≡ StateFault.K0) }
{
    match Memory::with_capacity(alloc, 0) {
        Ok(memory) => Ok(memory),
        Err(_) => Err(StateFault::K0),
    }
}

/// Returns whether `text`, the headers of `state`, is read as the state says. Fails with `K0` if
/// memory cannot be allocated.
fn are_headers_read(
    alloc: Global,
    state: &StateFields<'_>,
    text: &str,
    hasher: DefaultHasher,
) -> Result<bool, StateFault>
    requires phase { AreFieldsIn (InHeaders text.now) (fields_of state.now) }
    requires short { length text.now < 2 ^ 63 }
    ensures read { IfOk result (λ is. IsTrue is ↔ GivesHeaders state.now.limits (chars text.now)
        state.now.place state.now.has_error) }
    ensures fault { IfErr result (λ fault. fault ≡ StateFault.K0) }
{
    gabc_headers::laws::a_held_text_is_held_under_other_limits();
    let told = HeldHeaders {
        place: state.place,
        has_error: state.has_error,
    };
    let memory = own_memory(alloc)?;
    let mut events = head_room(&memory)?;
    let mut heads = fresh_heads(&memory, limits_for(state.limits, text), hasher)?;
    let is_read = holds_text(&mut heads, text, told, &mut events);
    drop(heads);
    Ok(is_read)
}

/// Returns whether the texts of `fields`, the score of `state`, are read as they say. Fails with
/// `K0` if memory cannot be allocated.
fn is_score_read(
    alloc: Global,
    state: &StateFields<'_>,
    fields: &ScoreFields<'_>,
) -> Result<bool, StateFault>
    requires { AreFieldsIn (InScore (score_of fields.now)) (fields_of state.now) }
    ensures read { IfOk result (λ is. IsTrue is ↔
        IsScoreRead state.now.limits (score_of fields.now)) }
    ensures fault { IfErr result (λ fault. fault ≡ StateFault.K0) }
{
    gabc_score::stage_laws::one_syllable_keeps_no_more_than_its_text();
    let limits = limits_of_texts(state.limits, fields);
    let memory = own_memory(alloc)?;
    match set_down(&memory, &StateFields { limits, ..*state }, fields) {
        Ok(score) => {
            drop(score);
            Ok(true)
        }
        Err(StateFault::K1) => Ok(false),
        Err(StateFault::K0 | StateFault::K2) => Err(StateFault::K0),
    }
}

/// Returns whether the texts of `state` are read as it says. Fails with `K0` if memory cannot be
/// allocated.
fn is_read(
    alloc: Global,
    state: &StateFields<'_>,
    hasher: DefaultHasher,
) -> Result<bool, StateFault>
    requires fields { AreStateFields (fields_of state.now) }
    ensures read { IfOk result (λ is. IsTrue is ↔ AreOfState (fields_of state.now)) }
    ensures fault { IfErr result (λ fault. fault ≡ StateFault.K0) }
{
    match &state.phase {
        Phase::Headers(text) => are_headers_read(alloc, state, text, hasher),
        Phase::Score(fields) => is_score_read(alloc, state, fields),
    }
}

/// Returns the fault of restoring `state`, which is not one of the wanted job: `K2` if its fields
/// are those of a state, else `K1`; or `K0`, if memory to judge them cannot be allocated.
pub(crate) fn judge(alloc: Global, state: &StateFields<'_>, hasher: DefaultHasher) -> StateFault
    requires fields { AreStateFields (fields_of state.now) }
    ensures none { result ≡ StateFault.K1 → AreOfState (fields_of state.now) → ⊥ }
    ensures other { result ≡ StateFault.K2 → AreOfState (fields_of state.now) }
{
    match is_read(alloc, state, hasher) {
        Ok(true) => StateFault::K2,
        Ok(false) => StateFault::K1,
        Err(fault) => fault,
    }
}
