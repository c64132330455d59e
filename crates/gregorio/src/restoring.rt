//! A run that resumes from its saved state.

ghost use Rattle.std.specs.Prelude.{◌≡◌, ◌↔◌, ◌<◌, ◌≤◌, ◌^◌, length, true, Err, IfErr, IfOk, IfSome, IsTrue};
ghost use Rattle.std.specs.Hash.DefaultHasher.{initial};
ghost use Rattle.std.specs.Str.{chars};
ghost use Rattle.gabc_headers.specs.HeldText.{holding};
ghost use Rattle.gabc_headers.specs.witness.HeadEvents.{fresh_stage};
ghost use Rattle.gabc_places.specs.DecoderReports.{is_after_cr, resumed};
ghost use Rattle.gabc_score.specs.declared.score_machine.ScorePart.TheVariants.{Heads};
ghost use Rattle.gregorio_state.specs.Conditions.{AreStateFields};
ghost use Rattle.gregorio_state.specs.Fields.{InHeaders, InScore, fields_of, phase_of, score_of};
ghost use Rattle.gregorio_state.specs.StateBytes.{state_bytes};
ghost use Rattle.gregorio.specs.Engine.{NothingWaits, RunsJob, is_running};
ghost use Rattle.gregorio.specs.Saved.{GivesHeaders, state_of};
ghost use Rattle.gregorio.specs.SavedState.{AreOfState, IsOfAnother, IsOfJob, IsState};
ghost use Rattle.gregorio.specs.machine.ClefInForce.{HasClefOfSounds};
ghost use Rattle.gregorio.specs.machine.HeldHeaders.{after_mark};
ghost use Rattle.gregorio.specs.machine.Restored.{GoesOn, HasEmptyRooms, StandSo, written_by};
ghost use Rattle.gregorio.specs.machine.Restoring.{AreFieldsIn};
ghost use Rattle.gregorio.specs.machine.ScoreWriter.{fresh_writer};

use crate::engine::Engine;
use crate::held_headers::{HeldHeaders, holds_text, read_mark};
use crate::judging::judge;
use crate::rooms::memory_for;
use crate::run_writer::RunWriter;
use crate::score_writer::ScoreWriter;
use crate::set_down::set_down;
use crate::state_fault::StateFault;
use gabc_headers::{HeadEvent, HeaderStage};
use gabc_neumes::Alterations;
use gabc_places::{Decoder, Limits, Memory, Room};
use gabc_score::ScoreStage;
use gregorio_jobs::Job;
use gregorio_state::{Phase, ScoreFields, StateFields};
use std::alloc::Global;
use std::hash::DefaultHasher;

/// Returns whether `state` is one of `job` under `limits`.
fn is_of_job(state: &StateFields<'_>, job: &Job, limits: Limits) -> bool
    ensures { IsTrue result ↔ IsOfJob job.now limits (fields_of state.now) }
{
    state.limits == limits && state.format == job.format && state.all_warnings == job.all_warnings
}

/// Returns an empty room for the events that a stage of headers emits of a character.
pub(crate) fn head_room(memory: &Memory) -> Result<Room<HeadEvent>, StateFault>
    ensures room { IfOk result (λ room. 2 ≤ room.limit) }
    ensures fault { IfErr result (λ fault. fault ≡ StateFault.K0) }
{
    match Room::in_memory(memory, 2) {
        Ok(room) => Ok(room),
        Err(_) => Err(StateFault::K0),
    }
}

/// Returns a stage of headers before the first character of a text.
pub(crate) fn fresh_heads(
    memory: &Memory,
    limits: Limits,
    hasher: DefaultHasher,
) -> Result<HeaderStage, StateFault>
    ensures stage { IfOk result (λ stage. stage ≡ fresh_stage limits hasher) }
    ensures fault { IfErr result (λ fault. fault ≡ StateFault.K0) }
{
    match HeaderStage::in_memory(memory, limits, hasher) {
        Ok(heads) => Ok(heads),
        Err(_) => Err(StateFault::K0),
    }
}

/// Returns a stage whose pending headers are `text`, the text of the headers of `state`. Fails with
/// `K1` if the headers do not go on after it, or its end or its errors are others than the state
/// says, and with `K0` if memory cannot be allocated.
fn heads_holding(
    memory: &Memory,
    state: &StateFields<'_>,
    text: &str,
    hasher: DefaultHasher,
) -> Result<HeaderStage, StateFault>
    requires { length text.now < 2 ^ 63 }
    ensures stage { IfOk result (λ stage. stage
        ≡ holding state.now.limits hasher (chars text.now)) }
    ensures gives { IfOk result (λ _. GivesHeaders state.now.limits (chars text.now)
        state.now.place state.now.has_error) }
    ensures refused { result ≡ Err StateFault.K1 → GivesHeaders state.now.limits (chars text.now)
        state.now.place state.now.has_error → ⊥ }
    ensures never { result ≡ Err StateFault.K2 → ⊥ }
{
    let told = HeldHeaders {
        place: state.place,
        has_error: state.has_error,
    };
    let mut events = head_room(memory)?;
    let mut heads = fresh_heads(memory, state.limits, hasher)?;
    if holds_text(&mut heads, text, told, &mut events) {
        Ok(heads)
    } else {
        drop(heads);
        Err(StateFault::K1)
    }
}

/// Returns a stage of headers after their line `%%`.
fn heads_after(
    memory: &Memory,
    limits: Limits,
    hasher: DefaultHasher,
) -> Result<HeaderStage, StateFault>
    ensures stage { IfOk result (λ stage. stage ≡ after_mark limits hasher) }
    ensures fault { IfErr result (λ fault. fault ≡ StateFault.K0) }
{
    let mut events = head_room(memory)?;
    let mut heads = fresh_heads(memory, limits, hasher)?;
    read_mark(&mut heads, &mut events);
    Ok(heads)
}

/// Returns a stage over a score, before the headers.
fn fresh_score(memory: &Memory, limits: Limits) -> Result<ScoreStage, StateFault>
    ensures limits { IfOk result (λ stage. stage.limits ≡ limits) }
    ensures part { IfOk result (λ stage. stage.part ≡ Heads) }
    ensures fault { IfErr result (λ fault. fault ≡ StateFault.K0) }
{
    match ScoreStage::in_memory(memory, limits) {
        Ok(score) => Ok(score),
        Err(_) => Err(StateFault::K0),
    }
}

/// Returns the writer of a run of `job` that has written nothing.
fn fresh_writer_of(memory: &Memory, job: &Job, limits: Limits) -> Result<RunWriter, StateFault>
    ensures written { IfOk result (λ writer. writer.written ≡ fresh_writer job.now) }
    ensures rooms { IfOk result (HasEmptyRooms limits) }
    ensures fault { IfErr result (λ fault. fault ≡ StateFault.K0) }
{
    match RunWriter::with_limits(memory, job, limits) {
        Ok(writer) => Ok(writer),
        Err(_) => Err(StateFault::K0),
    }
}

/// Returns the clef and the alterations in force, as `fields` report them.
fn force_of(fields: &ScoreFields<'_>) -> Alterations
    requires { IfSome fields.now.clef (λ c. (1 ≤ c.line) × (c.line ≤ 5)) }
    ensures { result ≡ (score_of fields.now).in_force }
{
    let Some(alterations) = Alterations::resume(fields.clef, fields.alters) else {
        unreachable!()
    };
    alterations
}

/// Returns the writer of a run of `job` that has written all that comes before the texts in
/// `state`.
fn writer_of(
    memory: &Memory,
    job: &Job,
    limits: Limits,
    state: &StateFields<'_>,
) -> Result<RunWriter, StateFault>
    requires { AreStateFields (fields_of state.now) }
    ensures written { IfOk result (λ writer. writer.written
        ≡ written_by job.now (fields_of state.now) (phase_of state.now.phase)) }
    ensures rooms { IfOk result (HasEmptyRooms limits) }
    ensures fault { IfErr result (λ fault. fault ≡ StateFault.K0) }
{
    let mut writer = fresh_writer_of(memory, job, limits)?;
    match &state.phase {
        Phase::Headers(_) => writer.go_on_in_headers(state.has_error),
        Phase::Score(fields) => {
            let count = u64::from(fields.syllables.saturating_sub(1));
            writer.go_on_after(count, force_of(fields), state.has_error);
        }
    }
    Ok(writer)
}

/// Returns the decoder that `state` reports.
fn decoder_of(state: &StateFields<'_>) -> Decoder
    requires { AreStateFields (fields_of state.now) }
    ensures made { result ≡ resumed state.now.limits.input state.now.taken state.now.place
        state.now.pending.now state.now.after_cr }
    ensures cr { is_after_cr result ≡ state.now.after_cr }
{
    let Some(decoder) = Decoder::resume(
        state.limits,
        state.taken,
        state.place,
        state.pending,
        state.after_cr,
    ) else {
        unreachable!()
    };
    decoder
}

/// Returns the writer of scores that resumes with `score` as `state` reports, a state of `job`.
fn score_writer_of(
    memory: &Memory,
    job: &Job,
    limits: Limits,
    state: &StateFields<'_>,
    score: ScoreStage,
) -> Result<ScoreWriter, StateFault>
    requires fields { AreStateFields (fields_of state.now) }
    requires clef { HasClefOfSounds score
        (written_by job.now (fields_of state.now) (phase_of state.now.phase)) }
    ensures score { IfOk result (λ w. w.score ≡ score) }
    ensures written { IfOk result (λ w. w.writer.written
        ≡ written_by job.now (fields_of state.now) (phase_of state.now.phase)) }
    ensures rooms { IfOk result (λ w. HasEmptyRooms limits w.writer) }
    ensures fault { IfErr result (λ fault. fault ≡ StateFault.K0) }
{
    match writer_of(memory, job, limits, state) {
        Ok(writer) => match ScoreWriter::resume(memory, score, writer) {
            Ok(writer) => Ok(writer),
            Err(_) => Err(StateFault::K0),
        },
        Err(fault) => {
            // A proof follows a call faster than all that lies inside a stage.
            drop(score);
            Err(fault)
        }
    }
}

/// Returns the engine of `job` under `limits` that resumes with `heads` and `score` as `state`
/// reports, a state of `job`.
fn engine_with(
    memory: &Memory,
    job: &Job,
    limits: Limits,
    state: &StateFields<'_>,
    heads: HeaderStage,
    score: ScoreStage,
) -> Result<Engine, StateFault>
    requires fields { AreStateFields (fields_of state.now) }
    requires job { IsOfJob job.now limits (fields_of state.now) }
    requires stand { StandSo (fields_of state.now) limits heads score }
    ensures goes { IfOk result (GoesOn job.now limits (fields_of state.now) heads.hasher) }
    ensures fault { IfErr result (λ fault. fault ≡ StateFault.K0) }
{
    match head_room(memory) {
        Ok(from_heads) => match score_writer_of(memory, job, limits, state, score) {
            Ok(writer) => Ok(Engine {
                decoder: decoder_of(state),
                heads,
                from_heads,
                writer,
            }),
            Err(fault) => {
                drop(heads);
                Err(fault)
            }
        },
        Err(fault) => {
            drop(heads);
            drop(score);
            Err(fault)
        }
    }
}

/// Returns an engine that resumes in the headers, of which `state` has read `text`, a state of
/// `job` under `limits`. Fails as `restore` does.
fn engine_in_headers(
    memory: &Memory,
    job: &Job,
    limits: Limits,
    state: &StateFields<'_>,
    text: &str,
    hasher: DefaultHasher,
) -> Result<Engine, StateFault>
    requires phase { AreFieldsIn (InHeaders text.now) (fields_of state.now) }
    requires job { IsOfJob job.now limits (fields_of state.now) }
    ensures goes { IfOk result (GoesOn job.now limits (fields_of state.now) hasher) }
    ensures read { IfOk result (λ _. AreOfState (fields_of state.now)) }
    ensures none { result ≡ Err StateFault.K1 → AreOfState (fields_of state.now) → ⊥ }
    ensures never { result ≡ Err StateFault.K2 → ⊥ }
{
    let heads = heads_holding(memory, state, text, hasher)?;
    match fresh_score(memory, limits) {
        Ok(score) => engine_with(memory, job, limits, state, heads, score),
        Err(fault) => {
            drop(heads);
            Err(fault)
        }
    }
}

/// Returns an engine that resumes in the score as `fields` of `state` say, a state of `job` under
/// `limits`. Fails as `restore` does.
fn engine_in_score(
    memory: &Memory,
    job: &Job,
    limits: Limits,
    state: &StateFields<'_>,
    fields: &ScoreFields<'_>,
    hasher: DefaultHasher,
) -> Result<Engine, StateFault>
    requires phase { AreFieldsIn (InScore (score_of fields.now)) (fields_of state.now) }
    requires job { IsOfJob job.now limits (fields_of state.now) }
    ensures goes { IfOk result (GoesOn job.now limits (fields_of state.now) hasher) }
    ensures read { IfOk result (λ _. AreOfState (fields_of state.now)) }
    ensures none { result ≡ Err StateFault.K1 → AreOfState (fields_of state.now) → ⊥ }
    ensures never { result ≡ Err StateFault.K2 → ⊥ }
{
    let score = set_down(memory, state, fields)?;
    match heads_after(memory, limits, hasher) {
        Ok(heads) => engine_with(memory, job, limits, state, heads, score),
        Err(fault) => {
            drop(score);
            Err(fault)
        }
    }
}

impl Engine {
    /// Returns an engine that resumes the run whose saved state is `bytes`, as `save_into` wrote
    /// it. It runs, nothing waits, and it saves these bytes. The format of `job`, whether it
    /// reports warnings, and `limits` have to be those of that run. The name of the input is that
    /// of `job`: no state has it.
    ///
    /// Fails with K0 if memory cannot be allocated, whenever that is met; else with K1 exactly if
    /// `bytes` are no saved state; else with K2: the state is one of another format, of other
    /// limits, or of a run that reports warnings while `job` does not, or the other way round. The
    /// texts of a state of another run are read in memory of their own, which is no larger than
    /// they need, though no clause counts it: the memory of an engine is allocated only for a state
    /// of `job` under `limits`. Names of headers are hashed as in `new`.
    pub fn restore(
        alloc: Global,
        job: &Job,
        limits: Limits,
        bytes: &[u8],
    ) -> Result<Engine, StateFault>
        ensures state { IfOk result (λ engine. bytes.now ≡ state_bytes (state_of engine)) }
        ensures is_state { IfOk result (λ engine. AreOfState (state_of engine)) }
        ensures job { IfOk result (λ engine. RunsJob job.now limits engine) }
        ensures running { IfOk result (λ engine. is_running engine ≡ true) }
        ensures waits { IfOk result (λ engine. NothingWaits engine) }
        ensures hasher { IfOk result (λ engine. engine.heads.hasher ≡ initial) }
        ensures none { result ≡ Err StateFault.K1 → IsState bytes.now → ⊥ }
        ensures other { result ≡ Err StateFault.K2 → IsOfAnother job.now limits bytes.now }
    {
        Engine::restore_with_hasher(alloc, job, limits, bytes, DefaultHasher::new())
    }

    /// Returns an engine as `restore` does, which hashes the names of headers from `hasher` on, as
    /// that of `with_hasher`.
    pub fn restore_with_hasher(
        alloc: Global,
        job: &Job,
        limits: Limits,
        bytes: &[u8],
        hasher: DefaultHasher,
    ) -> Result<Engine, StateFault>
        ensures state { IfOk result (λ engine. bytes.now ≡ state_bytes (state_of engine)) }
        ensures is_state { IfOk result (λ engine. AreOfState (state_of engine)) }
        ensures job { IfOk result (λ engine. RunsJob job.now limits engine) }
        ensures running { IfOk result (λ engine. is_running engine ≡ true) }
        ensures waits { IfOk result (λ engine. NothingWaits engine) }
        ensures hasher { IfOk result (λ engine. engine.heads.hasher ≡ hasher) }
        ensures none { result ≡ Err StateFault.K1 → IsState bytes.now → ⊥ }
        ensures other { result ≡ Err StateFault.K2 → IsOfAnother job.now limits bytes.now }
    {
        let Some(state) = gregorio_state::read(bytes) else {
            return Err(StateFault::K1);
        };
        if !is_of_job(&state, job, limits) {
            return Err(judge(alloc, &state, hasher));
        }
        let Ok(memory) = memory_for(alloc, job, limits) else {
            return Err(StateFault::K0);
        };
        match &state.phase {
            Phase::Headers(text) => engine_in_headers(&memory, job, limits, &state, text, hasher),
            Phase::Score(fields) => engine_in_score(&memory, job, limits, &state, fields, hasher),
        }
    }
}
