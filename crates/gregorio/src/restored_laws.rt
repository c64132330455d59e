//! Laws of a run that resumes from its saved state. Each function's contract is a law, and its body
//! makes the calls and calls the laws that it rests on.

ghost use Rattle.std.specs.Prelude.{◌≡◌, ◌+◌, ◌*◌, ◌≤◌, List, ℕ, length, max, true, IfErr, IfOk};
ghost use Rattle.gregorio_state.specs.Conditions.{AreStateFields};
ghost use Rattle.gregorio_state.specs.Fields.{StateFields};
ghost use Rattle.gregorio_state.specs.StateBytes.{state_bytes};
ghost use Rattle.gregorio.specs.declared.source_ending.SourceEnding.{SourceEnding};
ghost use Rattle.gregorio.specs.Engine.{NothingWaits, RunsJob, is_running};
ghost use Rattle.gregorio.specs.Saved.{state_of};
ghost use Rattle.gregorio.specs.Streams.{Streams};
ghost use Rattle.gregorio.specs.witness.Engine.{streams_left};
ghost use Rattle.gregorio.specs.witness.StandsFor.{StandsFor};

use crate::engine::Engine;
use crate::engine_laws;
use crate::saved_alike::{an_engine_may_run, engines_that_save_the_same_agree};
use crate::state_fault::StateFault;
use gabc_places::Limits;
use gregorio_jobs::Job;
use std::alloc::Global;

/// Law: the bytes of a saved state have its fields alone: two states with the same bytes are one.
pub fn bytes_are_of_one_state(bytes: &[u8])
    ensures { (one other : StateFields) → AreStateFields one → AreStateFields other →
        bytes.now ≡ state_bytes one → bytes.now ≡ state_bytes other → one ≡ other }
{
    let _ = gregorio_state::read(bytes);
}

/// Law: the bytes that an engine saves stand for all that it will still write, and for nothing
/// else: a run that resumes from them, in another process too, writes that of whatever follows.
pub fn what_is_saved_stands(engine: &Engine, job: &Job, limits: Limits, bytes: &[u8])
    requires runs { is_running engine.now ≡ true }
    requires job { RunsJob job.now limits engine.now }
    requires saved { bytes.now ≡ state_bytes (state_of engine.now) }
    ensures stands { StandsFor job.now limits bytes.now (streams_left engine.now) }
    ensures alone { (left : SourceEnding → List ℕ → Streams) →
        StandsFor job.now limits bytes.now left →
        (ending : SourceEnding) (more : List ℕ) →
        streams_left engine.now ending more ≡ left ending more }
{
    engine_laws::what_is_saved_is_a_state(engine);
    an_engine_may_run(engine);
    bytes_are_of_one_state(bytes);
    engines_that_save_the_same_agree();
}

/// Law: a restored run goes on as the saved one: the engine that is restored for the same job,
/// under the same limits, from the state that `engine` saves into `buf` writes the same of whatever
/// follows, and ends alike. Restoring fails only if memory cannot be allocated.
pub fn a_restored_run_goes_on(
    alloc: Global,
    engine: &Engine,
    job: &Job,
    limits: Limits,
    buf: &mut [u8],
) -> Result<Engine, StateFault>
    requires runs { is_running engine.now ≡ true }
    requires waits { NothingWaits engine.now }
    requires job { RunsJob job.now limits engine.now }
    requires room { max limits.header (2 * limits.syllable) + 128 ≤ length buf.old }
    ensures left { IfOk result (λ restored. (ending : SourceEnding) (bytes : List ℕ) →
        streams_left restored ending bytes ≡ streams_left engine.now ending bytes) }
    ensures job { IfOk result (λ restored. RunsJob job.now limits restored) }
    ensures running { IfOk result (λ restored. is_running restored ≡ true) }
    ensures waits { IfOk result (λ restored. NothingWaits restored) }
    ensures memory { IfErr result (λ fault. fault ≡ StateFault.K0) }
{
    let Ok(len) = engine.save_into(buf) else {
        unreachable!()
    };
    let bytes = &buf[..len];
    bytes_are_of_one_state(bytes);
    match Engine::restore(alloc, job, limits, bytes) {
        Ok(restored) => {
            what_is_saved_stands(engine, job, limits, bytes);
            what_is_saved_stands(&restored, job, limits, bytes);
            Ok(restored)
        }
        Err(fault) => Err(fault),
    }
}
