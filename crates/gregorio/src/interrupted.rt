//! A run that is interrupted after each piece of its input: saved, and restored. The contract of
//! the one public function is a law, and its body makes the calls.

ghost use Rattle.std.specs.Prelude.{◌≡◌, ◌+◌, ◌*◌, ◌≤◌, ℕ, List, [], ◌++◌, length, max, IfErr, IfOk, OnOk};
ghost use Rattle.gregorio.specs.declared.source_ending.SourceEnding.{SourceEnding as EndOfSource};
ghost use Rattle.gregorio.specs.Outcome.{outcome_of};
ghost use Rattle.gregorio.specs.Streams.{TakeTheSame, joined, streams_of_outcome};
ghost use Rattle.gregorio.specs.witness.Engine.{streams_left};
ghost use Rattle.gregorio.specs.machine.InMemory.{IsBetweenPieces};

use crate::engine::Engine;
use crate::in_memory::end_by;
use crate::restored_laws;
use crate::source_ending::SourceEnding;
use crate::state_fault::StateFault;
use gabc_places::{Limits, Put};
use gregorio_jobs::{Job, Status};
use std::alloc::Global;
use std::mem;

/// Feeds `piece`, and puts its output and messages. If the run goes on, it is saved into `buf`, and
/// a restored engine takes its place.
fn feed_and_restore<O: Put, M: Put>(
    alloc: Global,
    engine: &mut Engine,
    job: &Job,
    limits: Limits,
    piece: &[u8],
    buf: &mut [u8],
    out: &mut O,
    messages: &mut M,
) -> Result<(), StateFault>
    requires between { IsBetweenPieces job.now limits engine.old }
    requires room { max limits.header (2 * limits.syllable) + 128 ≤ length buf.old }
    ensures between { OnOk result (IsBetweenPieces job.now limits engine.new) }
    ensures put { OnOk result ((ending : EndOfSource) (more : List ℕ) → TakeTheSame O.taken M.taken
        out.old messages.old (streams_left engine.old ending (piece.now ++ more))
        out.new messages.new (streams_left engine.new ending more)) }
    ensures memory { IfErr result (λ fault. fault ≡ StateFault.K0) }
{
    engine.feed_all(piece, out, messages);
    if engine.running() {
        let restored = restored_laws::a_restored_run_goes_on(alloc, engine, job, limits, buf)?;
        // A proof follows a call faster than all that lies inside an engine.
        drop(mem::replace(engine, restored));
    }
    Ok(())
}

/// Feeds each of `pieces`, and restores the run after it.
fn feed_pieces<O: Put, M: Put>(
    alloc: Global,
    engine: &mut Engine,
    job: &Job,
    limits: Limits,
    pieces: &[&[u8]],
    buf: &mut [u8],
    out: &mut O,
    messages: &mut M,
) -> Result<(), StateFault>
    requires between { IsBetweenPieces job.now limits engine.old }
    requires room { max limits.header (2 * limits.syllable) + 128 ≤ length buf.old }
    ensures between { OnOk result (IsBetweenPieces job.now limits engine.new) }
    ensures put { OnOk result ((ending : EndOfSource) → TakeTheSame O.taken M.taken
        out.old messages.old (streams_left engine.old ending (joined pieces.now))
        out.new messages.new (streams_left engine.new ending [])) }
    ensures memory { IfErr result (λ fault. fault ≡ StateFault.K0) }
{
    for piece in pieces {
        feed_and_restore(alloc, engine, job, limits, piece, buf, out, messages)?;
    }
    Ok(())
}

/// Law: however an input is cut into `pieces` and however it ends, a run that is saved and restored
/// after each of them writes the output and the messages and ends with the status of a run without
/// a break. They are put into `out` and `messages`. That it saves and restores is in its body, and
/// in no clause: the promise rests on `restored_laws::a_restored_run_goes_on` and
/// `restored_laws::what_is_saved_stands`. `buf` has room for its states. The error is `K0`, if
/// memory cannot be allocated.
pub fn a_run_may_be_interrupted<O: Put, M: Put>(
    alloc: Global,
    job: &Job,
    limits: Limits,
    pieces: &[&[u8]],
    ending: SourceEnding,
    buf: &mut [u8],
    out: &mut O,
    messages: &mut M,
) -> Result<Status, StateFault>
    requires room { max limits.header (2 * limits.syllable) + 128 ≤ length buf.old }
    ensures out { OnOk result (out.new ≡ O.taken out.old
        (streams_of_outcome job.now (outcome_of limits ending (joined pieces.now))).output) }
    ensures messages { OnOk result (messages.new ≡ M.taken messages.old
        (streams_of_outcome job.now (outcome_of limits ending (joined pieces.now))).messages) }
    ensures status { IfOk result (λ status. status
        ≡ (streams_of_outcome job.now (outcome_of limits ending (joined pieces.now))).status) }
    ensures memory { IfErr result (λ fault. fault ≡ StateFault.K0) }
{
    match Engine::new(alloc, job, limits) {
        Ok(mut engine) => {
            let fed = feed_pieces(alloc, &mut engine, job, limits, pieces, buf, out, messages);
            let ended = match fed {
                Ok(()) => Ok(end_by(&mut engine, ending, out, messages)),
                Err(fault) => Err(fault),
            };
            // A proof follows a call faster than all that lies inside an engine.
            drop(engine);
            ended
        }
        Err(_) => Err(StateFault::K0),
    }
}
