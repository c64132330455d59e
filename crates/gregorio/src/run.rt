//! A run from its source to its sinks.

ghost use Rattle.std.specs.Prelude.{◌≡◌, ◌++◌, ℕ, List, [], IfOk, OnOk, OnErr};
ghost use Rattle.gregorio.specs.declared.source_ending.SourceEnding.{SourceEnding as EndOfSource};
ghost use Rattle.gregorio.specs.Engine.{NothingWaits, fault_of, with_waiting};
ghost use Rattle.gregorio.specs.Streams.{ended_with};
ghost use Rattle.gregorio.specs.witness.Engine.{streams_left};
ghost use Rattle.gregorio.specs.Run.{IsRun, used};
ghost use Rattle.gregorio.specs.machine.Compile.{AreCut, AreSent, IsFed, IsFedAll, IsFedInPart, NoneOrAll, SaysOutcomes, StreamsAreCut};

use crate::engine::Engine;
use crate::engine_laws;
use crate::source_ending::SourceEnding;
use gabc_places::{Limits, Sink, SinkFault, Source, Unsent, send_all};
use gregorio_jobs::{Job, Status};
use std::alloc::Global;
use std::hash::DefaultHasher;

/// The most bytes that one read asks for.
const PIECE: usize = 16_384;

/// Sends `output` to `out`, and then `lines` to `messages`. If `out` fails, no message is sent.
fn send_both<O: Sink, M: Sink>(
    output: &[u8],
    lines: &[u8],
    out: &mut O,
    messages: &mut M,
) -> Result<(), SinkFault>
    ensures all { OnOk result (AreSent (used O.written O.calls out.old out.new)
        (used M.written M.calls messages.old messages.new)
        output.now lines.now) }
    ensures cut { OnErr result (AreCut (NoneOrAll output.now lines.now)
        (used O.written O.calls out.old out.new)
        (used M.written M.calls messages.old messages.new)
        output.now lines.now) }
{
    if let Err(Unsent { .. }) = send_all(out, output) {
        return Err(SinkFault);
    }
    if let Err(Unsent { .. }) = send_all(messages, lines) {
        return Err(SinkFault);
    }
    Ok(())
}

/// Sends the bytes that wait: the output, and then the messages.
fn send_waiting<O: Sink, M: Sink>(
    engine: &mut Engine,
    out: &mut O,
    messages: &mut M,
) -> Result<(), SinkFault>
    ensures all { OnOk result (AreSent (used O.written O.calls out.old out.new)
        (used M.written M.calls messages.old messages.new)
        engine.old.output engine.old.messages) }
    ensures forgets { OnOk result (engine.new ≡ record engine.old { output = []; messages = [] }) }
    ensures cut { OnErr result (AreCut (NoneOrAll engine.old.output engine.old.messages)
        (used O.written O.calls out.old out.new)
        (used M.written M.calls messages.old messages.new)
        engine.old.output engine.old.messages) }
{
    send_both(engine.out(), engine.messages(), out, messages)?;
    engine.taken();
    Ok(())
}

/// Feeds all of `piece` to `engine`, and sends what it writes.
fn feed_piece<O: Sink, M: Sink>(
    engine: &mut Engine,
    piece: &[u8],
    out: &mut O,
    messages: &mut M,
) -> Result<(), SinkFault>
    requires waits { NothingWaits engine.old }
    ensures waits { OnOk result (NothingWaits engine.new) }
    ensures fed { OnOk result (IsFed (used O.written O.calls out.old out.new)
        (used M.written M.calls messages.old messages.new)
        engine.old engine.new piece.now) }
    ensures cut { OnErr result ((ending : EndOfSource) →
        StreamsAreCut (used O.written O.calls out.old out.new)
        (used M.written M.calls messages.old messages.new) engine.old ending piece.now) }
{
    engine_laws::nothing_is_kept_back(engine);
    let mut count = 0;
    while count < piece.len() {
        count += engine.fill(&piece[count..]);
        send_waiting(engine, out, messages)?;
    }
    Ok(())
}

/// Reads a source up to its end, its first failure or one byte more than `limit`, feeds all to
/// `engine`, and sends what it writes.
fn feed_source<S: Source, O: Sink, M: Sink>(
    engine: &mut Engine,
    limit: u32,
    source: &mut S,
    out: &mut O,
    messages: &mut M,
) -> Result<SourceEnding, SinkFault>
    requires waits { NothingWaits engine.old }
    ensures waits { OnOk result (NothingWaits engine.new) }
    ensures fed { IfOk result (λ ending.
        IsFedAll limit (used S.remaining S.calls source.old source.new)
        (used O.written O.calls out.old out.new)
        (used M.written M.calls messages.old messages.new)
        engine.old engine.new ending) }
    ensures cut { OnErr result (IsFedInPart limit
        (used S.remaining S.calls source.old source.new)
        (used O.written O.calls out.old out.new)
        (used M.written M.calls messages.old messages.new)
        engine.old) }
{
    engine_laws::nothing_is_kept_back(engine);
    let most = limit as usize + 1;
    let mut taken = 0;
    let mut buffer = [0; PIECE];
    while taken < most {
        let asked = PIECE.min(most - taken);
        let piece = &mut buffer[..asked];
        match source.read(piece) {
            Ok(0) => break,
            Ok(n) => {
                feed_piece(engine, &piece[..n], out, messages)?;
                taken += n;
            }
            Err(_) => return Ok(SourceEnding::Broken),
        }
    }
    Ok(SourceEnding::Whole)
}

/// Ends the run of an input that ended or failed, as `ending` says. Returns the status of the run.
fn end_by(engine: &mut Engine, ending: SourceEnding) -> Status
    requires waits { NothingWaits engine.old }
    ensures { streams_left engine.old ending []
        ≡ with_waiting engine.new (ended_with result (fault_of engine.new)) }
{
    match ending {
        SourceEnding::Whole => engine.end(),
        SourceEnding::Broken => engine.broken(),
    }
}

/// Runs `engine` on `source`, and sends what it writes. Returns the status of the run.
fn run<S: Source, O: Sink, M: Sink>(
    engine: &mut Engine,
    limits: Limits,
    source: &mut S,
    out: &mut O,
    messages: &mut M,
) -> Status
    requires waits { NothingWaits engine.old }
    ensures runs { (job : Job) → SaysOutcomes job limits engine.old →
        IsRun job limits (used S.remaining S.calls source.old source.new)
        (used O.written O.calls out.old out.new)
        (used M.written M.calls messages.old messages.new) result }
{
    let Ok(ending) = feed_source(engine, limits.input, source, out, messages) else {
        return Status::WriteFault;
    };
    let status = end_by(engine, ending);
    match send_waiting(engine, out, messages) {
        Ok(()) => status,
        Err(_) => Status::WriteFault,
    }
}

/// Reads a score from `source`, at most one byte more than `limits.input`, writes it in the format
/// of `job` to `out`, and its messages to `messages`. Returns the status of the run. The files that
/// `job` names are not opened. At `WriteFault` each sink has a prefix of its text; at `NoMemory`
/// nothing was read or written. Names of headers are hashed with a fixed key: if strangers write
/// the score and `limits.header` is large, use `compile_with_hasher` (`docs/BENCHMARKS.md` has the
/// cost of chosen names).
pub fn compile<S: Source, O: Sink, M: Sink>(
    alloc: Global,
    job: &Job,
    limits: Limits,
    source: &mut S,
    out: &mut O,
    messages: &mut M,
) -> Status
    ensures { IsRun job.now limits
        (used S.remaining S.calls source.old source.new)
        (used O.written O.calls out.old out.new)
        (used M.written M.calls messages.old messages.new) result }
{
    let hasher = DefaultHasher::new();
    compile_with_hasher(alloc, job, limits, hasher, source, out, messages)
}

/// Does what `compile` does, and hashes the names of headers from `hasher` on, such as
/// `RandomState::new(&rt)?.build_hasher()`. What is written does not depend on it.
pub fn compile_with_hasher<S: Source, O: Sink, M: Sink>(
    alloc: Global,
    job: &Job,
    limits: Limits,
    hasher: DefaultHasher,
    source: &mut S,
    out: &mut O,
    messages: &mut M,
) -> Status
    ensures { IsRun job.now limits
        (used S.remaining S.calls source.old source.new)
        (used O.written O.calls out.old out.new)
        (used M.written M.calls messages.old messages.new) result }
{
    match Engine::with_hasher(alloc, job, limits, hasher) {
        Ok(mut engine) => {
            let status = run(&mut engine, limits, source, out, messages);
            // A proof follows a call faster than all that lies inside an engine.
            drop(engine);
            status
        }
        Err(_) => Status::NoMemory,
    }
}
