//! Compiles a score by runs of an engine over it: one that counts what it writes and keeps the
//! first bytes, and, if they are not all, another one that writes what fits.

ghost use Rattle.std.specs.Prelude.{◌≡◌, ◌++◌, ◌<◌, ◌-◌, ◌^◌, ℕ, List, true, false, IfOk, OnOk, OnErr, codes};
ghost use Rattle.gabc_places.specs.declared.limits.Limits.{Limits};
ghost use Rattle.gregorio.specs.declared.source_ending.SourceEnding.TheVariants.{Whole};
ghost use Rattle.gregorio.specs.Engine.{NothingWaits};
ghost use Rattle.gregorio.specs.witness.Engine.{streams_left};
ghost use Rattle.gregorio_c.specs.Answers.{Answer, IsPut};
ghost use Rattle.gregorio_c.specs.machine.Runs.{HasWritten, IsAsUsual};
ghost use Rattle.gregorio_c.specs.machine.Streams.{AreLengthsOf, streams_of_score};
ghost use Rattle.gregorio_c.specs.declared.request.Request.{Request};

use crate::buffers::{put, start_of};
use crate::engines::{engine_of, is_too_long, small_limits};
use crate::first_bytes::FirstBytes;
use crate::lengths::Lengths;
use crate::request::Request;
use gabc_places::{BufferFiller, Fault, Limits};
use gregorio::{Engine, Status};
use std::alloc::{AllocError, Global};

/// The most bytes of the output that the first run keeps. If there are more, a second run writes
/// them.
const KEPT_OUTPUT: usize = 16_777_216;

/// The most bytes of the messages that the first run keeps.
const KEPT_MESSAGES: usize = 8192;

/// Returns the number of bytes of the output that the first run over `score` keeps, if there is
/// room for `room` bytes: 32 for each byte of the score, which is more than most dumps have, but no
/// more than `room`, nor than `KEPT_OUTPUT`.
fn kept_output(score: &[u8], room: usize) -> usize {
    score.len().saturating_mul(32).min(room).min(KEPT_OUTPUT)
}

/// A run over a score under `limits`: its output and its messages, as far as they are kept, and its
/// end.
#[derive(Drop)]
struct Run {
    limits: Limits,
    output: FirstBytes,
    messages: FirstBytes,
    status: Status,
    fault: Option<Fault>,
}

impl Run {
    /// Returns the numbers of bytes that it has written.
    fn lengths(&self) -> Lengths
        ensures { (request : Request) (limits : Limits) (score : List ℕ) →
            HasWritten self.now (streams_of_score request limits score) →
            AreLengthsOf result (streams_of_score request limits score) }
    {
        Lengths {
            output: self.output.count(),
            messages: self.messages.count(),
        }
    }
}

/// Runs over `score` under `limits`, and returns what it writes; of the output it keeps no more
/// than `room` bytes. It fails only if memory runs out, or if it writes more than can be counted.
fn run_under(
    alloc: Global,
    request: Request,
    limits: Limits,
    key: &[u64],
    score: &[u8],
    room: usize,
) -> Result<Run, AllocError>
    ensures written { IfOk result (λ run.
        HasWritten run (streams_of_score request limits score.now)) }
    ensures limits { IfOk result (λ run. run.limits ≡ limits) }
{
    let mut output = FirstBytes::with_limit(alloc, kept_output(score, room))?;
    let mut messages = FirstBytes::with_limit(alloc, KEPT_MESSAGES)?;
    let mut engine = engine_of(alloc, request, limits, key)?;
    let status = engine.run_over(score, &mut output, &mut messages);
    let fault = engine.fault();
    // A proof follows a call faster than all that lies inside an engine.
    drop(engine);
    if output.count() == usize::MAX || messages.count() == usize::MAX {
        return Err(AllocError);
    }
    Ok(Run {
        limits,
        output,
        messages,
        status,
        fault,
    })
}

/// Runs over `score`, and returns what it writes: under small limits, or, if these have stopped it,
/// under the default ones. It keeps and fails as `run_under` does.
fn run_over(
    alloc: Global,
    request: Request,
    key: &[u64],
    score: &[u8],
    room: usize,
) -> Result<Run, AllocError>
    ensures written { IfOk result (λ run.
        HasWritten run (streams_of_score request run.limits score.now)) }
    ensures usual { IfOk result (λ run. IsAsUsual request run.limits score.now) }
{
    gregorio::laws::larger_limits_change_nothing();
    let usual = Limits::default();
    let run = run_under(alloc, request, small_limits(usual, score), key, score, room)?;
    if is_too_long(run.fault) {
        drop(run);
        return run_under(alloc, request, usual, key, score, room);
    }
    Ok(run)
}

/// Runs `engine` over `score`, and writes each of its texts that fits into its buffer. `lengths`
/// are those of the texts.
fn write_by(
    engine: &mut Engine,
    score: &[u8],
    lengths: &Lengths,
    output: &mut [u8],
    messages: &mut [u8],
)
    requires waits { NothingWaits engine.old }
    requires lengths { AreLengthsOf lengths.now (streams_left engine.old Whole score.now) }
    ensures output { IsPut (streams_left engine.old Whole score.now).output
        output.old output.new }
    ensures messages { IsPut (streams_left engine.old Whole score.now).messages
        messages.old messages.new }
{
    let output_start = start_of(output, lengths.output);
    let messages_start = start_of(messages, lengths.messages);
    let _ = engine.run_over(
        score,
        &mut BufferFiller {
            buf: output,
            len: output_start,
        },
        &mut BufferFiller {
            buf: messages,
            len: messages_start,
        },
    );
}

/// Writes each of the texts of `run`, a run over `score`, that fits into its buffer. `lengths` are
/// those of the texts. It fails only if memory runs out, and writes nothing then.
fn write_texts(
    alloc: Global,
    request: Request,
    key: &[u64],
    score: &[u8],
    run: &Run,
    lengths: &Lengths,
    output: &mut [u8],
    messages: &mut [u8],
) -> Result<(), AllocError>
    requires written { HasWritten run.now (streams_of_score request run.now.limits score.now) }
    requires lengths { AreLengthsOf lengths.now
        (streams_of_score request run.now.limits score.now) }
    ensures output { OnOk result (IsPut
        (streams_of_score request run.now.limits score.now).output output.old output.new) }
    ensures messages { OnOk result (IsPut
        (streams_of_score request run.now.limits score.now).messages messages.old messages.new) }
    ensures unchanged { OnErr result (output.new ≡ output.old) }
    ensures messages_unchanged { OnErr result (messages.new ≡ messages.old) }
{
    let first = (run.output.to_put(output), run.messages.to_put(messages));
    if let (Some(text), Some(lines)) = first {
        put(text, output);
        put(lines, messages);
        return Ok(());
    }
    let mut engine = engine_of(alloc, request, run.limits, key)?;
    write_by(&mut engine, score, lengths, output, messages);
    drop(engine);
    Ok(())
}

/// Compiles `score`: puts each of its two texts that fits into its buffer, and their lengths into
/// `lengths`. Returns the exit status. It fails only if memory runs out, or if a run writes more
/// than can be counted, and writes nothing then.
pub(crate) fn compile(
    alloc: Global,
    request: Request,
    key: &[u64],
    score: &[u8],
    output: &mut [u8],
    messages: &mut [u8],
    lengths: &mut Lengths,
) -> Result<u32, AllocError>
    ensures answered { IfOk result (λ status.
        Answer request score.now output.old output.new messages.old messages.new lengths.new status) }
    ensures unchanged { OnErr result (output.new ≡ output.old) }
    ensures messages_unchanged { OnErr result (messages.new ≡ messages.old) }
    ensures lengths_unchanged { OnErr result (lengths.new ≡ lengths.old) }
{
    let run = run_over(alloc, request, key, score, output.len())?;
    let written = run.lengths();
    write_texts(alloc, request, key, score, &run, &written, output, messages)?;
    *lengths = written;
    Ok(u32::from(run.status.code()))
}
