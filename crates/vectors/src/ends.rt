//! Makes runs of `compile`, and of engines whose output is sent, into sinks that fail or take few
//! bytes a call.

ghost use Rattle.std.specs.Prelude.{◌<◌};
ghost use Rattle.gregorio.specs.Engine.{NothingWaits};

use crate::known::{Known, Wanted};
use crate::pieces::end;
use crate::run::{Request, job};
use gabc_places::{TrialSink, TrialSource, Unsent, send_all};
use gregorio::{Engine, Status, compile};
use std::alloc::{AllocError, Global};

/// The most bytes that a sink takes a call.
const MOST: [usize; 2] = [1, 8192];

/// The numbers of bytes that the sinks for the output and for the messages hold before they fail.
#[derive(Clone, Copy)]
struct Holding {
    output: usize,
    messages: usize,
}

/// The sinks of a run.
#[derive(Drop)]
struct Sinks {
    output: TrialSink,
    messages: TrialSink,
}

impl Sinks {
    /// Returns sinks that take `most` bytes a call, and fail after the bytes that they hold by
    /// `holding`.
    fn new(alloc: Global, most: usize, holding: Holding) -> Result<Sinks, AllocError>
        requires { 0 < most }
    {
        Ok(Sinks {
            output: TrialSink::new(alloc, most, holding.output)?,
            messages: TrialSink::new(alloc, most, holding.messages)?,
        })
    }

    /// Returns whether each sink holds the first bytes of its text in `wanted`, and as many of them
    /// as it can, unless the other one failed.
    fn are_filled(&self, wanted: Wanted, holding: Holding) -> bool {
        let (output, messages) = (self.output.held(), self.messages.held());
        let output_failed = holding.output < wanted.output.len();
        let messages_failed = holding.messages < wanted.messages.len();
        wanted.output.starts_with(output)
            && wanted.messages.starts_with(messages)
            && (messages_failed || output.len() == wanted.output.len().min(holding.output))
            && (output_failed || messages.len() == wanted.messages.len().min(holding.messages))
    }

    /// Sends the bytes that wait in `engine`, the output first, and drops them there.
    fn send(&mut self, engine: &mut Engine) -> Result<(), Unsent>
        ensures waits { NothingWaits engine.new }
    {
        let sent = match send_all(&mut self.output, engine.out()) {
            Ok(()) => send_all(&mut self.messages, engine.messages()),
            Err(unsent) => Err(unsent),
        };
        engine.taken();
        sent
    }
}

/// Returns the exit status of a run with sinks that hold as many bytes as `holding` says.
fn status_with(known: Known, holding: Holding) -> u8 {
    let output_fails = holding.output < known.wanted.output.len();
    if output_fails || holding.messages < known.wanted.messages.len() {
        Status::WriteFault.code()
    } else {
        known.status
    }
}

/// Returns whether `compile` fills sinks, which take `most` bytes a call, as it has to.
fn compile_fills(
    alloc: Global,
    known: Known,
    most: usize,
    holding: Holding,
) -> Result<bool, AllocError>
    requires { 0 < most }
{
    let asked = known.asked;
    let fails_after = if asked.broken {
        Some(asked.bytes.len())
    } else {
        None
    };
    let mut source = TrialSource::new(asked.bytes, most, fails_after);
    let mut sinks = Sinks::new(alloc, most, holding)?;
    let status = compile(
        alloc,
        &job(asked.format, asked.all_warnings),
        asked.limits,
        &mut source,
        &mut sinks.output,
        &mut sinks.messages,
    );
    Ok(status.code() == status_with(known, holding) && sinks.are_filled(known.wanted, holding))
}

/// Feeds bytes to an engine, and sends what it writes.
fn feed_all(engine: &mut Engine, bytes: &[u8], sinks: &mut Sinks) -> Result<(), Unsent>
    requires waits { NothingWaits engine.old }
    ensures waits { NothingWaits engine.new }
{
    let mut count = 0;
    while count < bytes.len() {
        count += engine.feed(&bytes[count..]);
        sinks.send(engine)?;
    }
    Ok(())
}

/// Makes a run of an engine, sends what it writes, and returns its exit status.
fn run_engine(engine: &mut Engine, asked: Request, sinks: &mut Sinks) -> u8
    requires waits { NothingWaits engine.old }
{
    if feed_all(engine, asked.bytes, sinks).is_err() {
        return Status::WriteFault.code();
    }
    let status = end(engine, asked.broken);
    match sinks.send(engine) {
        Ok(()) => status.code(),
        Err(_) => Status::WriteFault.code(),
    }
}

/// Returns whether an engine fills sinks, which take `most` bytes a call, as it has to.
fn engine_fills(
    alloc: Global,
    known: Known,
    most: usize,
    holding: Holding,
) -> Result<bool, AllocError>
    requires { 0 < most }
{
    let asked = known.asked;
    let mut sinks = Sinks::new(alloc, most, holding)?;
    match Engine::new(alloc, &job(asked.format, asked.all_warnings), asked.limits) {
        Ok(mut engine) => {
            let status = run_engine(&mut engine, asked, &mut sinks);
            // A proof follows a call faster than all that lies inside an engine.
            drop(engine);
            Ok(status == status_with(known, holding) && sinks.are_filled(known.wanted, holding))
        }
        Err(error) => Err(error),
    }
}

/// Returns whether both fill sinks as they have to, however many bytes these take a call.
fn fills(alloc: Global, known: Known, holding: Holding) -> Result<bool, AllocError> {
    for most in MOST {
        if !compile_fills(alloc, known, most, holding)?
            || !engine_fills(alloc, known, most, holding)?
        {
            return Ok(false);
        }
    }
    Ok(true)
}

/// Returns whether a run stops when its sink for the output fails, after each number of bytes, and
/// goes to its end if the sink holds all.
fn fills_output(alloc: Global, known: Known) -> Result<bool, AllocError> {
    for output in 0..=known.wanted.output.len() {
        let messages = known.wanted.messages.len();
        if !fills(alloc, known, Holding { output, messages })? {
            return Ok(false);
        }
    }
    Ok(true)
}

/// Returns whether a run stops when a sink fails, after each number of bytes.
pub(crate) fn fills_sinks(alloc: Global, known: Known) -> Result<bool, AllocError> {
    for messages in 0..known.wanted.messages.len() {
        let output = known.wanted.output.len();
        if !fills(alloc, known, Holding { output, messages })? {
            return Ok(false);
        }
    }
    fills_output(alloc, known)
}
