//! Calls that restore runs from their saved states.

ghost use Rattle.std.specs.Prelude.{◌≤◌, length, IfOk};
ghost use Rattle.gregorio.specs.Engine.{NothingWaits};

use crate::digest::digest_of;
use crate::runs::{digest_of_engine, job_in};
use crate::trial::{Trial, try_call};
use gabc_places::{ByteCounter, Limits};
use gregorio::interrupted::a_run_may_be_interrupted;
use gregorio::{Engine, Format, Job, SourceEnding, StateFault};
use std::alloc::{AllocError, Global};
use std::hash::DefaultHasher;
use std::io;

/// A state, and the job of its run.
#[derive(Drop)]
struct Restored {
    is_hashed: bool,
    job: Job,
    state: Vec<u8>,
}

impl Restored {
    /// Makes the call.
    fn restore(&self, alloc: Global) -> Result<Engine, StateFault>
        ensures { IfOk result (λ engine. NothingWaits engine) }
    {
        let (job, limits, state) = (&self.job, Limits::DEFAULT, self.state.as_slice());
        if self.is_hashed {
            Engine::restore_with_hasher(alloc, job, limits, state, DefaultHasher::new())
        } else {
            Engine::restore(alloc, job, limits, state)
        }
    }
}

impl Trial for Restored {
    fn call(&mut self, alloc: Global) -> Result<u64, AllocError> {
        match self.restore(alloc) {
            Ok(engine) => Ok(digest_of_engine(engine)),
            Err(StateFault::K0) => Err(AllocError),
            Err(fault) => Ok(digest_of(&fault)),
        }
    }

    fn arguments(&self) -> u64 {
        digest_of(&(&self.job, &self.state))
    }
}

/// The number of bytes of a buffer that is never too short for a state under the default limits.
const BOUND: usize = 65664;

/// A job whose run a law saves and restores, and a buffer for its states.
#[derive(Drop)]
struct Lawful {
    is_interrupted: bool,
    job: Job,
    buffer: Vec<u8>,
}

/// Returns a digest of the texts that a run writes, once it was saved before its first byte and
/// restored.
fn goes_on(alloc: Global, job: &Job, buffer: &mut [u8]) -> Result<u64, AllocError>
    requires { 65664 ≤ length buffer.old }
{
    let limits = Limits::DEFAULT;
    let engine = Engine::new(alloc, job, limits)?;
    let restored = gregorio::restored_laws::a_restored_run_goes_on(
        alloc, &engine, job, limits, buffer,
    );
    // A proof follows a call faster than all that lies inside an engine.
    drop(engine);
    match restored {
        Ok(restored) => Ok(digest_of_engine(restored)),
        Err(_) => Err(AllocError),
    }
}

/// Returns a digest of the status of a run that is interrupted after the one piece of its input,
/// and of the numbers of bytes that it writes.
fn is_interrupted(alloc: Global, job: &Job, buffer: &mut [u8]) -> Result<u64, AllocError>
    requires { 65664 ≤ length buffer.old }
{
    let (mut out, mut messages) = (ByteCounter::new(), ByteCounter::new());
    let pieces: [&[u8]; 1] = [b"%%\nKy(f)ri(g)"];
    match a_run_may_be_interrupted(
        alloc,
        job,
        Limits::DEFAULT,
        &pieces,
        SourceEnding::Whole,
        buffer,
        &mut out,
        &mut messages,
    ) {
        Ok(status) => Ok(digest_of(&(status, out.count(), messages.count()))),
        Err(_) => Err(AllocError),
    }
}

impl Trial for Lawful {
    fn call(&mut self, alloc: Global) -> Result<u64, AllocError> {
        let buffer = self.buffer.as_mut_slice();
        if buffer.len() < BOUND {
            return Ok(0);
        }
        if self.is_interrupted {
            is_interrupted(alloc, &self.job, buffer)
        } else {
            goes_on(alloc, &self.job, buffer)
        }
    }

    fn arguments(&self) -> u64 {
        digest_of(&self.job)
    }
}

/// Tries a law that restores a run.
fn try_law(rt: &HostRuntime, is_interrupted: bool) -> io::Result<()> {
    let mut buffer = Vec::new(rt.alloc());
    for _ in 0..BOUND {
        buffer.push(0)?;
    }
    let mut lawful = Lawful {
        is_interrupted,
        job: job_in(Format::Dump),
        buffer,
    };
    try_call(rt, &mut lawful)
}

/// Returns the value of a hexadecimal digit, or 0.
fn digit(byte: u8) -> u8 {
    match byte {
        b'0'..=b'9' => byte - b'0',
        b'a'..=b'f' => byte - b'a' + 10,
        _ => 0,
    }
}

/// Returns the bytes of `digits`, two hexadecimal digits each.
fn bytes_of(alloc: Global, digits: &str) -> Result<Vec<u8>, AllocError> {
    let mut bytes = Vec::new(alloc);
    for pair in digits.as_bytes().chunks(2) {
        if let [high, low] = pair {
            bytes.push(digit(*high).wrapping_mul(16).wrapping_add(digit(*low)))?;
        }
    }
    Ok(bytes)
}

/// Tries to restore a run that writes in `format` from the state with these `digits`.
fn try_restore(rt: &HostRuntime, is_hashed: bool, format: Format, digits: &str) -> io::Result<()> {
    let mut restored = Restored {
        is_hashed,
        job: job_in(format),
        state: bytes_of(rt.alloc(), digits)?,
    };
    try_call(rt, &mut restored)
}

/// Tries a call of this file. Returns whether there is such a call.
pub(crate) fn is_tried(rt: &HostRuntime, name: &str, input: &str) -> io::Result<bool> {
    match name {
        "gregorio::Engine::restore headers" => try_restore(rt, false, Format::Gabc, input)?,
        "gregorio::Engine::restore score" => try_restore(rt, false, Format::Dump, input)?,
        "gregorio::Engine::restore_with_hasher" => try_restore(rt, true, Format::Dump, input)?,
        "gregorio::interrupted::a_run_may_be_interrupted" => try_law(rt, true)?,
        "gregorio::restored_laws::a_restored_run_goes_on" => try_law(rt, false)?,
        _ => return Ok(false),
    }
    Ok(true)
}
