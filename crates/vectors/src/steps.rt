//! Checks what the library for C has no call for: with which bytes an engine that is fed stops, how
//! one is filled while bytes wait, buffers that are too short for a state or longer than it, and
//! what an engine does after its end.

ghost use Rattle.std.specs.Prelude.{◌≡◌, true, false};
ghost use Rattle.gregorio.specs.Engine.{NothingWaits, is_running};

use crate::known::{Known, known_of};
use crate::pieces::end;
use crate::row::{column, row_of};
use crate::run::job;
use gregorio::Engine;
use std::alloc::{AllocError, Global};

/// The number of bytes of the pieces from which an engine is filled.
const PIECE: usize = 5;

/// The number of bytes of a buffer that is longer than the states of the runs.
const BUFFER: usize = 512;

/// Returns whether output or messages wait.
fn waits(engine: &Engine) -> bool
    ensures { result ≡ false → NothingWaits engine.now }
{
    !engine.out().is_empty() || !engine.messages().is_empty()
}

/// Returns whether a fresh engine that is fed `bytes` takes up to each number of `stops` in a call,
/// and then all that is left.
fn stops_at(engine: &mut Engine, bytes: &[u8], stops: &[usize]) -> bool {
    let mut rest = bytes;
    let mut taken = 0usize;
    for stop in stops {
        if waits(engine) {
            return false;
        }
        let count = engine.feed(rest);
        engine.taken();
        taken = taken.saturating_add(count);
        if taken != *stop {
            return false;
        }
        rest = &rest[count..];
    }
    !waits(engine) && engine.feed(rest) == rest.len() && !waits(engine)
}

/// Returns whether `engine` saves its state into the longer `buffer`, whose bytes are all 0, leaves
/// the other bytes, and saves nothing into a buffer that is a byte shorter than the state.
fn saves(engine: &Engine, buffer: &mut [u8]) -> bool
    requires runs { is_running engine.now ≡ true }
    requires waits { NothingWaits engine.now }
{
    let len = engine.state_len();
    let less = len.saturating_sub(1);
    if len > buffer.len() || engine.save_into(&mut buffer[..less]).is_ok() {
        return false;
    }
    let unchanged = buffer.iter().all(|byte| *byte == 0);
    let Ok(saved) = engine.save_into(buffer) else {
        return false;
    };
    let Some((_, rest)) = buffer.split_at_checked(len) else {
        return false;
    };
    unchanged && saved == len && rest.iter().all(|byte| *byte == 0)
}

/// Returns whether a fresh engine that is filled from pieces, while all that it writes waits, has
/// taken as many bytes as `stop` says if one of them stops it, and writes what is known.
fn is_filled(engine: &mut Engine, known: Known, stop: Option<usize>) -> bool {
    let mut count = 0usize;
    for piece in known.asked.bytes.chunks(PIECE) {
        if engine.running() {
            count = count.saturating_add(engine.fill(piece));
        }
    }
    let mut left = known.wanted;
    (engine.running() || stop == Some(count))
        && left.take(engine)
        && end(engine, known.asked.broken).code() == known.status
        && left.take(engine)
        && left.is_empty()
}

/// Returns whether an engine is over with this status: it takes all, nothing waits, and it has the
/// same fault.
fn is_over(engine: &mut Engine, status: u8) -> bool
    requires { NothingWaits engine.old }
{
    let fault = engine.fault();
    !engine.running()
        && engine.feed(b"%%\na(f)b(Q)") == 11
        && engine.fill(b"%%\na(f)b(Q)") == 11
        && !waits(engine)
        && engine.end().code() == status
        && !waits(engine)
        && engine.broken().code() == status
        && !waits(engine)
        && engine.fault() == fault
}

/// Returns whether a fresh engine stops at `stops` when it is fed the input of the run, and, if
/// that does not end the run, is saved then; and whether it is filled with the same input once it
/// is restarted, and has no fault once it is restarted again.
fn agrees(engine: &mut Engine, known: Known, stops: &[usize]) -> bool {
    let stopped = stops_at(engine, known.asked.bytes, stops);
    let mut buffer = [0; BUFFER];
    let saved = !engine.running() || !waits(engine) && saves(engine, &mut buffer);
    engine.restart();
    let filled = is_filled(engine, known, stops.last().copied())
        && !waits(engine)
        && is_over(engine, known.status);
    engine.restart();
    stopped && saved && filled && engine.fault().is_none()
}

/// Returns the numbers of bytes that are taken at the steps of a column: `TAKEN,OUTPUT,MESSAGES` of
/// each, split by blanks. A number that is none is the largest.
fn stops_of(alloc: Global, column: &str) -> Result<Vec<usize>, AllocError> {
    let mut stops = Vec::new(alloc);
    for part in column.split(' ') {
        let taken = part.split(',').next().unwrap_or("");
        stops.push(taken.parse::<usize>().unwrap_or(usize::MAX))?;
    }
    Ok(stops)
}

/// Returns whether an engine stops at the steps of this line of a file, and goes on as it has to;
/// the row has the steps after the status.
pub(crate) fn has_steps(alloc: Global, line: &str) -> Result<bool, AllocError> {
    let stops = stops_of(alloc, column(line, 7))?;
    let Some(row) = row_of(alloc, line)? else {
        return Ok(false);
    };
    let Some(known) = known_of(&row) else {
        return Ok(false);
    };
    let asked = known.asked;
    match Engine::new(alloc, &job(asked.format, asked.all_warnings), asked.limits) {
        Ok(mut engine) => {
            let agrees = agrees(&mut engine, known, stops.as_slice());
            // A proof follows a call faster than all that lies inside an engine.
            drop(engine);
            Ok(agrees)
        }
        Err(error) => Err(error),
    }
}
