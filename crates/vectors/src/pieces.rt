//! Compares runs of one engine, which takes its input in pieces and restarts again and again, with
//! what a run must write.

ghost use Rattle.std.specs.Prelude.{◌<◌};
ghost use Rattle.gregorio.specs.Engine.{NothingWaits};

use crate::known::{Known, Wanted};
use crate::run::job;
use gregorio::{Engine, Status};
use std::alloc::Global;

/// The numbers of bytes of the pieces of an input: a run is made with each of these, after the
/// engine was fed a part of the input in vain: nothing, a quarter, and so on up to the whole.
const LENGTHS: [usize; 5] = [1, 2, 3, 7, 8192];

/// Feeds a piece, and takes the bytes that are written of it off `wanted`. Returns whether `wanted`
/// began with them.
fn feed_piece(engine: &mut Engine, piece: &[u8], wanted: &mut Wanted) -> bool
    requires waits { NothingWaits engine.old }
    ensures waits { NothingWaits engine.new }
{
    let mut count = 0;
    while count < piece.len() {
        count += engine.feed(&piece[count..]);
        if !wanted.take(engine) {
            return false;
        }
    }
    true
}

/// Feeds `bytes` in pieces of this `length`, and takes the bytes that are written of them off
/// `wanted`. Returns whether `wanted` began with them.
fn feed_all(engine: &mut Engine, bytes: &[u8], length: usize, wanted: &mut Wanted) -> bool
    requires length { 0 < length }
    requires waits { NothingWaits engine.old }
    ensures waits { NothingWaits engine.new }
{
    for piece in bytes.chunks(length) {
        if !feed_piece(engine, piece, wanted) {
            return false;
        }
    }
    true
}

/// Ends the run of an input whose source has ended, or has failed if it is `broken`, and returns
/// its status.
pub(crate) fn end(engine: &mut Engine, broken: bool) -> Status
    requires waits { NothingWaits engine.old }
{
    if broken {
        engine.broken()
    } else {
        engine.end()
    }
}

/// Returns whether an engine that takes the bytes of a run in pieces of this `length` has the
/// output, the messages and the status that are known.
fn has_output(engine: &mut Engine, known: Known, length: usize) -> bool
    requires length { 0 < length }
    requires waits { NothingWaits engine.old }
{
    let mut wanted = known.wanted;
    feed_all(engine, known.asked.bytes, length, &mut wanted)
        && end(engine, known.asked.broken).code() == known.status
        && wanted.take(engine)
        && wanted.is_empty()
}

/// Feeds `bytes`, and drops the bytes that are written of them but for the last, which wait.
fn feed_in_vain(engine: &mut Engine, bytes: &[u8]) {
    let mut count = 0;
    while count < bytes.len() {
        engine.taken();
        count += engine.feed(&bytes[count..]);
    }
}

/// Returns whether `engine` makes the known run after it is restarted within the input, when bytes
/// may wait, and after its end, however long the pieces are.
fn gives_again(engine: &mut Engine, known: Known) -> bool {
    let bytes = known.asked.bytes;
    let len = bytes.len();
    let mut read = 0usize;
    for length in LENGTHS {
        feed_in_vain(engine, &bytes[..read.min(len)]);
        engine.restart();
        if !has_output(engine, known, length) {
            return false;
        }
        engine.restart();
        read = read.saturating_add(len / 4 + 1);
    }
    true
}

/// Returns whether an engine that takes the bytes of a run in pieces makes the known run, however
/// long the pieces are, and wherever it is restarted; false if there is no memory for an engine.
pub(crate) fn agrees_in_pieces(alloc: Global, known: Known) -> bool {
    let asked = known.asked;
    match Engine::new(alloc, &job(asked.format, asked.all_warnings), asked.limits) {
        Ok(mut engine) => {
            let agrees = gives_again(&mut engine, known);
            // A proof follows a call faster than all that lies inside an engine.
            drop(engine);
            agrees
        }
        Err(_) => false,
    }
}
