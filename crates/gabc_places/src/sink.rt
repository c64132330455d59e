//! The sinks of bytes.

ghost use Rattle.std.specs.Prelude.{◌≡◌, ℕ, ◌<◌, length, take, List, IfOk, OnOk, OnErr, IfErr, Option};
ghost use Rattle.gabc_places.specs.Calls.{Calls, FailsOnce, GoesOn, IsWrite, no_calls};
ghost use Rattle.std.specs.Io.KnownBytes.{Appends, WriteAppends};
ghost use Rattle.std.specs.Io.{WritesAtMost};

use crate::GhostCalls;
use std::io::Write;
use std::marker::Model;
use thiserror::Error;

/// A write that failed.
#[derive(Clone, Copy, Debug, PartialEq, Eq, Error)]
#[error("the sink failed")]
pub struct SinkFault;

/// Takes bytes.
pub trait Sink {
    // the bytes taken, where they are known
    ghost written: { Self → Option (List ℕ) };

    // how its writes went
    ghost calls: { Self → Calls };

    /// Takes a prefix of `bytes`, and returns its number of bytes: at least 1, if `bytes` are not
    /// empty. If it fails, it took none, and is stopped.
    fn write(&mut self, bytes: &[u8]) -> Result<usize, SinkFault>
        ensures bound { WritesAtMost result bytes.now }
        ensures bytes { WriteAppends (written self.old) (written self.new) result bytes.now }
        ensures takes { IfOk result (λ n. 0 < length bytes.now → 0 < n) }
        ensures calls { IsWrite result (calls self.old) (calls self.new) };
}

/// A sending that failed before its last byte.
#[derive(Clone, Copy, Debug, PartialEq, Eq, Error)]
#[error("the sink failed after {sent} bytes")]
pub struct Unsent {
    /// The number of bytes that the sink took, from the first on.
    pub sent: usize,
}

/// Writes all `bytes` to `sink`. If the sink fails, it took the first `sent` of them, fewer than
/// all. The sink is not called again after a failure.
pub fn send_all<S: Sink>(sink: &mut S, bytes: &[u8]) -> Result<(), Unsent>
    ensures all { OnOk result (Appends (S.written sink.old) (S.written sink.new) bytes.now) }
    ensures prefix { IfErr result (λ u. Appends (S.written sink.old) (S.written sink.new)
        (take u.sent bytes.now)) }
    ensures less { IfErr result (λ u. u.sent < length bytes.now) }
    ensures goes_on { OnOk result (GoesOn (S.calls sink.old) (S.calls sink.new)) }
    ensures fails { OnErr result (FailsOnce (S.calls sink.old) (S.calls sink.new)) }
{
    let mut sent = 0;
    while sent < bytes.len() {
        match sink.write(&bytes[sent..]) {
            Ok(n) => sent += n,
            Err(_) => return Err(Unsent { sent }),
        }
    }
    Ok(())
}

/// A writer as a sink. Each of the writer's errors is a failure, and so is a write of at least one
/// byte that takes none.
#[derive(Drop)]
pub struct ToWriter<W: Write + Drop> {
    inner: W,
    calls: GhostCalls,
}

impl<W: Write + Drop> Model for ToWriter<W> {
    ghost use Rattle.gabc_places.specs.Calls.{WithCalls};

    ghost Value = { WithCalls W };

    ghost view = { λ s. record { inner = s.inner; calls = s.calls } };
}

impl<W: Write + Drop> ToWriter<W> {
    /// Returns a sink that passes on to `inner`.
    pub fn new(inner: W) -> ToWriter<W>
        ensures { result ≡ record { inner = inner; calls = no_calls } }
    {
        ToWriter {
            inner,
            calls: GhostCalls::none(),
        }
    }

    /// Returns the writer.
    pub fn inner(&self) -> &W
        ensures { result.now ≡ self.now.inner }
    {
        &self.inner
    }
}

impl<W: Write + Drop> Sink for ToWriter<W> {
    ghost written = { λ s. W.contents s.inner };

    ghost calls = { λ s. s.calls };

    fn write(&mut self, bytes: &[u8]) -> Result<usize, SinkFault>
        ensures bound { WritesAtMost result bytes.now }
        ensures bytes { WriteAppends (W.contents self.old.inner)
            (W.contents self.new.inner) result bytes.now }
        ensures takes { IfOk result (λ n. 0 < length bytes.now → 0 < n) }
        ensures calls { IsWrite result self.old.calls self.new.calls }
    {
        match self.inner.write(bytes) {
            Ok(n) if n > 0 || bytes.is_empty() => {
                self.calls.add_answer(false);
                Ok(n)
            }
            _ => {
                self.calls.add_failure();
                Err(SinkFault)
            }
        }
    }
}
