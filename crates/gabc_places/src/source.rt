//! The sources of bytes.

ghost use Rattle.std.specs.Prelude.{◌≡◌, ℕ, List, Option, length};
ghost use Rattle.gabc_places.specs.Calls.{Calls, IsRead, no_calls};
ghost use Rattle.std.specs.Io.KnownBytes.{ReadConsumes};
ghost use Rattle.std.specs.Io.{ReadsAtMost};

use crate::GhostCalls;
use std::io::Read;
use std::marker::Model;
use thiserror::Error;

/// A read that failed.
#[derive(Clone, Copy, Debug, PartialEq, Eq, Error)]
#[error("the source failed")]
pub struct SourceFault;

/// Supplies bytes.
pub trait Source {
    // the bytes still to come, where they are known
    ghost remaining: { Self → Option (List ℕ) };

    // how its reads went
    ghost calls: { Self → Calls };

    /// Reads bytes into the start of `buf`, at most as many as it has, and returns their number. A
    /// read of 0 bytes into a `buf` that is not empty is the end, and stops the source, as a
    /// failure does.
    fn read(&mut self, buf: &mut [u8]) -> Result<usize, SourceFault>
        ensures bound { ReadsAtMost result buf.new }
        ensures bytes { ReadConsumes (remaining self.old) (remaining self.new) result buf.new }
        ensures calls { IsRead result (length buf.old) (calls self.old) (calls self.new) };
}

/// A reader as a source. Each of the reader's errors is a failure.
#[derive(Drop)]
pub struct FromReader<R: Read + Drop> {
    inner: R,
    calls: GhostCalls,
}

impl<R: Read + Drop> Model for FromReader<R> {
    ghost use Rattle.gabc_places.specs.Calls.{WithCalls};

    ghost Value = { WithCalls R };

    ghost view = { λ s. record { inner = s.inner; calls = s.calls } };
}

impl<R: Read + Drop> FromReader<R> {
    /// Returns a source of the bytes of `inner`.
    pub fn new(inner: R) -> FromReader<R>
        ensures { result ≡ record { inner = inner; calls = no_calls } }
    {
        FromReader {
            inner,
            calls: GhostCalls::none(),
        }
    }

    /// Returns the reader.
    pub fn inner(&self) -> &R
        ensures { result.now ≡ self.now.inner }
    {
        &self.inner
    }
}

impl<R: Read + Drop> Source for FromReader<R> {
    ghost remaining = { λ s. R.remaining s.inner };

    ghost calls = { λ s. s.calls };

    fn read(&mut self, buf: &mut [u8]) -> Result<usize, SourceFault>
        ensures bound { ReadsAtMost result buf.new }
        ensures bytes { ReadConsumes (R.remaining self.old.inner)
            (R.remaining self.new.inner) result buf.new }
        ensures calls { IsRead result (length buf.old) self.old.calls self.new.calls }
    {
        match self.inner.read(buf) {
            Ok(n) => {
                self.calls.add_answer(n == 0 && !buf.is_empty());
                Ok(n)
            }
            Err(_) => {
                self.calls.add_failure();
                Err(SourceFault)
            }
        }
    }
}
