//! Counts the bytes of a text that a run writes, and keeps the first of them.

ghost use Rattle.std.specs.Prelude.{◌≡◌, ◌<◌, ◌-◌, ◌^◌, ℕ, List, [], length, IfOk, IfSome, IsSome};
ghost use Rattle.gabc_places.specs.Put.{counted_with, filled_with};
ghost use Rattle.gregorio_c.specs.Answers.{IsPut};
ghost use Rattle.gregorio_c.specs.machine.FirstBytes.{Keeps};

use crate::buffers::is_written;
use gabc_places::{ByteCounter, Put, Room};
use std::alloc::{AllocError, Global};

/// The number of bytes of a text that is put into it, and the first of them.
#[derive(Drop)]
pub(crate) struct FirstBytes {
    first: Room<u8>,
    counter: ByteCounter,
}

impl FirstBytes {
    /// Returns one that keeps at most `limit` bytes, and has taken none. It fails only if memory
    /// runs out.
    pub(crate) fn with_limit(alloc: Global, limit: usize) -> Result<FirstBytes, AllocError>
        ensures taken { IfOk result (λ f. Keeps f []) }
        ensures limit { IfOk result (λ f. f.first.limit ≡ limit) }
    {
        Ok(FirstBytes {
            first: Room::with_limit(alloc, limit)?,
            counter: ByteCounter::new(),
        })
    }

    /// Returns the number of bytes of the text, or the last value of a `usize` if there are as many
    /// or more.
    pub(crate) fn count(&self) -> usize
        ensures { result ≡ self.now.counter }
    {
        self.counter.count()
    }

    /// Returns the text, if all of it is kept.
    pub(crate) fn whole(&self) -> Option<&[u8]>
        ensures text { IfSome result (λ bytes. (text : List ℕ) → Keeps self.now text →
            self.now.counter < 2 ^ 64 - 1 → bytes.now ≡ text) }
        ensures kept { length self.now.first.items ≡ self.now.counter → IsSome result }
    {
        let first = self.first.slice();
        if first.len() == self.count() {
            Some(first)
        } else {
            None
        }
    }

    /// Returns the bytes to put into `buf` for the text: none, if `buf` takes nothing of it, else
    /// the text, if all of it is kept.
    pub(crate) fn to_put(&self, buf: &[u8]) -> Option<&[u8]>
        ensures text { IfSome result (λ bytes. (text new : List ℕ) → Keeps self.now text →
            self.now.counter < 2 ^ 64 - 1 → IsPut bytes.now buf.now new → IsPut text buf.now new) }
        ensures kept { length self.now.first.items ≡ self.now.counter → IsSome result }
    {
        if is_written(buf, self.count()) {
            self.whole()
        } else {
            Some(&[])
        }
    }
}

impl Put for FirstBytes {
    ghost use Rattle.std.proofs.Common.{rules};
    ghost use Rattle.std.proofs.lemmas.Grind.{common_steps};
    ghost use Rattle.gabc_places.specs.FilledPieceByPiece.{filled_both};

    ghost taken = { λ f bytes. record f {
      first = filled_with f.first bytes;
      counter = counted_with f.counter bytes;
    } };

    ghost taken_nothing = { Prim.search (rules, common_steps) };

    ghost taken_both = { Prim.search (rules, common_steps, filled_both) };

    fn put(&mut self, bytes: &[u8]) {
        if !self.first.is_full() {
            self.first.put(bytes);
        }
        self.counter.put(bytes);
    }
}
