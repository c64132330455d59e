//! The takers of bytes: a room, a buffer, or a count of bytes. A writer is generic over them: it
//! puts a text, whose length in bytes is what a count has taken of it.

ghost use Rattle.std.specs.Prelude.{◌≡◌, [], ◌++◌, ℕ, List};
ghost use Rattle.gabc_places.specs.Put.{filled_with, counted_with};

use crate::Room;
use std::marker::Model;

/// Takes bytes, and does not allocate.
pub trait Put {
    // what it is once it has taken these bytes
    ghost taken: { Self → List ℕ → Self };

    /// Takes `bytes`: a room or a buffer as many as fit, a counter their number. To take two pieces
    /// is to take their join.
    fn put(&mut self, bytes: &[u8])
        ensures { self.new ≡ taken self.old bytes.now };

    // to take nothing changes nothing
    ghost taken_nothing: { (s : Self) → taken s [] ≡ s };

    // to take two pieces is to take their join
    ghost taken_both: { (s : Self) (a b : List ℕ) → taken (taken s a) b ≡ taken s (a ++ b) };
}

/// Adds the bytes at the end, as many as fit.
impl Put for Room<u8> {
    ghost use Rattle.std.proofs.Common.{rules};
    ghost use Rattle.std.proofs.lemmas.Grind.{common_steps};
    ghost use Rattle.gabc_places.specs.FilledPieceByPiece.{filled_both};

    ghost taken = { filled_with };

    ghost taken_nothing = { Prim.search (rules, common_steps) };

    ghost taken_both = { filled_both };

    #[inline(always)]
    fn put(&mut self, bytes: &[u8]) {
        if bytes.len() <= self.left() {
            self.append(bytes);
        } else {
            fill(self, bytes);
        }
    }
}

/// Adds as many of `bytes` at the end of `room` as fit. If all fit it is not called, so it stays
/// out of line.
#[inline(never)]
fn fill(room: &mut Room<u8>, bytes: &[u8])
    ensures { room.new ≡ filled_with room.old bytes.now }
{
    let len = bytes.len().min(room.left());
    room.append(&bytes[..len]);
}

/// A count of bytes. It saturates at the last value of a `usize`.
#[derive(Debug, Drop)]
pub struct ByteCounter {
    count: usize,
}

impl Model for ByteCounter {
    ghost use Rattle.std.specs.Prelude.{ℕ};

    ghost Value = { ℕ };

    ghost view = { λ c. c.count };
}

impl ByteCounter {
    /// Returns a count of 0.
    pub fn new() -> ByteCounter
        ensures { result ≡ 0 }
    {
        ByteCounter { count: 0 }
    }

    /// Returns the number of bytes that it has taken.
    pub fn count(&self) -> usize
        ensures { result ≡ self.now }
    {
        self.count
    }
}

/// Counts the bytes.
impl Put for ByteCounter {
    ghost use Rattle.std.proofs.Common.{rules};
    ghost use Rattle.std.proofs.lemmas.Grind.{common_steps};

    ghost taken = { counted_with };

    ghost taken_nothing = { Prim.search (rules, common_steps) };

    ghost taken_both = { Prim.search (rules, common_steps) };

    fn put(&mut self, bytes: &[u8]) {
        self.count = self.count.saturating_add(bytes.len());
    }
}
