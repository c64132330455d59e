//! The texts that are NABC snippets.

ghost use Rattle.std.specs.Prelude.{IsTrue, ◌↔◌};
ghost use Rattle.gabc_nabc.specs.Parts.{IsNabc};

use crate::class::class_of;
use crate::state::{DescriptorState, is_whole, next_state};

/// Returns whether `kept` is an NABC snippet: whether the spaces and descriptors of the table, each
/// the longest at its place, read it to its last byte.
pub fn is_nabc(kept: &str) -> bool
    ensures { IsTrue result ↔ IsNabc kept.now }
{
    let mut state = DescriptorState::Start;
    for c in kept.chars() {
        match next_state(state, class_of(c)) {
            Some(after) => state = after,
            None => return false,
        }
    }
    is_whole(state)
}
