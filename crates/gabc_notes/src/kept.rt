//! The texts that are snippets.

ghost use Rattle.std.specs.Prelude.{IsTrue, ◌↔◌};
ghost use Rattle.gabc_notes.specs.Items.{IsKept};

use crate::class::class_of;
use crate::state::{ItemState, is_whole, next_state};

/// Returns whether `kept` is a snippet: whether the items of the table, each the longest at its
/// place, read it to its last byte.
pub fn is_snippet(kept: &str) -> bool
    ensures { IsTrue result ↔ IsKept kept.now }
{
    let mut state = ItemState::Start;
    for c in kept.chars() {
        match next_state(state, class_of(c)) {
            Some(after) => state = after,
            None => return false,
        }
    }
    is_whole(state)
}
