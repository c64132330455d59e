//! From a byte of a text to its place.

ghost use Rattle.std.specs.Prelude.{◌≡◌, ◌≤◌, MatchOption};
ghost use Rattle.gabc_places.specs.Bytes.{bytes_in, IsByteAt};

use crate::place::{Char, Place};

/// Returns the place of the character to which the byte `byte`, from 0, of the UTF-8 text of
/// `chars` belongs; `None` if the text has no such byte. With the characters of a kept text, as
/// `kept_chars` of the crates above returns them, it is the place of an item whose span begins at
/// `byte`.
pub fn place_of_byte(chars: &[Char], byte: usize) -> Option<Place>
    ensures { MatchOption result (bytes_in chars.now ≤ byte)
        (λ place. IsByteAt chars.now byte place) }
{
    let mut left = byte;
    for x in chars {
        let len = x.c.len_utf8();
        if left < len {
            return Some(x.place);
        }
        left -= len;
    }
    None
}
