//! The length of a regular NABC snippet: it is kept as it is written, and nothing is found in it.

ghost use Rattle.std.specs.Prelude.{◌≡◌, true};
ghost use Rattle.gabc_patterns.specs.LongestPrefix.{IsLongestPrefix};
ghost use Rattle.gabc_nabc.specs.CharClass.{class_of_character};
ghost use Rattle.gabc_nabc.specs.Regular.{IsRegular};
ghost use Rattle.gabc_nabc.specs.machine.Regular.{regular_after, IsLoneCode};
ghost use Rattle.gabc_nabc.specs.witness.DescriptorMachine.{whole_at};

use crate::class::{NabcClass, class_of};
use crate::name::is_named;
use crate::stage::{first_letter, lacks_name};
use crate::state::{DescriptorState, is_whole, next_state};

/// Returns whether `c` is known to be in no snippet: it ends one, or is not of ASCII.
#[inline(always)]
fn is_foreign(c: char) -> bool
    ensures { result ≡ true → class_of_character c ≡ NabcClass.Other }
{
    c == ')' || c == '|' || !c.is_ascii()
}

/// The state of the reading of a snippet in which nothing was found yet.
#[derive(Clone, Copy)]
pub(crate) struct RegularState {
    part: DescriptorState,
    /// The last character.
    letter: char,
}

impl RegularState {
    /// Returns the state after `c`; `None` if `c` is not kept or ends a code without a name. A
    /// character that is in no snippet takes a short way.
    #[inline(always)]
    fn after(self, c: char) -> Option<RegularState>
        ensures { result ≡ regular_after self c }
    {
        if is_foreign(c) {
            return None;
        }
        match next_state(self.part, class_of(c)) {
            Some(next) if !lacks_name(first_letter(self.part, self.letter), c) => Some(
                RegularState {
                    part: next,
                    letter: c,
                },
            ),
            _ => None,
        }
    }

    /// Returns whether what was read is a snippet.
    fn is_whole(self) -> bool
        ensures { result ≡ whole_at self.part }
    {
        is_whole(self.part)
    }
}

/// Returns whether `bytes` begin with a code that has a name, and after it a character that is in
/// no snippet.
fn begins_with_lone_code(bytes: &[u8]) -> bool
    ensures { result ≡ true → IsLoneCode bytes.now }
{
    bytes.len() > 2
        && is_foreign(char::from(bytes[2]))
        && is_named(char::from(bytes[0]), char::from(bytes[1]))
}

/// Returns the length that `regular_nabc` returns, for any text.
fn regular_by_bytes(text: &str) -> usize
    ensures { IsLongestPrefix IsRegular text.now result }
{
    // each character that is kept is of ASCII
    let bytes = text.as_bytes();
    let mut state = RegularState {
        part: DescriptorState::Start,
        letter: '/',
    };
    let mut read = 0;
    let mut regular = 0;
    while read < bytes.len() {
        match state.after(char::from(bytes[read])) {
            Some(next) => state = next,
            None => return regular,
        }
        read += 1;
        if state.is_whole() {
            regular = read;
        }
    }
    regular
}

/// Returns the length in bytes of the longest prefix of `text` that is a regular snippet of NABC:
/// before the `)` or `|` that ends it, each of its characters is kept and nothing is found
/// (GregorioRef, the NABC reference). The empty text is such a prefix. Most snippets are one code.
#[inline(never)]
pub fn regular_nabc(text: &str) -> usize
    ensures { IsLongestPrefix IsRegular text.now result }
{
    if begins_with_lone_code(text.as_bytes()) {
        2
    } else {
        regular_by_bytes(text)
    }
}
