//! The place after a text.

ghost use Rattle.std.specs.Prelude.{◌≡◌, ◌+◌, ◌<◌, ◌≤◌, ◌^◌, length};
ghost use Rattle.std.specs.List.{count_by};
ghost use Rattle.std.specs.Str.{chars};
ghost use Rattle.gabc_places.specs.Place.{place_past};
ghost use Rattle.gabc_score.specs.machine.PlaceByBytes.{begins_character};

use gabc_places::Place;
use memchr::memchr;

/// The number of bytes in which characters are counted at once.
const MOST_COUNTED: usize = 240;

/// Returns whether a character begins with `byte`, a byte of a text.
#[inline(always)]
fn begins_character(byte: u8) -> bool
    ensures { result ≡ begins_character byte }
{
    byte < 0x80 || byte > 0xBF
}

/// Returns the number of characters that begin in `bytes`, of which there are at most 255. The
/// count is a byte, so that many bytes are counted at once.
#[tactic(auto, using(std::proofs::lemmas::List::Sums::count_by_more_yes, std::proofs::lemmas::List::Sums::count_by_more_no))]
fn characters_in_few(bytes: &[u8]) -> u8
    requires { length bytes.now < 256 }
    ensures count { result ≡ count_by begins_character bytes.now }
    ensures few { result ≤ length bytes.now }
{
    let mut n: u8 = 0;
    for byte in bytes {
        if begins_character(*byte) {
            n += 1;
        }
    }
    n
}

/// Returns the number of characters that begin in `bytes`.
fn characters_in(bytes: &[u8]) -> u64
    ensures count { result ≡ count_by begins_character bytes.now }
    ensures few { result ≤ length bytes.now }
{
    let mut n = 0;
    let mut rest = bytes;
    while !rest.is_empty() {
        let (few, more) = rest.split_at(rest.len().min(MOST_COUNTED));
        n += u64::from(characters_in_few(few));
        rest = more;
    }
    n
}

/// Returns the place after `text`, whose first character is at `at`.
pub(crate) fn place_past(at: Place, text: &str) -> Place
    requires line { at.line + length text.now < 2 ^ 64 }
    requires column { at.column + length text.now < 2 ^ 64 }
    ensures place { result ≡ place_past at (chars text.now) }
    ensures line { result.line ≤ at.line + length text.now }
    ensures column { result.column ≤ at.column + length text.now }
{
    let mut start = at;
    let mut rest = text.as_bytes();
    while let Some(end) = memchr(b'\n', rest) {
        start = Place {
            line: start.line + 1,
            column: 1,
        };
        rest = &rest[end + 1..];
    }
    Place {
        line: start.line,
        column: start.column + characters_in(rest),
    }
}
