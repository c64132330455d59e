//! The lengths of letters, raw parts and runs of these, for `regular.rt`.

ghost use Rattle.std.specs.Prelude.{◌≡◌, ◌≢◌, ◌+◌, ◌≤◌, ◌<◌, ◌==◌, ◌&&◌, length, take, slice_index, true, false};
ghost use Rattle.gabc_text.specs.ExampleTexts.{beginning_of};
ghost use Rattle.gabc_text.specs.Token.{ending_of, is_special};
ghost use Rattle.gabc_text.specs.RegularText.{is_letter_byte, is_continuation, is_first_of_two, is_first_of_three, has_letter_at};
ghost use Rattle.gabc_text.specs.machine.RegularBytes.{IsWord, IsRun, IsInner, IsBracketed, IsEnclosed, is_plain_byte};

use crate::token::{RawKind, is_special};

/// Returns whether `byte` is of ASCII, and a character that a `$` makes a letter.
fn is_special_byte(byte: u8) -> bool
    ensures { result ≡ is_special byte }
{
    is_special(char::from(byte))
}

/// Returns whether `byte` is a letter by itself: it is of ASCII, and printed as it is written. Most
/// are small letters.
#[inline(always)]
fn is_letter_byte(byte: u8) -> bool
    ensures { result ≡ is_letter_byte byte }
{
    byte.is_ascii_lowercase()
        || (byte != b'(' && !is_special_byte(byte) && byte > b' ' && byte < 0x7F)
}

/// Returns whether `byte` is a byte after the first of a character of several bytes.
fn is_continuation(byte: u8) -> bool
    ensures { result ≡ is_continuation byte }
{
    byte > 0x7F && byte < 0xC0
}

/// Returns whether a character of two bytes may begin with `byte`.
fn is_first_of_two(byte: u8) -> bool
    ensures { result ≡ is_first_of_two byte }
{
    byte > 0xC1 && byte < 0xE0
}

/// Returns whether a character from U+1000 to U+CFFF may begin with `byte`.
fn is_first_of_three(byte: u8) -> bool
    ensures { result ≡ is_first_of_three byte }
{
    byte > 0xE0 && byte < 0xED
}

/// Returns whether the bytes are a `$` and a character that it makes a letter.
fn is_escape(first: u8, second: u8) -> bool
    ensures { result ≡ (first == 36 && is_special second) }
{
    first == b'$' && is_special_byte(second)
}

/// Returns whether the bytes are a letter of two bytes.
fn is_pair(first: u8, second: u8) -> bool
    ensures { result ≡ (is_first_of_two first && is_continuation second) }
{
    is_first_of_two(first) && is_continuation(second)
}

/// Returns whether the bytes are a letter from U+1000 to U+CFFF.
fn is_triple(first: u8, second: u8, third: u8) -> bool
    ensures { result ≡ (is_first_of_three first && (is_continuation second && is_continuation third)) }
{
    is_first_of_three(first) && is_continuation(second) && is_continuation(third)
}

/// Returns the byte of `bytes` at `index`; 0, if there is none.
pub(crate) fn byte_at(bytes: &[u8], index: usize) -> u8
    ensures { result ≡ slice_index bytes.now index }
{
    if index < bytes.len() { bytes[index] } else { 0 }
}

/// Returns the length in bytes of the letter that `bytes` begin with, with its `$` if it has one;
/// 0, if none is known to be there. Most letters are of ASCII, and most runs of them end at a `(`.
#[inline(always)]
fn letter_len(bytes: &[u8]) -> usize
    ensures within { result ≤ length bytes.now }
    ensures letter { 0 < result → IsWord (take result bytes.now) }
    ensures none { result ≡ 0 → has_letter_at bytes.now 0 ≡ false }
    ensures no_tag { 0 < result → slice_index bytes.now 0 ≢ 60 }
{
    let first = byte_at(bytes, 0);
    if is_letter_byte(first) {
        return 1;
    }
    if first == b'(' {
        return 0;
    }
    let second = byte_at(bytes, 1);
    if is_escape(first, second) {
        return 2;
    }
    if is_pair(first, second) {
        return 2;
    }
    let third = byte_at(bytes, 2);
    if is_triple(first, second, third) {
        3
    } else {
        0
    }
}

/// Returns whether `byte` is of printable ASCII, and not `stop`.
#[inline(always)]
fn is_plain_byte(stop: u8, byte: u8) -> bool
    ensures { result ≡ is_plain_byte stop byte }
{
    byte > 0x1F && byte < 0x7F && byte != stop
}

/// Returns the length in bytes of the character that `bytes` begin with, if it is not `stop`, and
/// of printable ASCII, of two bytes, or from U+1000 to U+CFFF; else 0. Most are of ASCII.
#[inline(always)]
fn inner_character_len(bytes: &[u8], stop: u8) -> usize
    requires ascii { stop < 128 }
    ensures within { result ≤ length bytes.now }
    ensures inner { 0 < result → IsInner stop (take result bytes.now) }
{
    let first = byte_at(bytes, 0);
    if is_plain_byte(stop, first) {
        return 1;
    }
    let second = byte_at(bytes, 1);
    if is_pair(first, second) {
        return 2;
    }
    let third = byte_at(bytes, 2);
    if is_triple(first, second, third) {
        3
    } else {
        0
    }
}

/// Returns the length in bytes of such characters that `bytes` begin with.
fn inner_len(bytes: &[u8], stop: u8) -> usize
    requires ascii { stop < 128 }
    ensures within { result ≤ length bytes.now }
    ensures inner { IsInner stop (take result bytes.now) }
{
    let mut end = 0;
    while end < bytes.len() {
        let more = inner_character_len(&bytes[end..], stop);
        if more == 0 {
            return end;
        }
        end += more;
    }
    end
}

/// Returns the length in bytes of `opening`, characters other than `stop`, and `closing`, if
/// `bytes` begin with these; else 0. The characters are of printable ASCII, of two bytes, or from
/// U+1000 to U+CFFF.
pub(crate) fn bracketed_len(bytes: &[u8], opening: &[u8], stop: u8, closing: &[u8]) -> usize
    requires ascii { stop < 128 }
    ensures within { result ≤ length bytes.now }
    ensures bracketed { 0 < result →
        IsBracketed opening.now stop closing.now (take result bytes.now) }
{
    if !bytes.starts_with(opening) {
        return 0;
    }
    let end = opening.len() + inner_len(&bytes[opening.len()..], stop);
    if bytes[end..].starts_with(closing) {
        end + closing.len()
    } else {
        0
    }
}

/// Returns the tags around raw parts of the kind `raw`.
fn raw_tags(raw: RawKind) -> (&'static str, &'static str)
    ensures opening { result.0.now ≡ beginning_of raw }
    ensures closing { result.1.now ≡ ending_of raw }
{
    match raw {
        RawKind::V => ("<v>", "</v>"),
        RawKind::Sp => ("<sp>", "</sp>"),
        RawKind::Alt => ("<alt>", "</alt>"),
    }
}

/// Returns the kind of raw part whose name begins with `byte`, if there is one.
fn raw_by(byte: u8) -> Option<RawKind> {
    match byte {
        b'v' => Some(RawKind::V),
        b's' => Some(RawKind::Sp),
        b'a' => Some(RawKind::Alt),
        _ => None,
    }
}

/// Returns the length in bytes of the raw part that `bytes` begin with, if it has no tag in it, and
/// only characters that `bracketed_len` takes; else 0.
fn raw_len(bytes: &[u8]) -> usize
    ensures within { result ≤ length bytes.now }
    ensures word { 0 < result → IsWord (take result bytes.now) }
{
    if bytes.len() < 2 || bytes[0] != b'<' {
        return 0;
    }
    let Some(raw) = raw_by(bytes[1]) else {
        return 0;
    };
    let (opening, closing) = raw_tags(raw);
    bracketed_len(bytes, opening.as_bytes(), b'<', closing.as_bytes())
}

/// Returns the length in bytes of the letter or the raw part that `bytes` begin with; 0, if none is
/// known to be there.
fn word_len(bytes: &[u8]) -> usize
    ensures within { result ≤ length bytes.now }
    ensures word { 0 < result → IsWord (take result bytes.now) }
    ensures none { result ≡ 0 → has_letter_at bytes.now 0 ≡ false }
{
    let letter = letter_len(bytes);
    if letter > 0 { letter } else { raw_len(bytes) }
}

/// Returns the number of bytes by which a run goes on from `end`: those of a letter or a raw part,
/// or of a blank and one of these if something comes before; 0, if it does not go on so.
fn more_of_run(bytes: &[u8], end: usize) -> usize
    requires { end ≤ length bytes.now }
    ensures within { end + result ≤ length bytes.now }
    ensures goes_on { 0 < result → IsRun (take end bytes.now) →
        IsRun (take (end + result) bytes.now) }
    ensures stops { result ≡ 0 → has_letter_at bytes.now end ≡ false }
{
    let word = word_len(&bytes[end..]);
    if word > 0 {
        return word;
    }
    if end == 0 || end == bytes.len() || bytes[end] != b' ' {
        return 0;
    }
    let after = word_len(&bytes[end + 1..]);
    if after > 0 { after + 1 } else { 0 }
}

/// Returns the length in bytes of the letters that `bytes` begin with.
#[inline(always)]
pub(crate) fn letters_len(bytes: &[u8]) -> usize
    ensures within { result ≤ length bytes.now }
    ensures run { IsRun (take result bytes.now) }
    ensures no_tag { 0 < result → slice_index bytes.now 0 ≢ 60 }
{
    let mut end = 0;
    while end < bytes.len() {
        let more = letter_len(&bytes[end..]);
        if more == 0 {
            return end;
        }
        end += more;
    }
    end
}

/// Returns whether `bytes` begin with the `(` of notes or the `<` of a closing tag, which are in no
/// run.
#[inline(always)]
fn ends_run(bytes: &[u8]) -> bool
    requires { 0 < length bytes.now }
    ensures { result ≡ true → has_letter_at bytes.now 0 ≡ false }
{
    bytes[0] == b'(' || (bytes[0] == b'<' && byte_at(bytes, 1) == b'/')
}

/// Returns the length in bytes of the run that `bytes` begin with: letters and raw parts, with
/// single blanks between them.
pub(crate) fn run_len(bytes: &[u8]) -> usize
    ensures within { result ≤ length bytes.now }
    ensures run { IsRun (take result bytes.now) }
    ensures stops { result < length bytes.now → has_letter_at bytes.now result ≡ false }
{
    let mut end = letters_len(bytes);
    while end < bytes.len() {
        if ends_run(&bytes[end..]) {
            return end;
        }
        let more = more_of_run(bytes, end);
        if more == 0 {
            return end;
        }
        end += more;
    }
    end
}

/// Returns the length in bytes of `opening`, a run that is not empty, and `closing`, if `bytes`
/// begin with these; else 0.
pub(crate) fn enclosed_len(bytes: &[u8], opening: &[u8], closing: &[u8]) -> usize
    ensures within { result ≤ length bytes.now }
    ensures enclosed { 0 < result →
        IsEnclosed opening.now closing.now (take result bytes.now) }
{
    if !bytes.starts_with(opening) {
        return 0;
    }
    let inner = run_len(&bytes[opening.len()..]);
    let end = opening.len() + inner;
    if inner > 0 && bytes[end..].starts_with(closing) {
        end + closing.len()
    } else {
        0
    }
}
