//! The lengths of the regular syllable that a text begins with.

ghost use Rattle.std.specs.Prelude.{◌≡◌, ◌≤◌, ◌<◌, length, take, drop, slice_index, true, false, IfSome, IsTrue};
ghost use Rattle.std.specs.List.{All};
ghost use Rattle.std.specs.Str.{chars};
ghost use Rattle.std.specs.String.Boundary.{IsSplitPoint};
ghost use Rattle.gabc_patterns.specs.LongestPrefix.{IsLongestPrefix};
ghost use Rattle.gabc_text.specs.Token.{is_blank};
ghost use Rattle.gabc_score.specs.RegularSyllable.{IsRegularOn};
ghost use Rattle.gabc_score.specs.machine.RegularLen.{past_mark, BeginsWithSnippets, BeginsRegularly, IsPlainByte, IsPlainGap, is_printable};

use crate::body_stage::next_line;
use gabc_body::Spans;
use gabc_nabc::regular_nabc;
use gabc_notes::regular_notes;
use gabc_text::{SpanMark, regular_text};
use memchr::memchr2;

/// Returns the spans that are open after `mark`, if `spans` are open before it.
#[inline(always)]
pub(crate) fn spans_past(mark: Option<SpanMark>, spans: Spans) -> Spans
    ensures { result ≡ past_mark mark spans }
{
    match mark {
        None => spans,
        Some(SpanMark::OpensEu) => Spans { eu: true, ..spans },
        Some(SpanMark::ClosesEu) => Spans { eu: false, ..spans },
        Some(SpanMark::OpensNlba) => Spans {
            nlba: true,
            ..spans
        },
        Some(SpanMark::ClosesNlba) => Spans {
            nlba: false,
            ..spans
        },
    }
}

/// The lengths of a regular syllable.
#[derive(Clone, Copy)]
pub(crate) struct RegularLen {
    /// The bytes of the blanks and comments before its text.
    pub(crate) gap: usize,
    /// The bytes before its `(`.
    pub(crate) opening: usize,
    /// All its bytes.
    pub(crate) len: usize,
}

/// Returns whether `byte` is a blank.
fn is_blank_byte(byte: u8) -> bool
    ensures { result ≡ is_blank byte }
{
    byte == b' ' || byte == b'\t' || byte == b'\n'
}

/// Returns whether `byte` is of printable ASCII.
fn is_printable(byte: u8) -> bool
    ensures { result ≡ is_printable byte }
{
    byte > 0x1F && byte < 0x7F
}

/// Returns the length in bytes of the comment that `bytes` begin with, with the LF that ends it, if
/// it is of printable ASCII; else 0 (GregorioRef, "Comments").
fn comment_len(bytes: &[u8]) -> usize
    ensures within { result ≤ length bytes.now }
    ensures gap { IsPlainGap (take result bytes.now) }
{
    if bytes.is_empty() || bytes[0] != b'%' {
        return 0;
    }
    let mut end = 1;
    while end < bytes.len() && is_printable(bytes[end]) {
        end += 1;
    }
    match bytes.get(end) {
        Some(b'\n') => end + 1,
        _ => 0,
    }
}

/// Returns the length in bytes of the blank or the comment that `bytes` begin with; 0, if none is
/// known to be there.
fn gap_part_len(bytes: &[u8]) -> usize
    requires { 0 < length bytes.now }
    ensures within { result ≤ length bytes.now }
    ensures gap { IsPlainGap (take result bytes.now) }
{
    if is_blank_byte(bytes[0]) {
        1
    } else {
        comment_len(bytes)
    }
}

/// Returns the length in bytes of the blanks and ended comments that `bytes` begin with.
fn gap_len(bytes: &[u8]) -> usize
    ensures within { result ≤ length bytes.now }
    ensures gap { IsPlainGap (take result bytes.now) }
{
    let mut end = 0;
    while end < bytes.len() {
        let more = gap_part_len(&bytes[end..]);
        if more == 0 {
            return end;
        }
        end += more;
    }
    end
}

/// Returns the number of first bytes of `bytes` that are plain: neither a CR nor the first byte of
/// U+FEFF.
#[inline(never)]
pub(crate) fn plain_len(bytes: &[u8]) -> usize
    ensures within { result ≤ length bytes.now }
    ensures plain { All IsPlainByte (take result bytes.now) }
{
    memchr2(b'\r', 0xEF, bytes).unwrap_or(bytes.len())
}

/// Returns whether all of `bytes` are plain, if the first `plain` of them are.
#[inline(always)]
fn are_plain(bytes: &[u8], plain: usize) -> bool
    requires { All IsPlainByte (take plain bytes.now) }
    ensures { result ≡ true → All IsPlainByte bytes.now }
{
    bytes.len() <= plain || plain_len(&bytes[plain..]) == bytes.len() - plain
}

/// Returns the length in bytes of the longest prefix of `text` that is a regular snippet of line
/// `line`: of GABC on line 0, of NABC on each other.
#[inline(always)]
pub(crate) fn snippet_len(line: u8, text: &str) -> usize
    ensures { IsLongestPrefix (IsRegularOn line) text.now result }
{
    if line == 0 {
        regular_notes(text)
    } else {
        regular_nabc(text)
    }
}

/// Returns the length in bytes of the snippets of a regular syllable that `text` begins with under
/// `lines` NABC lines, with the marks that end them; 0, if it begins with none.
#[inline(always)]
fn snippets_len(lines: u8, text: &str) -> usize
    ensures { 0 < result → BeginsWithSnippets lines text.now result }
{
    let bytes = text.as_bytes();
    let mut line = 0;
    let mut begun = 0;
    while begun < bytes.len() {
        let end = begun + snippet_len(line, &text[begun..]);
        match bytes.get(end) {
            Some(b')') => return end + 1,
            Some(b'|') if lines > 0 => {
                line = next_line(lines, line);
                begun = end + 1;
            }
            _ => return 0,
        }
    }
    0
}

/// Returns the lengths of the regular syllable that `text` begins with under `lines` NABC lines, if
/// it begins with one that has no span mark but one at the beginning of its text. Nothing is found
/// in it, and but for the blanks before its text it is its own canonical text
/// (`regular_laws::a_regular_syllable_makes_its_spelling`). If it returns `None`, there may be one
/// nevertheless. The first `plain` bytes of `text` are known to be plain.
#[inline(always)]
pub(crate) fn regular_syllable(lines: u8, text: &str, plain: usize) -> Option<RegularLen>
    requires { All IsPlainByte (take plain text.now) }
    ensures { IfSome result (BeginsRegularly lines text.now) }
{
    let bytes = text.as_bytes();
    let gap = gap_len(bytes);
    let opening = gap + regular_text(&bytes[gap..]);
    let Some(b'(') = bytes.get(opening) else {
        return None;
    };
    let begun = opening + 1;
    let notes = snippets_len(lines, &text[begun..]);
    let len = begun + notes;
    if notes == 0 || !are_plain(&bytes[..len], plain) {
        return None;
    }
    Some(RegularLen { gap, opening, len })
}
