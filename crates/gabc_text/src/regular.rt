//! The length of a text that is printed as it is written.

ghost use Rattle.std.specs.Prelude.{◌≡◌, ◌+◌, ◌≤◌, ◌<◌, length, take, drop, get_or, true, false, Option, IfSome, None, codes, encode_utf8_all};
ghost use Rattle.std.specs.Str.{chars};
ghost use Rattle.gabc_places.specs.TextOfAnInput.{IsText};
ghost use Rattle.gabc_text.specs.declared.span_mark.SpanMark.{SpanMark};
ghost use Rattle.gabc_text.specs.Token.{spelling};
ghost use Rattle.gabc_text.specs.Printed.{opening_tag, closing_tag};
ghost use Rattle.gabc_text.specs.ViewFacts.{span_tags};
ghost use Rattle.gabc_text.specs.RegularText.{IsRegularText, has_letter_at, mark_at, tags_of, text_part, translation_part};
ghost use Rattle.gabc_text.specs.machine.RegularBytes.{in_style, is_style, mark_length, nothing_before, IsBracketed, IsPart, IsBegun, AreApart, through};

use crate::regular_runs::{bracketed_len, byte_at, enclosed_len, letters_len, run_len};
use crate::span_mark::mark_at;
use crate::styles::Style;

/// Returns the tags of `style`.
fn tags_of(style: Style) -> (&'static str, &'static str)
    ensures opening { result.0.now ≡ spelling (opening_tag style) }
    ensures closing { result.1.now ≡ spelling (closing_tag style) }
{
    match style {
        Style::B => ("<b>", "</b>"),
        Style::C => ("<c>", "</c>"),
        Style::E => ("<e>", "</e>"),
        Style::I => ("<i>", "</i>"),
        Style::Sc => ("<sc>", "</sc>"),
        Style::Tt => ("<tt>", "</tt>"),
        Style::Ul => ("<ul>", "</ul>"),
    }
}

/// Returns the style whose name begins with `byte`; `B`, if none does.
fn style_by(byte: u8) -> Style {
    match byte {
        b'c' => Style::C,
        b'e' => Style::E,
        b'i' => Style::I,
        b's' => Style::Sc,
        b't' => Style::Tt,
        b'u' => Style::Ul,
        _ => Style::B,
    }
}

/// Returns whether `style` is the style `last`.
fn is_style(last: Option<Style>, style: Style) -> bool
    ensures { result ≡ is_style last style }
{
    match last {
        Some(last) => last == style,
        None => false,
    }
}

/// The facts about a regular text that decide what may follow it.
#[derive(Clone, Copy)]
struct Before {
    /// The style of its last piece, if it has one.
    style: Option<Style>,
    /// Whether it has a piece other than a span mark, so that a blank may follow.
    word: bool,
    /// Whether it has a centre.
    centre: bool,
}

/// A part of a text: some pieces, all in one style or in none, and none of them a span mark.
#[derive(Clone, Copy)]
struct Part {
    /// Its number of bytes.
    len: usize,
    style: Option<Style>,
}

impl Before {
    /// Nothing comes before, or a span mark alone.
    const NOTHING: Before = Before {
        style: None,
        word: false,
        centre: false,
    };

    /// Returns the facts after `part`.
    fn through(self, part: Part) -> Before
        ensures { result ≡ through self part }
    {
        Before {
            style: part.style,
            word: true,
            ..self
        }
    }
}

/// Returns the styled part that `bytes` begin with: a run within the tags of a style other than
/// `last`.
fn styled_part(bytes: &[u8], last: Option<Style>) -> Option<Part>
    ensures within { IfSome result (λ p. (0 < p.len) × (p.len ≤ length bytes.now)) }
    ensures part { IfSome result (λ p. IsPart p.style (take p.len bytes.now)) }
    ensures apart { IfSome result (λ p. AreApart (in_style last) (in_style p.style)) }
{
    if bytes.len() < 2 || bytes[0] != b'<' {
        return None;
    }
    let style = style_by(bytes[1]);
    let (opening, closing) = tags_of(style);
    let len = enclosed_len(bytes, opening.as_bytes(), closing.as_bytes());
    if len == 0 || is_style(last, style) {
        return None;
    }
    Some(Part {
        len,
        style: Some(style),
    })
}

/// Returns whether `bytes` begin with a `<` that begins no raw part.
#[inline(always)]
fn begins_no_raw(bytes: &[u8]) -> bool
    ensures { result ≡ true → has_letter_at bytes.now 0 ≡ false }
{
    if bytes.len() < 2 || bytes[0] != b'<' {
        return false;
    }
    match bytes[1] {
        b'v' | b's' | b'a' => false,
        _ => true,
    }
}

/// Returns the part that `bytes` begin with, if the piece before has the style `last`.
fn next_part(bytes: &[u8], last: Option<Style>) -> Option<Part>
    ensures within { IfSome result (λ p. (0 < p.len) × (p.len ≤ length bytes.now)) }
    ensures part { IfSome result (λ p. IsPart p.style (take p.len bytes.now)) }
    ensures apart { IfSome result (λ p. AreApart (in_style last) (in_style p.style)) }
    ensures stops { result ≡ None → 0 < length bytes.now → has_letter_at bytes.now 0 ≡ false }
{
    if begins_no_raw(bytes) {
        return styled_part(bytes, last);
    }
    let len = run_len(bytes);
    if len == 0 {
        return styled_part(bytes, last);
    }
    Some(Part { len, style: None })
}

/// A further part of a text.
#[derive(Clone, Copy)]
struct Step {
    /// Its number of bytes.
    len: usize,
    /// The facts after it.
    before: Before,
}

/// Returns the next part from the blank at `end`, before which the facts are `before`.
fn step_after_blank(bytes: &[u8], end: usize, before: Before) -> Option<Step>
    requires { end < length bytes.now }
    ensures within { IfSome result (λ s. (0 < s.len) × (end + s.len ≤ length bytes.now)) }
    ensures goes_on { IfSome result (λ s. (mark : Option SpanMark) →
        IsBegun mark before (take end bytes.now) →
        IsBegun mark s.before (take (end + s.len) bytes.now)) }
{
    if !before.word || bytes[end] != b' ' {
        return None;
    }
    let part = next_part(&bytes[end + 1..], None)?;
    Some(Step {
        len: part.len + 1,
        before: before.through(part),
    })
}

/// Returns the next part from `end`, before which the facts are `before`, if that is the centre: a
/// run within braces.
fn centre_step(bytes: &[u8], end: usize, before: Before) -> Option<Step>
    requires { end < length bytes.now }
    ensures within { IfSome result (λ s. (0 < s.len) × (end + s.len ≤ length bytes.now)) }
    ensures goes_on { IfSome result (λ s. (mark : Option SpanMark) →
        IsBegun mark before (take end bytes.now) →
        IsBegun mark s.before (take (end + s.len) bytes.now)) }
{
    let len = enclosed_len(&bytes[end..], b"{", b"}");
    if len == 0 || before.centre {
        return None;
    }
    Some(Step {
        len,
        before: Before {
            style: None,
            word: true,
            centre: true,
        },
    })
}

/// Returns the next part from `end`, before which the facts are `before`.
fn next_step(bytes: &[u8], end: usize, before: Before) -> Option<Step>
    requires { end < length bytes.now }
    ensures within { IfSome result (λ s. (0 < s.len) × (end + s.len ≤ length bytes.now)) }
    ensures goes_on { IfSome result (λ s. (mark : Option SpanMark) →
        IsBegun mark before (take end bytes.now) →
        IsBegun mark s.before (take (end + s.len) bytes.now)) }
    ensures stops { result ≡ None → has_letter_at bytes.now end ≡ false }
{
    match next_part(&bytes[end..], before.style) {
        Some(part) => Some(Step {
            len: part.len,
            before: before.through(part),
        }),
        None if bytes[end] == b' ' => step_after_blank(bytes, end, before),
        None => centre_step(bytes, end, before),
    }
}

/// Returns the length in bytes of the span mark that `bytes` begin with; 0, if they begin with
/// none.
fn mark_len(bytes: &[u8]) -> usize
    ensures within { result ≤ length bytes.now }
    ensures len { result ≡ mark_length (mark_at bytes.now) }
    ensures begun { IsBegun (mark_at bytes.now) nothing_before (take result bytes.now) }
{
    match mark_at(bytes) {
        Some(mark) => mark.tag().len(),
        None => 0,
    }
}

/// Returns the length in bytes of a regular text without a translation that `bytes` begin with.
fn untranslated_len(bytes: &[u8]) -> usize
    ensures within { result ≤ length bytes.now }
    ensures mark { mark_length (mark_at bytes.now) ≤ result }
    ensures begun { (before : Before) ×
        IsBegun (mark_at bytes.now) before (take result bytes.now) }
    ensures stops { result < length bytes.now → has_letter_at bytes.now result ≡ false }
{
    let mut end = mark_len(bytes);
    let mut before = Before::NOTHING;
    while end < bytes.len() && bytes[end] != b'(' {
        match next_step(bytes, end, before) {
            None => return end,
            Some(step) => {
                end += step.len;
                before = step.before;
            }
        }
    }
    end
}

/// Returns the length in bytes of the translation that `bytes` begin with, if it has only
/// characters that `bracketed_len` takes, and a `(` follows; else 0.
fn translation_len(bytes: &[u8]) -> usize
    ensures within { result ≤ length bytes.now }
    ensures bracketed { 0 < result → IsBracketed (codes "[") 93 (codes "]") (take result bytes.now) }
    ensures notes { 0 < result → get_or bytes.now result 0 ≡ 40 }
{
    if bytes.is_empty() || bytes[0] != b'[' {
        return 0;
    }
    let len = bracketed_len(bytes, b"[", b']', b"]");
    if len < bytes.len() && bytes[len] == b'(' {
        len
    } else {
        0
    }
}

/// Returns the length that `regular_text` returns, for any text.
#[inline(never)]
fn any_text_len(bytes: &[u8]) -> usize
    ensures within { result ≤ length bytes.now }
    ensures text { IsText (take result bytes.now) }
    ensures regular { IsRegularText (chars (take result bytes.now)) }
    ensures mark { span_tags (chars (take result bytes.now))
        ≡ tags_of (mark_at (take result bytes.now)) }
    ensures stops { result < length bytes.now → has_letter_at bytes.now result ≡ false }
{
    let end = untranslated_len(bytes);
    end + translation_len(&bytes[end..])
}

/// Returns the length in bytes of a text at the front of `bytes` that is printed as it is written
/// before a `(`, that begins no word, and in which nothing is found
/// (`laws::a_regular_text_is_printed_as_it_stands`). It has whole characters, no CR and no U+FEFF,
/// and no span mark but one at its beginning, and no letter of ASCII, of two bytes, or from U+1000
/// to U+CFFF comes next. That it is longer is not promised: it has letters and raw parts, with
/// single blanks between them, some of them within the tags of a style, some in one centre, after a
/// span mark; and a translation, if a `(` follows.
#[inline(always)]
pub fn regular_text(bytes: &[u8]) -> usize
    ensures within { result ≤ length bytes.now }
    ensures text { IsText (take result bytes.now) }
    ensures regular { IsRegularText (chars (take result bytes.now)) }
    ensures mark { span_tags (chars (take result bytes.now))
        ≡ tags_of (mark_at (take result bytes.now)) }
    ensures stops { result < length bytes.now → has_letter_at bytes.now result ≡ false }
{
    let letters = letters_len(bytes);
    if letters < bytes.len() && bytes[letters] == b'(' {
        letters
    } else {
        any_text_len(bytes)
    }
}

/// Returns the number of bytes of `text`, which is regular, before its translation: all of them, if
/// it has none; `None`, if it is not known where one begins.
pub fn translation_from(text: &str) -> Option<usize>
    requires { IsRegularText (chars text.now) }
    ensures within { IfSome result (λ n. n ≤ length text.now) }
    ensures text { IfSome result
        (λ n. take n text.now ≡ encode_utf8_all (text_part (chars text.now))) }
    ensures translation { IfSome result
        (λ n. drop n text.now ≡ encode_utf8_all (translation_part (chars text.now))) }
{
    let bytes = text.as_bytes();
    if byte_at(bytes, bytes.len().saturating_sub(1)) != b']' {
        return Some(bytes.len());
    }
    let end = untranslated_len(bytes);
    let translation = bracketed_len(&bytes[end..], b"[", b']', b"]");
    if end + translation == bytes.len() {
        Some(end)
    } else {
        None
    }
}
