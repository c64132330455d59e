//! The notes of a snippet.

ghost use Rattle.std.specs.Prelude.{◌≡◌, ◌≤◌, length, [], ◌∷◌, MatchOption, codes};
ghost use Rattle.gabc_notes.specs.Notes.{is_digit, letters, shape_by, is_sign, digits_of, height_of, height_at, shape_at, is_debilis, from_pitch, note_in};
ghost use Rattle.gabc_notes.specs.machine.Notes.{run_of};
ghost use Rattle.gabc_patterns.specs.Pattern.{is_in};

use crate::item::{Item, ItemKind};
use gabc_places::Span;

/// The shape of a note.
#[derive(Clone, Copy, Debug, PartialEq, Eq)]
pub enum Shape {
    /// A pitch alone.
    Punctum,
    /// A capital.
    Inclinatum,
    /// `v`.
    Virga,
    /// `vv`.
    Bivirga,
    /// `vvv`.
    Trivirga,
    /// `V`.
    VirgaReversa,
    /// `s`.
    Stropha,
    /// `ss`.
    Distropha,
    /// `sss`.
    Tristropha,
    /// `o`.
    Oriscus,
    /// `O`.
    OriscusScapus,
    /// `w`.
    Quilisma,
    /// `W`.
    QuilismaQuadratum,
    /// `q`.
    Quadratum,
    /// `r`.
    Cavum,
    /// `R`.
    Lined,
    /// `=`.
    Linea,
}

/// A note: its height from 0 for `a` to 13 for `n` and 14 for `p`, its shape, whether it is initio
/// debilis, and the span of its item, in bytes of the kept text.
#[derive(Clone, Copy, Debug, PartialEq, Eq)]
pub struct Note {
    /// Its height: 0 for `a` to 13 for `n`, and 14 for `p`.
    pub height: u8,
    /// Its shape.
    pub shape: Shape,
    /// Whether it is initio debilis.
    pub debilis: bool,
    /// The bytes of its item in the kept text.
    pub span: Span,
}

/// Returns whether `byte` is a digit.
fn is_digit_byte(byte: u8) -> bool
    ensures { result ≡ is_digit byte }
{
    b'0' <= byte && byte <= b'9'
}

/// Returns whether `r` with `text` after it is a sign: it has digits, and not `0` alone.
fn makes_sign(text: &[u8]) -> bool
    ensures { result ≡ is_sign (digits_of text.now) }
{
    match text {
        [b'0', second, ..] => is_digit_byte(*second),
        [b'0'] => false,
        [first, ..] => is_digit_byte(*first),
        [] => false,
    }
}

/// Returns whether `byte` is one of the letters that name shapes.
fn is_shape_letter(byte: u8) -> bool
    ensures { result ≡ is_in byte (codes "vVsoOwWqrR=") }
{
    match byte {
        b'v' | b'V' | b's' | b'o' | b'O' | b'w' | b'W' | b'q' | b'r' | b'R' | b'=' => true,
        _ => false,
    }
}

/// Returns the first letter of `text` that names a shape, and the text after it.
fn next_letter(text: &[u8]) -> Option<(u8, &[u8])>
    ensures { MatchOption result
        (letters text.now ≡ []) (λ p. letters text.now ≡ p.0 ∷ letters p.1.now) }
{
    for (i, byte) in text.iter().enumerate() {
        let rest = &text[i + 1..];
        if is_shape_letter(*byte) && !(*byte == b'r' && makes_sign(rest)) {
            return Some((*byte, rest));
        }
    }
    None
}

/// Returns the number of letters in a row that are `letter`, at most three: those of `text`, and
/// one before it.
fn count_in_a_row(letter: u8, text: &[u8]) -> u8
    ensures { result ≡ run_of letter (letters text.now) }
{
    match next_letter(text) {
        Some((second, rest)) if second == letter => match next_letter(rest) {
            Some((third, _)) if third == letter => 3,
            _ => 2,
        },
        _ => 1,
    }
}

/// Returns the shape of a note with `text` after its small pitch.
fn shape_after(text: &[u8]) -> Shape
    ensures { result ≡ shape_by (letters text.now) }
{
    let Some((letter, rest)) = next_letter(text) else {
        return Shape::Punctum;
    };
    match letter {
        b'v' => match count_in_a_row(letter, rest) {
            3 => Shape::Trivirga,
            2 => Shape::Bivirga,
            _ => Shape::Virga,
        },
        b's' => match count_in_a_row(letter, rest) {
            3 => Shape::Tristropha,
            2 => Shape::Distropha,
            _ => Shape::Stropha,
        },
        b'V' => Shape::VirgaReversa,
        b'o' => Shape::Oriscus,
        b'O' => Shape::OriscusScapus,
        b'w' => Shape::Quilisma,
        b'W' => Shape::QuilismaQuadratum,
        b'q' => Shape::Quadratum,
        b'r' => Shape::Cavum,
        b'R' => Shape::Lined,
        b'=' => Shape::Linea,
        _ => Shape::Punctum,
    }
}

/// Returns the height of `pitch`, a letter of either case: from 0 for `a` to 13 for `n`, and 14 for
/// `p` (GregorioRef, "Pitches").
pub fn height_of(pitch: u8) -> u8
    ensures { result ≡ height_of pitch }
{
    match pitch {
        b'p' | b'P' => 14,
        b'A'..=b'Z' => pitch - b'A',
        _ => pitch.saturating_sub(b'a'),
    }
}

/// Returns whether `text` begins with `-`, and the text after it.
fn split_debilis(text: &[u8]) -> (bool, &[u8])
    ensures debilis { result.0 ≡ is_debilis text.now }
    ensures rest { result.1.now ≡ from_pitch text.now }
{
    match text {
        [b'-', rest @ ..] => (true, rest),
        _ => (false, text),
    }
}

/// Returns the height and the shape of `text`, which begins with its pitch. Most notes are one
/// small pitch, so these are found first.
fn height_and_shape(text: &[u8]) -> (u8, Shape)
    ensures height { result.0 ≡ height_at text.now }
    ensures shape { result.1 ≡ shape_at text.now }
{
    match text {
        [pitch @ b'a'..=b'n'] => (*pitch - b'a', Shape::Punctum),
        _ => height_and_shape_read(text),
    }
}

/// Returns the height and the shape of `text`, as `height_and_shape` does, by reading it. It stays
/// out of line.
#[inline(never)]
fn height_and_shape_read(text: &[u8]) -> (u8, Shape)
    ensures height { result.0 ≡ height_at text.now }
    ensures shape { result.1 ≡ shape_at text.now }
{
    match text {
        [pitch, rest @ ..] => (height_of(*pitch), shape_of(*pitch, rest)),
        [] => (0, Shape::Punctum),
    }
}

/// Returns the note of `item`, with its height, its shape and whether it is an initio debilis, by
/// its bytes in `kept`: `None` unless its kind is `ItemKind::Note` (GregorioRef, "One-Note
/// Neumes"). The span of `item` has to lie within `kept`, as that of each item of `items_whole`
/// does.
pub fn note_of(kept: &str, item: Item) -> Option<Note>
    requires { (item.span.from ≤ item.span.to) × (item.span.to ≤ length kept.now) }
    ensures { result ≡ note_in kept.now item }
{
    match item.kind {
        ItemKind::Note => {
            let text = &kept.as_bytes()[item.span.from..item.span.to];
            let (debilis, text) = split_debilis(text);
            let (height, shape) = height_and_shape(text);
            Some(Note {
                height,
                shape,
                debilis,
                span: item.span,
            })
        }
        _ => None,
    }
}

/// Returns the shape of the note of `pitch` with `rest` after it: an inclinatum for a capital.
fn shape_of(pitch: u8, rest: &[u8]) -> Shape
    ensures { result ≡ shape_at (pitch ∷ rest.now) }
{
    match pitch {
        b'A'..=b'Z' => Shape::Inclinatum,
        _ => shape_after(rest),
    }
}
