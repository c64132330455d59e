//! The nodes of a snippet of NABC.

ghost use Rattle.std.specs.Prelude.{◌≡◌, ◌≤◌, ◌<◌, ◌+◌, ◌^◌, ◌++◌, ◌||◌, ℕ, Option, length, slice_index, IsSome, OnOk};
ghost use Rattle.std.specs.List.{prefix_len};
ghost use Rattle.gabc_nabc.specs.Parts.{AreWithin};
ghost use Rattle.gabc_tree.specs.NabcNodes.{piece_kind, kind_of_piece, is_digit, is_modifier, through_digit, first_digit, glyph_before_pitch, before_pitch, pitch_at, piece_numbers_by, piece_len, piece_numbers, pieces_of, part_nodes, nabc_nodes};
ghost use Rattle.gabc_tree.specs.declared.nabc_nodes.PieceKind.TheVariants as piece;

use crate::note_nodes::node_at;
use crate::numbers::Numbers;
use gabc_nabc::{Descriptor, parts_in};
use gabc_nodes::{Kind, Node};
use gabc_notes::height_of;
use gabc_places::Span;
use std::alloc::AllocError;

/// A piece of a descriptor.
#[derive(Clone, Copy, PartialEq, Eq)]
enum PieceKind {
    /// A glyph: its code, modifiers and pitch.
    Glyph,
    /// Subpuncta or prepuncta.
    Points,
    /// Significant or tironian letters.
    Letters,
}

/// Returns the kind of the piece with which `text` begins, by its first two letters.
fn piece_kind(text: &[u8]) -> PieceKind
    ensures { result ≡ piece_kind text.now }
{
    match text {
        [b's', b'u', ..] | [b'p', b'p', ..] => PieceKind::Points,
        [b'l', b's' | b't', ..] => PieceKind::Letters,
        _ => PieceKind::Glyph,
    }
}

/// Returns whether `byte` may come after the code of a glyph, before the `h` of its pitch.
fn is_modifier(byte: u8) -> bool
    ensures { result ≡ is_modifier byte }
{
    match byte {
        b'S' | b'G' | b'M' | b'-' | b'>' | b'~' | b'1'..=b'9' => true,
        _ => false,
    }
}

/// Returns whether `byte` is a digit from 1 to 9.
fn is_digit(byte: u8) -> bool
    ensures { result ≡ is_digit byte }
{
    b'1' <= byte && byte <= b'9'
}

/// Returns the number of modifiers and digits with which `text` begins.
fn modifiers_len(text: &[u8]) -> usize
    ensures value { result ≡ prefix_len is_modifier text.now }
    ensures within { result ≤ length text.now }
{
    for (i, byte) in text.iter().enumerate() {
        if !is_modifier(*byte) {
            return i;
        }
    }
    text.len()
}

/// Returns the number of bytes of `text` through its first digit: all if it has none.
fn len_through_digit(text: &[u8]) -> usize
    requires { 1 ≤ length text.now }
    ensures value { result ≡ through_digit text.now }
    ensures some { 1 ≤ result }
    ensures within { result ≤ length text.now }
{
    for (i, byte) in text.iter().enumerate() {
        if is_digit(*byte) {
            return i + 1;
        }
    }
    text.len()
}

/// Returns the value of the first digit of `text` from 1 to 9, or 0 if it has none.
fn first_digit(text: &[u8]) -> u16
    ensures { result ≡ first_digit text.now }
{
    for byte in text {
        if is_digit(*byte) {
            return u16::from(*byte - b'0');
        }
    }
    0
}

/// Returns the number of bytes before the pitch of the glyph with which `text` begins.
fn glyph_before_pitch(text: &[u8]) -> usize
    requires { 1 ≤ length text.now }
    ensures value { result ≡ glyph_before_pitch text.now }
    ensures some { 1 ≤ result }
    ensures within { result ≤ length text.now }
{
    match text {
        [_, _, rest @ ..] => 2 + modifiers_len(rest),
        [_] => 1,
        [] => 0,
    }
}

/// Returns the number of bytes before the pitch of the piece of this `kind` with which `text`
/// begins.
fn len_before_pitch(kind: PieceKind, text: &[u8]) -> usize
    requires { 1 ≤ length text.now }
    ensures value { result ≡ before_pitch kind text.now }
    ensures some { 1 ≤ result }
    ensures within { result ≤ length text.now }
{
    match kind {
        PieceKind::Glyph => glyph_before_pitch(text),
        PieceKind::Points | PieceKind::Letters => len_through_digit(text),
    }
}

/// Returns the height of the pitch with which `text` begins, an `h` and a letter, if it does.
fn pitch_at(text: &[u8]) -> Option<u8>
    ensures value { result ≡ pitch_at text.now }
    ensures long { IsSome result → 2 ≤ length text.now }
{
    match text {
        [b'h', letter, ..] => Some(height_of(*letter)),
        _ => None,
    }
}

/// Returns the first two bytes of `text`; 0 for one that it does not have.
fn letters_at(text: &[u8]) -> (u16, u16)
    ensures first { result.0 ≡ slice_index text.now 0 }
    ensures second { result.1 ≡ slice_index text.now 1 }
{
    match text {
        [first, second, ..] => (u16::from(*first), u16::from(*second)),
        [first] => (u16::from(*first), 0),
        [] => (0, 0),
    }
}

/// Returns the numbers of the glyph `text` with this `pitch`: its two letters, and 1 plus the
/// pitch, or 0.
fn numbers_of_glyph(text: &[u8], pitch: Option<u8>) -> Numbers
    ensures { result ≡ piece_numbers_by piece.Glyph pitch text.now }
{
    let (a, b) = letters_at(text);
    let c = match pitch {
        Some(height) => 1 + u16::from(height),
        None => 0,
    };
    Numbers { a, b, c }
}

/// Returns the numbers of the points `text`: 1 for prepuncta, their letter or 0, and their first
/// digit.
fn numbers_of_points(text: &[u8]) -> Numbers
    ensures { (pitch : Option ℕ) → result ≡ piece_numbers_by piece.Points pitch text.now }
{
    let a = match text {
        [b'p', ..] => 1,
        _ => 0,
    };
    let b = match text {
        [_, _, letter @ b'a'..=b'z', ..] => u16::from(*letter),
        _ => 0,
    };
    Numbers {
        a,
        b,
        c: first_digit(text),
    }
}

/// Returns the numbers of the letters `text`: 1 for tironian letters, 0, and their first digit.
fn numbers_of_letters(text: &[u8]) -> Numbers
    ensures { (pitch : Option ℕ) → result ≡ piece_numbers_by piece.Letters pitch text.now }
{
    let a = match text {
        [_, b't', ..] => 1,
        _ => 0,
    };
    Numbers {
        a,
        b: 0,
        c: first_digit(text),
    }
}

/// A piece of a descriptor: the kind of its node, its length in bytes, and its numbers.
#[derive(Clone, Copy)]
struct Piece {
    kind: Kind,
    len: usize,
    numbers: Numbers,
}

/// Returns the numbers of the piece of this `kind` with which `text` begins, with this `pitch`.
fn numbers_of_piece(kind: PieceKind, pitch: Option<u8>, text: &[u8]) -> Numbers
    ensures { result ≡ piece_numbers_by kind pitch text.now }
{
    match kind {
        PieceKind::Glyph => numbers_of_glyph(text, pitch),
        PieceKind::Points => numbers_of_points(text),
        PieceKind::Letters => numbers_of_letters(text),
    }
}

/// Returns the kind of the node of a piece of this `kind`.
fn kind_of_piece(kind: PieceKind) -> Kind
    ensures { result ≡ kind_of_piece kind }
{
    match kind {
        PieceKind::Glyph => Kind::NabcGlyph,
        PieceKind::Points => Kind::NabcPoints,
        PieceKind::Letters => Kind::NabcLetters,
    }
}

/// Returns the piece with which `text` begins.
fn piece_at(text: &[u8]) -> Piece
    requires { 1 ≤ length text.now }
    ensures kind { result.kind ≡ kind_of_piece (piece_kind text.now) }
    ensures len { result.len ≡ piece_len text.now }
    ensures numbers { result.numbers ≡ piece_numbers text.now }
    ensures some { 1 ≤ result.len }
    ensures within { result.len ≤ length text.now }
{
    let kind = piece_kind(text);
    let before = len_before_pitch(kind, text);
    let pitch = pitch_at(&text[before..]);
    let len = match pitch {
        Some(_) => before + 2,
        None => before,
    };
    Piece {
        kind: kind_of_piece(kind),
        len,
        numbers: numbers_of_piece(kind, pitch, text),
    }
}

/// Returns the number of pieces of the descriptor `text`.
fn count_pieces(text: &[u8]) -> usize
    ensures pieces { (base : ℕ) → result ≡ length (pieces_of base text.now) }
    ensures few { result ≤ length text.now }
{
    let mut count = 0;
    let mut at = 0;
    while at < text.len() {
        if text[at] == b'!' {
            at += 1;
        } else {
            at += piece_at(&text[at..]).len;
            count += 1;
        }
    }
    count
}

/// Adds to `out` the nodes of the pieces of the descriptor `text`, whose bytes count from `base`
/// on.
fn add_pieces(text: &[u8], base: usize, out: &mut Vec<Node>) -> Result<(), AllocError>
    requires { base + length text.now < 2 ^ 32 }
    ensures { OnOk result (out.new.items ≡ out.old.items ++ pieces_of base text.now) }
{
    let mut at = 0;
    while at < text.len() {
        if text[at] == b'!' {
            at += 1;
        } else {
            let piece = piece_at(&text[at..]);
            let span = Span {
                from: at,
                to: at + piece.len,
            };
            out.push(node_at(base, span, 0, piece.kind, piece.numbers))?;
            at += piece.len;
        }
    }
    Ok(())
}

/// Adds to `out` the nodes of `part` of `kept`: a space, or a descriptor and its pieces.
fn add_part(
    kept: &str,
    base: usize,
    part: Descriptor,
    out: &mut Vec<Node>,
) -> Result<(), AllocError>
    requires order { part.span.from ≤ part.span.to }
    requires within { part.span.to ≤ length kept.now }
    requires base { base + length kept.now < 2 ^ 32 }
    ensures { OnOk result (out.new.items ≡ out.old.items ++ part_nodes base kept.now part) }
{
    if part.space {
        let node = node_at(base, part.span, 0, Kind::NabcSpace, Numbers::NONE);
        out.push(node)?;
        return Ok(());
    }
    let text = &kept.as_bytes()[part.span.from..part.span.to];
    let inner = count_pieces(text);
    let node = node_at(base, part.span, inner, Kind::Descriptor, Numbers::NONE);
    out.push(node)?;
    add_pieces(text, base + part.span.from, out)
}

/// Adds to `out` the nodes of the snippet of NABC `kept`, whose bytes count from `base` on: its
/// descriptors, each before its glyphs, points and letters, and its spaces.
pub(crate) fn nabc_nodes(kept: &str, base: usize, out: &mut Vec<Node>) -> Result<(), AllocError>
    requires { base + length kept.now < 2 ^ 32 }
    ensures { OnOk result (out.new.items ≡ out.old.items ++ nabc_nodes base kept.now) }
{
    for part in parts_in(kept) {
        add_part(kept, base, part, out)?;
    }
    Ok(())
}
