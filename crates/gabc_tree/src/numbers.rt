//! The numbers of the nodes of items.

ghost use Rattle.std.specs.Prelude.{◌≡◌, ◌≤◌, ◌+◌, ◌^◌, ◌<◌, length, IfSome};
ghost use Rattle.gabc_neumes.specs.Sound.{line_at, clef_at};
ghost use Rattle.gabc_notes.specs.Notes.{height_at as height_of_text};
ghost use Rattle.gabc_tree.specs.Numbers.{number_of_bit, number_of_alter, number_of_degree, number_of_ictus, number_of_liquescence, number_of_size, number_of_orientation, number_of_over_staff, number_of_covered, after_pitch, note_numbers, alteration_numbers, clef_letter, after_join, clef_numbers, digit_after, bar_numbers, spacing_number, custos_number, break_numbers, attribute_number, fusion_number, three, other_numbers};

use crate::signs::{
    Covered, EpisemaSize, Liquescence, NoteSigns, Orientation, OverStaff, Side, signs_in,
};
use gabc_neumes::{Alter, Clef, Sound, sign_of};
use gabc_notes::{ItemKind, Note, height_of};

/// The three numbers of a node.
#[derive(Clone, Copy, Debug, PartialEq, Eq)]
pub(crate) struct Numbers {
    pub(crate) a: u16,
    pub(crate) b: u16,
    pub(crate) c: u16,
}

impl Numbers {
    /// The numbers of a kind that has none: 0.
    pub(crate) const NONE: Numbers = Numbers { a: 0, b: 0, c: 0 };
}

/// Returns 1 if `bit` is true, else 0.
fn number_of_bit(bit: bool) -> u16
    ensures value { result ≡ number_of_bit bit }
    ensures small { result ≤ 1 }
{
    match bit {
        true => 1,
        false => 0,
    }
}

/// Returns the number of `alter`.
fn number_of_alter(alter: Alter) -> u16
    ensures value { result ≡ number_of_alter alter }
    ensures small { result ≤ 3 }
{
    match alter {
        Alter::None => 0,
        Alter::Flat => 1,
        Alter::Natural => 2,
        Alter::Sharp => 3,
    }
}

/// Returns the number of the degree of `sound`: 7 if it has none.
fn number_of_degree(sound: Sound) -> u16
    ensures value { result ≡ number_of_degree sound }
    ensures small { result ≤ 7 }
{
    match sound.degree {
        Some(degree) => u16::from(degree.min(7)),
        None => 7,
    }
}

/// Returns the number of `ictus`: 0 for none, 1, 2 and 3 by its side.
fn number_of_ictus(ictus: Option<Side>) -> u16
    ensures value { result ≡ number_of_ictus ictus }
    ensures small { result ≤ 3 }
{
    match ictus {
        None => 0,
        Some(Side::Auto) => 1,
        Some(Side::Over) => 2,
        Some(Side::Under) => 3,
    }
}

/// Returns the number of `liquescence`.
fn number_of_liquescence(liquescence: Liquescence) -> u16
    ensures value { result ≡ number_of_liquescence liquescence }
    ensures small { result ≤ 3 }
{
    match liquescence {
        Liquescence::None => 0,
        Liquescence::Deminutus => 1,
        Liquescence::Augmented => 2,
        Liquescence::Diminished => 3,
    }
}

/// Returns the number of `size`.
fn number_of_size(size: EpisemaSize) -> u16
    ensures value { result ≡ number_of_size size }
    ensures small { result ≤ 3 }
{
    match size {
        EpisemaSize::Whole => 0,
        EpisemaSize::Left => 1,
        EpisemaSize::Centre => 2,
        EpisemaSize::Right => 3,
    }
}

/// Returns the number of `orientation`.
fn number_of_orientation(orientation: Orientation) -> u16
    ensures value { result ≡ number_of_orientation orientation }
    ensures small { result ≤ 2 }
{
    match orientation {
        Orientation::NotTold => 0,
        Orientation::Down => 1,
        Orientation::Up => 2,
    }
}

/// Returns the number of the set `signs`: bit 0 for `r1` to bit 7 for `r8`.
fn number_of_over_staff(signs: OverStaff) -> u16
    ensures value { result ≡ number_of_over_staff signs }
    ensures small { result ≤ 255 }
{
    number_of_bit(signs.accent)
        + 2 * number_of_bit(signs.grave)
        + 4 * number_of_bit(signs.circle)
        + 8 * number_of_bit(signs.lower_arc)
        + 16 * number_of_bit(signs.upper_arc)
        + 32 * number_of_bit(signs.flat)
        + 64 * number_of_bit(signs.natural)
        + 128 * number_of_bit(signs.sharp)
}

/// Returns the number of the notes that episemata cover: three bits for each side.
fn number_of_covered(covered: Covered) -> u16
    requires { (covered.auto ≤ 7) × (covered.over ≤ 7) × (covered.under ≤ 7) }
    ensures value { result ≡ number_of_covered covered }
    ensures small { result ≤ 511 }
{
    u16::from(covered.auto) + 8 * u16::from(covered.over) + 64 * u16::from(covered.under)
}

/// Returns the suffixes of `text`, a note: the bytes after its pitch.
fn after_pitch(text: &[u8]) -> &[u8]
    ensures { result.now ≡ after_pitch text.now }
{
    match text {
        [b'-', _, suffixes @ ..] => suffixes,
        [_, suffixes @ ..] => suffixes,
        [] => text,
    }
}

/// Returns the numbers of `note` with this `sound`, which is spelled `text`. `begins` says whether
/// it begins an element.
pub(crate) fn numbers_of_note(note: Note, sound: Sound, text: &[u8], begins: bool) -> Numbers
    ensures { result ≡ note_numbers note sound text.now begins }
{
    let signs = signs_in(after_pitch(text));
    Numbers {
        a: u16::from(note.height.min(15))
            + 16 * number_of_over_staff(signs.over_staff)
            + 4096 * number_of_bit(signs.hollow)
            + 8192 * number_of_bit(signs.lined)
            + 16384 * number_of_orientation(signs.orientation),
        b: note.shape as u16
            + 32 * number_of_liquescence(signs.liquescence)
            + 128 * u16::from(signs.morae)
            + 512 * number_of_ictus(signs.ictus)
            + 2048 * number_of_size(signs.size)
            + 8192 * number_of_bit(signs.unbridged),
        c: number_of_degree(sound)
            + 8 * number_of_alter(sound.alter)
            + 32 * number_of_bit(note.debilis)
            + 64 * number_of_bit(begins)
            + 128 * number_of_covered(signs.covered),
    }
}

/// Returns the height of the pitch with which `text` begins; 0 if it is empty.
fn height_at(text: &[u8]) -> u16
    ensures { result ≡ height_of_text text.now }
{
    match text {
        [pitch, ..] => u16::from(height_of(*pitch)),
        [] => 0,
    }
}

/// Returns the numbers of the alteration `text` (GregorioRef, "Additional Symbols").
fn numbers_of_alteration(text: &[u8]) -> Numbers
    ensures value { result ≡ alteration_numbers text.now }
    ensures small { result.c ≤ 3 }
{
    let bracketed = number_of_bit(text.contains(&b'?'));
    let other = match text {
        [_, b'X' | b'Y', ..] | [_, b'#', b'#', ..] => 2,
        _ => 0,
    };
    Numbers {
        a: height_at(text),
        b: number_of_alter(sign_of(text)),
        c: bracketed + other,
    }
}

/// Returns the line of a clef, from 1 to 5, with which `text` begins, if it does.
fn line_at(text: &[u8]) -> Option<u8>
    ensures value { result ≡ line_at text.now }
    ensures small { IfSome result (λ line. line ≤ 5) }
{
    match text {
        [line @ b'1'..=b'5', ..] => Some(*line - b'0'),
        _ => None,
    }
}

/// Returns the clef with which `text` begins, if it does.
fn clef_at(text: &[u8]) -> Option<Clef>
    ensures value { result ≡ clef_at text.now }
    ensures small { IfSome result (λ clef. clef.line ≤ 5) }
{
    let (f, flat, rest) = match text {
        [letter, b'b', rest @ ..] => (*letter == b'f', true, rest),
        [letter, rest @ ..] => (*letter == b'f', false, rest),
        [] => return None,
    };
    let line = line_at(rest)?;
    Some(Clef { f, flat, line })
}

/// Returns the bytes after the first `@` of `text`: none if it has no `@`.
fn after_join(text: &[u8]) -> &[u8]
    ensures { result.now ≡ after_join text.now }
{
    for (i, byte) in text.iter().enumerate() {
        if *byte == b'@' {
            return &text[i + 1..];
        }
    }
    &[]
}

/// Returns the number of the letter and the flat of `clef`.
fn number_of_letter(clef: Clef) -> u16
    ensures value { result ≡ clef_letter clef }
    ensures small { result ≤ 3 }
{
    number_of_bit(clef.f) + 2 * number_of_bit(clef.flat)
}

/// Returns the numbers of the clef `text`, or of two that are joined (GregorioRef, "Clefs").
fn numbers_of_clef(text: &[u8]) -> Numbers
    ensures value { result ≡ clef_numbers text.now }
    ensures small { result.c ≤ 47 }
{
    let (a, b) = match clef_at(text) {
        Some(clef) => (number_of_letter(clef), u16::from(clef.line)),
        None => (0, 0),
    };
    let c = match clef_at(after_join(text)) {
        Some(clef) => 1 + 2 * number_of_letter(clef) + 8 * u16::from(clef.line),
        None => 0,
    };
    Numbers { a, b, c }
}

/// Returns 1 plus the digit with which `text` begins, or 0 if it begins with none.
fn digit_after(text: &[u8]) -> u16
    ensures { result ≡ digit_after text.now }
{
    match text {
        [digit @ b'0'..=b'9', ..] => 1 + u16::from(*digit - b'0'),
        _ => 0,
    }
}

/// Returns the numbers of the bar `text` (GregorioRef, "Separation Bars").
fn numbers_of_bar(text: &[u8]) -> Numbers
    ensures value { result ≡ bar_numbers text.now }
    ensures small { result.c ≡ 0 }
{
    let (a, rest) = match text {
        [b'`', rest @ ..] => (0, rest),
        [b'^', rest @ ..] => (1, rest),
        [b',', rest @ ..] => (2, rest),
        [b';', rest @ ..] => (3, rest),
        [b':', b':', rest @ ..] => (5, rest),
        [_, rest @ ..] => (4, rest),
        [] => (4, text),
    };
    Numbers {
        a,
        b: digit_after(rest),
        c: 0,
    }
}

/// Returns the number of the spacing `text` (GregorioRef, "Neume Spacing").
fn number_of_spacing(text: &[u8]) -> u16
    ensures { result ≡ spacing_number text.now }
{
    match text {
        [b'/'] => 0,
        [b'/', b'/', ..] => 1,
        [b'/', b'0', ..] => 2,
        [b'/', b'!', ..] => 3,
        [b'/', ..] => 4,
        [b'!', ..] => 5,
        _ => 6,
    }
}

/// Returns the number of the custos `text`: its height, or 15 of `z0` (GregorioRef, "Custos").
fn number_of_custos(text: &[u8]) -> u16
    ensures { result ≡ custos_number text.now }
{
    match text {
        [b'z', ..] => 15,
        _ => height_at(text),
    }
}

/// Returns the numbers of the line break `text` (GregorioRef, "Line Breaks").
fn numbers_of_break(text: &[u8]) -> Numbers
    ensures value { result ≡ break_numbers text.now }
    ensures small { result.c ≡ 0 }
{
    let (a, b) = match text {
        [b'Z', b'+', ..] => (1, 1),
        [b'Z', b'-', ..] => (1, 2),
        [b'Z', ..] => (1, 0),
        [_, b'+', ..] => (0, 1),
        [_, b'-', ..] => (0, 2),
        _ => (0, 0),
    };
    Numbers { a, b, c: 0 }
}

/// Returns 1 plus the digit of the macro that the attribute `text` calls, or 0 if it calls none
/// (GregorioRef, "Macros").
fn number_of_attribute(text: &[u8]) -> u16
    ensures { result ≡ attribute_number text.now }
{
    match text {
        [b'[', b'n' | b'g' | b'e', b'm', digit @ b'0'..=b'9', b']']
        | [b'[', b'a', b'l', b't', b'm', digit @ b'0'..=b'9', b']'] => {
            1 + u16::from(*digit - b'0')
        }
        _ => 0,
    }
}

/// Returns the number of the mark of fusion `text` (GregorioRef, "Neume Fusion").
#[tactic(auto, using(crate::proofs::OneDigit::longer_is_not_one))]
fn number_of_fusion(text: &[u8]) -> u16
    ensures { result ≡ fusion_number text.now }
{
    match text {
        [b'@'] => 0,
        [b'@', _, ..] => 1,
        _ => 2,
    }
}

/// Returns numbers of which the first is `a`, and the others are 0.
fn one_number(a: u16) -> Numbers
    ensures { result ≡ three a 0 0 }
{
    Numbers { a, ..Numbers::NONE }
}

/// Returns the numbers of an item of this `kind`, which is no note and is spelled `text`.
pub(crate) fn numbers_of_other(kind: ItemKind, text: &[u8]) -> Numbers
    ensures numbers { result ≡ other_numbers kind text.now }
    ensures small { result.c < 64 }
{
    match kind {
        ItemKind::Note => Numbers::NONE,
        ItemKind::Alteration => numbers_of_alteration(text),
        ItemKind::Clef => numbers_of_clef(text),
        ItemKind::Bar => numbers_of_bar(text),
        ItemKind::Spacing => one_number(number_of_spacing(text)),
        ItemKind::Custos => one_number(number_of_custos(text)),
        ItemKind::Break => numbers_of_break(text),
        ItemKind::Attribute => one_number(number_of_attribute(text)),
        ItemKind::Fusion => one_number(number_of_fusion(text)),
    }
}
