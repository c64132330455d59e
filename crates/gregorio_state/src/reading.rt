//! The fields of a saved state, read from its bytes.

ghost use Rattle.std.specs.Prelude.{◌≡◌, [], ◌∷◌, ◌++◌, IfSome, Some, codes, length, map, option_map};
ghost use Rattle.std.specs.Int.{w16, w32, w64};
ghost use Rattle.std.specs.Str.{IsUtf8};
ghost use Rattle.gregorio_state.specs.StateBytes.{number_bytes, flag_bytes, text_bytes, place_bytes, opener_bytes, spans_number, format_number, clef_bytes, alter_number, score_bytes, phase_bytes, state_bytes};
ghost use Rattle.gregorio_state.specs.Fields.{StateFields as Fields, score_of, phase_of, fields_of};
ghost use Rattle.gregorio_state.specs.Conditions.{AreStateFields};
ghost use Rattle.gregorio_state.specs.machine.Reading.{Gives, byte_at, number_at, flag_of, flag_at, format_of, format_at, spans_of, spans_at, text_of, text_at, pending_at, place_at, opener_at, clef_of, clef_at, alter_of, alters_of, alters_at, after_tag, limits_of, limits_at, last_text, score_of_bytes, phase_of_bytes, state_of_bytes};

use crate::fields::{Phase, ScoreFields, StateFields};
use gabc_neumes::{Alter, Clef};
use gabc_places::{Limits, Place};
use gregorio_jobs::Format;

/// Reads a byte.
fn byte_at(bytes: &[u8]) -> Option<(u8, &[u8])>
    ensures read { Gives (λ x. (x.0, x.1.now)) result (byte_at bytes.now) }
    ensures written { IfSome result (λ x. bytes.now ≡ x.0 ∷ x.1.now) }
{
    match bytes {
        [byte, rest @ ..] => Some((*byte, rest)),
        [] => None,
    }
}

/// Reads a number of 2 bytes, the highest first.
#[tactic(auto, unfolding(crate::specs::machine::Reading::number_at))]
fn u16_at(bytes: &[u8]) -> Option<(u16, &[u8])>
    ensures read { Gives (λ x. (x.0, x.1.now)) result (number_at w16 bytes.now) }
    ensures written { IfSome result (λ x. bytes.now ≡ number_bytes w16 x.0 ++ x.1.now) }
{
    let (number, rest) = bytes.split_first_chunk::<2>()?;
    Some((u16::from_be_bytes(*number), rest))
}

/// Reads a number of 4 bytes, the highest first.
#[tactic(auto, unfolding(crate::specs::machine::Reading::number_at))]
fn u32_at(bytes: &[u8]) -> Option<(u32, &[u8])>
    ensures read { Gives (λ x. (x.0, x.1.now)) result (number_at w32 bytes.now) }
    ensures written { IfSome result (λ x. bytes.now ≡ number_bytes w32 x.0 ++ x.1.now) }
{
    let (number, rest) = bytes.split_first_chunk::<4>()?;
    Some((u32::from_be_bytes(*number), rest))
}

/// Reads a number of 8 bytes, the highest first.
#[tactic(auto, unfolding(crate::specs::machine::Reading::number_at))]
fn u64_at(bytes: &[u8]) -> Option<(u64, &[u8])>
    ensures read { Gives (λ x. (x.0, x.1.now)) result (number_at w64 bytes.now) }
    ensures written { IfSome result (λ x. bytes.now ≡ number_bytes w64 x.0 ++ x.1.now) }
{
    let (number, rest) = bytes.split_first_chunk::<8>()?;
    Some((u64::from_be_bytes(*number), rest))
}

/// Returns the flag with the number `number`: 0, or 1 if it is set.
fn flag_of(number: u8) -> Option<bool>
    ensures read { result ≡ flag_of number }
    ensures written { IfSome result (λ flag. number ∷ [] ≡ flag_bytes flag) }
{
    match number {
        0 => Some(false),
        1 => Some(true),
        _ => None,
    }
}

/// Reads a flag.
#[tactic(auto, unfolding(crate::specs::machine::Reading::flag_at))]
fn flag_at(bytes: &[u8]) -> Option<(bool, &[u8])>
    ensures read { Gives (λ x. (x.0, x.1.now)) result (flag_at bytes.now) }
    ensures written { IfSome result (λ x. bytes.now ≡ flag_bytes x.0 ++ x.1.now) }
{
    let (number, rest) = byte_at(bytes)?;
    let flag = flag_of(number)?;
    Some((flag, rest))
}

/// Returns the format whose number is `number`.
fn format_of(number: u8) -> Option<Format>
    ensures read { result ≡ format_of number }
    ensures written { IfSome result (λ format. number ≡ format_number format) }
{
    match number {
        0 => Some(Format::Gabc),
        1 => Some(Format::Dump),
        _ => None,
    }
}

/// Reads a format.
#[tactic(auto, unfolding(crate::specs::machine::Reading::format_at))]
fn format_at(bytes: &[u8]) -> Option<(Format, &[u8])>
    ensures read { Gives (λ x. (x.0, x.1.now)) result (format_at bytes.now) }
    ensures written { IfSome result (λ x. bytes.now ≡ format_number x.0 ∷ x.1.now) }
{
    let (number, rest) = byte_at(bytes)?;
    let format = format_of(number)?;
    Some((format, rest))
}

/// The open spans.
#[derive(Clone, Copy)]
pub(crate) struct OpenSpans {
    /// Whether the span of `<eu>` is open.
    pub(crate) eu: bool,
    /// Whether the span of `<nlba>` is open.
    pub(crate) nlba: bool,
}

/// Returns the open spans with the number `number`: 1 for that of `<eu>` and 2 for that of
/// `<nlba>`, added up.
fn spans_of(number: u8) -> Option<OpenSpans>
    ensures read { result ≡ spans_of number }
    ensures written { IfSome result (λ spans. number ≡ spans_number spans.eu spans.nlba) }
{
    match number {
        0..=3 => Some(OpenSpans {
            eu: number % 2 == 1,
            nlba: 2 <= number,
        }),
        _ => None,
    }
}

/// Reads the open spans.
#[tactic(auto, unfolding(crate::specs::machine::Reading::spans_at))]
fn spans_at(bytes: &[u8]) -> Option<(OpenSpans, &[u8])>
    ensures read { Gives (λ x. (x.0, x.1.now)) result (spans_at bytes.now) }
    ensures written { IfSome result
        (λ x. bytes.now ≡ spans_number x.0.eu x.0.nlba ∷ x.1.now) }
{
    let (number, rest) = byte_at(bytes)?;
    let spans = spans_of(number)?;
    Some((spans, rest))
}

/// Reads a place.
#[tactic(auto, unfolding(crate::specs::machine::Reading::place_at))]
fn place_at(bytes: &[u8]) -> Option<(Place, &[u8])>
    ensures read { Gives (λ x. (x.0, x.1.now)) result (place_at bytes.now) }
    ensures written { IfSome result (λ x. bytes.now ≡ place_bytes x.0 ++ x.1.now) }
{
    let (line, rest) = u64_at(bytes)?;
    let (column, rest) = u64_at(rest)?;
    Some((Place { line, column }, rest))
}

/// Reads the place of an opener; the line 0 and the column 0 mean that there is none.
#[tactic(auto, unfolding(crate::specs::machine::Reading::opener_at))]
fn opener_at(bytes: &[u8]) -> Option<(Option<Place>, &[u8])>
    ensures read { Gives (λ x. (x.0, x.1.now)) result (opener_at bytes.now) }
    ensures written { IfSome result (λ x. bytes.now ≡ opener_bytes x.0 ++ x.1.now) }
{
    let (place, rest) = place_at(bytes)?;
    if place.line == 0 && place.column == 0 {
        Some((None, rest))
    } else {
        Some((Some(place), rest))
    }
}

/// Returns the clef of the letter `letter`, 1 for a c and 2 for an f, with its `b` and its line; no
/// clef if all of these are 0.
fn clef_of(letter: u8, flat: bool, line: u8) -> Option<Option<Clef>>
    ensures read { result ≡ clef_of letter flat line }
    ensures written { IfSome result
        (λ clef. letter ∷ (flag_bytes flat ++ line ∷ []) ≡ clef_bytes clef) }
{
    match letter {
        0 if !flat && line == 0 => Some(None),
        1 => Some(Some(Clef {
            f: false,
            flat,
            line,
        })),
        2 => Some(Some(Clef {
            f: true,
            flat,
            line,
        })),
        _ => None,
    }
}

/// Reads a clef.
#[tactic(auto, unfolding(crate::specs::machine::Reading::clef_at))]
fn clef_at(bytes: &[u8]) -> Option<(Option<Clef>, &[u8])>
    ensures read { Gives (λ x. (x.0, x.1.now)) result (clef_at bytes.now) }
    ensures written { IfSome result (λ x. bytes.now ≡ clef_bytes x.0 ++ x.1.now) }
{
    let (letter, rest) = byte_at(bytes)?;
    let (flat, rest) = flag_at(rest)?;
    let (line, rest) = byte_at(rest)?;
    let clef = clef_of(letter, flat, line)?;
    Some((clef, rest))
}

/// Returns `bytes` as a text, if they are UTF-8.
fn text_of(bytes: &[u8]) -> Option<&str>
    ensures read { Gives (λ text. text.now) result (text_of bytes.now) }
    ensures written { IfSome result (λ text. text.now ≡ bytes.now) }
    ensures utf8 { IfSome result (λ text. IsUtf8 text.now) }
{
    match simdutf8::basic::from_utf8(bytes) {
        Ok(text) => Some(text),
        Err(_) => None,
    }
}

/// Reads a text: its length in bytes and its bytes, which have to be UTF-8.
#[tactic(auto, unfolding(crate::specs::machine::Reading::text_at, crate::specs::machine::Reading::front_at))]
fn text_at(bytes: &[u8]) -> Option<(&str, &[u8])>
    ensures read { Gives (λ x. (x.0.now, x.1.now)) result (text_at bytes.now) }
    ensures written { IfSome result (λ x. bytes.now ≡ text_bytes x.0.now ++ x.1.now) }
    ensures utf8 { IfSome result (λ x. IsUtf8 x.0.now) }
{
    let (len, rest) = u32_at(bytes)?;
    let (text, rest) = rest.split_at_checked(len as usize)?;
    let text = text_of(text)?;
    Some((text, rest))
}

/// Reads the bytes of a character that is not whole: their number, and the bytes.
#[tactic(auto, unfolding(crate::specs::machine::Reading::pending_at, crate::specs::machine::Reading::front_at))]
fn pending_at(bytes: &[u8]) -> Option<(&[u8], &[u8])>
    ensures read { Gives (λ x. (x.0.now, x.1.now)) result (pending_at bytes.now) }
    ensures written { IfSome result
        (λ x. bytes.now ≡ length x.0.now ∷ (x.0.now ++ x.1.now)) }
{
    let (len, rest) = byte_at(bytes)?;
    rest.split_at_checked(len as usize)
}

/// Returns the alteration whose number is `number`.
fn alter_of(number: u8) -> Option<Alter>
    ensures read { result ≡ alter_of number }
    ensures written { IfSome result (λ alter. number ≡ alter_number alter) }
{
    match number {
        0 => Some(Alter::None),
        1 => Some(Alter::Flat),
        2 => Some(Alter::Natural),
        3 => Some(Alter::Sharp),
        _ => None,
    }
}

/// Returns the bytes after `GSAV` and the version 3.
#[tactic(auto, unfolding(crate::specs::machine::Reading::after_tag))]
fn after_tag(bytes: &[u8]) -> Option<&[u8]>
    ensures read { Gives (λ rest. rest.now) result (after_tag bytes.now) }
    ensures written { IfSome result
        (λ rest. bytes.now ≡ codes "GSAV" ++ (3 ∷ []) ++ rest.now) }
{
    bytes.strip_prefix(b"GSAV\x03")
}

/// Returns the alterations whose numbers are `numbers`.
fn alters_of(numbers: &[u8; 15]) -> Option<[Alter; 15]>
    ensures read { result ≡ alters_of numbers.now }
    ensures written { IfSome result (λ alters. numbers.now ≡ map alter_number alters) }
{
    let mut alters = [Alter::None; 15];
    for (height, number) in numbers.iter().enumerate() {
        alters[height] = alter_of(*number)?;
    }
    Some(alters)
}

/// Reads the alterations of the heights from 0 to 14.
#[tactic(auto, unfolding(crate::specs::machine::Reading::alters_at, crate::specs::machine::Reading::front_at))]
fn alters_at(bytes: &[u8]) -> Option<([Alter; 15], &[u8])>
    ensures read { Gives (λ x. (x.0, x.1.now)) result (alters_at bytes.now) }
    ensures written { IfSome result (λ x. bytes.now ≡ map alter_number x.0 ++ x.1.now) }
{
    let (numbers, rest) = bytes.split_first_chunk::<15>()?;
    let alters = alters_of(numbers)?;
    Some((alters, rest))
}

/// Returns the limits of these numbers of bytes, if they are in their ranges.
fn limits_of(header: u32, syllable: u32, input: u32) -> Option<Limits>
    ensures read { Gives (λ limits. (limits.header, limits.syllable, limits.input)) result
        (limits_of header syllable input) }
    ensures header { IfSome result (λ limits. limits.header ≡ header) }
    ensures syllable { IfSome result (λ limits. limits.syllable ≡ syllable) }
    ensures input { IfSome result (λ limits. limits.input ≡ input) }
{
    Limits::new(header, syllable, input)
}

/// Reads the limits: of the headers, of a syllable, of the input.
#[tactic(auto, unfolding(crate::specs::machine::Reading::limits_at))]
fn limits_at(bytes: &[u8]) -> Option<(Limits, &[u8])>
    ensures read { Gives
        (λ x. ((x.0.header, x.0.syllable, x.0.input), x.1.now))
        result
        (limits_at bytes.now) }
    ensures written { IfSome result (λ x. bytes.now
        ≡ number_bytes w32 x.0.header
        ++ (number_bytes w32 x.0.syllable ++ (number_bytes w32 x.0.input ++ x.1.now))) }
{
    let (header, rest) = u32_at(bytes)?;
    let (syllable, rest) = u32_at(rest)?;
    let (input, rest) = u32_at(rest)?;
    let limits = limits_of(header, syllable, input)?;
    Some((limits, rest))
}

/// Reads the fields of the score from all of `bytes`.
#[tactic(auto, unfolding(crate::specs::machine::Reading::score_of_bytes))]
fn score_of_bytes(bytes: &[u8]) -> Option<ScoreFields<'_>>
    ensures read { Gives score_of result (score_of_bytes bytes.now) }
    ensures written { IfSome result (λ s. bytes.now ≡ score_bytes (score_of s)) }
{
    let (nabc_lines, rest) = byte_at(bytes)?;
    let (macros, rest) = u16_at(rest)?;
    let (syllables, rest) = u32_at(rest)?;
    let (canonical, rest) = u32_at(rest)?;
    let (spans, rest) = spans_at(rest)?;
    let (sounded, rest) = flag_at(rest)?;
    let (clef, rest) = clef_at(rest)?;
    let (alters, rest) = alters_at(rest)?;
    let (held, rest) = text_at(rest)?;
    let (in_comment, rest) = flag_at(rest)?;
    let (notes_opener, rest) = opener_at(rest)?;
    let (inner_opener, rest) = opener_at(rest)?;
    let kept = last_text(rest)?;
    Some(ScoreFields {
        nabc_lines,
        macros,
        syllables,
        canonical,
        in_eu: spans.eu,
        in_nlba: spans.nlba,
        sounded,
        clef,
        alters,
        held,
        in_comment,
        notes_opener,
        inner_opener,
        kept,
    })
}

/// Reads a text from all of `bytes`.
#[tactic(auto, unfolding(crate::specs::machine::Reading::last_text))]
fn last_text(bytes: &[u8]) -> Option<&str>
    ensures read { Gives (λ text. text.now) result (last_text bytes.now) }
    ensures written { IfSome result (λ text. bytes.now ≡ text_bytes text.now) }
{
    let (text, rest) = text_at(bytes)?;
    if rest.is_empty() { Some(text) } else { None }
}

/// Reads the phase, with its fields, from all of `bytes`.
fn phase_of_bytes(bytes: &[u8]) -> Option<Phase<'_>>
    ensures read { Gives phase_of result (phase_of_bytes bytes.now) }
    ensures written { IfSome result (λ phase. bytes.now ≡ phase_bytes (phase_of phase)) }
{
    match bytes {
        [0, rest @ ..] => {
            let headers = last_text(rest)?;
            Some(Phase::Headers(headers))
        }
        [1, rest @ ..] => {
            let fields = score_of_bytes(rest)?;
            Some(Phase::Score(fields))
        }
        _ => None,
    }
}

/// Reads the fields of a state from all of `bytes`, and tests none of their conditions.
#[tactic(auto, unfolding(crate::specs::machine::Reading::state_of_bytes))]
fn state_of_bytes(bytes: &[u8]) -> Option<StateFields<'_>>
    ensures read { Gives fields_of result (state_of_bytes bytes.now) }
    ensures written { IfSome result (λ s. bytes.now ≡ state_bytes (fields_of s)) }
{
    let rest = after_tag(bytes)?;
    let (format, rest) = format_at(rest)?;
    let (all_warnings, rest) = flag_at(rest)?;
    let (limits, rest) = limits_at(rest)?;
    let (taken, rest) = u32_at(rest)?;
    let (place, rest) = place_at(rest)?;
    let (pending, rest) = pending_at(rest)?;
    let (after_cr, rest) = flag_at(rest)?;
    let (has_error, rest) = flag_at(rest)?;
    let phase = phase_of_bytes(rest)?;
    Some(StateFields {
        format,
        all_warnings,
        limits,
        taken,
        place,
        pending,
        after_cr,
        has_error,
        phase,
    })
}

/// Reads the fields of a saved state from all of `bytes`. Returns `None` if the bytes are those of
/// no fields that meet the conditions of a saved state; the texts are not read for it. Bytes are
/// those of one state at most, and no byte is left over. The texts are borrowed from `bytes`.
pub fn read(bytes: &[u8]) -> Option<StateFields<'_>>
    ensures some { IfSome result
        (λ s. (bytes.now ≡ state_bytes (fields_of s)) × AreStateFields (fields_of s)) }
    ensures only { (s : Fields) → AreStateFields s → bytes.now ≡ state_bytes s →
        option_map fields_of result ≡ Some s }
{
    let fields = state_of_bytes(bytes)?;
    if fields.is_possible() {
        Some(fields)
    } else {
        None
    }
}
