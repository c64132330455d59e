//! The widths of texts, by a table of one face: a picture is laid out without a font.

use crate::distance::Distance;
use crate::styles::Styles;
use crate::width_table::WIDTHS;
use unicode_width::UnicodeWidthChar;

/// The width of a character that the table lacks, and of one that takes two columns, in thousandths
/// of the size of the type.
const USUAL: u32 = 500;

const WIDE: u32 = 1000;

/// The width of each letter of a typewriter, in thousandths of the size of the type.
const TYPEWRITER: u32 = 602;

/// Returns the width of `c` in the table, if it is there.
fn known_width(c: char) -> Option<u32> {
    let character = u16::try_from(c as u32).ok()?;
    let at = WIDTHS.binary_search_by_key(&character, |row| row.0).ok()?;
    Some(u32::from(WIDTHS.get(at)?.1))
}

/// Returns the width of `c` in thousandths of the size of the type: 0 for a combining mark.
pub fn char_width(c: char) -> u32 {
    if let Some(width) = known_width(c) {
        return width;
    }
    match c.width() {
        Some(0) => 0,
        Some(2) => WIDE,
        _ => USUAL,
    }
}

/// Returns the capital of a small letter from a to z or from à to þ, of œ and of ǽ; any other
/// character is returned unchanged.
fn capital_of(c: char) -> char {
    match c {
        'à'..='ö' | 'ø'..='þ' => char::from_u32((c as u32).saturating_sub(32)).unwrap_or(c),
        'œ' => 'Œ',
        'ǽ' => 'Ǽ',
        _ => c.to_ascii_uppercase(),
    }
}

/// Returns the width of `c` as a small capital: a small letter becomes a capital of four fifths of
/// the size.
fn small_capital_width(c: char) -> u32 {
    let capital = capital_of(c);
    if capital == c {
        char_width(c)
    } else {
        char_width(capital).saturating_mul(4) / 5
    }
}

/// Returns `thousandths` of `size`, rounded to the nearest number: errors of rounding down would
/// add up over the texts of a row.
fn part_of(size: Distance, thousandths: u32) -> Distance {
    let width = i64::from(thousandths).saturating_mul(i64::from(size.0));
    Distance(i32::try_from(width.saturating_add(500) / 1000).unwrap_or(i32::MAX))
}

/// Returns the width of `text` in plain type of this `size`.
pub fn text_width(text: &str, size: Distance) -> Distance {
    styled_width(text, size, Styles::PLAIN)
}

/// Returns the width of `text` in type of this `size` with these `styles`. Bold letters are up to
/// six hundredths wider.
pub fn styled_width(text: &str, size: Distance, styles: Styles) -> Distance {
    let mut width: u32 = 0;
    for c in text.chars() {
        let more = if styles.typewriter {
            TYPEWRITER
        } else if styles.small_capitals {
            small_capital_width(c)
        } else {
            char_width(c)
        };
        width = width.saturating_add(more);
    }
    if styles.bold {
        width = width.saturating_mul(53) / 50;
    }
    part_of(size, width)
}
