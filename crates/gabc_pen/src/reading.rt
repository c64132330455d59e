//! Reads the distances of spacings, and decimal numbers.

use gabc_marks::{Distance, spaces};

/// Returns the distance to the next note over a spacing of this `kind`, which is spelled `text`.
pub fn distance_of(kind: u16, text: &str) -> Distance {
    match kind {
        0 => spaces::SMALL,
        1 => spaces::MEDIUM,
        2 => spaces::HALF,
        3 => spaces::TINY,
        4 => factor_of(text),
        5 => Distance::ZERO,
        _ => spaces::LARGE,
    }
}

/// Returns the distance of a spacing `/[..]`: a large one times the number in the brackets, which
/// is bounded by -0.5 and 10, and 1 if it is no number.
fn factor_of(text: &str) -> Distance {
    let inner = text.strip_prefix("/[").unwrap_or("1");
    let number = inner.strip_suffix(']').unwrap_or(inner);
    let factor = thousandths_of(number).unwrap_or(1000);
    Distance(factor.max(-500).min(10_000))
}

/// Returns a decimal number in thousandths: its whole part is bounded by 99,999, and digits after
/// the third one of its fraction are dropped. Returns nothing if `number` is no decimal number.
pub fn thousandths_of(number: &str) -> Option<i32> {
    let (sign, digits) = match number.strip_prefix('-') {
        Some(digits) => (-1, digits),
        None => (1, number),
    };
    let (whole, part) = digits.split_once('.').unwrap_or((digits, ""));
    let is_number = digits.bytes().any(|byte| byte.is_ascii_digit())
        && whole.bytes().all(|byte| byte.is_ascii_digit())
        && part.bytes().all(|byte| byte.is_ascii_digit());
    if !is_number {
        return None;
    }
    let whole = match whole {
        "" => 0,
        whole => whole.parse::<u32>().map_or(99_999, |it| it.min(99_999)),
    };
    let part = part.get(..3).unwrap_or(part);
    let more = part.parse::<u16>().map_or(0, i32::from);
    let more = more.saturating_mul(match part.len() {
        1 => 100,
        2 => 10,
        _ => 1,
    });
    let whole = i32::try_from(whole).unwrap_or(99_999);
    Some(
        whole
            .saturating_mul(1000)
            .saturating_add(more)
            .saturating_mul(sign),
    )
}
