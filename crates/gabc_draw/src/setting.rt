//! Parts beside each other in a row: the place of each, the gaps over which the row is spread, and
//! the hyphens.

use crate::cursor::{Cursor, HYPHEN, HYPHEN_ROOM};
use crate::measures::Measures;
use gabc_lettering::TEXT_SIZE;
use gabc_marks::{Distance, Level, Sign, Styles, Words, spaces};
use std::alloc::{AllocError, Global};

/// Returns the places of the `parts` of a row that begins at `start`.
pub(crate) fn places_from(
    alloc: Global,
    parts: &[Measures<'_>],
    start: Distance,
) -> Result<Vec<Distance>, AllocError> {
    let mut cursor = Cursor::new(start);
    let mut places = Vec::new(alloc);
    for part in parts {
        places.push(cursor.put(part))?;
    }
    Ok(places)
}

/// Returns the right end of the notes and the texts of `parts` at these `places`. Translations do
/// not count, since they may reach below the custos.
pub(crate) fn right_of(parts: &[Measures<'_>], places: &[Distance]) -> Distance {
    let mut right = Distance::ZERO;
    for (part, x) in parts.iter().zip(places) {
        for extent in [part.notes, part.text] {
            right = right.max(extent.map_or(right, |it| *x + it.right));
        }
    }
    right
}

/// Returns whether a row may be spread over the gap before `part` at `x`; `text` is the right end
/// of the text before. It may not be if letters of one word touch there: a hyphen would need room.
fn is_open(part: &Measures<'_>, x: Distance, text: Option<Distance>) -> bool {
    match (part.text, text) {
        (Some(own), Some(end)) if !part.begins_word() => spaces::LETTERS_TOUCH < x + own.left - end,
        _ => true,
    }
}

/// Returns for each part whether the gap before it is open.
fn open_gaps(
    alloc: Global,
    parts: &[Measures<'_>],
    places: &[Distance],
) -> Result<Vec<bool>, AllocError> {
    let mut gaps = Vec::new(alloc);
    let mut text = None;
    for (part, x) in parts.iter().zip(places) {
        gaps.push(!gaps.is_empty() && is_open(part, *x, text))?;
        text = part.text.map_or(text, |own| Some(*x + own.right));
    }
    Ok(gaps)
}

/// Returns the distance, at most `each`, by which each of the open `gaps` may grow, so that no
/// translation and no text over the staff goes beyond a row of this `width`.
fn most_of_gaps(
    parts: &[Measures<'_>],
    places: &[Distance],
    gaps: &[bool],
    each: Distance,
    width: Distance,
) -> Distance {
    let mut most = each;
    let mut passed: i32 = 0;
    for ((part, x), gap) in parts.iter().zip(places).zip(gaps) {
        if *gap {
            passed = passed.saturating_add(1);
        }
        let translation = part.translation.map(|it| it.right);
        let right = match (translation, part.above) {
            (Some(one), Some(other)) => Some(one.max(other)),
            (one, other) => one.or(other),
        };
        if let Some(right) = right {
            if 0 < passed {
                let room = (width - *x - right).max(Distance::ZERO);
                most = most.min(room.share(passed));
            }
        }
    }
    most
}

/// Moves each place by `each` for each open gap up to it.
fn widen(places: &mut Vec<Distance>, gaps: &[bool], each: Distance) {
    let mut moved = Distance::ZERO;
    for at in 0..places.len() {
        if gaps.get(at) == Some(&true) {
            moved += each;
        }
        places[at] += moved;
    }
}

/// Returns the number of open gaps.
fn count_open(gaps: &[bool]) -> i32 {
    i32::try_from(gaps.iter().filter(|gap| **gap).count()).unwrap_or(i32::MAX)
}

/// Returns `parts` up to the last one that has notes or texts.
fn seen_of<'a, 'b>(parts: &'b [Measures<'a>]) -> &'b [Measures<'a>] {
    let unseen = parts
        .iter()
        .rev()
        .take_while(|part| !part.is_seen())
        .count();
    let count = parts.len().saturating_sub(unseen);
    parts.get(..count).unwrap_or(parts)
}

/// Spreads a row of this `width` by `free` over its open gaps up to the last part that has notes or
/// texts: over those between touching letters too if each is then wide enough for a hyphen.
pub(crate) fn spread(
    alloc: Global,
    parts: &[Measures<'_>],
    places: &mut Vec<Distance>,
    free: Distance,
    width: Distance,
) -> Result<(), AllocError> {
    let seen = seen_of(parts);
    let all = i32::try_from(seen.len())
        .unwrap_or(i32::MAX)
        .saturating_sub(1);
    let mut gaps = open_gaps(alloc, seen, places.as_slice())?;
    if HYPHEN_ROOM <= free.share(all) {
        open_all(&mut gaps);
    }
    let each = free.share(count_open(gaps.as_slice())).max(Distance::ZERO);
    let each = most_of_gaps(seen, places.as_slice(), gaps.as_slice(), each, width);
    widen(places, gaps.as_slice(), each);
    Ok(())
}

/// Opens all gaps.
fn open_all(gaps: &mut Vec<bool>) {
    for at in 1..gaps.len() {
        gaps[at] = true;
    }
}

/// Returns a hyphen at `x`.
fn hyphen<'a>(x: Distance) -> Sign<'a> {
    Sign::Words(Words {
        text: "-",
        x,
        level: Level::Text,
        width: HYPHEN,
        size: TEXT_SIZE,
        styles: Styles::PLAIN,
    })
}

/// Adds a hyphen between the texts of one word, if these do not touch, and after a word that
/// continues in the next row.
pub(crate) fn put_hyphens<'a>(
    parts: &[Measures<'a>],
    places: &[Distance],
    signs: &mut Vec<Sign<'a>>,
) -> Result<(), AllocError> {
    let mut end = None;
    for (part, x) in parts.iter().zip(places) {
        let Some(text) = part.text else {
            continue;
        };
        if let Some(end) = end {
            let between = *x + text.left - end;
            if !part.place.begins_word && spaces::LETTERS_TOUCH < between {
                signs.push(hyphen(end + (between - HYPHEN).half()))?;
            }
        }
        end = if part.place.goes_on {
            Some(*x + text.right)
        } else {
            None
        };
    }
    if let Some(end) = end {
        signs.push(hyphen(end))?;
    }
    Ok(())
}
