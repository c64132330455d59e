//! The first letter of a text, which an initial takes away from it.

use gabc_marks::{Distance, Extent, Level, Sign, Styles, Words, char_width, styled_width};

/// Removes the first letter from the sung text among `signs`, whose extent is `text`, and returns
/// it, if the text begins with one. The extent shrinks by its width.
pub fn take_letter<'a>(signs: &mut Vec<Sign<'a>>, text: &mut Option<Extent>) -> Option<&'a str> {
    for at in 0..signs.len() {
        if let Some(Sign::Words(words)) = signs.get(at).copied() {
            if words.level == Level::Text {
                let letter = first_letter(words.text)?;
                let taken = styled_width(letter, words.size, Styles::PLAIN);
                *text = text.map(|text| Extent {
                    left: (text.left + taken).min(text.right),
                    ..text
                });
                cut_words(signs, at, words, letter.len(), taken);
                if !signs.iter().any(|sign| is_text(*sign)) {
                    *text = None;
                }
                return Some(letter);
            }
        }
    }
    None
}

/// Removes this number of first `bytes` and `taken` of the width from `words`, which are the sign
/// `at`, or the whole sign from `signs` if no text is left.
fn cut_words<'a>(
    signs: &mut Vec<Sign<'a>>,
    at: usize,
    words: Words<'a>,
    bytes: usize,
    taken: Distance,
) {
    let rest = words.text.get(bytes..).unwrap_or("");
    if at < signs.len() {
        if rest.is_empty() {
            let _gone = signs.remove(at);
        } else {
            signs[at] = Sign::Words(Words {
                text: rest,
                x: words.x + taken,
                width: words.width - taken,
                ..words
            });
        }
    }
}

/// Returns whether `sign` is text that is sung.
fn is_text(sign: Sign<'_>) -> bool {
    matches!(sign, Sign::Words(words) if words.level == Level::Text)
}

/// Returns the letter with which `text` begins, if it does, with its combining marks.
fn first_letter(text: &str) -> Option<&str> {
    let mut length: usize = 0;
    for c in text.chars() {
        let is_more = if length == 0 {
            c.is_alphabetic()
        } else {
            char_width(c) == 0
        };
        if !is_more {
            break;
        }
        length = length.saturating_add(c.len_utf8());
    }
    if length == 0 {
        None
    } else {
        text.get(..length)
    }
}
