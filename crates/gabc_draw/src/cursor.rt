//! Parts beside each other in one row.

use crate::measures::Measures;
use gabc_marks::{Distance, spaces};

/// The width of a hyphen.
pub(crate) const HYPHEN: Distance = Distance(540);

/// The room of a hyphen between two texts.
pub(crate) const HYPHEN_ROOM: Distance = Distance(740);

/// The right ends of the notes, texts and translations of a row, from part to part.
#[derive(Clone, Copy, Debug)]
pub(crate) struct Cursor {
    notes: Distance,
    text: Distance,
    translation: Distance,
    is_first: bool,
}

impl Cursor {
    /// Returns a cursor at `start`.
    pub(crate) fn new(start: Distance) -> Cursor {
        Cursor {
            notes: start,
            text: start,
            translation: start - spaces::BETWEEN_TRANSLATIONS,
            is_first: true,
        }
    }

    /// Returns the right end of all parts.
    pub(crate) fn right(self) -> Distance {
        self.notes.max(self.text).max(self.translation)
    }

    /// Returns the place of a part by its notes.
    fn x_of_notes(self, part: &Measures<'_>) -> Distance {
        let Some(notes) = part.notes else {
            return self.text;
        };
        let x = self.notes - notes.left;
        if self.is_first {
            x
        } else if part.begins_word() {
            x + spaces::BETWEEN_NOTES_OF_WORDS
        } else {
            x + spaces::BETWEEN_NOTES
        }
    }

    /// Returns the place of a part by its text, if its notes allow the places from `x` on.
    fn x_of_text(self, part: &Measures<'_>, x: Distance) -> Distance {
        let Some(text) = part.text else {
            return x;
        };
        let begins = part.begins_word();
        let room = if begins && !self.is_first {
            spaces::BETWEEN_WORDS
        } else {
            Distance::ZERO
        };
        let left = self.text - text.left + room;
        let between = x - left;
        let is_tight = spaces::LETTERS_TOUCH < between && between < HYPHEN_ROOM;
        if x < left {
            left
        } else if !begins && !self.is_first && is_tight {
            left + HYPHEN_ROOM
        } else {
            x
        }
    }

    /// Sets a part after those before, and returns its place.
    pub(crate) fn put(&mut self, part: &Measures<'_>) -> Distance {
        let mut x = self.x_of_text(part, self.x_of_notes(part));
        if let Some(translation) = part.translation {
            x = x.max(self.translation + spaces::BETWEEN_TRANSLATIONS - translation.left);
            self.translation = x + translation.right;
        }
        let right = part.notes.map_or(x, |notes| x + notes.right);
        self.notes = self.notes.max(right);
        if let Some(text) = part.text {
            self.text = x + text.right;
        }
        self.is_first = false;
        x
    }
}
