//! The texts of a syllable as they are put: the sung one, its translation, and those over the
//! staff.

use crate::lettering::Lettering;
use crate::runs::WordLine;
use gabc_marks::{Distance, Extent, Sign};
use std::alloc::{AllocError, Global};

/// The place for the texts of a syllable: the left end of its notes, the middle of the first one or
/// of a bar, if there is one, and the width that a part may take of a row.
#[derive(Clone, Copy, Debug)]
pub struct TextPlace {
    pub left: Distance,
    pub anchor: Option<Distance>,
    pub room: Distance,
}

/// The extents of the texts of a syllable that are put, and the lines after the first one of a sung
/// text that is wider than a row.
#[derive(Debug, Drop)]
pub struct TextReach<'a> {
    pub text: Option<Extent>,
    pub translation: Option<Extent>,
    /// The right end of the texts over the staff.
    pub above: Option<Distance>,
    pub further: Vec<WordLine<'a>>,
}

impl<'a> Lettering<'a> {
    /// Adds the text to `signs`, with its translation and the texts over the staff. Of a text that
    /// is wider than `place.room` only the first line is put.
    pub fn put(
        &mut self,
        alloc: Global,
        place: TextPlace,
        signs: &mut Vec<Sign<'a>>,
    ) -> Result<TextReach<'a>, AllocError> {
        let TextPlace { left, anchor, room } = place;
        let further = self.cut(alloc, room)?;
        let middle = if further.is_empty() {
            self.middle()
        } else {
            Distance::ZERO
        };
        let x = anchor.map_or(left, |anchor| anchor - middle);
        self.put_words(x, signs)?;
        let (text, from) = if self.is_empty() {
            (None, left)
        } else {
            let right = x + self.width;
            (Some(Extent { left: x, right }), x)
        };
        let end = self.put_translation(from, room, signs)?;
        Ok(TextReach {
            text,
            translation: end.map(|right| Extent { left: from, right }),
            above: self.put_above(left, room, signs)?,
            further,
        })
    }
}
