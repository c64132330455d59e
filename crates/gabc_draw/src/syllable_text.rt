//! The text of a syllable on its sheet.

use crate::sheet::Sheet;
use gabc_lettering::{TextPlace, TextReach};
use gabc_marks::{Distance, Extent, Level};
use std::alloc::{AllocError, Global};

impl<'a> Sheet<'a> {
    /// Puts the text of the syllable, with its translation and the texts over the staff.
    pub(crate) fn put_text(&mut self, alloc: Global) -> Result<(), AllocError> {
        let place = TextPlace {
            left: self.part.notes.map_or(Distance::ZERO, |notes| notes.left),
            anchor: self.part.anchor,
            room: self.room,
        };
        let TextReach {
            text,
            translation,
            above,
            further,
        } = self.lettering.put(alloc, place, &mut self.part.signs)?;
        self.part.text = text;
        self.part.translation = translation;
        if let Some(right) = above {
            self.part.above = Some(self.part.above.map_or(right, |it| it.max(right)));
        }
        self.further = further;
        Ok(())
    }

    /// Adds the line of the text with this `number`, of those after the first one, as a part.
    pub(crate) fn end_further(&mut self, alloc: Global, number: usize) -> Result<(), AllocError> {
        if let Some(line) = self.further.get(number) {
            line.put(Distance::ZERO, Level::Text, &mut self.part.signs)?;
            self.part.text = Some(Extent {
                left: Distance::ZERO,
                right: line.width,
            });
        }
        self.push_part(alloc)
    }
}
