//! The measures of a part for the layout: its extents and its content.

use crate::marks::PartMark;
use gabc_marks::{Distance, Extent, Sign};
use gabc_pen::{Clef, Curve, NabcRows, PerLine};
use std::alloc::Global;

/// The end of a line as the score asks for it.
#[derive(Clone, Copy, Debug, PartialEq, Eq)]
pub(crate) struct LineEnd {
    /// Whether the line is as wide as the others.
    pub(crate) is_justified: bool,
    pub(crate) has_custos: bool,
}

/// The position of a syllable in its word, and the spans that it is in.
#[derive(Clone, Copy, Debug, PartialEq, Eq)]
pub(crate) struct Place {
    pub(crate) begins_word: bool,
    /// Whether its word continues after it.
    pub(crate) goes_on: bool,
    pub(crate) is_eu: bool,
    pub(crate) is_nlba: bool,
}

impl Place {
    /// A word of its own, in no span.
    pub(crate) const ALONE: Place = Place {
        begins_word: true,
        goes_on: false,
        is_eu: false,
        is_nlba: false,
    };

    /// Returns the place of a syllable with this `position` and these `spans`, as a tree numbers
    /// them.
    pub(crate) fn of(position: u16, spans: u16) -> Place {
        Place {
            begins_word: position < 2,
            goes_on: position == 1 || position == 2,
            is_eu: spans % 2 == 1,
            is_nlba: spans / 2 % 2 == 1,
        }
    }
}

/// A part: its signs, and its extents, counted from the begin of the notes of its syllable.
#[derive(Debug, Drop)]
pub(crate) struct Measures<'a> {
    pub(crate) signs: Vec<Sign<'a>>,
    pub(crate) place: Place,
    /// Whether it is the first part of its syllable.
    pub(crate) is_first: bool,
    /// The extent of its notes, clefs, bars and the like, if it has any.
    pub(crate) notes: Option<Extent>,
    pub(crate) text: Option<Extent>,
    pub(crate) translation: Option<Extent>,
    /// The middle of its first note or of a bar, under which the text is set.
    pub(crate) anchor: Option<Distance>,
    /// The pitch of its first note.
    pub(crate) first: Option<u8>,
    pub(crate) clef: Option<Clef>,
    pub(crate) begins_with_clef: bool,
    pub(crate) end: Option<LineEnd>,
    pub(crate) has_bar: bool,
    /// Whether the last block in it is a custos, or an attribute asks for no custos after it.
    pub(crate) wants_no_custos: bool,
    /// The right end of its texts over the staff.
    pub(crate) above: Option<Distance>,
    pub(crate) curves: Vec<Curve>,
    pub(crate) marks: Vec<PartMark>,
    pub(crate) nabc: NabcRows,
    pub(crate) top: Distance,
    pub(crate) bottom: Distance,
}

impl<'a> Measures<'a> {
    /// Returns a part with nothing in it.
    pub(crate) fn new(alloc: Global, place: Place, is_first: bool) -> Measures<'a> {
        Measures {
            signs: Vec::new(alloc),
            place,
            is_first,
            notes: None,
            text: None,
            translation: None,
            anchor: None,
            first: None,
            clef: None,
            begins_with_clef: false,
            end: None,
            has_bar: false,
            wants_no_custos: false,
            above: None,
            curves: Vec::new(alloc),
            marks: Vec::new(alloc),
            nabc: PerLine::all(None),
            top: Distance::ZERO,
            bottom: Distance::ZERO,
        }
    }

    /// Returns whether it has a bar and no note.
    pub(crate) fn is_bar(&self) -> bool {
        self.has_bar && self.first.is_none()
    }

    /// Returns whether it has notes, a text or a translation.
    pub(crate) fn is_seen(&self) -> bool {
        self.notes.is_some() || self.text.is_some() || self.translation.is_some()
    }

    /// Returns whether it begins a word.
    pub(crate) fn begins_word(&self) -> bool {
        self.is_first && self.place.begins_word
    }
}
