//! The groups of a picture, with the heads in them.

ghost use Rattle.std.specs.Prelude.{◌≡◌, [], cond, ⊤};
ghost use Rattle.gabc_draw.specs.machine.Desk.{bytes_of_group, shown_by_group};

use gabc_marks::NoteHead;
use std::alloc::Global;

/// The group of a part: the bytes of its syllable, whose number counts from 1, whether it is the
/// first part of it, and its heads.
#[derive(Debug, Drop)]
pub(crate) struct Group {
    pub(crate) begin: u32,
    pub(crate) end: u32,
    pub(crate) number: u32,
    pub(crate) is_first: bool,
    pub(crate) heads: Vec<NoteHead>,
}

impl Group {
    /// Returns the group of whatever comes before all syllables.
    pub(crate) fn before_all(alloc: Global) -> Group
        ensures bytes { bytes_of_group result ≡ record { begin = 0; end = 0 } }
        ensures shown { shown_by_group result ≡ [] }
    {
        Group {
            begin: 0,
            end: 0,
            number: 0,
            is_first: false,
            heads: Vec::new(alloc),
        }
    }

    /// Returns whether it is the group before all syllables, and has no heads.
    pub(crate) fn is_empty(&self) -> bool
        ensures { cond result (shown_by_group self.now ≡ []) ⊤ }
    {
        self.number == 0 && !self.is_first && self.heads.is_empty()
    }

    /// Returns the group of a further part of the same syllable, without heads.
    pub(crate) fn further(&self, alloc: Global) -> Group
        ensures bytes { bytes_of_group result ≡ bytes_of_group self.now }
        ensures shown { shown_by_group result ≡ [] }
    {
        Group {
            begin: self.begin,
            end: self.end,
            number: self.number,
            is_first: false,
            heads: Vec::new(alloc),
        }
    }
}
