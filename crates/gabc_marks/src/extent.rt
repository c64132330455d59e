//! Extents along one axis.

use crate::distance::Distance;

/// The left and the right end of a text or of a row of notes.
#[derive(Clone, Copy, Debug)]
pub struct Extent {
    pub left: Distance,
    pub right: Distance,
}

impl Extent {
    /// The extent of nothing.
    pub const NONE: Extent = Extent {
        left: Distance::ZERO,
        right: Distance::ZERO,
    };
}
