//! The ways in which a text ends.

use gabc_places::Fault;

/// The way in which the text of a score ended.
#[derive(Clone, Copy, Debug, PartialEq, Eq)]
pub enum InputEnding {
    /// At the end of the input.
    Whole,
    /// At the failure of the source.
    Broken,
    /// At a fault of the input's bytes.
    At(Fault),
}
