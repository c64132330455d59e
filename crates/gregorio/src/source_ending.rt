//! The ways in which a source stops.

/// The way in which a source stopped: it ended, or it failed.
#[derive(Clone, Copy, Debug, PartialEq, Eq)]
pub enum SourceEnding {
    /// It ended.
    Whole,
    /// It failed.
    Broken,
}
