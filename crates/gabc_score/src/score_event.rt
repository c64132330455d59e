//! The events of a stage over a score.

use gabc_places::{Fault, Finding};

/// One of the syllables that a stage emitted with one call.
#[derive(Clone, Copy, Debug, PartialEq, Eq)]
pub enum BorrowedSyllable {
    /// The first of them.
    First,
    /// The one after it.
    Second,
}

/// An event of a score.
#[derive(Clone, Copy, Debug, PartialEq, Eq)]
pub enum ScoreEvent {
    /// An error or a warning.
    Found(Finding),
    /// The score is stopped here. No event follows.
    Stop(Fault),
    /// A whole syllable with its position, which the stage lends until its next call.
    Syllable(BorrowedSyllable),
    /// The score has ended. No event follows.
    End,
}
