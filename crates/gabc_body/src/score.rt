//! The content of a score.

use crate::syllables::Syllables;
use gabc_headers::HeaderBook;
use gabc_places::{Fault, Findings};

/// The content of a score: its headers, which are missing if a fault lies in them, its whole
/// syllables, the findings, and the fault that stopped the reading.
#[derive(Debug, Drop)]
pub struct Score {
    /// The headers that count; none if a fault lies in the headers.
    pub book: Option<HeaderBook>,
    /// The whole syllables.
    pub syllables: Syllables,
    /// The findings before the stop, in the order of places.
    pub findings: Findings,
    /// The fault that stopped the reading, if there is one.
    pub fault: Option<Fault>,
}
