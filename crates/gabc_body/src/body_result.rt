//! The content of a body.

use crate::syllables::Syllables;
use gabc_places::{Fault, Findings};

/// The content of a body: its whole syllables, the findings, and the fault that stopped the
/// reading.
#[derive(Drop)]
pub struct BodyResult {
    /// The whole syllables.
    pub syllables: Syllables,
    /// The findings before the stop, in the order of places.
    pub findings: Findings,
    /// The fault that stopped the reading, if there is one.
    pub fault: Option<Fault>,
}
