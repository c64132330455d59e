//! Where a body begins.

use gabc_places::{Findings, Place};

/// The context of a body: the place of its first character, the bytes of the canonical headers with
/// `%%`, and the findings of the headers.
#[derive(Drop)]
pub(crate) struct BodyContext {
    pub(crate) at: Place,
    pub(crate) head: usize,
    pub(crate) findings: Findings,
}
