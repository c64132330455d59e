//! The parts of an NABC snippet.

use gabc_places::{Sequence, Span};

/// A part of a kept text: a descriptor (one or more glyphs, with their points and letters), or a
/// space between two. Its span is in bytes of the kept text.
#[derive(Clone, Copy, Debug, PartialEq, Eq)]
pub struct Descriptor {
    /// Whether it is a space and no descriptor.
    pub space: bool,
    /// Its bytes in the kept text.
    pub span: Span,
}

/// The descriptors and spaces of a kept text, in order.
pub type Descriptors = Sequence<Descriptor>;
