//! The text of an input's bytes.

use crate::code::Fault;
use crate::text::Text;

/// The bytes after the longest prefix of some bytes that is UTF-8: none, a part of a character, or
/// bytes that begin no character.
#[derive(Clone, Copy)]
pub(crate) enum Tail {
    Nothing,
    Part,
    Wrong,
}

/// The text of an input, and its fault.
#[derive(Debug, Drop)]
pub struct Decoded {
    /// The text up to the fault, or to the end.
    pub text: Text,
    /// The fault that stopped it, if there is one.
    pub fault: Option<Fault>,
}
