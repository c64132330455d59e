//! A buffer that is too short.

use thiserror::Error;

/// The fault of a buffer that has fewer bytes than the text to be written into it.
#[derive(Clone, Copy, Debug, PartialEq, Eq, Error)]
#[error("the buffer is too short")]
pub struct TooShort;
