//! The lengths of the texts that a call writes.

/// The lengths of the output and of the messages, in bytes.
#[repr(C)]
#[derive(Debug, Drop)]
pub struct Lengths {
    /// The number of bytes of the output.
    pub output: usize,
    /// The number of bytes of the messages.
    pub messages: usize,
}
