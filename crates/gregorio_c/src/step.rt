//! The lengths of the texts and the state that a step makes.

/// The lengths of the state after a step, of its output and of its messages, in bytes.
#[repr(C)]
#[derive(Clone, Copy, Debug, PartialEq, Eq)]
pub struct Step {
    /// The number of bytes of the state; 0 if the run is over.
    pub state: usize,
    /// The number of bytes of the output.
    pub output: usize,
    /// The number of bytes of the messages.
    pub messages: usize,
}
