//! The severity of a code.

/// The severity of a code.
#[derive(Clone, Copy, Debug, PartialEq, Eq)]
pub enum Severity {
    /// It reports anything else that an editor may want to look at.
    Warning,
    /// It reports a character, a part or a header left out.
    Error,
    /// It stops the run.
    Fatal,
}
