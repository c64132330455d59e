//! The reasons for which a run cannot be restored.

use thiserror::Error;

/// The reason for which a run cannot be restored from bytes.
#[derive(Clone, Copy, Debug, PartialEq, Eq, Error)]
pub enum StateFault {
    /// Memory cannot be allocated.
    #[error("K0: no memory")]
    K0,
    /// The bytes are no saved state.
    #[error("K1: not a saved state")]
    K1,
    /// The bytes are a saved state of a run with other limits, another format, or another choice
    /// about warnings.
    #[error("K2: another format, other limits or other warnings")]
    K2,
}
