//! The ways in which a run ends.

ghost use Rattle.std.specs.Prelude.{◌≡◌};

use gabc_places::Fault;
use gregorio_jobs::Status;

/// The way in which a run ended.
#[derive(Clone, Copy)]
pub(crate) enum RunEnding {
    /// The input was read to its end, and no error was found.
    Whole,
    /// It was read to its end, and an error was found.
    Errors,
    /// A fatal fault stopped the reading.
    Fatal(Fault),
    /// The source failed.
    ReadFault,
}

impl RunEnding {
    ghost use Rattle.gregorio.specs.witness.Engine.{fault_of_ending, status_of_ending};

    /// Returns the status of a run with this ending.
    pub(crate) fn status(self) -> Status
        ensures { result ≡ status_of_ending self }
    {
        match self {
            RunEnding::Whole => Status::Whole,
            RunEnding::Errors => Status::Errors,
            RunEnding::Fatal(_) => Status::Fatal,
            RunEnding::ReadFault => Status::ReadFault,
        }
    }

    /// Returns the fault that stopped the run, if there is one.
    pub(crate) fn fault(self) -> Option<Fault>
        ensures { result ≡ fault_of_ending self }
    {
        match self {
            RunEnding::Fatal(fault) => Some(fault),
            _ => None,
        }
    }
}
