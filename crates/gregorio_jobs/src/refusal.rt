//! The reasons for which arguments are no job.

ghost use Rattle.std.specs.Prelude.{◌≡◌};
ghost use Rattle.gregorio_jobs.specs.declared.refusal.Refusal.TheVariants.{O0};

use std::alloc::AllocError;
use thiserror::Error;

/// The reason for which arguments are no job. Its text is the message of the program.
#[derive(Clone, Copy, Debug, PartialEq, Eq, Error)]
pub enum Refusal {
    /// Memory cannot be allocated.
    #[error("O0: no memory")]
    O0,
    /// The command does not take these arguments.
    #[error("O1: arguments not understood")]
    O1,
    /// No format is given.
    #[error("O2: -F is needed")]
    O2,
    /// The format is unknown.
    #[error("O3: -F takes gabc or dump")]
    O3,
    /// Standard input and a file are both to be read.
    #[error("O4: -s and a file")]
    O4,
    /// Nothing is to be read.
    #[error("O5: no input")]
    O5,
    /// The output goes to a file and to standard output.
    #[error("O6: -o and -S")]
    O6,
    /// A file is to be read, and no output is named.
    #[error("O7: a file needs -o or -S")]
    O7,
}

impl Refusal {
    ghost use Rattle.gregorio_jobs.specs.Refusal.{code_of};

    /// Returns the exit status of the program: 5 if memory cannot be allocated, else 3.
    pub fn code(self) -> u8
        ensures { result ≡ code_of self }
    {
        match self {
            Refusal::O0 => 5,
            Refusal::O1
            | Refusal::O2
            | Refusal::O3
            | Refusal::O4
            | Refusal::O5
            | Refusal::O6
            | Refusal::O7 => 3,
        }
    }
}

impl From<AllocError> for Refusal {
    ghost from_gives = { λ _ r. r ≡ O0 };

    fn from(_error: AllocError) -> Refusal {
        Refusal::O0
    }
}
