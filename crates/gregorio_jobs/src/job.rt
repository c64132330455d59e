//! The jobs of runs, and their statuses.

ghost use Rattle.std.specs.Prelude.{◌≡◌};

use crate::name::Name;

/// The format of the output.
#[derive(Clone, Copy, Debug, PartialEq, Eq)]
pub enum Format {
    /// Canonical GABC.
    Gabc,
    /// A listing of the score: a line for each header, syllable, neume, note, sign and NABC part.
    Dump,
}

/// The source of the score.
#[derive(Debug, Drop)]
pub enum Input {
    /// Standard input.
    Stdin,
    /// The file of this name.
    File(Name),
}

/// The target of the output.
#[derive(Debug, Drop)]
pub enum Output {
    /// Standard output.
    Stdout,
    /// The file of this name.
    File(Name),
}

/// The job of a run: its format, its input and output, its file for messages, and whether warnings
/// are written.
#[derive(Debug, Drop)]
pub struct Job {
    /// The format of the output.
    pub format: Format,
    /// The source of the score.
    pub input: Input,
    /// The target of the output.
    pub output: Output,
    /// The file for messages; standard error if there is none.
    pub messages: Option<Name>,
    /// Whether warnings are written too.
    pub all_warnings: bool,
}

/// The meaning of a command line: the help line, or a run.
#[derive(Debug, Drop)]
pub enum Plan {
    /// The help line.
    Help,
    /// A run.
    Run(Job),
}

/// The status with which a run ended.
#[derive(Clone, Copy, Debug, PartialEq, Eq)]
pub enum Status {
    /// The input was read to its end, and no error was found.
    Whole,
    /// The input was read to its end, and errors were found.
    Errors,
    /// A fatal fault stopped the run.
    Fatal,
    /// The source failed.
    ReadFault,
    /// A sink failed.
    WriteFault,
    /// Memory could not be allocated: nothing was written.
    NoMemory,
}

impl Status {
    ghost use Rattle.gregorio_jobs.specs.Status.{code_of};

    /// Returns the exit status of the program: 0, 1, 2, 4 or 5.
    pub fn code(self) -> u8
        ensures { result ≡ code_of self }
    {
        match self {
            Status::Whole => 0,
            Status::Errors => 1,
            Status::Fatal => 2,
            Status::ReadFault | Status::WriteFault => 4,
            Status::NoMemory => 5,
        }
    }
}
