//! The requests of calls.

ghost use Rattle.std.specs.Prelude.{◌≡◌};
ghost use Rattle.gregorio_c.specs.Request.{request_by, warnings_by, format_by};
ghost use Rattle.gregorio_c.specs.Steps.{job_of};

use gregorio::{Format, Input, Job, Output};

/// A request: the format of the output, and whether all warnings are reported.
#[derive(Clone, Copy)]
pub(crate) struct Request {
    pub format: Format,
    pub all_warnings: bool,
}

impl Request {
    /// Returns the job that it asks for. Messages call the input `<stdin>`.
    pub(crate) fn job(self) -> Job
        ensures { result ≡ job_of self }
    {
        Job {
            format: self.format,
            input: Input::Stdin,
            output: Output::Stdout,
            messages: None,
            all_warnings: self.all_warnings,
        }
    }
}

/// Returns the format with this `number`, if it is known.
fn format_of(number: u32) -> Option<Format>
    ensures { result ≡ format_by number }
{
    match number {
        0 => Some(Format::Gabc),
        1 => Some(Format::Dump),
        _ => None,
    }
}

/// Returns whether `flags` ask for all warnings, if they are known.
pub(crate) fn warnings_of(flags: u32) -> Option<bool>
    ensures { result ≡ warnings_by flags }
{
    match flags {
        0 => Some(false),
        1 => Some(true),
        _ => None,
    }
}

/// Returns the request of the number `format` and of `flags`, if both are known.
pub(crate) fn request_of(format: u32, flags: u32) -> Option<Request>
    ensures { result ≡ request_by format flags }
{
    let format = format_of(format)?;
    let all_warnings = warnings_of(flags)?;
    Some(Request {
        format,
        all_warnings,
    })
}
