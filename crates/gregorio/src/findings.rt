//! The lines of findings, and the status of a run by its findings.

ghost use Rattle.std.specs.Prelude.{◌≡◌, ◌+◌, ◌≤◌, length};
ghost use Rattle.std.specs.List.{list_any};
ghost use Rattle.gregorio.specs.Outcome.{status_with as status_with_findings, input_name as name_of_input, is_shown as shown, shown_line, is_error_finding};

use gabc_places::{Finding, Put, Severity};
use gabc_score::Score;
use gabc_write::message_line;
use gregorio_jobs::{Input, Status};

/// Returns the name of the input in messages.
pub(crate) fn input_name(input: &Input) -> &str
    ensures { result.now ≡ name_of_input input.now }
{
    match input {
        Input::Stdin => "<stdin>",
        Input::File(name) => name.as_str(),
    }
}

/// Returns whether a message reports `finding`: a warning only if `all_warnings`.
pub fn is_shown(all_warnings: bool, finding: Finding) -> bool
    ensures { result ≡ shown all_warnings finding }
{
    all_warnings || finding.code.severity() != Severity::Warning
}

/// Puts the line of `finding` into `out`, if it is shown. Messages call the input `name`.
pub(crate) fn put_finding<S: Put>(name: &str, all_warnings: bool, finding: Finding, out: &mut S)
    ensures put { out.new ≡ S.taken out.old (shown_line name.now all_warnings finding) }
    ensures short { length (shown_line name.now all_warnings finding) ≤ length name.now + 128 }
{
    if is_shown(all_warnings, finding) {
        message_line(name, finding.place, finding.code, out);
    }
}

/// Returns whether `finding` is an error.
pub(crate) fn is_error(finding: Finding) -> bool
    ensures { result ≡ is_error_finding finding }
{
    finding.code.severity() == Severity::Error
}

/// Returns whether one of the findings is an error.
fn has_errors(findings: &[Finding]) -> bool
    ensures { result ≡ list_any is_error_finding findings.now }
{
    findings
        .iter()
        .any(|f| f.code.severity() == Severity::Error)
}

/// Returns the status of a run with the score `score`. `broken` says whether its source failed and
/// no fault stops it.
pub(crate) fn status_by(score: &Score, broken: bool) -> Status
    ensures { result ≡ status_with_findings score.now broken }
{
    let errors = has_errors(score.findings.as_slice());
    match (score.fault, broken, errors) {
        (Some(_), _, _) => Status::Fatal,
        (None, true, _) => Status::ReadFault,
        (None, false, true) => Status::Errors,
        (None, false, false) => Status::Whole,
    }
}
