//! The meaning of a command line.

ghost use Rattle.std.specs.Prelude.{◌≡◌, ◌≢◌, option_map};
ghost use Rattle.clap.specs.Words.{kind_of, found_of, rows_of};
ghost use Rattle.gregorio_jobs.specs.declared.refusal.Refusal.TheVariants.{O0};
ghost use Rattle.gregorio_jobs.specs.Wants.{wants, answer, argument_values, is_used as is_used_in, is_from_words as from_words};
ghost use Rattle.gregorio_jobs.specs.machine.Plan.{format_by, input_by, output_by, refused_by as refused_by_kind};

use crate::arguments::{FILE, FORMAT, HELP, MESSAGES, OUTPUT, STDIN, STDOUT, WARNINGS, command};
use crate::job::{Format, Input, Job, Output, Plan};
use crate::name::Name;
use crate::refusal::Refusal;
use crate::words::Words;
use clap::ArgMatches;
use clap::error::ErrorKind;
use clap::parser::ValueSource;
use std::alloc::Global;

/// Returns the refusal of arguments that the command does not take.
fn refused_by(error: &clap::Error) -> Refusal
    ensures { result ≡ refused_by_kind (kind_of error.now) }
{
    match error.kind() {
        ErrorKind::OutOfMemory => Refusal::O0,
        _ => Refusal::O1,
    }
}

/// Returns whether a value is given by the arguments, and is no default.
fn is_from_words(source: Option<ValueSource>) -> bool
    ensures { result ≡ from_words source }
{
    matches!(source, Some(ValueSource::CommandLine))
}

/// Returns whether the arguments give the one with the name `id`.
fn is_used(matches: &ArgMatches<'_>, id: &str) -> bool
    ensures { result ≡ is_used_in id.now (rows_of (found_of matches.now)) }
{
    is_from_words(matches.value_source(id))
}

/// Returns the format with the name `name`; `O2` if there is no name, and `O3` if it is unknown.
fn format_of(name: Option<&str>) -> Result<Format, Refusal>
    ensures { result ≡ format_by (option_map (λ w. w.now) name.entry) }
{
    match name {
        None => Err(Refusal::O2),
        Some("gabc") => Ok(Format::Gabc),
        Some("dump") => Ok(Format::Dump),
        Some(_) => Err(Refusal::O3),
    }
}

/// Returns the input: standard input if `stdin`, or the file `file`. Fails with `O4` if it is both,
/// and with `O5` if it is neither.
fn input_of(alloc: Global, stdin: bool, file: Option<&str>) -> Result<Input, Refusal>
    ensures { result ≢ Err O0
        → result ≡ input_by stdin (option_map (λ w. w.now) file.entry) }
{
    match (stdin, file) {
        (true, Some(_)) => Err(Refusal::O4),
        (false, None) => Err(Refusal::O5),
        (true, None) => Ok(Input::Stdin),
        (false, Some(name)) => Ok(Input::File(Name::new(alloc, name)?)),
    }
}

/// Returns the output: the file `file`, or standard output. Fails with `O6` if `stdout` asks for
/// both, and with `O7` if neither is named although a file is read, as `reads_file` says.
fn output_of(
    alloc: Global,
    file: Option<&str>,
    stdout: bool,
    reads_file: bool,
) -> Result<Output, Refusal>
    ensures { result ≢ Err O0
        → result ≡ output_by (option_map (λ w. w.now) file.entry) stdout reads_file }
{
    match (file, stdout) {
        (Some(_), true) => Err(Refusal::O6),
        (None, false) if reads_file => Err(Refusal::O7),
        (Some(name), false) => Ok(Output::File(Name::new(alloc, name)?)),
        (None, _) => Ok(Output::Stdout),
    }
}

/// Returns the file for the messages, if one is named.
fn messages_of(alloc: Global, file: Option<&str>) -> Result<Option<Name>, Refusal>
    ensures { result ≢ Err O0 → result ≡ Ok (option_map (λ w. w.now) file.entry) }
{
    match file {
        None => Ok(None),
        Some(name) => Ok(Some(Name::new(alloc, name)?)),
    }
}

/// Returns the plan of arguments that the command takes, by their matches.
fn plan_by(alloc: Global, matches: &ArgMatches<'_>) -> Result<Plan, Refusal>
    ensures { result ≢ Err O0 → result ≡ answer (argument_values (rows_of (found_of matches.now))) }
{
    if is_used(matches, HELP) {
        return Ok(Plan::Help);
    }
    let file = matches.get_str(FILE);
    let format = format_of(matches.get_str(FORMAT))?;
    let input = input_of(alloc, is_used(matches, STDIN), file)?;
    let stdout = is_used(matches, STDOUT);
    let output = output_of(alloc, matches.get_str(OUTPUT), stdout, file.is_some())?;
    let messages = messages_of(alloc, matches.get_str(MESSAGES))?;
    Ok(Plan::Run(Job {
        format,
        input,
        output,
        messages,
        all_warnings: is_used(matches, WARNINGS),
    }))
}

/// Returns the plan of `words`, the arguments after the program's name: the help line if `-h` is
/// among them, else the job. Fails with `O1` if the command does not take these arguments, else
/// with the first of `O2` to `O7` that applies, and with `O0` if memory cannot be allocated. `-h`
/// hides `O2` to `O7`. Which arguments the command takes is `clap`'s statement, and exact for this
/// command.
pub fn plan(alloc: Global, words: &Words) -> Result<Plan, Refusal>
    ensures { result ≢ Err O0 → result ≡ wants words.now }
{
    match command(alloc)?.try_get_matches_from(words.as_slice()) {
        Ok(matches) => plan_by(alloc, &matches),
        Err(error) => Err(refused_by(&error)),
    }
}
