//! The arguments that the command takes.

ghost use Rattle.std.specs.Prelude.{◌≡◌, Some, IfOk, false};
ghost use Rattle.clap.specs.Words.{app_of, rule_of, new_rule};
ghost use Rattle.clap.specs.declared.builder.ArgAction.TheVariants.{Set, SetTrue};
ghost use Rattle.gregorio_jobs.specs.machine.Plan.{without_rules};
ghost use Rattle.gregorio_jobs.specs.Arguments.{gregorio_command, option_rule, flag_rule, file_rule};

use clap::{Arg, ArgAction, Command};
use std::alloc::{AllocError, Global};

/// The option `-F`: the format.
pub(crate) const FORMAT: &str = "format";
/// The option `-o`: the file for the output.
pub(crate) const OUTPUT: &str = "output";
/// The option `-l`: the file for the messages.
pub(crate) const MESSAGES: &str = "messages";
/// The flag `-s`: standard input is read.
pub(crate) const STDIN: &str = "stdin";
/// The flag `-S`: standard output is written.
pub(crate) const STDOUT: &str = "stdout";
/// The flag `-W`: warnings are written too.
pub(crate) const WARNINGS: &str = "warnings";
/// The flag `-h`: the help line is wanted.
pub(crate) const HELP: &str = "help";
/// The argument that is no option: the file that is read.
pub(crate) const FILE: &str = "file";

/// Returns the option with the letter `letter`. It takes a value.
fn option<'a>(alloc: Global, id: &'a str, letter: char) -> Arg<'a>
    ensures rule { rule_of result ≡ option_rule id.entry.now letter }
    ensures local { result.global ≡ false }
{
    Arg::new(alloc, id).short(letter).action(ArgAction::Set)
}

/// Returns the flag with the letter `letter`.
fn flag<'a>(alloc: Global, id: &'a str, letter: char) -> Arg<'a>
    ensures rule { rule_of result ≡ flag_rule id.entry.now letter }
    ensures local { result.global ≡ false }
{
    Arg::new(alloc, id).short(letter).action(ArgAction::SetTrue)
}

/// Returns the argument that is no option.
fn file_argument<'a>(alloc: Global) -> Arg<'a>
    ensures rule { rule_of result ≡ file_rule }
    ensures local { result.global ≡ false }
{
    Arg::new(alloc, FILE).action(ArgAction::Set)
}

/// Returns the command, with no argument yet.
fn bare_command<'a>(alloc: Global) -> Command<'a>
    ensures { app_of result ≡ without_rules gregorio_command }
{
    Command::new(alloc, "gregorio")
        .no_binary_name(true)
        .disable_help_flag(true)
}

/// Returns the command of the program.
pub(crate) fn command<'a>(alloc: Global) -> Result<Command<'a>, AllocError>
    ensures { IfOk result (λ c. app_of c ≡ gregorio_command) }
{
    bare_command(alloc)
        .arg(option(alloc, FORMAT, 'F'))?
        .arg(option(alloc, OUTPUT, 'o'))?
        .arg(option(alloc, MESSAGES, 'l'))?
        .arg(flag(alloc, STDIN, 's'))?
        .arg(flag(alloc, STDOUT, 'S'))?
        .arg(flag(alloc, WARNINGS, 'W'))?
        .arg(flag(alloc, HELP, 'h'))?
        .arg(file_argument(alloc))
}
