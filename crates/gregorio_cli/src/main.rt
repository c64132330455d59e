//! The program `gregorio`: reads a score of Gregorian chant, and writes it in canonical form or as
//! a dump, as its arguments ask.
#![tactic(auto)]

mod ends;

use ends::{InputStream, OutputStream, closed_streams};
use gabc_places::{FromReader, Limits, ToWriter};
use gregorio::{Input, Job, Name, Output, Plan, Refusal, Status, Words, compile_with_hasher, plan};
use std::hash::{BuildHasher, RandomState};
use std::process::ExitCode;
use std::{env, fs, io};

/// The help line, which `-h` prints.
const HELP: &str = "usage: gregorio -F gabc|dump [-W] [-l FILE] [-o FILE | -S] (-s | FILE)";

/// Returns the arguments after the program's name. The error is O0 if memory runs out, and O1 for
/// any other error, as an argument that is not UTF-8.
fn words_of(rt: &HostRuntime) -> Result<Words, Refusal> {
    let all = match env::args(rt) {
        Ok(all) => all,
        Err(error) if error.kind() == io::ErrorKind::OutOfMemory => return Err(Refusal::O0),
        Err(_) => return Err(Refusal::O1),
    };
    let mut words = Words::new(rt.alloc());
    for word in all.skip(1) {
        words.push(word.as_str())?;
    }
    Ok(words)
}

/// Returns the plan of the arguments after the program's name.
fn plan_of(rt: &HostRuntime) -> Result<Plan, Refusal> {
    plan(rt.alloc(), &words_of(rt)?)
}

/// The reason why no job was run: the file with this name could not be opened, or there was no
/// memory.
enum Unopened<'j> {
    File(&'j str),
    NoMemory,
}

/// Returns the reason why the file with this `name` was not opened.
fn why_unopened<'j>(name: &'j Name, error: &io::Error) -> Unopened<'j> {
    match error.kind() {
        io::ErrorKind::OutOfMemory => Unopened::NoMemory,
        _ => Unopened::File(name.as_str()),
    }
}

/// Opens a file to be read.
fn open<'j>(rt: &HostRuntime, name: &'j Name) -> Result<fs::File, Unopened<'j>> {
    fs::open(rt, name.as_str()).map_err(|error| why_unopened(name, &error))
}

/// Opens a file to be written. It is made, or emptied if it is there.
fn create<'j>(rt: &HostRuntime, name: &'j Name) -> Result<fs::File, Unopened<'j>> {
    fs::create(rt, name.as_str()).map_err(|error| why_unopened(name, &error))
}

/// Draws the keys for names of headers, opens the ends of a job, first the input, then the output,
/// then the messages, and runs it with the default limits. If no keys can be drawn, nothing is
/// opened: this counts as a failed read. Nothing is made if the input cannot be opened.
fn run<'j>(rt: &HostRuntime, job: &'j Job) -> Result<Status, Unopened<'j>> {
    let Ok(keys) = RandomState::new(rt) else {
        return Ok(Status::ReadFault);
    };
    let _streams = closed_streams(rt);
    let input = match &job.input {
        Input::Stdin => InputStream::Stdin(rt.stdin()),
        Input::File(name) => InputStream::File(open(rt, name)?),
    };
    let output = match &job.output {
        Output::Stdout => OutputStream::Stdout(rt.stdout()),
        Output::File(name) => OutputStream::File(create(rt, name)?),
    };
    let messages = match &job.messages {
        None => OutputStream::Stderr(rt.stderr()),
        Some(name) => OutputStream::File(create(rt, name)?),
    };
    Ok(compile_with_hasher(
        rt.alloc(),
        job,
        Limits::DEFAULT,
        keys.build_hasher(),
        &mut FromReader::new(input),
        &mut ToWriter::new(output),
        &mut ToWriter::new(messages),
    ))
}

/// Prints the line of a `status` that the messages of the run do not report, and returns its exit
/// code.
fn finish(rt: &HostRuntime, status: Status) -> ExitCode {
    let _ = match status {
        Status::ReadFault => eprintln!(rt; "gregorio: cannot read"),
        Status::WriteFault => eprintln!(rt; "gregorio: cannot write"),
        Status::NoMemory => eprintln!(rt; "gregorio: no memory"),
        Status::Whole | Status::Errors | Status::Fatal => Ok(()),
    };
    ExitCode::from(status.code())
}

/// Runs a job, reports why it failed if it did, and returns its exit code.
fn run_and_finish(rt: &HostRuntime, job: &Job) -> ExitCode {
    match run(rt, job) {
        Ok(status) => finish(rt, status),
        Err(Unopened::NoMemory) => finish(rt, Status::NoMemory),
        Err(Unopened::File(name)) => {
            let _ = eprintln!(rt; "gregorio: cannot open {name}");
            ExitCode::from(Status::ReadFault.code())
        }
    }
}

/// Prints the help line, and returns the exit code.
fn help(rt: &HostRuntime) -> ExitCode {
    match println!(rt; "{HELP}") {
        Ok(()) => ExitCode::SUCCESS,
        Err(_) => finish(rt, Status::WriteFault),
    }
}

/// Prints why the arguments are refused, and returns the exit code.
fn refuse(rt: &HostRuntime, refusal: Refusal) -> ExitCode {
    let _ = eprintln!(rt; "gregorio: {refusal}");
    ExitCode::from(refusal.code())
}

fn main(rt: HostRuntime) -> ExitCode {
    match plan_of(&rt) {
        Ok(Plan::Help) => help(&rt),
        Ok(Plan::Run(job)) => run_and_finish(&rt, &job),
        Err(refusal) => refuse(&rt, refusal),
    }
}
