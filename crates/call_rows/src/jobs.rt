//! Rows of the plans of command lines, and of statuses.

use crate::call::Call;
use crate::printed::Printed;
use gregorio_jobs::{Format, Input, Job, Name, Output, Plan, Refusal, Status, Words, plan};
use std::alloc::{AllocError, Global};

/// Prints `before` and the name, or `none` if there is no name.
fn show_name(before: &str, name: Option<&Name>, none: &str, out: &mut Printed) {
    match name {
        Some(name) => {
            out.put(before);
            out.put(name.as_str());
        }
        None => out.put(none),
    }
}

/// Returns the name of the file that is read, if it is one.
fn input_of(job: &Job) -> Option<&Name> {
    match &job.input {
        Input::Stdin => None,
        Input::File(name) => Some(name),
    }
}

/// Returns the name of the file that is written, if it is one.
fn output_of(job: &Job) -> Option<&Name> {
    match &job.output {
        Output::Stdout => None,
        Output::File(name) => Some(name),
    }
}

/// Prints the format, the ends and the messages of a job.
fn show_job(job: &Job, out: &mut Printed) {
    out.put(match job.format {
        Format::Gabc => "gabc",
        Format::Dump => "dump",
    });
    show_name("\tfile ", input_of(job), "\tstdin", out);
    show_name("\tfile ", output_of(job), "\tstdout", out);
    show_name("\tmessages to ", job.messages.as_ref(), "\tmessages", out);
    out.put(if job.all_warnings { "\twarnings" } else { "" });
}

/// Prints the line of a refusal, and its exit status.
fn show_refusal(refusal: Refusal, out: &mut Printed) {
    out.show(&refusal);
    out.tab();
    out.show(&refusal.code());
}

/// Returns the arguments of a command line, split by blanks.
fn words_of(alloc: Global, text: &str) -> Result<Words, AllocError> {
    let mut words = Words::new(alloc);
    for word in text.split(' ') {
        if !word.is_empty() {
            words.push(word)?;
        }
    }
    Ok(words)
}

/// Prints the plan of a command line.
fn answer_plan(alloc: Global, text: &str, out: &mut Printed) -> Result<(), AllocError> {
    let planned = plan(alloc, &words_of(alloc, text)?);
    match &planned {
        Ok(Plan::Help) => out.put("help"),
        Ok(Plan::Run(job)) => show_job(job, out),
        Err(refusal) => show_refusal(*refusal, out),
    }
    drop(planned);
    Ok(())
}

/// The statuses, with their names.
const STATUSES: [(&str, Status); 6] = [
    ("Whole", Status::Whole),
    ("Errors", Status::Errors),
    ("Fatal", Status::Fatal),
    ("ReadFault", Status::ReadFault),
    ("WriteFault", Status::WriteFault),
    ("NoMemory", Status::NoMemory),
];

/// Prints the exit status of the status with this name.
fn answer_status(name: &str, out: &mut Printed) {
    for (known, status) in STATUSES {
        if known == name {
            out.show(&status.code());
        }
    }
}

/// Prints the answer of a call.
pub(crate) fn answer(alloc: Global, call: Call, out: &mut Printed) -> Result<(), AllocError> {
    match call.name {
        "plan" => return answer_plan(alloc, call.text, out),
        "status" => answer_status(call.text, out),
        "no_memory" => show_refusal(Refusal::O0, out),
        _ => out.refuse(),
    }
    Ok(())
}
