//! Makes one run of the reader, and keeps its output and its messages.

use gabc_places::{Limits, ToWriter, TrialSource};
use gregorio::{Format, Input, Job, Output, compile};
use std::alloc::Global;

/// The request of a run: its source has these `bytes`, and fails after them if it is `broken`.
#[derive(Clone, Copy)]
pub(crate) struct Request<'a> {
    pub format: Format,
    pub bytes: &'a [u8],
    pub broken: bool,
    pub limits: Limits,
    pub all_warnings: bool,
}

/// The output and the messages that a run wrote, and its exit status.
#[derive(Drop)]
pub(crate) struct RunResult {
    pub output: ToWriter<Vec<u8>>,
    pub messages: ToWriter<Vec<u8>>,
    pub status: u8,
}

/// Returns a job in this `format` from standard input to standard output.
pub(crate) fn job(format: Format, all_warnings: bool) -> Job {
    Job {
        format,
        input: Input::Stdin,
        output: Output::Stdout,
        messages: None,
        all_warnings,
    }
}

/// Makes a run of the reader.
pub(crate) fn run(alloc: Global, asked: Request) -> RunResult {
    let fails_after = if asked.broken {
        Some(asked.bytes.len())
    } else {
        None
    };
    let mut source = TrialSource::new(asked.bytes, 4096, fails_after);
    let mut output = ToWriter::new(Vec::new(alloc));
    let mut messages = ToWriter::new(Vec::new(alloc));
    let status = compile(
        alloc,
        &job(asked.format, asked.all_warnings),
        asked.limits,
        &mut source,
        &mut output,
        &mut messages,
    );
    RunResult {
        output,
        messages,
        status: status.code(),
    }
}
