//! Runs into sinks that fail, with the bytes that each sink has taken then, and a run on a file.

use gabc_places::{Limits, TrialSink, TrialSource};
use gregorio::{Format, Input, Job, Name, Output, Status, compile};
use std::alloc::{AllocError, Global};

/// The numbers of bytes that the sinks of the output and of the messages hold.
#[derive(Clone, Copy)]
struct Ends {
    out: usize,
    messages: usize,
}

/// The texts that a run is to write, and its status.
#[derive(Clone, Copy)]
struct Wanted<'a> {
    out: &'a [u8],
    messages: &'a str,
    status: Status,
}

/// Returns a job that reads `input` and writes standard output.
fn job_of(input: Input, all_warnings: bool) -> Job {
    Job {
        format: Format::Gabc,
        input,
        output: Output::Stdout,
        messages: None,
        all_warnings,
    }
}

/// Returns whether a job has the texts and the status of `wanted`, on `bytes` of which a read
/// returns at most three, and on sinks that take one byte a write.
fn is_run(
    alloc: Global,
    job: &Job,
    bytes: &[u8],
    ends: Ends,
    wanted: Wanted<'_>,
) -> Result<bool, AllocError> {
    let mut source = TrialSource::new(bytes, 3, None);
    let mut out = TrialSink::new(alloc, 1, ends.out)?;
    let mut messages = TrialSink::new(alloc, 1, ends.messages)?;
    let status = compile(
        alloc,
        job,
        Limits::DEFAULT,
        &mut source,
        &mut out,
        &mut messages,
    );
    Ok(
        out.held() == wanted.out
            && messages.held() == wanted.messages.as_bytes()
            && status == wanted.status,
    )
}

/// Returns whether a job on the file `x.gabc` without warnings has the texts and the status of
/// `wanted`, as `is_run` does.
fn runs_on_file(
    alloc: Global,
    bytes: &[u8],
    ends: Ends,
    wanted: Wanted<'_>,
) -> Result<bool, AllocError> {
    let job = job_of(Input::File(Name::new(alloc, "x.gabc")?), false);
    is_run(alloc, &job, bytes, ends, wanted)
}

#[test]
fn keeps_warnings_back(rt: HostRuntime) -> Result<(), AllocError> {
    let ends = Ends {
        out: 64,
        messages: 96,
    };
    let wanted = Wanted {
        out: b"%%\n(//)<x>a(f)\n",
        messages: "x.gabc:2:3: error: E1: character left out of the notes\n",
        status: Status::Errors,
    };
    assert!(rt; runs_on_file(rt.alloc(), b"%%\n(/./)<x>a(f)", ends, wanted)?);
    Ok(())
}

/// Returns whether a job on standard input has the texts and the status of `wanted`, as `is_run`
/// does.
fn runs(
    alloc: Global,
    all_warnings: bool,
    bytes: &[u8],
    ends: Ends,
    wanted: Wanted<'_>,
) -> Result<bool, AllocError> {
    is_run(
        alloc,
        &job_of(Input::Stdin, all_warnings),
        bytes,
        ends,
        wanted,
    )
}

/// Returns whether a run on two syllables with all warnings ends when a write fails: with the bytes
/// `out` of the output held, and the bytes `messages` of the only message.
fn stops_at(alloc: Global, ends: Ends, out: &[u8], messages: &str) -> Result<bool, AllocError> {
    let wanted = Wanted {
        out,
        messages,
        status: Status::WriteFault,
    };
    runs(alloc, true, b"%%\nKy(,)ri(;)", ends, wanted)
}

/// The only message of a run on two syllables without headers.
const NO_NAME: &str = "<stdin>:1:1: warning: W1: no name header\n";

#[test]
fn stops_where_writes_fail(rt: HostRuntime) -> Result<(), AllocError> {
    let output = b"%%\nKy(,)ri(;)\n";
    for holds in 0..output.len() {
        let ends = Ends {
            out: holds,
            messages: 64,
        };
        // the message is sent after the two bytes of the headers
        let messages = if holds < 2 { "" } else { NO_NAME };
        assert!(rt;
            stops_at(rt.alloc(), ends, &output[..holds], messages)?,
            "{holds}"
        );
    }
    for messages in ["", "<", "<stdin>:1:1: warning: W1: no name header"] {
        let ends = Ends {
            out: 64,
            messages: messages.len(),
        };
        assert!(rt; stops_at(rt.alloc(), ends, b"%%", messages)?, "{messages}");
    }
    Ok(())
}
