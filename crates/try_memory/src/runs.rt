//! Calls for runs of a job: `plan`, engines and `compile`.

ghost use Rattle.gregorio.specs.Engine.{NothingWaits};

use crate::digest::digest_of;
use crate::trial::{Trial, try_call};
use gabc_places::{FromReader, Limits, TrialSink};
use gregorio::{
    Engine, Format, Input, Job, Output, Refusal, Status, Words, compile, compile_with_hasher, plan,
};
use std::alloc::{AllocError, Global};
use std::fs;
use std::hash::DefaultHasher;
use std::io::{self, Read};

/// The arguments of a command line.
#[derive(Drop)]
struct Planned {
    words: Words,
}

impl Trial for Planned {
    fn call(&mut self, alloc: Global) -> Result<u64, AllocError> {
        match plan(alloc, &self.words) {
            Err(Refusal::O0) => Err(AllocError),
            answer => Ok(digest_of(&answer)),
        }
    }

    fn arguments(&self) -> u64 {
        digest_of(&self.words)
    }
}

/// Tries `plan` on the arguments in `texts`, which have blanks between them.
fn try_plan(rt: &HostRuntime, texts: &str) -> io::Result<()> {
    let mut words = Words::new(rt.alloc());
    for text in texts.split(' ') {
        words.push(text)?;
    }
    try_call(rt, &mut Planned { words })
}

/// Returns a job on standard input that reports all warnings.
pub(crate) fn job_in(format: Format) -> Job {
    Job {
        format,
        input: Input::Stdin,
        output: Output::Stdout,
        messages: None,
        all_warnings: true,
    }
}

/// Feeds an engine the end of its headers, returns a digest of what it writes then, and drops the
/// engine.
pub(crate) fn digest_of_engine(mut engine: Engine) -> u64
    requires waits { NothingWaits engine }
{
    let taken = engine.feed(b"%%\n");
    let digest = digest_of(&(taken, engine.out(), engine.messages()));
    drop(engine);
    digest
}

/// Makes an engine, and returns a digest of what it writes.
fn engine(alloc: Global, job: &Job) -> Result<u64, AllocError> {
    match Engine::new(alloc, job, Limits::DEFAULT) {
        Ok(engine) => Ok(digest_of_engine(engine)),
        Err(error) => Err(error),
    }
}

/// Makes an engine with a hasher, and returns a digest of what it writes.
fn hashed_engine(alloc: Global, job: &Job) -> Result<u64, AllocError> {
    match Engine::with_hasher(alloc, job, Limits::DEFAULT, DefaultHasher::new()) {
        Ok(engine) => Ok(digest_of_engine(engine)),
        Err(error) => Err(error),
    }
}

/// An engine for a job, with or without a hasher from outside.
#[derive(Drop)]
struct Made {
    is_hashed: bool,
    job: Job,
}

impl Trial for Made {
    fn call(&mut self, alloc: Global) -> Result<u64, AllocError> {
        if self.is_hashed {
            hashed_engine(alloc, &self.job)
        } else {
            engine(alloc, &self.job)
        }
    }

    fn arguments(&self) -> u64 {
        digest_of(&self.job)
    }
}

/// A reader of bytes that counts its calls.
#[derive(Drop)]
struct Given {
    bytes: String,
    from: usize,
    calls: u64,
}

impl Read for Given {
    fn read(&mut self, buf: &mut [u8]) -> io::Result<usize> {
        self.calls = self.calls.saturating_add(1);
        let rest = self.bytes.as_bytes().get(self.from..).unwrap_or(&[]);
        let count = rest.len().min(buf.len());
        buf[..count].copy_from_slice(&rest[..count]);
        self.from = self.from.saturating_add(count);
        Ok(count)
    }
}

/// A run from a source to sinks, with or without a hasher from outside.
#[derive(Drop)]
struct Compiled {
    is_hashed: bool,
    job: Job,
    source: FromReader<Given>,
    out: TrialSink,
    messages: TrialSink,
}

impl Compiled {
    /// Makes the run.
    fn run(&mut self, alloc: Global) -> Status {
        let (job, limits) = (&self.job, Limits::DEFAULT);
        let (source, out, messages) = (&mut self.source, &mut self.out, &mut self.messages);
        if self.is_hashed {
            let hasher = DefaultHasher::new();
            compile_with_hasher(alloc, job, limits, hasher, source, out, messages)
        } else {
            compile(alloc, job, limits, source, out, messages)
        }
    }
}

impl Trial for Compiled {
    fn call(&mut self, alloc: Global) -> Result<u64, AllocError> {
        match self.run(alloc) {
            Status::NoMemory => Err(AllocError),
            status => Ok(digest_of(&(status, self.out.held(), self.messages.held()))),
        }
    }

    fn arguments(&self) -> u64 {
        digest_of(&(
            &self.job,
            self.source.inner().calls,
            self.out.held(),
            self.messages.held(),
        ))
    }
}

/// Tries a run over the score in the file with the name `input`.
fn try_run(rt: &HostRuntime, is_hashed: bool, format: Format, input: &str) -> io::Result<()> {
    let mut compiled = Compiled {
        is_hashed,
        job: job_in(format),
        source: FromReader::new(Given {
            bytes: fs::read_to_string(rt, input)?,
            from: 0,
            calls: 0,
        }),
        out: TrialSink::new(rt.alloc(), 8192, 65536)?,
        messages: TrialSink::new(rt.alloc(), 8192, 65536)?,
    };
    try_call(rt, &mut compiled)
}

/// Tries an engine.
fn try_engine(rt: &HostRuntime, is_hashed: bool, format: Format) -> io::Result<()> {
    let job = job_in(format);
    try_call(rt, &mut Made { is_hashed, job })
}

/// Tries a call of this file. Returns whether there is such a call.
pub(crate) fn is_tried(rt: &HostRuntime, name: &str, input: &str) -> io::Result<bool> {
    match name {
        "gregorio_jobs::plan" => try_plan(rt, input)?,
        "gregorio::Engine::new gabc" => try_engine(rt, false, Format::Gabc)?,
        "gregorio::Engine::new dump" => try_engine(rt, false, Format::Dump)?,
        "gregorio::Engine::with_hasher" => try_engine(rt, true, Format::Gabc)?,
        "gregorio::compile gabc" => try_run(rt, false, Format::Gabc, input)?,
        "gregorio::compile dump" => try_run(rt, false, Format::Dump, input)?,
        "gregorio::compile_with_hasher" => try_run(rt, true, Format::Gabc, input)?,
        _ => return Ok(false),
    }
    Ok(true)
}
