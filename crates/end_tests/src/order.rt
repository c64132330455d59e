//! The order in which a run calls its ends.

ghost use Rattle.std.specs.Prelude.{None};

use gabc_places::{FromReader, GhostCalls, Limits, Sink, SinkFault, TrialSink, TrialSource};
use gregorio::{Format, Input, Job, Output, Status, compile};
use std::alloc::AllocError;
use std::cell::Cell;
use std::io::{self, Read};

/// A sink that counts the bytes of the output.
#[derive(Drop)]
struct Counted<'a> {
    count: &'a Cell<usize>,
    calls: GhostCalls,
}

impl Sink for Counted<'_> {
    ghost written = { λ s. None };

    ghost calls = { λ s. s.calls };

    fn write(&mut self, bytes: &[u8]) -> Result<usize, SinkFault> {
        self.count.set(self.count.get().saturating_add(bytes.len()));
        self.calls.add_answer(false);
        Ok(bytes.len())
    }
}

/// A sink that keeps the number of bytes of the output before each write of messages.
#[derive(Drop)]
struct Noted<'a> {
    count: &'a Cell<usize>,
    before: Vec<usize>,
    calls: GhostCalls,
}

impl Sink for Noted<'_> {
    ghost written = { λ s. None };

    ghost calls = { λ s. s.calls };

    fn write(&mut self, bytes: &[u8]) -> Result<usize, SinkFault> {
        if self.before.push(self.count.get()).is_err() {
            self.calls.add_failure();
            return Err(SinkFault);
        }
        self.calls.add_answer(false);
        Ok(bytes.len())
    }
}

/// Returns a job on standard input with all warnings.
fn job() -> Job {
    Job {
        format: Format::Gabc,
        input: Input::Stdin,
        output: Output::Stdout,
        messages: None,
        all_warnings: true,
    }
}

/// The output that is known with a piece of the input is written before the messages that are known
/// with it. In pieces of three bytes that is `%%` with the first, and `(c4)` after an LF before the
/// one with the error; in one piece it is all but the last syllable.
#[test]
fn messages_come_after_their_output(rt: HostRuntime) -> Result<(), AllocError> {
    for (most, before) in [(3, [2, 7].as_slice()), (64, [19].as_slice())] {
        let count = Cell::new(0);
        let mut source = TrialSource::new(b"%%\n(c4) Ky(f)ri(/./)a(g)", most, None);
        let mut out = Counted {
            count: &count,
            calls: GhostCalls::none(),
        };
        let mut messages = Noted {
            count: &count,
            before: Vec::new(rt.alloc()),
            calls: GhostCalls::none(),
        };
        let status = compile(
            rt.alloc(),
            &job(),
            Limits::DEFAULT,
            &mut source,
            &mut out,
            &mut messages,
        );
        assert_eq!(rt; status, Status::Errors);
        assert_eq!(rt; messages.before.as_slice(), before, "{most}");
    }
    Ok(())
}

/// A reader that returns three bytes a call, and counts its calls.
#[derive(Drop)]
struct Threes<'a> {
    rest: &'a [u8],
    calls: usize,
}

impl Read for Threes<'_> {
    fn read(&mut self, buf: &mut [u8]) -> io::Result<usize> {
        self.calls = self.calls.saturating_add(1);
        let count = self.rest.len().min(buf.len()).min(3);
        let (now, later) = self.rest.split_at(count);
        buf[..count].copy_from_slice(now);
        self.rest = later;
        Ok(count)
    }
}

/// `%%` is written with the first piece, and `(c4)` with the fifth one, whose `)` ends `Ky(f)`.
#[test]
fn reads_no_piece_after_a_sinks_failure(rt: HostRuntime) -> Result<(), AllocError> {
    for (holds, calls) in [(0, 1), (1, 1), (2, 5), (6, 5)] {
        let mut source = FromReader::new(Threes {
            rest: b"%%\n(c4) Ky(f)ri(g)",
            calls: 0,
        });
        let mut out = TrialSink::new(rt.alloc(), 8, holds)?;
        let mut messages = TrialSink::new(rt.alloc(), 64, 64)?;
        let status = compile(
            rt.alloc(),
            &job(),
            Limits::DEFAULT,
            &mut source,
            &mut out,
            &mut messages,
        );
        assert_eq!(rt; status, Status::WriteFault);
        assert_eq!(rt; source.inner().calls, calls, "{holds}");
    }
    Ok(())
}
