//! Sinks that take little and sinks that fail.

ghost use Rattle.std.specs.Prelude.{Some};

use gabc_places::{GhostCalls, Sink, SinkFault, ToWriter, Unsent, send_all};
use std::io::Write;

/// A sink that takes one byte a call, and fails once it has `limit`.
#[derive(Drop)]
struct OneByOne {
    taken: Vec<u8>,
    limit: usize,
    calls: GhostCalls,
}

impl Sink for OneByOne {
    ghost written = { λ s. Some s.taken.items };

    ghost calls = { λ s. s.calls };

    fn write(&mut self, bytes: &[u8]) -> Result<usize, SinkFault> {
        if bytes.is_empty() {
            self.calls.add_answer(false);
            return Ok(0);
        }
        if self.taken.len() < self.limit && self.taken.push(bytes[0]).is_ok() {
            self.calls.add_answer(false);
            return Ok(1);
        }
        self.calls.add_failure();
        Err(SinkFault)
    }
}

#[test]
fn sends_byte_by_byte(rt: HostRuntime) {
    for (limit, want, taken) in [
        (9, Ok(()), "Alleluia"),
        (8, Ok(()), "Alleluia"),
        (7, Err(Unsent { sent: 7 }), "Allelui"),
        (0, Err(Unsent { sent: 0 }), ""),
    ] {
        let mut sink = OneByOne {
            taken: Vec::new(rt.alloc()),
            limit,
            calls: GhostCalls::none(),
        };
        assert_eq!(rt; send_all(&mut sink, b"Alleluia"), want, "at {limit}");
        assert_eq!(rt; sink.taken.as_slice(), taken.as_bytes(), "at {limit}");
    }
}

/// A writer whose writes take no byte.
#[derive(Drop)]
struct Full;

impl Write for Full {
    fn write(&mut self, _buf: &[u8]) -> std::io::Result<usize> {
        Ok(0)
    }

    fn flush(&mut self) -> std::io::Result<()> {
        Ok(())
    }
}

#[test]
fn takes_a_write_of_none_for_a_failure(rt: HostRuntime) {
    let mut sink = ToWriter::new(Full);
    assert_eq!(rt;
        [sink.write(b"x"), sink.write(b"")],
        [Err(SinkFault), Ok(0)]
    );
    assert_eq!(rt; send_all(&mut sink, b"x"), Err(Unsent { sent: 0 }));
}

/// A writer that counts its calls. The second one and each flush fails, each call after the fourth
/// is interrupted; the others take at most one byte.
#[derive(Drop)]
struct Counting {
    calls: u8,
}

impl Write for Counting {
    fn write(&mut self, buf: &[u8]) -> std::io::Result<usize> {
        self.calls = self.calls.saturating_add(1);
        if self.calls == 2 {
            return Err(std::io::Error::from(std::io::ErrorKind::BrokenPipe));
        }
        if self.calls > 4 {
            return Err(std::io::Error::from(std::io::ErrorKind::Interrupted));
        }
        Ok(buf.len().min(1))
    }

    fn flush(&mut self) -> std::io::Result<()> {
        self.calls = self.calls.saturating_add(1);
        Err(std::io::Error::from(std::io::ErrorKind::BrokenPipe))
    }
}

#[test]
fn writes_once_for_each_call(rt: HostRuntime) {
    let mut sink = ToWriter::new(Counting { calls: 0 });
    let taken = [sink.write(b"ab"), sink.write(b"b"), sink.write(b"b")];
    assert_eq!(rt; taken, [Ok(1), Err(SinkFault), Ok(1)]);
    assert_eq!(rt; sink.inner().calls, 3);
}

#[test]
fn passes_on_writes_of_nothing(rt: HostRuntime) {
    let mut sink = ToWriter::new(Counting { calls: 3 });
    assert_eq!(rt; [sink.write(b""), sink.write(b"")], [Ok(0), Err(SinkFault)]);
    assert_eq!(rt; sink.inner().calls, 5);
}

#[test]
fn stops_at_the_first_failure(rt: HostRuntime) {
    let mut sink = ToWriter::new(Counting { calls: 0 });
    assert_eq!(rt; send_all(&mut sink, b"abc"), Err(Unsent { sent: 1 }));
    assert_eq!(rt; sink.inner().calls, 2);
}
