//! Readers as sources.

use gabc_places::{FromReader, Source, SourceFault};
use std::io::{self, ErrorKind, Read};

#[test]
fn reads_a_slice(rt: HostRuntime) {
    let mut source = FromReader::new(b"Kyrie".as_slice());
    let mut buf = [0; 3];
    let counts = [
        source.read(&mut buf),
        source.read(&mut buf),
        source.read(&mut buf),
    ];
    assert_eq!(rt; counts, [Ok(3), Ok(2), Ok(0)]);
    assert_eq!(rt; buf, *b"ier");
}

/// A reader that counts its calls. The third one ends; each other one is interrupted if it is asked
/// for no byte, else the first returns a byte and the others fail.
#[derive(Drop)]
struct Stumbling {
    calls: u8,
}

impl Read for Stumbling {
    fn read(&mut self, buf: &mut [u8]) -> io::Result<usize> {
        self.calls = self.calls.saturating_add(1);
        if self.calls == 3 {
            return Ok(0);
        }
        let Some(first) = buf.first_mut() else {
            return Err(io::Error::from(ErrorKind::Interrupted));
        };
        if self.calls != 1 {
            return Err(io::Error::from(ErrorKind::BrokenPipe));
        }
        *first = b'x';
        Ok(1)
    }
}

#[test]
fn reads_once_for_each_call(rt: HostRuntime) {
    let mut source = FromReader::new(Stumbling { calls: 0 });
    let mut buf = [0; 3];
    let counts = [
        source.read(&mut buf),
        source.read(&mut buf),
        source.read(&mut buf),
    ];
    assert_eq!(rt; counts, [Ok(1), Err(SourceFault), Ok(0)]);
    assert_eq!(rt; buf, [b'x', 0, 0]);
    assert_eq!(rt; source.inner().calls, 3);
}

#[test]
fn passes_on_reads_of_nothing(rt: HostRuntime) {
    let mut source = FromReader::new(Stumbling { calls: 2 });
    let counts = [source.read(&mut []), source.read(&mut [])];
    assert_eq!(rt; counts, [Ok(0), Err(SourceFault)]);
    assert_eq!(rt; source.inner().calls, 4);
}
