//! Sources and sinks that fail after a number of bytes.

use gabc_places::{Source, SourceFault, TrialSink, TrialSource, Unsent, send_all};
use std::test::Fail;

#[test]
fn source_gives_and_fails(rt: HostRuntime) {
    let mut source = TrialSource::new(b"abcdef", 2, Some(3));
    let mut buf = [0; 4];
    let counts = [
        source.read(&mut buf),
        source.read(&mut buf),
        source.read(&mut buf),
    ];
    assert_eq!(rt; counts, [Ok(2), Ok(1), Err(SourceFault)]);
    assert_eq!(rt; buf, [b'c', b'b', 0, 0]);
}

#[test]
fn sink_takes_and_fails(rt: HostRuntime) -> Result<(), Fail> {
    let mut sink = TrialSink::new(rt.alloc(), 2, 5)?;
    assert_eq!(rt; send_all(&mut sink, b"abcdef"), Err(Unsent { sent: 5 }));
    assert_eq!(rt; sink.held(), b"abcde".as_slice());
    Ok(())
}
