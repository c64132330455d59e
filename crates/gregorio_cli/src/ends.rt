//! The ends of a run: standard streams and files.

ghost use Rattle.std.specs.Io.{ReadsAtMost, WritesAtMost};

use std::fs::File;
use std::io::{Read, Stderr, Stdin, Stdout, Write};
use std::os::fd::AsRawFd;
use std::{fs, io};

/// The greatest descriptor of a standard stream.
const LAST_STREAM: i32 = 2;

/// The source of a score.
#[derive(Drop)]
pub(crate) enum InputStream {
    Stdin(Stdin),
    File(File),
}

impl InputStream {
    /// Reads once.
    fn read_once(&mut self, buf: &mut [u8]) -> io::Result<usize>
        ensures { ReadsAtMost result buf.new }
    {
        match self {
            InputStream::Stdin(stdin) => stdin.read(buf),
            InputStream::File(file) => file.read(buf),
        }
    }
}

impl Read for InputStream {
    /// Reads, and again if a signal interrupts it.
    #[inline(never)]
    fn read(&mut self, buf: &mut [u8]) -> io::Result<usize> {
        for _ in 0..u64::MAX {
            match self.read_once(buf) {
                Err(error) if error.kind() == io::ErrorKind::Interrupted => {}
                read => return read,
            }
        }
        self.read_once(buf)
    }
}

/// The destination of output or of messages.
#[derive(Drop)]
pub(crate) enum OutputStream {
    Stdout(Stdout),
    Stderr(Stderr),
    File(File),
}

impl OutputStream {
    /// Writes once.
    fn write_once(&mut self, buf: &[u8]) -> io::Result<usize>
        ensures { WritesAtMost result buf.now }
    {
        match self {
            OutputStream::Stdout(stdout) => stdout.write(buf),
            OutputStream::Stderr(stderr) => stderr.write(buf),
            OutputStream::File(file) => file.write(buf),
        }
    }
}

impl Write for OutputStream {
    /// Writes, and again if a signal interrupts it.
    #[inline(never)]
    fn write(&mut self, buf: &[u8]) -> io::Result<usize> {
        for _ in 0..u64::MAX {
            match self.write_once(buf) {
                Err(error) if error.kind() == io::ErrorKind::Interrupted => {}
                written => return written,
            }
        }
        self.write_once(buf)
    }

    fn flush(&mut self) -> io::Result<()> {
        match self {
            OutputStream::Stdout(stdout) => stdout.flush(),
            OutputStream::Stderr(stderr) => stderr.flush(),
            OutputStream::File(file) => file.flush(),
        }
    }
}

/// Opens a folder in the place of a standard stream that is closed, if one is, and returns it. A
/// folder can be neither read nor written.
fn closed_stream(rt: &HostRuntime) -> Option<File> {
    match fs::open(rt, "/") {
        Ok(folder) if folder.as_raw_fd() <= LAST_STREAM => Some(folder),
        _ => None,
    }
}

/// Opens folders in the places of the standard streams that are closed, and returns them. While
/// they live, no file that is opened takes such a place: else messages could be written into the
/// output.
pub(crate) fn closed_streams(rt: &HostRuntime) -> [Option<File>; 3] {
    [closed_stream(rt), closed_stream(rt), closed_stream(rt)]
}
