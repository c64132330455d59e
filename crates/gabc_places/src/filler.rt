//! A buffer of the caller that takes bytes.

ghost use Rattle.std.specs.Prelude.{◌≡◌, ◌+◌};
ghost use Rattle.gabc_places.specs.Filling.{filled, filled_len};

use crate::Put;

/// Fills a buffer from its first byte on, with as many bytes as fit.
#[derive(Drop)]
pub struct BufferFiller<'a> {
    /// The buffer.
    pub buf: &'a mut [u8],
    /// The number of bytes filled.
    pub len: usize,
}

/// Writes `bytes` into `buf` from the byte `at` on, as many as fit, and returns their number.
fn fill(buf: &mut [u8], at: usize, bytes: &[u8]) -> usize
    ensures buf { buf.new ≡ filled buf.old at bytes.now }
    ensures len { at + result ≡ filled_len buf.old at bytes.now }
{
    let len = bytes.len().min(buf.len().saturating_sub(at));
    if len > 0 {
        buf[at..at + len].copy_from_slice(&bytes[..len]);
    }
    len
}

impl Put for BufferFiller<'_> {
    ghost use Rattle.std.proofs.Common.{rules};
    ghost use Rattle.gabc_places.specs.Filling.{filled_nothing, filled_both, filled_len_both};

    ghost taken = { λ f bytes. record f {
      buf = record f.buf { now = filled f.buf.now f.len bytes };
      len = filled_len f.buf.now f.len bytes;
    } };

    ghost taken_nothing = { Prim.search (rules, filled_nothing) };

    ghost taken_both = { Prim.search (rules, filled_both, filled_len_both) };

    fn put(&mut self, bytes: &[u8]) {
        self.len += fill(self.buf, self.len, bytes);
    }
}
