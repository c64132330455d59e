//! The buffers of a caller.

ghost use Rattle.std.specs.Prelude.{◌≡◌, ◌≤◌, List, length, true, false};
ghost use Rattle.gabc_places.specs.Filling.{filled};
ghost use Rattle.gregorio_c.specs.Answers.{IsPut};

/// Copies `from` to the head of `to`, if there is room for all of it. Else `to` stays as it was.
pub(crate) fn put<T: Copy>(from: &[T], to: &mut [T])
    ensures { IsPut from.now to.old to.new }
{
    if from.len() <= to.len() {
        to[..from.len()].copy_from_slice(from);
    }
}

/// Returns whether `len` items are written into `buf`: there are some, and there is room for all of
/// them.
pub(crate) fn is_written<T: Copy>(buf: &[T], len: usize) -> bool
    ensures fits { result ≡ true → len ≤ length buf.now }
    ensures none { result ≡ false → (items : List T) → length items ≡ len →
        IsPut items buf.now buf.now }
{
    0 < len && len <= buf.len()
}

/// Returns the index of `buf` from which `len` items are to be written: 0, or the end of `buf` if
/// none of them is written.
pub(crate) fn start_of<T: Copy>(buf: &[T], len: usize) -> usize
    ensures { (items : List T) → length items ≡ len →
        IsPut items buf.now (filled buf.now result items) }
{
    if is_written(buf, len) { 0 } else { buf.len() }
}
