//! Texts that put their bytes.

ghost use Rattle.std.specs.Prelude.{◌≡◌, ℕ, List};

use gabc_places::Put;

/// A text that puts its bytes. It need not lie in memory as one.
pub trait PutText {
    // its bytes
    ghost text: { Self → List ℕ };

    /// Puts the bytes of the text.
    fn put_into<S: Put>(&self, out: &mut S)
        ensures { out.new ≡ S.taken out.old (text self.now) };
}

/// Puts a text that lies in memory.
impl PutText for &str {
    ghost text = { λ t. t.now };

    fn put_into<S: Put>(&self, out: &mut S) {
        out.put(self.as_bytes());
    }
}
