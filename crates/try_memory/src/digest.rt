//! Digests of arguments and of answers.

use std::fmt::{self, Debug, Write};
use std::hash::{DefaultHasher, Hasher};

/// A taker of a text that keeps its digest alone. It does not allocate.
#[derive(Drop)]
struct Digest {
    hasher: DefaultHasher,
}

impl Write for Digest {
    fn write_str(&mut self, text: &str) -> fmt::Result {
        self.hasher.write(text.as_bytes());
        Ok(())
    }
}

/// Returns a digest of `value` as `{:?}` prints it. It does not allocate.
pub(crate) fn digest_of<T: Debug>(value: &T) -> u64 {
    let mut digest = Digest {
        hasher: DefaultHasher::new(),
    };
    match write!(digest, "{value:?}") {
        Ok(()) => digest.hasher.finish(),
        Err(_) => 0,
    }
}
