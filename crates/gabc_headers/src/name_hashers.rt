//! The hashers of the names of headers.

use std::hash::{BuildHasher, DefaultHasher};

/// A maker of hashers that begin as `first` does. Whoever knows how it begins can choose names that
/// come into one group of the map.
#[derive(Clone, Copy)]
pub(crate) struct NameHashers {
    pub first: DefaultHasher,
}

impl BuildHasher for NameHashers {
    type Hasher = DefaultHasher;

    ghost build_hasher = { λ s. s.first };

    fn build_hasher(&self) -> DefaultHasher {
        self.first
    }
}
