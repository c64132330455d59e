//! A list of syllables.

ghost use Rattle.std.specs.Prelude.{◌≡◌, ◌↔◌, [], ◌∷◌, ◌++◌, length, map, IsTrue, OnErr, OnOk};
ghost use Rattle.std.specs.Slice.Iter.{iter_rest};
ghost use Rattle.gabc_body.specs.Syllable.{placed_of};
ghost use Rattle.gabc_body.specs.Canonical.{position_by};

use crate::syllable::{Position, Syllable};
use std::alloc::{AllocError, Global};
use std::marker::Model;
use std::slice::Iter;

/// Syllables in order. In contracts they are a list of syllables, each with the bytes of its kept
/// text.
#[derive(Debug, Drop)]
pub struct Syllables {
    items: Vec<Syllable>,
}

impl Model for Syllables {
    ghost use Rattle.std.specs.Prelude.{List, map};
    ghost use Rattle.gabc_body.specs.Syllable.{PlacedSyllable, placed_of};

    ghost Value = { List PlacedSyllable };

    ghost view = { λ s. map placed_of s.items.items };
}

/// Returns the position in its word of a syllable. `starts` says whether it begins a word, and
/// `next_starts` whether the next one does.
pub fn position_by(starts: bool, next_starts: bool) -> Position
    ensures { result ≡ position_by starts next_starts }
{
    match (starts, next_starts) {
        (true, true) => Position::One,
        (true, false) => Position::Beginning,
        (false, true) => Position::End,
        (false, false) => Position::Middle,
    }
}

impl Syllables {
    /// Returns an empty list. It does not allocate from `alloc`.
    pub fn new(alloc: Global) -> Syllables
        ensures { result ≡ [] }
    {
        Syllables {
            items: Vec::new(alloc),
        }
    }

    /// Adds `syllable` at the end. If memory for it cannot be allocated, the list is unchanged.
    pub fn push(&mut self, syllable: Syllable) -> Result<(), AllocError>
        ensures added { OnOk result (self.new ≡ self.old ++ placed_of syllable ∷ []) }
        ensures unchanged { OnErr result (self.new ≡ self.old) }
    {
        self.items.push(syllable)?;
        Ok(())
    }

    /// Returns the number of syllables.
    pub fn len(&self) -> usize
        ensures { result ≡ length self.now }
    {
        self.items.len()
    }

    /// Returns whether there are no syllables.
    pub fn is_empty(&self) -> bool
        ensures { IsTrue result ↔ (self.now ≡ []) }
    {
        self.items.is_empty()
    }

    /// Returns the syllables in order.
    pub fn as_slice(&self) -> &[Syllable]
        ensures { map placed_of result.now ≡ self.now }
    {
        self.items.as_slice()
    }

    /// Returns an iterator over the syllables in order.
    pub fn iter(&self) -> Iter<'_, Syllable>
        ensures { map placed_of (iter_rest result) ≡ self.now }
    {
        self.items.iter()
    }
}

impl<'a> IntoIterator for &'a Syllables {
    type Item = &'a Syllable;

    type IntoIter = Iter<'a, Syllable>;

    ghost into_iter_gives = { λ syllables r. map placed_of (iter_rest r) ≡ syllables.now };

    fn into_iter(self) -> Iter<'a, Syllable> {
        self.items.iter()
    }
}
