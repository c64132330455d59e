//! The takers of the syllables of a run.

ghost use Rattle.std.specs.Prelude.{◌≡◌, ◌+◌, ◌<◌, ◌≤◌, ℕ, List, [], ◌∷◌, ◌++◌, length, true, false, OnErr, OnOk};
ghost use Rattle.gabc_body.specs.Canonical.{canonical_in_place, StandsFrom};
ghost use Rattle.gabc_score.specs.GivesSyllables.{AreJoined};
ghost use Rattle.gabc_score.specs.SpelledSyllable.{IsSpelling, Spells};
ghost use Rattle.gabc_body.specs.Syllable.{PlacedSyllable, placed_of, unplaced_of};

use crate::spelled::SpelledSyllable;
use gabc_body::{LentSyllable, Syllable};
use gabc_places::Place;
use std::alloc::AllocError;

/// Takes whole syllables, in their order.
pub trait Give {
    // what it is once it has taken these syllables
    ghost given: { Self → List PlacedSyllable → Self };

    // it takes joined syllables whose canonical texts have n bytes together
    ghost TakesJoined: { Self → ℕ → Type 0 };

    /// Takes the syllable `lent`, whose canonical text has at most `most` bytes, or leaves it.
    /// Returns whether it was taken.
    fn give(&mut self, lent: LentSyllable<'_>, most: usize) -> bool
        requires short { length (canonical_in_place (placed_of lent.syllable.now)) ≤ most }
        requires stands { StandsFrom lent.kept_from (unplaced_of lent.syllable.now) }
        ensures given { result ≡ true →
            self.new ≡ given self.old (placed_of lent.entry.syllable.now ∷ []) }
        ensures same { result ≡ false → self.new ≡ self.old };

    /// Takes the syllable spelled by these slices, or leaves it. Returns whether it was taken.
    fn give_spelled(&mut self, syllable: SpelledSyllable<'_>) -> bool
        requires { IsSpelling syllable }
        ensures given { result ≡ true → (s : PlacedSyllable) → Spells syllable.entry s →
            self.new ≡ given self.old (s ∷ []) }
        ensures same { result ≡ false → self.new ≡ self.old };

    /// Returns the number of bytes that the canonical texts of syllables given by `give_joined` may
    /// have together; 0, if each syllable has to be given by itself.
    fn joins(&self) -> usize
        ensures { (n : ℕ) → 0 < n → n ≤ result → TakesJoined self.now n };

    /// Takes `count` syllables whose canonical texts are one after another in `text`, but for the
    /// LF before the first, if that begins a word, as `starts` says.
    fn give_joined(&mut self, starts: bool, text: &str, count: u64)
        requires { TakesJoined self.old (length text.now + 1) }
        ensures { (joined : List PlacedSyllable) → AreJoined starts text.now count joined →
            self.new ≡ given self.old joined };

    // to take none changes nothing
    ghost given_none: { (s : Self) → given s [] ≡ s };

    // to take two lists is to take their join
    ghost given_both: { (s : Self) (a b : List PlacedSyllable) → given (given s a) b ≡ given s (a ++ b) };
}

/// Takes the findings, the fault and the syllables of a score, and may allocate.
pub trait Collect: Give {
    /// Takes `syllable`. Fails only if memory for it cannot be allocated, and then changes nothing.
    fn collect(&mut self, syllable: &Syllable) -> Result<(), AllocError>
        ensures given { OnOk result
            (self.new ≡ Self.given self.old (placed_of syllable.now ∷ [])) }
        ensures unchanged { OnErr result (self.new ≡ self.old) };

    /// Returns whether it takes syllables by the slices that spell them.
    fn takes_runs(&self) -> bool;
}

/// The part of a text that was taken as a run of syllables.
#[derive(Clone, Copy)]
pub struct Run {
    /// Its length in bytes.
    pub bytes: usize,
    /// The place of the next character.
    pub next: Place,
}
