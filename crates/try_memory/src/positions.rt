//! A taker of syllables that allocates, and takes them by runs.

ghost use Rattle.std.specs.Prelude.{◌≡◌, []};

use gabc_body::{LentSyllable, Position, Syllable};
use gabc_score::{Collect, Give, SpelledSyllable};
use std::alloc::{AllocError, Global};
use std::marker::Model;

/// The position in its word of each syllable that was taken.
#[derive(Debug, Drop)]
pub(crate) struct Positions {
    items: Vec<Position>,
}

impl Model for Positions {
    ghost use Rattle.std.specs.Prelude.{List};
    ghost use Rattle.gabc_body.specs.declared.syllable.Position.{Position};

    ghost Value = { List Position };

    ghost view = { λ p. p.items.items };
}

impl Positions {
    /// Returns a taker that has taken none.
    pub(crate) fn new(alloc: Global) -> Positions
        ensures { result ≡ [] }
    {
        Positions {
            items: Vec::new(alloc),
        }
    }
}

impl Give for Positions {
    ghost use Rattle.std.proofs.Common.{append_assoc, append-nil, rules};
    ghost use Rattle.std.proofs.lemmas.List.{map-append};
    ghost use Rattle.std.specs.Prelude.{◌≡◌, ◌++◌, map};
    ghost use Rattle.gabc_body.specs.Syllable.{PlacedSyllable};

    ghost given = { λ p ss. p ++ map (λ (s : PlacedSyllable). s.position) ss };

    // it takes no text but one of no bytes
    ghost TakesJoined = { λ p n. n ≡ 1 };

    ghost given_none = { Prim.search (rules, append-nil) };

    ghost given_both = { Prim.search (rules, append_assoc, map-append) };

    fn give(&mut self, lent: LentSyllable<'_>, _most: usize) -> bool {
        self.items.push(lent.syllable.position).is_ok()
    }

    fn give_spelled(&mut self, syllable: SpelledSyllable<'_>) -> bool {
        self.items.push(syllable.position).is_ok()
    }

    fn joins(&self) -> usize {
        0
    }

    fn give_joined(&mut self, _starts: bool, _text: &str, _count: u64) {}
}

impl Collect for Positions {
    fn collect(&mut self, syllable: &Syllable) -> Result<(), AllocError> {
        self.items.push(syllable.position)?;
        Ok(())
    }

    fn takes_runs(&self) -> bool {
        true
    }
}
