//! A taker of syllables that keeps none.

ghost use Rattle.std.specs.Prelude.{◌≡◌};

use gabc_score::{Collect, Give, LentSyllable, SpelledSyllable, Syllable};
use std::alloc::AllocError;

/// A taker of syllables that keeps nothing of them.
#[derive(Clone, Copy, Debug)]
pub(crate) struct Dropped;

impl Give for Dropped {
    ghost use Rattle.std.proofs.Common.{rules};

    ghost given = { λ d ss. d };

    ghost TakesJoined = { λ d n. n ≡ n };

    ghost given_none = { Prim.search rules };

    ghost given_both = { Prim.search rules };

    fn give(&mut self, _lent: LentSyllable<'_>, _most: usize) -> bool {
        true
    }

    fn give_spelled(&mut self, _syllable: SpelledSyllable<'_>) -> bool {
        true
    }

    fn joins(&self) -> usize {
        usize::MAX
    }

    fn give_joined(&mut self, _starts: bool, _text: &str, _count: u64) {}
}

impl Collect for Dropped {
    fn collect(&mut self, _syllable: &Syllable) -> Result<(), AllocError> {
        Ok(())
    }

    fn takes_runs(&self) -> bool {
        true
    }
}
