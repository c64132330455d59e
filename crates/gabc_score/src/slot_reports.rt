//! What two slots report of what was gathered.

use crate::first_sound::FirstSound;
use crate::preceding::Preceding;
use crate::slot_pair::{SlotPair, SlotUse};
use gabc_body::{LentSyllable, Syllable};

impl SlotPair {
    ghost use Rattle.std.specs.Prelude.{◌≡◌, ◌||◌, not, nat_lt, [], ◌∷◌, length, is_some, false, MatchOption};
    ghost use Rattle.gabc_body.specs.Canonical.{StandsFrom};
    ghost use Rattle.gabc_body.specs.Syllable.{placed_of, unplaced_of};
    ghost use Rattle.gabc_body.specs.Body.{is_none};
    ghost use Rattle.gabc_score.specs.machine.FirstSound.{kind_of};
    ghost use Rattle.gabc_score.specs.machine.SlotPair.{is_made};

    /// Returns whether the slot `reader` has a whole syllable, which is not pending yet.
    #[inline(always)]
    pub(crate) fn is_whole(&self) -> bool
        ensures used { result ≡ is_made self.now.used }
        ensures made { result ≡ nat_lt (length self.now.held) (length self.now.gathered.made) }
    {
        match self.used {
            SlotUse::Made => true,
            SlotUse::Filling | SlotUse::Lent => false,
        }
    }

    /// Returns the context of the pending syllable, or, if none is pending, of the current one.
    pub(crate) fn before(&self) -> Preceding
        ensures { result ≡ self.now.contexts.before }
    {
        self.before
    }

    /// Returns the context of the current syllable.
    pub(crate) fn after(&self) -> Preceding
        ensures { result ≡ self.now.contexts.after }
    {
        self.after
    }

    /// Returns what came first in the GABC snippets that have ended, if a note or a clef has come.
    #[inline(always)]
    pub(crate) fn sounded(&self) -> Option<FirstSound>
        ensures { kind_of result ≡ self.now.gathered.first_kind }
    {
        self.sounded
    }

    /// Returns whether a note or a clef has come.
    #[inline(always)]
    pub(crate) fn has_sounded(&self) -> bool
        ensures { result ≡ is_some self.now.gathered.first_kind }
    {
        self.sounded.is_some()
    }

    /// Returns whether a span is open.
    pub(crate) fn has_open(&self) -> bool
        ensures { result ≡ (self.now.gathered.eu || self.now.gathered.nlba) }
    {
        self.spans.eu || self.spans.nlba
    }

    /// Returns whether a syllable is pending.
    pub(crate) fn has_held(&self) -> bool
        requires { is_made self.now.used ≡ false }
        ensures { result ≡ not (is_none self.now.gathered.made) }
    {
        self.held
    }

    /// Returns the pending syllable, if there is one.
    pub(crate) fn held(&self) -> Option<&Syllable>
        requires { is_made self.now.used ≡ false }
        ensures { MatchOption result (self.now.gathered.made ≡ [])
            (λ s. self.now.gathered.made ≡ unplaced_of s.now ∷ []) }
    {
        if self.held {
            Some(self.holder.syllable())
        } else {
            None
        }
    }

    /// Returns the kept text of the syllable that is read.
    pub(crate) fn reading(&self) -> &str
        ensures { result.now ≡ self.now.gathered.builder.kept }
    {
        match self.used {
            SlotUse::Filling => self.reader.syllable().kept.as_str(),
            SlotUse::Made | SlotUse::Lent => "",
        }
    }

    /// Returns the first borrowed syllable.
    pub(crate) fn first(&self) -> LentSyllable<'_>
        ensures placed { placed_of result.syllable.now ≡ self.now.first }
        ensures stands { StandsFrom result.kept_from (unplaced_of result.syllable.now) }
    {
        match self.used {
            SlotUse::Lent => LentSyllable {
                syllable: self.reader.syllable(),
                kept_from: self.reader_from,
            },
            SlotUse::Filling | SlotUse::Made => LentSyllable {
                syllable: self.holder.syllable(),
                kept_from: self.holder_from,
            },
        }
    }

    /// Returns the second borrowed syllable.
    pub(crate) fn second(&self) -> LentSyllable<'_>
        ensures placed { placed_of result.syllable.now ≡ self.now.second }
        ensures stands { StandsFrom result.kept_from (unplaced_of result.syllable.now) }
    {
        let kept_from = match self.used {
            SlotUse::Filling => None,
            SlotUse::Made | SlotUse::Lent => self.reader_from,
        };
        LentSyllable {
            syllable: self.reader.syllable(),
            kept_from,
        }
    }
}
