//! The context of a syllable of a score.

ghost use Rattle.std.specs.Prelude.{◌≡◌, nat_lt};
ghost use Rattle.gabc_score.specs.Before.{no_syllable, preceding_of};

use gabc_body::{Before, Spans};

/// The spans that are open before the first syllable: none.
pub(crate) const NO_SPANS: Spans = Spans {
    eu: false,
    nlba: false,
};

/// The context of a syllable: the totals of the syllables before it.
#[derive(Clone, Copy)]
pub(crate) struct Preceding {
    /// Their number, which saturates.
    pub(crate) syllables: u64,
    /// The bytes of the canonical headers and of their canonical texts, which saturate.
    pub(crate) canonical: usize,
    /// The spans that are open after them.
    pub(crate) spans: Spans,
    /// Whether one of them has a note or a clef in GABC.
    pub(crate) sounded: bool,
}

impl Preceding {
    /// Returns the totals before the first syllable, after canonical headers of `canonical` bytes.
    pub(crate) fn after_headers(canonical: usize) -> Preceding
        ensures { result ≡ no_syllable canonical }
    {
        Preceding {
            syllables: 0,
            canonical,
            spans: NO_SPANS,
            sounded: false,
        }
    }

    /// Returns the totals that `before` reports.
    pub(crate) fn of(before: Before) -> Preceding
        ensures { result ≡ preceding_of before }
    {
        Preceding {
            syllables: before.syllables,
            canonical: before.canonical,
            spans: before.spans,
            sounded: before.sounded,
        }
    }

    /// Returns whether a syllable comes before.
    pub(crate) fn has_syllable(&self) -> bool
        ensures { result ≡ nat_lt 0 self.now.syllables }
    {
        0 < self.syllables
    }
}
