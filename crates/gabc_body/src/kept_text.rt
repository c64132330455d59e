//! The canonical text of a syllable as a part of its kept text.

ghost use Rattle.std.specs.Prelude.{◌≡◌, ◌≤◌, ◌++◌, ℕ, IsTrue, Some, codes, drop, length, string_bytes};
ghost use Rattle.gabc_body.specs.Canonical.{with_bars, StandsFrom};
ghost use Rattle.gabc_body.specs.Syllable.{unplaced_of};
ghost use Rattle.gabc_body.specs.machine.SyllableText.{snippets_after_bars};

use crate::snippets::Snippet;
use crate::syllable::Syllable;
use gabc_text::text_span;

/// Returns whether the rest of `kept` from `from` on is `snippets`, each with a `|` before it, and
/// a `)`.
#[inline(always)]
fn rest_is_snippets(kept: &[u8], snippets: &[Snippet], from: usize) -> bool
    ensures { IsTrue result →
        snippets_after_bars kept.now snippets.now ++ codes ")" ≡ drop from kept.now }
{
    let mut end = from;
    for snippet in snippets {
        let span = snippet.span;
        if end >= kept.len() || kept[end] != b'|' || span.from != end + 1 || span.from > span.to {
            return false;
        }
        end = span.to;
    }
    end < kept.len() && end + 1 == kept.len() && kept[end] == b')'
}

/// Returns the byte at which the notes of `syllable` in their brackets begin in its kept text, if
/// it is known to end with them.
#[inline(always)]
#[tactic(auto, using(crate::proofs::SnippetsAsKept::notes_as_kept))]
fn notes_from(syllable: &Syllable) -> Option<usize>
    ensures notes { (from : ℕ) → result ≡ Some from →
        codes "(" ++ (with_bars (string_bytes syllable.now.kept) syllable.now.snippets.items
        ++ codes ")") ≡ drop from (string_bytes syllable.now.kept) }
    ensures within { (from : ℕ) → result ≡ Some from →
        from ≤ length (string_bytes syllable.now.kept) }
{
    let kept = syllable.kept.as_bytes();
    let (first, others) = syllable.snippets.as_slice().split_first()?;
    let span = first.span;
    let from = span.from.checked_sub(1)?;
    if from >= kept.len() || kept[from] != b'(' || span.from > span.to {
        return None;
    }
    if rest_is_snippets(kept, others, span.to) {
        Some(from)
    } else {
        None
    }
}

/// Returns the byte at which the canonical text of `syllable`, without the LF before a word, begins
/// in its kept text, if the kept text is known to end with it.
#[inline(always)]
fn kept_from(syllable: &Syllable) -> Option<usize>
    ensures { StandsFrom result (unplaced_of syllable.now) }
{
    if syllable.text.translation.is_some() {
        return None;
    }
    let text = text_span(&syllable.text, syllable.kept.as_str())?;
    let notes = notes_from(syllable)?;
    if text.from >= text.to {
        Some(notes)
    } else if text.to == notes {
        Some(text.from)
    } else {
        None
    }
}

/// A whole syllable, with the beginning of its canonical text in its kept text.
#[derive(Clone, Copy)]
pub struct LentSyllable<'a> {
    pub syllable: &'a Syllable,
    /// The byte of its kept text from which on this is its canonical text without the LF before a
    /// word; `None` if it is not, or if that is not known.
    pub kept_from: Option<usize>,
}

impl<'a> LentSyllable<'a> {
    ghost use Rattle.std.specs.Prelude.{◌≡◌};
    ghost use Rattle.gabc_body.specs.Canonical.{StandsFrom};
    ghost use Rattle.gabc_body.specs.Syllable.{placed_of, unplaced_of};

    /// Returns `syllable`, and looks for its canonical text in its kept text.
    pub fn of(syllable: &'a Syllable) -> LentSyllable<'a>
        ensures placed { placed_of result.syllable.now ≡ placed_of syllable.now }
        ensures stands { StandsFrom result.kept_from (unplaced_of result.syllable.now) }
    {
        LentSyllable {
            syllable,
            kept_from: kept_from(syllable),
        }
    }
}
