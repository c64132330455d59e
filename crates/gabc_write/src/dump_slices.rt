//! The lines of a regular syllable in a dump, from the slices that spell it.

ghost use Rattle.std.specs.Prelude.{◌≡◌, ◌≤◌, ◌+◌, ◌*◌, ◌<◌, ℕ, List, length};
ghost use Rattle.std.specs.List.{All};
ghost use Rattle.gabc_neumes.specs.InForce.{passed};
ghost use Rattle.gabc_body.specs.Canonical.{canonical_in_place};
ghost use Rattle.gabc_score.specs.SpelledSyllable.{IsSpelling, Spells, ToCome, AreTextsOf};
ghost use Rattle.gabc_body.specs.Syllable.{PlacedSyllable};
ghost use Rattle.gabc_write.specs.DumpOfSyllables.{line_of_text, lines_of_syllable, steps_of_syllable};
ghost use Rattle.gabc_write.specs.machine.DumpOfTexts.{line_of_bracketed, lines_of_texts, steps_of_texts, IsOnLine};

use crate::dump_item::put_last;
use crate::dump_syllables::{pass_position, put_first_line, put_snippet};
use crate::laws;
use gabc_neumes::Alterations;
use gabc_places::Put;
use gabc_score::{SpelledSnippets, SpelledSyllable};

/// Puts the line of `text`, if there is any: `text:T`.
fn put_line_of<S: Put>(text: &[u8], out: &mut S)
    ensures { out.new ≡ S.taken out.old (line_of_text text.now) }
{
    if !text.is_empty() {
        out.put(b"text:");
        put_last(text, out);
    }
}

/// Puts the line of `translation`, which has its brackets, if there is any: `translation:T`.
fn put_line_of_bracketed<S: Put>(translation: &[u8], out: &mut S)
    ensures { out.new ≡ S.taken out.old (line_of_bracketed translation.now) }
{
    if translation.len() > 1 {
        out.put(b"translation:");
        put_last(&translation[1..translation.len() - 1], out);
    }
}

/// Puts the lines of `snippets`, and updates `alterations` for their items.
fn put_spelled_snippets<S: Put>(
    snippets: SpelledSnippets<'_>,
    alterations: &mut Alterations,
    out: &mut S,
)
    requires { (texts : List (ℕ × List ℕ)) × ToCome snippets texts }
    ensures put { (texts : List (ℕ × List ℕ)) → ToCome snippets.entry texts →
        out.new ≡ S.taken out.old (lines_of_texts alterations.old texts) }
    ensures alterations { (texts : List (ℕ × List ℕ)) → ToCome snippets.entry texts →
        alterations.new ≡ passed alterations.old (steps_of_texts texts) }
    ensures lines { (texts : List (ℕ × List ℕ)) → ToCome snippets.entry texts →
        All IsOnLine texts }
{
    gabc_neumes::laws::steps_are_passed_one_by_one();
    let mut rest = snippets;
    while let Some(snippet) = rest.next() {
        put_snippet(snippet.line, snippet.text, alterations, out);
    }
}

/// Puts the lines of the syllable spelled by `syllable`, with the number `number`, as
/// `dump_syllable` puts them. `text` is its text, and `translation` its translation with its
/// brackets. `alterations` are those in force before it, and then those after it.
pub fn dump_spelled<S: Put>(
    number: u64,
    syllable: SpelledSyllable<'_>,
    text: &[u8],
    translation: &[u8],
    alterations: &mut Alterations,
    out: &mut S,
)
    requires spelling { IsSpelling syllable }
    requires texts { AreTextsOf syllable text.now translation.now }
    ensures put { (s : PlacedSyllable) → Spells syllable.entry s →
        out.new ≡ S.taken out.old (lines_of_syllable number alterations.old s) }
    ensures alterations { (s : PlacedSyllable) → Spells syllable.entry s →
        alterations.new ≡ passed alterations.old (steps_of_syllable s) }
    ensures short { (s : PlacedSyllable) → Spells syllable.entry s →
        length (lines_of_syllable number alterations.old s)
        ≤ 64 * length (canonical_in_place s) + 256 }
{
    laws::a_dump_is_short();
    gabc_neumes::laws::steps_are_passed_one_by_one();
    put_first_line(number, syllable.position, syllable.spans, out);
    put_line_of(text, out);
    put_line_of_bracketed(translation, out);
    pass_position(syllable.position, alterations);
    put_spelled_snippets(syllable.snippets(), alterations, out);
}
