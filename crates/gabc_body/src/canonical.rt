//! The canonical text of a syllable.

ghost use Rattle.std.specs.Prelude.{◌≡◌, ◌-◌, ◌^◌, ◌++◌, [], ◌∷◌, codes, cond, false, min, length, string_bytes};
ghost use Rattle.gabc_body.specs.Syllable.{unplaced_of};
ghost use Rattle.gabc_body.specs.Canonical.{canonical, starts_word, translation_text, with_bars, StandsFrom};
ghost use Rattle.gabc_body.specs.machine.SyllableText.{snippets_after_bars};

use crate::kept_text::LentSyllable;
use crate::snippets::Snippet;
use crate::syllable::Syllable;
use gabc_places::{ByteCounter, Put};
use gabc_text::write_text;

/// Puts the LF before a word, if the syllable `starts` one.
fn put_start<S: Put>(starts: bool, out: &mut S)
    ensures { out.new ≡ S.taken out.old (cond starts (10 ∷ []) []) }
{
    if starts {
        out.put(b"\n");
    }
}

/// Puts the translation of `syllable` in its brackets, if there is one.
fn put_translation<S: Put>(syllable: &Syllable, out: &mut S)
    ensures { out.new
        ≡ S.taken out.old
        (translation_text (string_bytes syllable.now.kept) syllable.now.text.translation) }
{
    if let Some(span) = syllable.text.translation {
        out.put(b"[");
        out.put(syllable.slice(span));
        out.put(b"]");
    }
}

/// Puts `snippets` of `syllable`, each with a `|` before it.
fn put_barred<S: Put>(syllable: &Syllable, snippets: &[Snippet], out: &mut S)
    ensures { out.new
        ≡ S.taken out.old (snippets_after_bars (string_bytes syllable.now.kept) snippets.now) }
{
    for snippet in snippets {
        out.put(b"|");
        out.put(syllable.slice(snippet.span));
    }
}

/// Puts `snippets` of `syllable`, with a `|` between them.
#[tactic(auto, using(crate::proofs::SnippetsWithBars::bars_after_first))]
fn put_snippets<S: Put>(syllable: &Syllable, snippets: &[Snippet], out: &mut S)
    ensures { out.new
        ≡ S.taken out.old (with_bars (string_bytes syllable.now.kept) snippets.now) }
{
    if let Some((first, others)) = snippets.split_first() {
        out.put(syllable.slice(first.span));
        put_barred(syllable, others, out);
    }
}

/// Puts the notes of `syllable` in their brackets.
fn put_notes<S: Put>(syllable: &Syllable, out: &mut S)
    ensures { out.new
        ≡ S.taken out.old (codes "("
        ++ (with_bars (string_bytes syllable.now.kept) syllable.now.snippets.items ++ codes ")")) }
{
    out.put(b"(");
    put_snippets(syllable, syllable.snippets.as_slice(), out);
    out.put(b")");
}

/// Puts the canonical text of `syllable` but for the LF before a word, part by part: the text, the
/// translation, and the notes. It stays out of line: few syllables are written so.
#[inline(never)]
fn put_parts<S: Put>(syllable: &Syllable, out: &mut S)
    ensures { out.new ≡ S.taken out.old (canonical false (unplaced_of syllable.now)) }
{
    write_text(&syllable.text, syllable.kept.as_str(), out);
    put_translation(syllable, out);
    put_notes(syllable, out);
}

/// Returns the number of bytes of the canonical text of `lent`; it saturates at the last value of a
/// `usize`. `starts` says whether the syllable begins a word.
pub fn canonical_len(lent: LentSyllable<'_>, starts: bool) -> usize
    requires { StandsFrom lent.kept_from (unplaced_of lent.syllable.now) }
    ensures { result ≡ min (length (canonical starts (unplaced_of lent.entry.syllable.now))) (2 ^ 64 - 1) }
{
    let mut counter = ByteCounter::new();
    put_starting(lent, starts, &mut counter);
    counter.count()
}

/// Puts the canonical text of `lent`. `starts` says whether the syllable begins a word.
fn put_starting<S: Put>(lent: LentSyllable<'_>, starts: bool, out: &mut S)
    requires { StandsFrom lent.kept_from (unplaced_of lent.syllable.now) }
    ensures { out.new ≡ S.taken out.old (canonical starts (unplaced_of lent.entry.syllable.now)) }
{
    put_start(starts, out);
    match lent.kept_from {
        Some(from) => out.put(&lent.syllable.kept.as_bytes()[from..]),
        None => put_parts(lent.syllable, out),
    }
}

/// Puts the canonical text of `lent`, as `canon_syllable` does. If it is known to be a part of the
/// kept text, this part is put at once.
pub fn canon_lent<S: Put>(lent: LentSyllable<'_>, out: &mut S)
    requires { StandsFrom lent.kept_from (unplaced_of lent.syllable.now) }
    ensures { out.new
        ≡ S.taken out.old (canonical (starts_word lent.entry.syllable.now.position)
        (unplaced_of lent.entry.syllable.now)) }
{
    put_starting(lent, lent.syllable.starts_word(), out);
}

/// Puts the canonical text of `syllable`, as many bytes as `canon_len` returns: an LF before a
/// word, the text, the translation, and the notes. A room with fewer bytes left takes as many of
/// them as fit.
pub fn canon_syllable<S: Put>(syllable: &Syllable, out: &mut S)
    ensures { out.new
        ≡ S.taken out.old (canonical (starts_word syllable.now.position)
        (unplaced_of syllable.now)) }
{
    canon_starting(syllable, syllable.starts_word(), out);
}

/// Puts the canonical text of `syllable` as `canon_syllable` does, but `starts` says whether the
/// syllable begins a word, whatever its position says.
pub fn canon_starting<S: Put>(syllable: &Syllable, starts: bool, out: &mut S)
    ensures { out.new ≡ S.taken out.old (canonical starts (unplaced_of syllable.now)) }
{
    put_starting(LentSyllable::of(syllable), starts, out);
}

/// Returns the number of bytes of the canonical text of `syllable`; it saturates at the last value
/// of a `usize`.
pub fn canon_len(syllable: &Syllable) -> usize
    ensures { result ≡ min (length (canonical (starts_word syllable.now.position)
        (unplaced_of syllable.now))) (2 ^ 64 - 1) }
{
    syllable.canonical_len()
}
