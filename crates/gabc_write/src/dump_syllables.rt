//! The lines of a syllable in a dump.

ghost use Rattle.std.specs.Prelude.{◌≡◌, ◌≤◌, ◌<◌, ◌+◌, ◌-◌, ◌*◌, ◌^◌, [], All, if◌then◌else◌, codes, ◌++◌, min, length, string_bytes};
ghost use Rattle.gabc_neumes.specs.InForce.{passed};
ghost use Rattle.gabc_text.specs.Canonical.{canonical_text};
ghost use Rattle.gabc_text.specs.TextView.{content_of};
ghost use Rattle.gabc_body.specs.Syllable.{placed_of, unplaced_of};
ghost use Rattle.gabc_body.specs.Canonical.{canonical, starts_word};
ghost use Rattle.gabc_write.specs.DumpOfSyllables.{position_word, first_line_by, line_of_text, line_of_translation, first_steps, steps_on, steps_of_snippets, steps_of_syllable, lines_on, lines_of_snippets, lines_of_syllable};
ghost use Rattle.gabc_write.specs.machine.FirstLine.{words_of_spans};

use crate::dump_item::put_last;
use crate::dump_nabc::put_nabc;
use crate::dump_notes::put_notes;
use crate::escape::TextLine;
use crate::laws;
use gabc_neumes::Alterations;
use gabc_places::{ByteCounter, Put};
use gabc_score::{Position, Snippet, Spans, Syllable};
use gabc_text::{TextView, write_text};
use itoa::Buffer;

/// Puts a blank and the word for the position of a syllable in its word.
fn put_position<S: Put>(position: Position, out: &mut S)
    ensures { out.new ≡ S.taken out.old (codes " " ++ position_word position) }
{
    match position {
        Position::One => out.put(b" one"),
        Position::Beginning => out.put(b" beginning"),
        Position::Middle => out.put(b" middle"),
        Position::End => out.put(b" end"),
    }
}

/// Puts the words for the open spans, each with a blank before it, and an LF.
fn put_spans<S: Put>(eu: bool, nlba: bool, out: &mut S)
    ensures { out.new ≡ S.taken out.old (words_of_spans eu nlba) }
{
    match (eu, nlba) {
        (false, false) => out.put(b"\n"),
        (true, false) => out.put(b" eu\n"),
        (false, true) => out.put(b" nlba\n"),
        (true, true) => out.put(b" eu nlba\n"),
    }
}

/// Puts the first line of a syllable from the end of its number on. Few syllables have a span, so
/// the rest is put at once.
fn put_after_number<S: Put>(position: Position, eu: bool, nlba: bool, out: &mut S)
    ensures { out.new
        ≡ S.taken out.old (codes " " ++ (position_word position ++ words_of_spans eu nlba)) }
{
    match (position, eu || nlba) {
        (Position::One, false) => out.put(b" one\n"),
        (Position::Beginning, false) => out.put(b" beginning\n"),
        (Position::Middle, false) => out.put(b" middle\n"),
        (Position::End, false) => out.put(b" end\n"),
        _ => {
            put_position(position, out);
            put_spans(eu, nlba, out);
        }
    }
}

/// Puts the first line of the syllable with the number `number` and the position `position` in its
/// word: `syllable NUMBER POSITION`, then the open spans.
pub(crate) fn put_first_line<S: Put>(number: u64, position: Position, spans: Spans, out: &mut S)
    ensures { out.new ≡ S.taken out.old (first_line_by number position spans.eu spans.nlba) }
{
    out.put(b"syllable ");
    out.put(Buffer::new().format(number).as_bytes());
    put_after_number(position, spans.eu, spans.nlba, out);
}

/// Puts the line of the text of `view`, whose spans count the bytes of `kept`, if there is a text:
/// `text:T`.
fn put_text<S: Put>(view: &TextView, kept: &str, out: &mut S)
    ensures { out.new ≡ S.taken out.old (line_of_text
        (canonical_text (content_of view.now) kept.now)) }
{
    let mut line = TextLine::new(out);
    write_text(view, kept, &mut line);
    line.end();
}

/// Puts the line of the translation of `syllable`, if there is one: `translation:T`.
fn put_translation<S: Put>(syllable: &Syllable, out: &mut S)
    ensures { out.new
        ≡ S.taken out.old (line_of_translation
        (string_bytes syllable.now.kept) syllable.now.text.translation) }
{
    if let Some(span) = syllable.text.translation {
        out.put(b"translation:");
        put_last(syllable.slice(span), out);
    }
}

/// Puts the lines of the snippet `kept` of line `line`, and updates `alterations` for its items.
pub(crate) fn put_snippet<S: Put>(line: u8, kept: &str, alterations: &mut Alterations, out: &mut S)
    ensures put { out.new ≡ S.taken out.old (lines_on alterations.old line kept.now) }
    ensures alterations { alterations.new ≡ passed alterations.old (steps_on line kept.now) }
    ensures line { line < 256 }
{
    if line == 0 {
        put_notes(kept, alterations, out);
    } else {
        put_nabc(line, kept, out);
    }
}

/// Puts the lines of `snippets` of `syllable`, and updates `alterations` for their items.
fn put_snippets<S: Put>(
    syllable: &Syllable,
    snippets: &[Snippet],
    alterations: &mut Alterations,
    out: &mut S,
)
    ensures put { out.new ≡ S.taken out.old
        (lines_of_snippets alterations.old (string_bytes syllable.now.kept) snippets.now) }
    ensures alterations { alterations.new ≡ passed alterations.old
        (steps_of_snippets (string_bytes syllable.now.kept) snippets.now) }
    ensures lines { All (λ snippet. snippet.line < 256) snippets.now }
{
    gabc_neumes::laws::steps_are_passed_one_by_one();
    for snippet in snippets {
        put_snippet(
            snippet.line,
            syllable.text_at(snippet.span),
            alterations,
            out,
        );
    }
}

/// Updates `alterations` for the start of a word, if a syllable at `position` begins one.
pub(crate) fn pass_position(position: Position, alterations: &mut Alterations)
    ensures { alterations.new ≡ passed alterations.old (first_steps position) }
{
    match position {
        Position::One | Position::Beginning => alterations.start_word(),
        Position::Middle | Position::End => {}
    }
}

/// Puts the lines of `syllable` in a dump, in which it has the number `number`: its first line,
/// those of its text and its translation, and those of its snippets. They have at most 64 bytes for
/// each byte that `canon_len` returns, and 256. `alterations` are those in force before the
/// syllable, by which its notes are reported, whatever they are; and then those after it. It does
/// not allocate: the kept text is read again as the lines are put. A room with fewer bytes left
/// than `dump_len` returns takes as many of them as fit.
pub fn dump_syllable<S: Put>(
    number: u64,
    syllable: &Syllable,
    alterations: &mut Alterations,
    out: &mut S,
)
    ensures put { out.new ≡ S.taken out.old
        (lines_of_syllable number alterations.old (placed_of syllable.now)) }
    ensures alterations { alterations.new
        ≡ passed alterations.old (steps_of_syllable (placed_of syllable.now)) }
    ensures short { length (lines_of_syllable number alterations.old (placed_of syllable.now))
        ≤ 64 * length (canonical (starts_word syllable.now.position) (unplaced_of syllable.now)) + 256 }
{
    laws::a_dump_is_short();
    gabc_neumes::laws::steps_are_passed_one_by_one();
    let spans = Spans {
        eu: syllable.eu,
        nlba: syllable.nlba,
    };
    put_first_line(number, syllable.position, spans, out);
    put_text(&syllable.text, syllable.kept.as_str(), out);
    put_translation(syllable, out);
    pass_position(syllable.position, alterations);
    let snippets = syllable.snippets.as_slice();
    put_snippets(syllable, snippets, alterations, out);
}

/// Returns the number of bytes that `dump_syllable` puts for the same arguments; it saturates at
/// the last value of a `usize`. `alterations` are those in force before the syllable.
pub fn dump_len(number: u64, syllable: &Syllable, alterations: &Alterations) -> usize
    ensures len { result ≡ min
        (length (lines_of_syllable number alterations.now (placed_of syllable.now)))
        (2 ^ 64 - 1) }
{
    let mut counter = ByteCounter::new();
    let mut after = *alterations;
    dump_syllable(number, syllable, &mut after, &mut counter);
    counter.count()
}
