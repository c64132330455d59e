//! Laws of a regular syllable: its events, and the syllable that it makes. Each function's contract
//! is a law; its body calls the laws below that it rests on.

ghost use Rattle.std.specs.Prelude.{◌≡◌, ◌<◌, ◌^◌, ℕ, List, [], ◌++◌, length, take, encode_utf8_all};
ghost use Rattle.gabc_places.specs.declared.place.Char.{Char};
ghost use Rattle.gabc_places.specs.declared.place.Place.{Place};
ghost use Rattle.gabc_places.specs.Place.{placed_characters_from};
ghost use Rattle.gabc_text.specs.Events.{CountsFit};
ghost use Rattle.gabc_body.specs.Events.{texts_by_definition, text_from, after_mark, events_from};
ghost use Rattle.gabc_score.specs.witness.BodyStage.{texts_by_stage};
ghost use Rattle.gabc_score.specs.RegularSyllable.{SyllableParts, IsRegularSyllable, IsReadAsItStands, MakesItsSpelling, spelled, unit_at};
ghost use Rattle.gabc_body.specs.Syllable.{UnplacedSyllable, since_close};
ghost use Rattle.gabc_body.specs.declared.before.Spans.{Spans};
ghost use Rattle.gabc_body.specs.declared.events.BodyEvent.{BodyEvent};
ghost use Rattle.gabc_score.specs.machine.Between.{ReadsAlike};
ghost use Rattle.gabc_body.specs.SyllablesOfUnits.{characters_in};

/// Law: a regular syllable is read as it is written, wherever it begins, whatever macros are
/// defined and whatever follows: each of its characters has its list of events, nothing is found in
/// it, and the next text begins after its `)`. It has blanks and comments or none, a regular text,
/// and regular snippets, each of the line whose turn it is; if there are no NABC lines, it has one
/// snippet. Its characters are those of its unit.
pub fn a_regular_syllable_is_read_as_it_stands()
    ensures characters { (at : Place) (r : SyllableParts) →
        characters_in (unit_at at r) ≡ placed_characters_from at (spelled r) }
    ensures events { (lines macros : ℕ) (at : Place) (r : SyllableParts) (xs : List Char) →
        IsRegularSyllable lines r → IsReadAsItStands lines macros at r xs }
{
    gabc_text::laws::a_text_ends_once();
    gabc_text::laws::events_build_the_text();
    gabc_text::laws::findings_lie_within();
    gabc_text::laws::a_regular_text_is_printed_as_it_stands();
    gabc_text::laws::blanks_before_a_regular_text_begin_a_word();
    gabc_notes::laws::what_follows_emits_nothing();
    gabc_nabc::laws::what_follows_emits_nothing();
}

/// Law: over a regular syllable a stage over a body emits what the syllable emits by itself,
/// whatever follows. Then it emits the events of a text that begins after the `)`, with what
/// follows. No count of the syllable may reach its last value.
pub fn a_stage_reads_a_regular_syllable_as_it_stands()
    ensures { (lines macros : ℕ) (at : Place) (r : SyllableParts) (xs : List Char) →
        IsRegularSyllable lines r → CountsFit at (spelled r) →
        let us = placed_characters_from at (spelled r) in
        events_from texts_by_stage lines macros (text_from texts_by_stage at (us ++ xs)) (us ++ xs)
        ≡ take (length us) (events_from texts_by_definition lines macros
        (text_from texts_by_definition at us) us)
        ++ events_from texts_by_stage lines macros
        (text_from texts_by_stage (after_mark (unit_at at r).final.end.place) xs) xs }
{
    gabc_text::laws::a_fresh_stage_emits_the_events_by_point();
    gabc_text::laws::events_need_nothing_after();
    gabc_text::laws::a_text_ends_once();
    gabc_text::laws::findings_lie_within();
    gabc_text::laws::a_regular_text_is_printed_as_it_stands();
    gabc_text::laws::blanks_before_a_regular_text_begin_a_word();
    gabc_notes::laws::what_follows_emits_nothing();
    gabc_nabc::laws::what_follows_emits_nothing();
}

/// Law: a regular syllable makes its own spelling, wherever it begins and whatever was emitted
/// before: with its `)` it makes one syllable, in which nothing is found. The blanks before its
/// text begin a word and are kept as one; the rest is kept as it is written, each snippet in its
/// place, and is its canonical text.
pub fn a_regular_syllable_makes_its_spelling()
    ensures { (lines macros : ℕ) (at : Place) (r : SyllableParts) (before : List BodyEvent) →
        IsRegularSyllable lines r → length (encode_utf8_all (spelled r)) < 2 ^ 63 →
        since_close before ≡ [] → MakesItsSpelling lines macros at r before }
{
    gabc_text::laws::a_text_ends_once();
    gabc_text::laws::events_build_the_text();
    gabc_text::laws::events_by_point_are_the_events();
    gabc_text::laws::spans_stand_for_the_view();
    gabc_text::laws::canonical_is_printed();
    gabc_text::laws::findings_lie_within();
    gabc_text::laws::a_regular_text_is_printed_as_it_stands();
    gabc_text::laws::blanks_before_a_regular_text_begin_a_word();
    gabc_notes::laws::what_follows_emits_nothing();
    gabc_notes::laws::kept_again();
    gabc_nabc::laws::what_follows_emits_nothing();
    gabc_nabc::laws::kept_again();
}

/// Law: a regular syllable at the beginning of a text makes one syllable, which depends on the
/// place, the characters and the open spans alone, whatever was gathered before: it is read to its
/// end, and with it the pending syllable is emitted, if there was one.
pub(crate) fn a_regular_syllable_goes_through()
    ensures { (lines macros : ℕ) (at : Place) (r : SyllableParts) (spans : Spans) →
        IsRegularSyllable lines r → CountsFit at (spelled r) →
        length (encode_utf8_all (spelled r)) < 2 ^ 63 →
        (m : UnplacedSyllable) × ReadsAlike lines macros at r spans m }
{
    a_stage_reads_a_regular_syllable_as_it_stands();
    a_regular_syllable_makes_its_spelling();
    gabc_text::laws::a_regular_text_is_printed_as_it_stands();
    gabc_text::laws::blanks_before_a_regular_text_begin_a_word();
}
