//! Laws: the content of a body is read by what is kept of it.

ghost use Rattle.std.specs.Prelude.{◌≡◌, ◌≤◌, ◌<◌, ◌^◌, ℕ, List, [], length, take, encode_utf8_all, None, is_some, ◌↔◌};
ghost use Rattle.std.specs.List.{All};
ghost use Rattle.std.specs.Char.{IsScalar};
ghost use Rattle.gabc_places.specs.Place.{place_past, placed_characters_from};
ghost use Rattle.gabc_places.specs.declared.code.Finding.{Finding};
ghost use Rattle.gabc_places.specs.declared.limits.Limits.{Limits};
ghost use Rattle.gabc_places.specs.declared.place.Place.{Place};
ghost use Rattle.gabc_headers.specs.declared.heads.Heads.{Heads};
ghost use Rattle.gabc_text.specs.Events.{CountsFit};
ghost use Rattle.gabc_body.specs.Body.{body_of, cut_of, events_onto};
ghost use Rattle.gabc_body.specs.NoteBeforeClef.{first_of, score_events};
ghost use Rattle.gabc_body.specs.OneSyllable.{IsOneAlone};
ghost use Rattle.gabc_body.specs.ReadAlone.{read_of, begun_after, IsReadAsOne};
ghost use Rattle.gabc_body.specs.Reading.{body_by, kept_bytes};
ghost use Rattle.gabc_body.specs.Score.{body_in, score_of};
ghost use Rattle.gabc_body.specs.witness.EmittedScore.{emitted_body, emitted_score};
ghost use Rattle.gabc_body.specs.ScoreEvents.{first_place};
ghost use Rattle.gabc_body.specs.Syllable.{since_close, kept_of, all_syllables, is_eu, is_nlba};
ghost use Rattle.gabc_body.specs.UnitRead.{first_events};
ghost use Rattle.gabc_body.specs.declared.events.BodyEvent.{BodyEvent};
ghost use Rattle.gabc_body.specs.declared.ending.InputEnding.{InputEnding};
ghost use Rattle.gabc_body.specs.witness.TextsByKept.{TextsGoByKept};

/// Law: the lists of events of a text follow from what is kept of it, if no count of the text
/// reaches its last value.
pub fn texts_go_by_kept()
    ensures { TextsGoByKept }
{
    gabc_text::laws::text_events_are_by_kept();
    gabc_text::laws::a_text_says_what_is_kept();
    gabc_text::laws::events_build_the_text();
    gabc_text::laws::events_by_point_are_the_events();
    gabc_text::laws::a_text_ends_once();
}

/// Law: the content of a body read by what is kept of it is the one that follows from its events,
/// wherever it begins, if no count of it reaches its last value.
pub fn a_body_is_read_by_kept()
    ensures { (limits : Limits) (head lines macros : ℕ) (found : List Finding)
        (ending : InputEnding) (at : Place) (t : List ℕ) →
        All IsScalar t → 1 ≤ at.line → CountsFit at t →
        (let xs = placed_characters_from at t in
        body_by limits head lines macros found (place_past at t) ending xs
        ≡ body_of limits head found (place_past at t) ending xs (score_events lines macros xs)) }
{
    texts_go_by_kept();
}

/// Law: the content of a score read by what is kept of it is the one that follows from the events
/// of its body, if its characters are Unicode scalar values and it has fewer than 2^63 bytes.
pub fn a_score_says_what_is_kept()
    ensures body { (limits : Limits) (ending : InputEnding) (t : List ℕ) (heads : Heads) →
        All IsScalar t → length (encode_utf8_all t) < 2 ^ 63 →
        body_in limits ending t heads ≡ emitted_body limits ending t heads }
    ensures score { (limits : Limits) (ending : InputEnding) (t : List ℕ) →
        All IsScalar t → length (encode_utf8_all t) < 2 ^ 63 →
        score_of limits ending t ≡ emitted_score limits ending t }
{
    texts_go_by_kept();
}

/// Law: from the first characters of a text, wherever it begins and after whatever was emitted,
/// with no syllable begun and no bracket left open, the reading by what is kept makes the syllables
/// that their events make, and keeps the same bytes of the one that is read.
pub fn first_characters_are_read_by_kept()
    ensures { (lines macros : ℕ) (at : Place) (t : List ℕ) (before : List BodyEvent) (n : ℕ) →
        All IsScalar t → 1 ≤ at.line → CountsFit at t → since_close before ≡ [] →
        cut_of before ≡ None → n ≤ length t →
        (let xs = placed_characters_from at t in
        let read = read_of lines macros (begun_after (all_syllables before) (is_eu before)
        (is_nlba before) (is_some (first_of before))) (take n xs) in
        let all = events_onto (first_events lines macros at xs n) before in
        (all_syllables all ≡ read.made) × (kept_of (since_close all) ≡ kept_bytes read.reading)) }
{
    texts_go_by_kept();
}

/// Law: a text is one syllable by itself exactly if the reading by what is kept makes one of it,
/// with its last character.
pub fn a_text_is_one_syllable_by_kept()
    ensures { (lines macros : ℕ) (t : List ℕ) → All IsScalar t → CountsFit first_place t →
        IsOneAlone lines macros first_place t ↔ IsReadAsOne lines macros t }
{
    texts_go_by_kept();
}
