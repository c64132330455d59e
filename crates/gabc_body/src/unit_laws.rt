//! Laws of a unit and its syllable, apart from the score that has them. Each function's contract is
//! a law; its body calls the laws below that it rests on.

ghost use Rattle.std.specs.Prelude.{◌≡◌, ◌<◌, ◌≤◌, ◌^◌, ◌++◌, ℕ, Bool, List, [], ◌∷◌, false, length, encode_utf8_all};
ghost use Rattle.std.specs.List.{All};
ghost use Rattle.std.specs.Str.{IsUtf8};
ghost use Rattle.gabc_places.specs.declared.place.Char.{Char};
ghost use Rattle.gabc_places.specs.declared.place.Place.{Place};
ghost use Rattle.gabc_text.specs.Events.{codes_of};
ghost use Rattle.gabc_notes.specs.ReadAgain.{IsWarning};
ghost use Rattle.gabc_body.specs.declared.before.Spans.{Spans};
ghost use Rattle.gabc_body.specs.declared.events.BodyEvent.{BodyEvent};
ghost use Rattle.gabc_body.specs.Body.{events_onto, findings_of};
ghost use Rattle.gabc_body.specs.Events.{texts_by_definition, text_from};
ghost use Rattle.gabc_body.specs.Canonical.{canonical};
ghost use Rattle.gabc_body.specs.FoundInParts.{TextWarns, SnippetsWarn};
ghost use Rattle.gabc_body.specs.OpenSpans.{CanBeOpen};
ghost use Rattle.gabc_body.specs.Holding.{HoldsWithNotes, HasWholeSnippets};
ghost use Rattle.gabc_body.specs.SpansPast.{eu_past, nlba_past};
ghost use Rattle.gabc_body.specs.Syllable.{UnplacedSyllable, PlacedSyllable, since_close};
ghost use Rattle.gabc_body.specs.SyllablesOfUnits.{ScoreUnit, AreSyllablesOf, characters_in, characters_from, score_unit, snippets_in};
ghost use Rattle.gabc_places.specs.TextOfAnInput.{IsText};
ghost use Rattle.gabc_body.specs.UnitRead.{HoldsSomeUnit, GivesOneSyllable, first_events};
ghost use Rattle.gabc_body.specs.Units.{BodyUnit, LastUnit, Cuts, units_pieces, last_characters};

/// Law: a unit makes one syllable, with its last character, wherever its text begins, whatever
/// follows and whatever was emitted before. The syllable holds the unit, and the spans that are
/// open after it follow from its text and from those before. It keeps no more on the way than it
/// keeps in all. Its findings are warnings, if those of its text and its snippets are.
pub fn a_unit_gives_one_syllable()
    ensures given { (lines macros : ℕ) (at : Place) (u : BodyUnit) (units : List BodyUnit)
        (last : LastUnit) (before : List BodyEvent) → let xs = characters_from (u ∷ units) last in
        length (encode_utf8_all (codes_of xs)) < 2 ^ 63 → Cuts texts_by_definition lines macros
        (text_from texts_by_definition at xs) (units_pieces lines (u ∷ units) last) (last_characters last)
        → since_close before ≡ []
        → GivesOneSyllable lines macros at u (characters_from units last) before }
    ensures warns { (lines macros : ℕ) (at : Place) (u : BodyUnit) (units : List BodyUnit)
        (last : LastUnit) → let xs = characters_from (u ∷ units) last in
        let after = characters_from units last in
        length (encode_utf8_all (codes_of xs)) < 2 ^ 63 → Cuts texts_by_definition lines macros
        (text_from texts_by_definition at xs) (units_pieces lines (u ∷ units) last) (last_characters last)
        → TextWarns (score_unit u after).text → SnippetsWarn lines macros 0 (snippets_in u) after
        → All IsWarning (findings_of (events_onto
        (first_events lines macros at xs (length (characters_in u))) [])) }
{
    gabc_text::laws::a_text_ends_once();
    gabc_text::laws::events_build_the_text();
    gabc_text::laws::events_by_point_are_the_events();
    gabc_text::laws::spans_stand_for_the_view();
    gabc_text::laws::findings_lie_within();
}

/// Law: the spans of the snippets of a syllable that holds a unit begin and end between characters:
/// each has its text.
pub fn snippets_of_a_unit_stand_between_characters()
    ensures { (lines : ℕ) (m : UnplacedSyllable) → HoldsSomeUnit lines m → HasWholeSnippets m }
{}

/// Law: the canonical text of a syllable that holds a unit is a text of an input, if its kept text
/// is one: no CR and no U+FEFF comes of it. It is in UTF-8, if its kept text is.
pub fn the_canonical_text_of_a_unit_is_a_text()
    ensures text { (lines : ℕ) (m : UnplacedSyllable) → HoldsSomeUnit lines m → IsText m.kept →
        (starts : Bool) → IsText (canonical starts m) }
    ensures utf8 { (lines : ℕ) (m : UnplacedSyllable) → HoldsSomeUnit lines m → IsUtf8 m.kept →
        (starts : Bool) → IsUtf8 (canonical starts m) }
{
    gabc_text::laws::spans_stand_for_the_view();
}

/// Law: the spans that are open after a syllable of units follow from its text and from those that
/// are open after the one before it. Before the first none is open.
pub fn spans_follow_one_another()
    ensures first { (lines : ℕ) (units : List ScoreUnit) (syllables after : List PlacedSyllable)
        (s : PlacedSyllable) → AreSyllablesOf lines units syllables → syllables ≡ s ∷ after
        → (s.made.eu ≡ eu_past s.made false) × (s.made.nlba ≡ nlba_past s.made false) }
    ensures next { (lines : ℕ) (units : List ScoreUnit)
        (syllables before after : List PlacedSyllable) (s next : PlacedSyllable)
        → AreSyllablesOf lines units syllables → syllables ≡ before ++ s ∷ next ∷ after
        → (next.made.eu ≡ eu_past next.made s.made.eu)
        × (next.made.nlba ≡ nlba_past next.made s.made.nlba) }
{}

/// Law: a syllable that holds its parts in some input, with its notes, holds a unit, if it has but
/// one snippet when there are no NABC lines.
pub fn a_syllable_with_its_parts_holds_a_unit()
    ensures { (input : List ℕ) (lines : ℕ) (m : UnplacedSyllable) → HoldsWithNotes input lines m →
        (lines ≡ 0 → length m.snippets ≤ 1) → HoldsSomeUnit lines m }
{}

/// Law: whichever spans are to be open, some events leave just these open, and nothing is read
/// after them.
pub fn some_events_leave_spans_open()
    ensures { (spans : Spans) → CanBeOpen spans }
{}
