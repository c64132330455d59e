//! Laws of the definitions that contracts use. The functions do nothing, or call the laws below
//! that they rest on: each is there for its clauses.

ghost use Rattle.std.specs.Prelude.{◌≡◌, ◌≢◌, ◌+◌, ◌-◌, ◌*◌, ◌<◌, ◌≤◌, ◌^◌, ℕ, List, [], ◌∷◌, ◌++◌, length, take, ◌⊎◌, encode_utf8_all, Some, None, Err, Bool, true, false};
ghost use Rattle.std.specs.Char.{IsScalar};
ghost use Rattle.std.specs.List.{All};
ghost use Rattle.gabc_places.specs.Findings.{AreInOrder};
ghost use Rattle.gabc_places.specs.Code.{severity_of};
ghost use Rattle.gabc_places.specs.declared.code.Fault.{Fault};
ghost use Rattle.gabc_places.specs.declared.code.Finding.{Finding};
ghost use Rattle.gabc_places.specs.declared.severity.Severity.TheVariants.{Fatal};
ghost use Rattle.gabc_places.specs.declared.place.Char.{Char};
ghost use Rattle.gabc_places.specs.declared.limits.Limits.{Limits};
ghost use Rattle.gabc_places.specs.LargerLimits.{AreNoLess};
ghost use Rattle.gabc_places.specs.declared.place.Span.{Span};
ghost use Rattle.gabc_text.specs.ViewFacts.{StandsFor};
ghost use Rattle.gabc_body.specs.declared.ending.InputEnding.{InputEnding};
ghost use Rattle.gabc_body.specs.Syllable.{PlacedSyllable, slice};
ghost use Rattle.gabc_body.specs.Holding.{HoldsParts, HoldsWithNotes, HasWholeSnippets, lines_of};
ghost use Rattle.gabc_headers.specs.Book.{nabc_lines_of, macros_of};
ghost use Rattle.gabc_headers.specs.Heads.{heads_of};
ghost use Rattle.gabc_headers.specs.declared.heads.Heads.{Heads};
ghost use Rattle.gabc_headers.specs.TooLong.{is_stopped_too_long};
ghost use Rattle.gabc_notes.specs.ReadAgain.{IsWarning};
ghost use Rattle.gabc_body.specs.FoundInParts.{TextWarns, UnitsWarn};
ghost use Rattle.gabc_headers.specs.Canonical.{canonical_heads};
ghost use Rattle.gabc_text.specs.Events.{codes_of};
ghost use Rattle.gabc_body.specs.declared.ending.InputEnding.TheVariants.{Whole, Broken, At};
ghost use Rattle.gabc_body.specs.witness.EmittedScore.{emitted_score};
ghost use Rattle.gabc_body.specs.SyllablesOfUnits.{ScoreUnit, unit_characters, closed_units, score_units, units_within, whole_prefix, AreSyllablesOf, IsBodyCut, AreBeforeBodyStop};
ghost use Rattle.gabc_body.specs.Body.{events_to_stop, events_onto, code_at};
ghost use Rattle.gabc_body.specs.Stops.{StopsAt, NeverStops};
ghost use Rattle.gabc_body.specs.declared.events.BodyEvent.{BodyEvent};
ghost use Rattle.gabc_body.specs.Events.{Texts, texts_by_definition, body_events};
ghost use Rattle.gabc_body.specs.Marks.{AllEndAtTheirMarks};
ghost use Rattle.gabc_body.specs.Units.{BodyUnit, JustText, BodyCutting, IsCut, events_of_body_cutting};
ghost use Rattle.gabc_body.specs.WithinLimits.{CanonicalWithin, AreWithin, KeepsWithin};
ghost use Rattle.gabc_body.specs.ScoreEvents.{ScoreOutput, score_outputs, head_events, outputs_of_text, findings_in, syllables_in, fault_in, has_end, is_whole, is_last};
ghost use Rattle.gabc_headers.specs.declared.head_event.HeadEvent.{HeadEvent};
ghost use Rattle.gabc_headers.specs.HeadEvents.{emitted_by, inputs_after};
ghost use Rattle.gabc_headers.specs.witness.HeadEvents.{events_left, reading};
ghost use Rattle.gabc_places.specs.StageLaw.{concat_of};

/// Law: each body has one cutting into a comment without an LF, units and the text after the last
/// `)`, however its texts are read: a text, or a text with its `(` and notes that never end. Each
/// part ends at the first character whose list, read from the beginning of the part, has its end.
pub fn a_body_has_one_cutting()
    ensures one { (texts : Texts) (lines macros : ℕ) (xs : List Char) → (cut : BodyCutting) ×
        IsCut texts lines macros xs cut }
    ensures no_other { (texts : Texts) (lines macros : ℕ) (xs : List Char)
        (cut other : BodyCutting) → IsCut texts lines macros xs cut →
        IsCut texts lines macros xs other → cut ≡ other }
{}

/// Law: a body emits a list of events for each character, and one for its end. The point of an
/// event is the index of its list.
pub fn a_body_has_events_for_each_character()
    ensures { (lines macros : ℕ) (xs : List Char) →
        length (body_events lines macros xs) ≡ length xs + 1 }
{}

/// Law: the events of a body are those of the parts of its units, one after the other: each through
/// the character that ends it.
pub fn a_body_emits_the_events_of_its_units()
    ensures { (lines macros : ℕ) (xs : List Char) (cut : BodyCutting) →
        IsCut texts_by_definition lines macros xs cut →
        body_events lines macros xs ≡ events_of_body_cutting texts_by_definition lines macros cut }
{}

/// Law: each text of a body ends at a `(`, the last snippet of its notes at a `)`, and each other
/// snippet at a `|`. Without NABC lines no unit has more than one snippet.
pub fn units_end_at_their_marks()
    ensures marks { (lines macros : ℕ) (xs : List Char) (cut : BodyCutting) →
        IsCut texts_by_definition lines macros xs cut → AllEndAtTheirMarks cut.units }
    ensures single { (macros : ℕ) (xs : List Char) (cut : BodyCutting) →
        IsCut texts_by_definition 0 macros xs cut →
        All (λ (u : ScoreUnit). length u.snippets ≤ 1) (score_units cut.units) }
{
    gabc_text::laws::a_text_ends_once();
    gabc_notes::laws::a_snippet_ends_at_its_mark();
    gabc_nabc::laws::a_snippet_ends_at_its_mark();
}

/// Law: the findings of a score of fewer than 2^63 characters are sorted: by their places, those of
/// one place by their codes, and none comes twice.
pub fn findings_in_order()
    ensures { (limits : Limits) (ending : InputEnding) (t : List ℕ) → length t < 2 ^ 63 →
        AreInOrder (emitted_score limits ending t).findings }
{
    gabc_headers::laws::findings_in_order();
    gabc_headers::laws::findings_lie_before_the_body();
    gabc_headers::laws::the_body_follows_the_mark();
    gabc_text::laws::findings_in_order();
    gabc_text::laws::findings_lie_within();
    gabc_text::laws::a_text_ends_once();
    gabc_notes::laws::findings_are_in_order();
    gabc_notes::laws::findings_lie_within();
    gabc_notes::laws::a_snippet_ends_at_its_mark();
    gabc_nabc::laws::findings_are_in_order();
    gabc_nabc::laws::findings_lie_within();
    gabc_nabc::laws::a_snippet_ends_at_its_mark();
}

/// Law: the reading of a body stops at the first character at which a limit is passed, if there is
/// one: at no earlier one a limit is passed.
pub fn the_stop_is_the_first_point()
    ensures { (limits : Limits) (head : ℕ) (xs : List Char) (lists : List (List BodyEvent)) →
        length lists ≡ length xs + 1 →
        (let r = events_to_stop limits head [] xs lists in
        NeverStops limits head [] xs lists r ⊎ StopsAt limits head [] xs lists r) }
{}

/// Law: each syllable of a score holds its parts. The characters of its text and notes stand in the
/// input, and its view is that of this text. Its kept text is that of the text and, from `(` to `)`
/// with `|` between them, those of its snippets; the spans of its view and its snippets stand for
/// parts of it. Each snippet has the line whose turn it is, and its kept text is a snippet of that
/// line. Only the last syllable may have no notes: then nothing more is kept, and its one snippet
/// is empty. A span that stands for a part of a text has that part's bytes. The input has fewer
/// than 2^63 bytes.
pub fn a_syllable_holds_its_parts()
    ensures held { (limits : Limits) (ending : InputEnding) (t : List ℕ) →
        length (encode_utf8_all t) < 2 ^ 63 →
        (let score = emitted_score limits ending t in
        All (λ (s : PlacedSyllable). HoldsParts t (lines_of score) s.made) score.syllables) }
    ensures noted { (limits : Limits) (ending : InputEnding) (t : List ℕ) →
        length (encode_utf8_all t) < 2 ^ 63 →
        (let score = emitted_score limits ending t in
        (before after : List PlacedSyllable) (s next : PlacedSyllable) →
        score.syllables ≡ before ++ s ∷ next ∷ after → HoldsWithNotes t (lines_of score) s.made) }
    ensures bytes { (text : List ℕ) (span : Span) (part : List ℕ) → StandsFor text span part →
        slice span (encode_utf8_all text) ≡ encode_utf8_all part }
{
    // Texts are read by their own definition, and end once.
    gabc_text::laws::a_text_ends_once();
    gabc_text::laws::events_build_the_text();
    gabc_text::laws::spans_stand_for_the_view();
}

/// Law: the spans of the snippets of a score's syllables begin and end between characters: each has
/// its text.
pub fn snippets_stand_between_characters()
    ensures { (limits : Limits) (ending : InputEnding) (t : List ℕ) →
        length (encode_utf8_all t) < 2 ^ 63 →
        All (λ (s : PlacedSyllable). HasWholeSnippets s.made) (emitted_score limits ending t).syllables }
{
    a_syllable_holds_its_parts();
}

/// Law: a finding of a score is an error or a warning, and never a fault.
pub fn findings_are_no_faults()
    ensures { (limits : Limits) (ending : InputEnding) (t : List ℕ)
        → All (λ (f : Finding). severity_of f.code ≢ Fatal) (emitted_score limits ending t).findings }
{
    gabc_text::laws::findings_lie_within();
}

/// Law: a score whose headers, texts and snippets have no error has none: its findings are
/// warnings.
pub fn a_score_warns_as_its_parts_do()
    ensures { (limits : Limits) (ending : InputEnding) (t : List ℕ) (heads : Heads)
        (cut : BodyCutting) (units : List BodyUnit) (last : List Char)
        → heads_of limits t ≡ Ok heads → IsBodyCut heads.book t cut
        → cut.units ≡ Some (record { closed = units; last = JustText last })
        → All IsWarning heads.findings
        → UnitsWarn (nabc_lines_of heads.book) (macros_of heads.book) units (JustText last)
        → TextWarns (codes_of last) → All IsWarning (emitted_score limits ending t).findings }
{
    gabc_text::laws::findings_lie_within();
}

/// Law: if the reading of a body gets to the end, no limit is passed by what is emitted there: at
/// its end a body keeps nothing and ends no syllable. So if the input ends inside notes, a tag, a
/// raw part or a translation, F6 hides no F5 or F7 of the same point.
pub fn no_limit_is_passed_at_an_open_end()
    ensures { (limits : Limits) (head lines macros : ℕ) (xs : List Char)
        → (let r = events_to_stop limits head [] xs (body_events lines macros xs) in
        r.fault ≡ None → code_at limits head (events_onto r.last r.before) ≡ None) }
{
    gabc_text::laws::a_text_ends_once();
}

/// Law: the syllables of a score are those of the units of its body: of a whole score there are as
/// many, and the syllable at a place is that of the unit at this place. Of a stopped score they are
/// those of the units whose `)` stands before the stop. Such a syllable has the view of the unit's
/// text, and its snippets are read from those of the unit, one after the other. Its flags come of
/// the last `<eu>`, `</eu>`, `<nlba>` and `</nlba>` in the texts of the units through its own, and
/// its position of the units that begin words, the end counting as one. A last text is a unit only
/// if it says something. A body is its comment and the characters of its units, one after the
/// other.
pub fn the_syllables_are_those_of_the_units()
    ensures characters { (texts : Texts) (lines macros : ℕ) (xs : List Char) (cut : BodyCutting)
        → IsCut texts lines macros xs cut → xs ≡ cut.comment ++ unit_characters cut.units }
    ensures whole { (limits : Limits) (t : List ℕ) (book : List (List ℕ × List ℕ))
        (cut : BodyCutting) → length (encode_utf8_all t) < 2 ^ 63
        → (let score = emitted_score limits Whole t in
        score.book ≡ Some book → IsBodyCut book t cut → score.fault ≡ None
        → AreSyllablesOf (nabc_lines_of book) (score_units cut.units) score.syllables) }
    ensures stopped { (limits : Limits) (ending : InputEnding) (t : List ℕ)
        (book : List (List ℕ × List ℕ)) (cut : BodyCutting) (n : ℕ)
        → length (encode_utf8_all t) < 2 ^ 63
        → (let score = emitted_score limits ending t in
        score.book ≡ Some book → IsBodyCut book t cut → AreBeforeBodyStop limits book t n
        → ¬ ((ending ≡ Whole) × (score.fault ≡ None))
        → AreSyllablesOf (nabc_lines_of book)
        (units_within (n - length cut.comment) cut.units) score.syllables) }
    ensures stop { (limits : Limits) (book : List (List ℕ × List ℕ)) (t : List ℕ)
        → (n : ℕ) × AreBeforeBodyStop limits book t n }
{
    gabc_text::laws::a_text_ends_once();
    gabc_text::laws::events_build_the_text();
    gabc_text::laws::events_by_point_are_the_events();
    gabc_text::laws::spans_stand_for_the_view();
}

/// Law: the prefix of a text through a unit of its body that ends at its `)`, or through the `%%`,
/// is a number of its first characters.
pub fn whole_prefixes_are_first_characters()
    ensures { (book : List (List ℕ × List ℕ)) (t : List ℕ) (cut : BodyCutting) (n : ℕ)
        → IsBodyCut book t cut → (m : ℕ) × (whole_prefix t cut n ≡ take m t) }
{
    the_syllables_are_those_of_the_units();
}

/// Law: a score that is stopped after the headers, by a fault or by a source that failed, has the
/// book and the syllables of its prefix read as a whole: of the text through the `)` of the last
/// unit that ends before the stop, or through the `%%`, if none does. This prefix is read without a
/// fault.
pub fn a_stopped_score_is_that_of_its_prefix()
    ensures { (limits : Limits) (ending : InputEnding) (t : List ℕ)
        (book : List (List ℕ × List ℕ)) (cut : BodyCutting) (n : ℕ)
        → length (encode_utf8_all t) < 2 ^ 63
        → (let score = emitted_score limits ending t in
        let again = emitted_score limits Whole (whole_prefix t cut n) in
        score.book ≡ Some book → IsBodyCut book t cut → AreBeforeBodyStop limits book t n
        → ¬ ((ending ≡ Whole) × (score.fault ≡ None))
        → (again.book ≡ score.book)
        × ((again.syllables ≡ score.syllables) × (again.fault ≡ None))) }
{
    gabc_headers::laws::the_body_follows_the_mark();
    gabc_headers::laws::the_headers_end_at_their_mark();
    gabc_text::laws::a_text_ends_once();
    gabc_text::laws::events_build_the_text();
    gabc_text::laws::events_by_point_are_the_events();
    gabc_text::laws::spans_stand_for_the_view();
    gabc_text::laws::a_fresh_stage_emits_the_events_by_point();
    gabc_text::laws::events_need_nothing_after();
    gabc_notes::laws::what_follows_emits_nothing();
    gabc_nabc::laws::what_follows_emits_nothing();
}

/// Law: the syllables of a score are within the limits, and so is its canonical file: no kept and
/// no canonical text of a syllable has more bytes than the limit of a syllable, and the canonical
/// file has no more than the limit of the input.
pub fn given_syllables_are_within_the_limits()
    ensures { (limits : Limits) (ending : InputEnding) (t : List ℕ)
        (book : List (List ℕ × List ℕ))
        → (let score = emitted_score limits ending t in
        score.book ≡ Some book
        → AreWithin limits (length (encode_utf8_all (canonical_heads book))) score.syllables) }
{
    gabc_headers::laws::canonical_lines_are_within_the_limits();
    gabc_text::laws::a_text_ends_once();
}

/// Law: a score has at most half as many syllables as the input may have bytes: each has at least
/// two bytes of the canonical file.
pub fn syllables_are_fewer_than_bytes()
    ensures { (limits : Limits) (ending : InputEnding) (t : List ℕ) →
        2 * length (emitted_score limits ending t).syllables ≤ limits.input }
{
    given_syllables_are_within_the_limits();
}

/// Law: a score has no fault whose text ends with an LF after the last `)`, if no unit keeps more
/// bytes than a syllable may have, and if the canonical texts of its units' syllables, and the file
/// of these, are within the limits.
pub fn no_limit_is_passed_by_short_units()
    ensures { (limits : Limits) (t : List ℕ) (book : List (List ℕ × List ℕ)) (cut : BodyCutting)
        (units : List BodyUnit) (last : List Char) → length (encode_utf8_all t) < 2 ^ 63
        → (let score = emitted_score limits Whole t in
        score.book ≡ Some book → IsBodyCut book t cut
        → cut.units ≡ Some (record { closed = units; last = JustText last })
        → codes_of last ≡ 10 ∷ []
        → All (KeepsWithin limits.syllable) (closed_units units (JustText last))
        → ((syllables : List PlacedSyllable)
        → AreSyllablesOf (nabc_lines_of book) (score_units cut.units) syllables
        → CanonicalWithin limits (length (encode_utf8_all (canonical_heads book))) syllables)
        → score.fault ≡ None) }
{
    gabc_text::laws::a_text_ends_once();
    gabc_text::laws::events_build_the_text();
    gabc_text::laws::events_by_point_are_the_events();
    gabc_text::laws::spans_stand_for_the_view();
}

/// Law: larger limits change nothing if neither the headers nor a syllable were too long: a text
/// that is read, or that is stopped for another reason, has the same score under limits that are no
/// less, if the limit of the input is the same.
pub fn larger_limits_change_no_score()
    ensures { (limits larger : Limits) (ending : InputEnding) (t : List ℕ)
        → AreNoLess limits larger → limits.input ≡ larger.input
        → is_stopped_too_long (emitted_score limits ending t).fault ≡ false
        → emitted_score larger ending t ≡ emitted_score limits ending t }
{
    gabc_headers::laws::larger_limits_change_no_headers();
}

/// Law: the events of a score, character by character, make up its content: no finding and no
/// syllable comes twice or is left out, the syllables have their positions, and a stop is the
/// fault. The end is emitted if the input has ended and nothing stopped the reading.
pub fn a_score_says_what_it_emits()
    ensures findings { (limits : Limits) (ending : InputEnding) (t : List ℕ) →
        findings_in (outputs_of_text limits ending t) ≡ (emitted_score limits ending t).findings }
    ensures syllables { (limits : Limits) (ending : InputEnding) (t : List ℕ) →
        syllables_in (outputs_of_text limits ending t) ≡ (emitted_score limits ending t).syllables }
    ensures fault { (limits : Limits) (ending : InputEnding) (t : List ℕ) →
        fault_in (outputs_of_text limits ending t) ≡ (emitted_score limits ending t).fault }
    ensures end { (limits : Limits) (ending : InputEnding) (t : List ℕ) →
        has_end (outputs_of_text limits ending t)
        ≡ is_whole ending (emitted_score limits ending t).fault }
{}

/// Law: the events that a score takes of a text are those that a stage of headers emits of it,
/// whether the text has ended, breaks off or is stopped by a fault. After this fault it is no
/// matter whether the end has come.
pub fn a_stage_of_headers_emits_the_events()
    ensures whole { (limits : Limits) (t : List ℕ) → All IsScalar t →
        let xs = inputs_after [] t in
        head_events limits Whole t ≡ emitted_by true xs (events_left limits (reading []) xs) }
    ensures broken { (limits : Limits) (t : List ℕ) → All IsScalar t →
        let xs = inputs_after [] t in
        head_events limits Broken t ≡ emitted_by false xs (events_left limits (reading []) xs) }
    ensures stopped { (limits : Limits) (t : List ℕ) (fault : Fault) (ended : Bool) →
        All IsScalar t → let xs = inputs_after [] t ++ Err fault ∷ [] in
        head_events limits (At fault) t
        ≡ emitted_by ended xs (events_left limits (reading []) xs) }
{
    gabc_headers::laws::events_make_the_headers();
    gabc_headers::laws::events_need_no_end();
}

/// Law: after a stop or the end a score emits nothing, whatever it takes.
pub fn nothing_follows_the_end()
    ensures { (texts : Texts) (limits : Limits) (inputs : List HeadEvent)
        (before after : List ScoreOutput) (o : ScoreOutput)
        → concat_of (score_outputs texts limits inputs) ≡ before ++ o ∷ after
        → is_last o ≡ true → after ≡ [] }
{}
