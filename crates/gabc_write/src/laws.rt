//! Laws of printed texts, and of the pending syllable of a stage. Each function's contract is a
//! law; its body does nothing, or calls other laws that it rests on.

ghost use Rattle.std.specs.Prelude.{◌≡◌, ◌≤◌, ◌<◌, ◌+◌, ◌*◌, ◌^◌, ◌⊎◌, ◌++◌, ◌∷◌, [], ℕ, Bool, List, length, true, false, Some, Ok, encode_utf8_all, is_some, IfSome, IsUtf8};
ghost use Rattle.std.specs.List.{All};
ghost use Rattle.gabc_places.specs.declared.place.Place.{Place};
ghost use Rattle.gabc_places.specs.declared.place.Char.{Char};
ghost use Rattle.gabc_places.specs.declared.limits.Limits.{Limits};
ghost use Rattle.gabc_places.specs.LargerLimits.{AreNoLess};
ghost use Rattle.gabc_places.specs.StageLaw.{concat_of};
ghost use Rattle.gabc_headers.specs.declared.heads.Heads.{Heads};
ghost use Rattle.gabc_headers.specs.Heads.{heads_of};
ghost use Rattle.gabc_headers.specs.Book.{nabc_lines_of};
ghost use Rattle.gabc_neumes.specs.InForce.{InForce, passed};
ghost use Rattle.gabc_text.specs.ViewFacts.{view_facts};
ghost use Rattle.gabc_body.specs.Events.{texts_by_definition};
ghost use Rattle.gabc_body.specs.declared.ending.InputEnding.{InputEnding};
ghost use Rattle.gabc_body.specs.witness.EmittedScore.{emitted_score};
ghost use Rattle.gabc_score.specs.Before.{sounds};
ghost use Rattle.gabc_body.specs.Syllable.{UnplacedSyllable, PlacedSyllable};
ghost use Rattle.gabc_body.specs.Canonical.{canonical, starts_word};
ghost use Rattle.gabc_body.specs.declared.snippets.Snippet.{Snippet};
ghost use Rattle.gabc_body.specs.declared.syllable.Position.{Position};
ghost use Rattle.gabc_body.specs.ScoreEvents.{syllables_in};
ghost use Rattle.gabc_score.specs.ScoreReports.{before_of, before_with, held_of};
ghost use Rattle.gabc_body.specs.Units.{BodyCutting, IsCut};
ghost use Rattle.gabc_score.specs.witness.IsReachable.{IsReachable};
ghost use Rattle.gabc_score.specs.witness.ScoreStage.{ScoreStageState, left_of};
ghost use Rattle.gabc_body.specs.UnitRead.{HoldsSomeUnit};
ghost use Rattle.gabc_body.specs.SyllablesOfUnits.{ScoreUnit, HoldsUnit, AreSyllablesOf, score_units};
ghost use Rattle.gabc_write.specs.SyllableAgain.{AreSnippets, IsPrinted, IsOneUnit};
ghost use Rattle.gabc_write.specs.BodyAgain.{SyllableFacts, AreSyllables, FirstBeginsWord, FirstTextBeginsWord, ArePrinted, IsBodyAgain};
ghost use Rattle.gabc_write.specs.FileAgain.{IsFileAgain};
ghost use Rattle.gabc_write.specs.ScoreAgain.{IsPrintedScore, IsScoreAgain};
ghost use Rattle.gabc_write.specs.PlainText.{IsText};
ghost use Rattle.gabc_write.specs.SetDown.{MayBeHeldByItsText, SayTheSame};
ghost use Rattle.gabc_write.specs.SyllableMeaning.{AreSame};
ghost use Rattle.gabc_write.specs.SyllableRead.{as_it_stands, IsReadFromItsText, IsReadWhereItStands, IsWrittenAsOne};
ghost use Rattle.gabc_body.specs.Holding.{HasWholeSnippets, Holds, HoldsNoNotes};
ghost use Rattle.gabc_write.specs.DumpOfSyllables.{HaveOneDump, lines_of_syllable, lines_of_syllables, steps_of_syllable};

use gabc_score::ScoreStage;

/// Law: a printed syllable is read again, whatever follows its `)`, as one unit with the same text,
/// the same snippets and the same start of a word, and without an error. If what follows is cut
/// into units, then with the syllable before it there is one more. Each snippet is kept whole on
/// its line, and the LF before a word as a blank. The canonical text of each syllable of a unit is
/// such a printed syllable.
pub fn syllable_again()
    ensures read { (lines macros : ℕ) (at : Place) (t : List ℕ) (snippets : List (List ℕ))
        (rest : List ℕ) → AreSnippets lines snippets
        → IsOneUnit lines macros at (view_facts t) snippets rest }
    ensures printed { (lines : ℕ) (u : ScoreUnit) (m : UnplacedSyllable) → HoldsUnit lines u m →
        (lines ≡ 0 → length u.snippets ≤ 1) → IsPrinted lines u m }
{
    gabc_text::laws::a_text_ends_once();
    gabc_text::laws::view_again();
    gabc_text::laws::spans_stand_for_the_view();
    gabc_notes::laws::kept_again();
    gabc_nabc::laws::kept_again();
    gabc_score::laws::a_syllable_holds_its_parts();
}

/// Law: a syllable that holds a unit with notes is read again from its own canonical text, by
/// itself: wherever this text begins and whatever was emitted before, it is one syllable, whole
/// with its last character, that says the same, holds a unit, leaves the same spans open after the
/// same spans and has the same canonical text. Its findings are warnings, and no more bytes are
/// kept on the way than the text has. The same holds if the syllable is the first one of a score,
/// whose canonical text begins a word whatever its own text says: what is read begins a word then.
pub fn a_syllable_is_read_from_its_own_text()
    ensures { (lines macros : ℕ) (first : Bool) (m : UnplacedSyllable) → HoldsSomeUnit lines m →
        (let n = as_it_stands first m in
        length (canonical n.text.word_start n) < 2 ^ 63 → IsReadFromItsText lines macros n) }
{
    gabc_text::laws::a_line_feed_begins_a_word();
    gabc_text::laws::spans_stand_for_the_view();
    gabc_text::laws::canonical_is_printed();
    gabc_text::laws::findings_lie_within();
    gabc_score::laws::a_syllable_holds_its_parts();
    gabc_score::unit_laws::a_unit_gives_one_syllable();
    syllable_again();
}

/// Law: the pending syllable of a stage over a score, whatever the stage has read, is read again
/// from its own canonical text, by itself, as one syllable that says the same, without an error.
/// The same holds if it is said to be the first one of the score.
pub fn what_is_held_is_read_from_its_own_text()
    ensures { (s : ScoreStageState) → IsReachable s →
        IfSome (held_of s) (IsReadWhereItStands s.body.nabc_lines s.body.macros) }
{
    gabc_score::stage_laws::what_is_held_holds_a_unit();
    gabc_score::stage_laws::what_is_held_is_within_the_limits();
    a_syllable_is_read_from_its_own_text();
}

/// Law: if the inputs of a stage over a score just cease, whatever it has read, the syllable that
/// it emits then is written as one syllable: read by itself, its canonical text is one, whole with
/// its last character and not before.
pub fn what_breaks_off_is_one_syllable(stage: &ScoreStage)
    ensures { All (λ p. IsWrittenAsOne stage.now.body.nabc_lines stage.now.body.macros p.made)
        (syllables_in (concat_of (left_of stage.now []))) }
{
    gabc_body::by_kept_laws::a_text_is_one_syllable_by_kept();
    gabc_body::unit_laws::the_canonical_text_of_a_unit_is_a_text();
    gabc_score::stage_laws::a_stage_is_reachable(stage);
    gabc_score::stage_laws::what_breaks_off_is_held();
    gabc_score::stage_laws::what_is_held_holds_a_unit();
    gabc_score::stage_laws::what_is_held_is_in_utf8(stage);
    gabc_score::stage_laws::what_is_held_is_within_the_limits();
    what_is_held_is_read_from_its_own_text();
}

/// Law: the canonical text of the pending syllable of a stage over a score in the body can stand
/// for the syllable, whatever the stage has read: read by itself, in the context of the syllable,
/// this text is one syllable with the same canonical text there. No limit is passed with it, and no
/// error is found in it.
pub fn what_is_held_may_be_held_by_its_text(stage: &ScoreStage)
    requires runs { is_some (before_of stage.now) ≡ true }
    ensures { IfSome (held_of stage.now) (MayBeHeldByItsText stage.now.limits
        (before_with stage.now.body stage.now.before)) }
{
    gabc_body::unit_laws::the_canonical_text_of_a_unit_is_a_text();
    gabc_score::kept_laws::a_syllable_is_read_by_kept();
    gabc_score::stage_laws::a_stage_is_reachable(stage);
    gabc_score::stage_laws::what_is_held_holds_a_unit();
    gabc_score::stage_laws::what_is_held_is_in_utf8(stage);
    gabc_score::stage_laws::what_is_reported_is_within_the_limits();
    gabc_score::unit_laws::some_events_leave_spans_open();
    what_is_held_is_read_from_its_own_text();
}

/// Law: the canonical texts of the syllables of a score's units, with the LF that ends a file, are
/// a body of printed syllables, the first of which begins a word. Such a body is cut, without a
/// comment, into one unit for each syllable, in order, and into a last text that is no unit. Each
/// unit says the same without an error.
pub fn body_again()
    ensures first { (lines macros : ℕ) (xs : List Char) (cut : BodyCutting) →
        IsCut texts_by_definition lines macros xs cut →
        FirstTextBeginsWord (score_units cut.units) }
    ensures printed { (lines : ℕ) (units : List ScoreUnit) (syllables : List PlacedSyllable) →
        AreSyllablesOf lines units syllables → FirstTextBeginsWord units →
        (lines ≡ 0 → All (λ (u : ScoreUnit). length u.snippets ≤ 1) units) →
        ArePrinted lines units syllables }
    ensures read { (lines macros : ℕ) (at : Place) (facts : List SyllableFacts) →
        AreSyllables lines facts → FirstBeginsWord facts → IsBodyAgain lines macros at facts }
{
    gabc_text::laws::a_text_ends_once();
    gabc_text::laws::a_kept_text_is_read_again();
    syllable_again();
}

/// Law: a file of the canonical lines of a book and of printed syllables, the first of which begins
/// a word, is read under the same limits, or larger ones, as that book, and its body is cut into
/// units that say what was printed.
pub fn file_again()
    ensures { (limits larger : Limits) (t : List ℕ) (heads : Heads) (facts : List SyllableFacts)
        → AreNoLess limits larger → heads_of limits t ≡ Ok heads
        → AreSyllables (nabc_lines_of heads.book) facts
        → FirstBeginsWord facts → IsFileAgain larger heads.book facts }
{
    gabc_headers::laws::book_again();
    body_again();
}

/// Law: the canonical file of a score whose headers are whole, also of one that is stopped, is a
/// file of the canonical lines of its book and of the printed syllables of its units, the first of
/// which begins a word. If the input's characters are Unicode scalar values without CR and U+FEFF,
/// those of the file are, too.
pub fn score_is_printed()
    ensures { (limits : Limits) (ending : InputEnding) (t : List ℕ) (book : List (List ℕ × List ℕ))
        → length (encode_utf8_all t) < 2 ^ 63
        → (let score = emitted_score limits ending t in
        score.book ≡ Some book → IsPrintedScore t book score.syllables) }
{
    gabc_score::laws::a_body_has_one_cutting();
    gabc_score::laws::units_end_at_their_marks();
    gabc_score::laws::the_syllables_are_those_of_the_units();
    body_again();
}

/// Law: each syllable of a score whose headers are whole, also of one that is stopped, holds a unit
/// with notes. Only the last may have none.
pub fn syllables_hold_units()
    ensures each { (limits : Limits) (ending : InputEnding) (t : List ℕ)
        (book : List (List ℕ × List ℕ)) → length (encode_utf8_all t) < 2 ^ 63
        → (let score = emitted_score limits ending t in
        score.book ≡ Some book → (before after : List PlacedSyllable) (s : PlacedSyllable)
        → score.syllables ≡ before ++ s ∷ after
        → HoldsSomeUnit (nabc_lines_of book) s.made ⊎ Holds HoldsNoNotes t s.made) }
    ensures earlier { (limits : Limits) (ending : InputEnding) (t : List ℕ)
        (book : List (List ℕ × List ℕ)) → length (encode_utf8_all t) < 2 ^ 63
        → (let score = emitted_score limits ending t in
        score.book ≡ Some book → (before after : List PlacedSyllable) (s next : PlacedSyllable)
        → score.syllables ≡ before ++ s ∷ next ∷ after
        → HoldsSomeUnit (nabc_lines_of book) s.made) }
{
    gabc_score::laws::a_body_has_one_cutting();
    gabc_score::laws::units_end_at_their_marks();
    gabc_score::laws::the_syllables_are_those_of_the_units();
    gabc_score::laws::a_syllable_holds_its_parts();
    gabc_score::unit_laws::a_syllable_with_its_parts_holds_a_unit();
    body_again();
}

/// Law: the canonical file of a score whose headers are whole, also of one that is stopped, is read
/// again under the same limits or larger ones: it has no more bytes than the input may have, they
/// are decoded without a fault, the headers are the book, and the body is cut into one unit for
/// each syllable, in order, which says the same without an error. Its score has no fault, no error
/// and the same book, its syllables say the same, and its canonical file is the same.
pub fn score_again()
    ensures { (limits larger : Limits) (ending : InputEnding) (t : List ℕ)
        (book : List (List ℕ × List ℕ)) → AreNoLess limits larger
        → length (encode_utf8_all t) < 2 ^ 63 → IsText t
        → (let score = emitted_score limits ending t in
        score.book ≡ Some book → IsScoreAgain larger t book score.syllables) }
{
    gabc_places::laws::text_again();
    gabc_score::laws::units_end_at_their_marks();
    gabc_score::laws::the_syllables_are_those_of_the_units();
    gabc_score::laws::given_syllables_are_within_the_limits();
    gabc_score::laws::no_limit_is_passed_by_short_units();
    gabc_score::laws::a_score_warns_as_its_parts_do();
    gabc_score::laws::a_syllable_holds_its_parts();
    gabc_text::laws::canonical_is_printed();
    gabc_text::laws::findings_lie_within();
    gabc_text::laws::spans_stand_for_the_view();
    body_again();
    file_again();
    score_is_printed();
}

/// Law: the lines of a syllable in a dump have at most 64 bytes for each byte of its canonical
/// text, and 256, whatever is in force before it. The syllable has to have what a `Syllable` has by
/// its type: a kept text in UTF-8, and lines below 256.
pub fn a_dump_is_short()
    ensures { (number : ℕ) (outset : InForce) (s : PlacedSyllable) → number < 2 ^ 64 →
        IsUtf8 s.made.kept →
        length s.made.kept < 2 ^ 64 → All (λ (x : Snippet). x.line < 256) s.made.snippets →
        length (lines_of_syllable number outset s)
        ≤ 64 * length (canonical (starts_word s.position) s.made) + 256 }
{
    gabc_nabc::laws::names_are_short();
}

/// Law: a syllable without a note or a clef in GABC leaves the clef in force that is in force
/// before it.
pub fn where_nothing_sounds_the_clef_stays()
    ensures { (outset : InForce) (s : PlacedSyllable) → sounds s.made ≡ false →
        (passed outset (steps_of_syllable s)).clef ≡ outset.clef }
{
    gabc_neumes::laws::steps_are_passed_one_by_one();
}

/// Law: syllables that say the same have the same lines in a dump, if the spans of their snippets
/// begin and end between characters and the same is in force before both.
pub fn syllables_that_say_the_same_have_one_dump()
    ensures { (number : ℕ) (outset : InForce) (ss ts : List PlacedSyllable) →
        All (λ (s : PlacedSyllable). HasWholeSnippets s.made) ss →
        All (λ (s : PlacedSyllable). HasWholeSnippets s.made) ts →
        AreSame ss ts →
        lines_of_syllables number outset ss ≡ lines_of_syllables number outset ts }
{}

/// Law: two pending syllables that say the same have one dump, and leave the same in force if the
/// same is in force before them, whatever their position in their word and whatever their texts say
/// of the start of a word, if the spans of their snippets begin and end between characters.
pub fn held_syllables_that_say_the_same_have_one_dump()
    ensures { (first : Bool) (m n : UnplacedSyllable) (position : Position) → HasWholeSnippets m →
        HasWholeSnippets n → SayTheSame first (Some m) (Some n) →
        HaveOneDump (record { made = m; position = position }) (record { made = n; position = position }) }
{}
