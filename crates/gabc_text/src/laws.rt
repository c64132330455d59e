//! Laws of the definitions that contracts use. Each function is there for its clauses: all but two
//! do nothing, and these two drive a fresh stage.

ghost use Rattle.std.specs.Prelude.{◌≡◌, ℕ, ◌+◌, ◌<◌, List, [], ◌∷◌, ◌++◌, length, take, drop, true, false, cond, codes, Decides, None, encode_utf8_all, reverse, map};
ghost use Rattle.gabc_places.specs.StageLaw.{concat_of};
ghost use Rattle.std.specs.List.{All};
ghost use Rattle.gabc_places.specs.Findings.{AreInOrder, LieBetween};
ghost use Rattle.gabc_places.specs.Place.{place_past, saturating_next_place};
ghost use Rattle.gabc_places.specs.Code.{rank_of, severity_of};
ghost use Rattle.gabc_places.specs.declared.severity.Severity.TheVariants.{Warning};
ghost use Rattle.gabc_places.specs.declared.code.Code.TheVariants.{W9};
ghost use Rattle.gabc_places.specs.declared.code.Finding.{Finding};
ghost use Rattle.gabc_text.specs.TextStage.{fresh_stage};
ghost use Rattle.gabc_text.specs.witness.EventsLeft.{events_left, characters_left};
ghost use Rattle.gabc_text.specs.Events.{CountsFit, codes_of, events_of, events_by_point, after_tokens, no_events_each};
ghost use Rattle.gabc_text.specs.View.{kept, findings, codes_at_end, late_codes, early_codes, effect};
ghost use Rattle.gabc_text.specs.TextRead.{view_in};
ghost use Rattle.gabc_places.specs.Fate.{Comment, Ends};
ghost use Rattle.gabc_text.specs.KeptText.{view_of_kept, belongs, fate_in_text, kept_after, codes_with};
ghost use Rattle.gabc_text.specs.witness.TextByKept.{kept_past};
ghost use Rattle.gabc_text.specs.witness.EmittedByKept.{emitted, emitted_past, text_begins};
ghost use Rattle.gabc_text.specs.witness.FatesOfTokens.{fate_of_token};
ghost use Rattle.gabc_text.specs.Token.{Token, tokens};
ghost use Rattle.gabc_text.specs.declared.token.TokenKind.TheVariants as kind;
ghost use Rattle.gabc_text.specs.ViewFacts.{StandsForView, StandsFor, view_facts, has_error};
ghost use Rattle.gabc_text.specs.Printed.{print, text_tokens, translation_tokens, text_of_tokens};
ghost use Rattle.gabc_text.specs.PrintedView.{printed_view};
ghost use Rattle.gabc_text.specs.RegularText.{IsRegularText, is_gap};
ghost use Rattle.gabc_text.specs.Canonical.{span_bytes, canonical_text};
ghost use Rattle.gabc_places.specs.declared.place.Span.{Span};
ghost use Rattle.gabc_text.specs.BuiltText.{with_events, empty_text, text_built_at, kept_chars_in, kept_in, found_in};
ghost use Rattle.gabc_text.specs.Ends.{EndsOnce};
ghost use Rattle.std.specs.Prelude.{◌*◌, ◌≤◌, ◌==◌, is_some, option_map};
ghost use Rattle.gabc_places.specs.BoundedList.{Fits, extended_by};
ghost use Rattle.gabc_text.specs.witness.Keeps.{Keeps, OpensThere, Takes, is_open_after_text, begins_comment, ends_after_it, kept_with};
ghost use Rattle.gabc_text.specs.StageReports.{IsNext, opener_of, is_in_comment, cut_place};
ghost use Rattle.gabc_text.specs.witness.PiecesOwed.{pieces_owed};
ghost use Rattle.gabc_text.specs.witness.StageReports.{has_ended, next_of, moved_to, opened_at, told};
ghost use Rattle.gabc_text.specs.witness.SaidInFull.{IsSaidInFull};

use crate::stage::TextStage;
pub use crate::tags::tag_names_are_these;
use crate::text_event::{TextEnd, TextEvent};
use gabc_places::{Char, Place, Room, Stage, drive};

/// Law: the opener that a stage reports, of which the text `t` was read, is the place at which the
/// definition says that `t` is cut: that of its last token, if that is a tag, a raw part or a
/// translation without an end.
pub fn an_opener_is_where_a_text_is_cut()
    ensures { (at : Place) (t : List ℕ) (s : TextStage) (emitted : List (List TextEvent)) →
        CountsFit at t → has_ended s ≡ false → length emitted ≡ length t →
        ((more : List ℕ) → events_left (fresh_stage at) (t ++ more) ≡ emitted ++ events_left s more) →
        opener_of s ≡ cut_place (concat_of (drop (length t) (events_by_point at t))) }
{}

/// Law: a stage has an open comment exactly if a `(` would emit nothing: else the `(` ends the
/// text, or is kept.
pub fn a_comment_is_where_a_bracket_is_silent()
    ensures { (s : TextStage) → has_ended s ≡ false → Decides (is_in_comment s)
        ((later : List (List TextEvent)) × (events_left s (40 ∷ []) ≡ [] ∷ later)) }
{}

/// Law: a fresh machine emits what the definition says, if no count of the text reaches its last
/// value, and the characters that it does not read begin with the `(` that ends the text.
pub fn a_fresh_stage_emits_the_events_by_point()
    ensures events { (at : Place) (t : List ℕ) → CountsFit at t →
        events_left (fresh_stage at) t ≡ events_by_point at t }
    ensures left { (at : Place) (t : List ℕ) → CountsFit at t →
        characters_left (fresh_stage at) t ≡ after_tokens t }
{}

/// Law: a fresh stage, driven over the characters of a text, emits what the definition says of the
/// text.
pub fn a_fresh_stage_emits(at: Place, inputs: Vec<Char>, out: &mut Room<TextEvent>)
    requires room { Fits out.old (8 * (length inputs.items + 1)) }
    requires fits { CountsFit at (codes_of inputs.items) }
    ensures { out.new
        ≡ extended_by out.old (concat_of (events_by_point at (codes_of inputs.items))) }
{
    let mut stage = TextStage::new(at);
    drive(&mut stage, inputs, out);
}

/// Law: a text has a list of events for each character and one for the end. Joined, they are its
/// events in order. A kept character comes with itself, `W5` with its `[`, and the parts and the
/// other findings of a token with its last character; of a `$` that is no escape with the character
/// after it, or the end. `W3` and `W4` of the end, the centre and the end come with the `(` or the
/// end of the input.
pub fn events_by_point_are_the_events()
    ensures each { (at : Place) (t : List ℕ) → CountsFit at t →
        length (events_by_point at t) ≡ length t + 1 }
    ensures joined { (at : Place) (t : List ℕ) → concat_of (events_by_point at t) ≡ events_of at t }
{}

/// Law: the events of a text, gathered in order, are its kept text, its view, its findings and its
/// end.
pub fn events_build_the_text()
    ensures events { (at : Place) (t : List ℕ) →
        with_events empty_text (concat_of (events_by_point at t)) ≡ text_built_at at t }
    ensures kept { (at : Place) (t : List ℕ) → kept_in (concat_of (events_by_point at t)) ≡ kept t }
{}

/// Law: the findings of a text are sorted by their places, those of one place by their codes, and
/// none comes twice.
pub fn findings_in_order()
    ensures { (at : Place) (t : List ℕ) → AreInOrder (findings at t) }
{}

/// Law: a machine emits a list of events for each character and one for the end. Its events for
/// some characters do not depend on those that follow them.
pub fn events_need_nothing_after()
    ensures each { (s : TextStage) (t : List ℕ) → length (events_left s t) ≡ length t + 1 }
    ensures prefix { (s : TextStage) (t u v : List ℕ) →
        take (length t) (events_left s (t ++ u)) ≡ take (length t) (events_left s (t ++ v)) }
{}

/// Law: if the `(` after a text ends it, then it does so whatever follows, and nothing more is
/// emitted.
pub fn nothing_after_the_notes_begin()
    ensures left { (s : TextStage) (t u v : List ℕ) → characters_left s (t ++ 40 ∷ u) ≡ 40 ∷ u →
        characters_left s (t ++ 40 ∷ v) ≡ 40 ∷ v }
    ensures events { (s : TextStage) (t u v : List ℕ) → characters_left s (t ++ 40 ∷ u) ≡ 40 ∷ u →
        events_left s (t ++ 40 ∷ v) ≡ take (length t + 1) (events_left s (t ++ 40 ∷ u))
        ++ ([] ∷ no_events_each v) }
{}

/// Law: the spans of a text's view have the parts that the view says, and its centre lies among its
/// pieces. The bytes of a span of a part of a text are those of this part.
pub fn spans_stand_for_the_view()
    ensures starts { (t : List ℕ) → (view_in t).word_start ≡ (view_facts t).word_start }
    ensures centre { (t : List ℕ) → (view_in t).centre ≡ (view_facts t).centre }
    ensures view { (t : List ℕ) → StandsForView (kept t) (view_in t) t }
    ensures bytes { (text : List ℕ) (span : Span) (part : List ℕ) → StandsFor text span part →
        span_bytes (encode_utf8_all text) span ≡ encode_utf8_all part }
{}

/// Law: the canonical text of a text's view is the printed form of the view's facts, but for the
/// blank before a word and the translation.
pub fn canonical_is_printed()
    ensures { (whole t : List ℕ) → StandsForView whole (view_in t) t →
        canonical_text (view_in t) (encode_utf8_all whole)
        ≡ encode_utf8_all (text_of_tokens (text_tokens (view_facts t))) }
{}

/// Law: the printed form of a view is that of its text's facts, whatever whole text the view's
/// spans count the bytes of: that of the text alone, or of a syllable. Before a `(`, and whatever
/// follows, it is read again as the same view: it ends at that `(`, says the same, and has no
/// error. All of it is kept, the LF before a word as a blank. The printed form of the view that is
/// read again is the same.
pub fn view_again()
    ensures printed { (whole t : List ℕ) → StandsForView whole (view_in t) t →
        printed_view (view_in t) (encode_utf8_all whole) ≡ encode_utf8_all (print (view_facts t)) }
    ensures facts { (t rest : List ℕ) →
        view_facts (print (view_facts t) ++ 40 ∷ rest) ≡ view_facts t }
    ensures errors { (at : Place) (t rest : List ℕ) →
        has_error (findings at (print (view_facts t) ++ 40 ∷ rest)) ≡ false }
    ensures ends { (t rest : List ℕ) →
        after_tokens (print (view_facts t) ++ 40 ∷ rest) ≡ 40 ∷ rest }
    ensures kept { (t rest : List ℕ) →
        kept (print (view_facts t) ++ 40 ∷ rest) ≡ cond (view_facts t).word_start (codes " ") []
        ++ text_of_tokens (text_tokens (view_facts t)
        ++ translation_tokens (view_facts t).translation) }
    ensures same { (whole other t rest : List ℕ) → StandsForView whole (view_in t) t →
        let again = print (view_facts t) ++ 40 ∷ rest in
        StandsForView other (view_in again) again →
        printed_view (view_in again) (encode_utf8_all other)
        ≡ printed_view (view_in t) (encode_utf8_all whole) }
{}

/// Law: a regular text says before a `(` what it says alone, whatever follows: it ends at that
/// `(`, all of it is kept, and nothing is found in it, whatever place it begins at. What is printed
/// of its view is the text itself, whatever whole text the spans count the bytes of. So is its
/// canonical text, if it has no translation.
pub fn a_regular_text_is_printed_as_it_stands()
    ensures says { (t rest : List ℕ) → IsRegularText t →
        view_facts (t ++ 40 ∷ rest) ≡ view_facts t }
    ensures found { (at : Place) (t rest : List ℕ) → IsRegularText t →
        findings at (t ++ 40 ∷ rest) ≡ [] }
    ensures ends { (t rest : List ℕ) → IsRegularText t →
        after_tokens (t ++ 40 ∷ rest) ≡ 40 ∷ rest }
    ensures kept { (t rest : List ℕ) → IsRegularText t → kept (t ++ 40 ∷ rest) ≡ t }
    ensures printed { (whole t rest : List ℕ) → IsRegularText t →
        let all = t ++ 40 ∷ rest in StandsForView whole (view_in all) all →
        printed_view (view_in all) (encode_utf8_all whole) ≡ encode_utf8_all t }
    ensures canonical { (whole t rest : List ℕ) → IsRegularText t →
        (view_facts t).translation ≡ None →
        let all = t ++ 40 ∷ rest in StandsForView whole (view_in all) all →
        canonical_text (view_in all) (encode_utf8_all whole) ≡ encode_utf8_all t }
{}

/// Law: blanks before a regular text, and comments among them that have ended, begin a word.
/// Nothing else that it says changes by them, it ends at the same `(`, nothing is found in it, and
/// they are kept as one U+0020, and printed as one LF.
pub fn blanks_before_a_regular_text_begin_a_word()
    ensures says { (b : ℕ) (gap t rest : List ℕ) → is_gap (b ∷ gap) ≡ true →
        IsRegularText t → view_facts (b ∷ gap ++ (t ++ 40 ∷ rest))
        ≡ record (view_facts t) { word_start = true } }
    ensures found { (at : Place) (b : ℕ) (gap t rest : List ℕ) →
        is_gap (b ∷ gap) ≡ true → IsRegularText t →
        findings at (b ∷ gap ++ (t ++ 40 ∷ rest)) ≡ [] }
    ensures ends { (b : ℕ) (gap t rest : List ℕ) → is_gap (b ∷ gap) ≡ true →
        IsRegularText t → after_tokens (b ∷ gap ++ (t ++ 40 ∷ rest)) ≡ 40 ∷ rest }
    ensures kept { (b : ℕ) (gap t rest : List ℕ) → is_gap (b ∷ gap) ≡ true →
        IsRegularText t → kept (b ∷ gap ++ (t ++ 40 ∷ rest)) ≡ 32 ∷ t }
    ensures printed { (whole : List ℕ) (b : ℕ) (gap t rest : List ℕ) →
        is_gap (b ∷ gap) ≡ true → IsRegularText t →
        let all = b ∷ gap ++ (t ++ 40 ∷ rest) in StandsForView whole (view_in all) all →
        printed_view (view_in all) (encode_utf8_all whole) ≡ encode_utf8_all (10 ∷ t) }
    ensures canonical { (whole : List ℕ) (b : ℕ) (gap t rest : List ℕ) →
        is_gap (b ∷ gap) ≡ true → IsRegularText t →
        (view_facts t).translation ≡ None →
        let all = b ∷ gap ++ (t ++ 40 ∷ rest) in StandsForView whole (view_in all) all →
        canonical_text (view_in all) (encode_utf8_all whole) ≡ encode_utf8_all t }
{}

/// Law: the kept text of a text is read again as itself, and says the same.
pub fn a_kept_text_is_read_again()
    ensures begins { (t : List ℕ) → (view_facts (10 ∷ t)).word_start ≡ true }
    ensures kept { (t : List ℕ) → kept (kept t) ≡ kept t }
    ensures facts { (t : List ℕ) → view_facts (kept t) ≡ view_facts t }
{}

/// Law: a text has the view of its kept text, in each span too.
pub fn a_text_says_what_is_kept()
    ensures { (t : List ℕ) → view_of_kept (kept t) ≡ view_in t }
{}

/// Law: the fate of a character that begins a token, and the findings of a tag, of the `[` of a
/// translation and of the end, follow from what is kept of the text before.
pub fn fates_in_text()
    ensures fate { (t : List ℕ) (c : ℕ) → let before = reverse (tokens (kept t)) in
        belongs before c ≡ false → fate_in_text before c ≡ fate_of_token (reverse (tokens t)) c }
    ensures tag { (t : List ℕ) (k : Token) → k.kind ≡ kind.Tag →
        codes_with (k ∷ reverse (tokens (kept t)))
        ≡ late_codes (reverse (tokens t)) k.kind (effect k) }
    ensures translation { (t : List ℕ) (k : Token) → k.kind ≡ kind.OpenTranslation → k.more ≡ [] →
        codes_with (k ∷ reverse (tokens (kept t))) ≡ early_codes (reverse (tokens t)) k.kind }
    ensures end { (t : List ℕ) →
        codes_at_end (reverse (tokens (kept t))) ≡ codes_at_end (reverse (tokens t)) }
{}

/// Law: an LF before a text makes it begin a word, and changes nothing else of its view.
pub fn a_line_feed_begins_a_word()
    ensures { (t : List ℕ) → view_facts (10 ∷ t) ≡ record (view_facts t) { word_start = true } }
{}

/// Law: what is emitted of a text through the character after a prefix of it, or through its end,
/// is found no earlier than the text begins and no later than that character. All that is found is
/// the text's findings, and each has a code below W9. They are warnings, if no error is among them.
pub fn findings_lie_within()
    ensures within { (at : Place) (prefix rest : List ℕ) →
        LieBetween at (place_past at prefix)
        (found_in (concat_of (take (length prefix + 1) (events_by_point at (prefix ++ rest))))) }
    ensures all { (at : Place) (t : List ℕ) →
        found_in (concat_of (events_by_point at t)) ≡ findings at t }
    ensures low { (at : Place) (t : List ℕ) →
        All (λ (f : Finding). rank_of f.code < rank_of W9) (findings at t) }
    ensures warnings { (at : Place) (t : List ℕ) → has_error (findings at t) ≡ false →
        All (λ (f : Finding). severity_of f.code ≡ Warning) (findings at t) }
{}

/// Law: a text's end is emitted once, as the last of what is emitted: with the `(` of its notes, or
/// with the end of the input.
pub fn a_text_ends_once()
    ensures { (at : Place) (t : List ℕ) → EndsOnce at t }
{}

/// Law: two stages emit the same of whatever follows, if they are the same but for the place of a
/// `$` or of a comment.
pub fn stages_that_report_the_same_agree(one: &TextStage, other: &TextStage)
    requires { told one.now ≡ told other.now }
    ensures { (t : List ℕ) → events_left one.now t ≡ events_left other.now t }
{}

/// Law: two stages that keep one text emit the same of whatever follows, if they report the same:
/// the place of the opener, whether a comment is open, and the place of the next character.
pub fn stages_after_one_text_agree()
    ensures { (one other : TextStage) (k : List ℕ) → Keeps one k → Keeps other k →
        opener_of one ≡ opener_of other → is_in_comment one ≡ is_in_comment other →
        next_of one ≡ next_of other →
        (t : List ℕ) → events_left one t ≡ events_left other t }
{}

/// Law: the text that a stage keeps decides whether the stage has an opener. A comment is open only
/// if a `%` begins one after this text, and there is no opener then.
pub fn what_is_open_follows_from_the_kept_text()
    ensures opener { (s : TextStage) (k : List ℕ) → Keeps s k →
        is_some (opener_of s) ≡ is_open_after_text k }
    ensures comment { (s : TextStage) (k : List ℕ) → Keeps s k →
        is_in_comment s ≡ true → begins_comment k ≡ true }
    ensures apart { (k : List ℕ) → begins_comment k ≡ true → is_open_after_text k ≡ false }
{}

/// Law: of a text that a stage keeps, each character is kept again after those before it. The `%`
/// of a comment is not kept, nor is the `(` that ends a text.
pub fn a_kept_character_is_kept_again()
    ensures characters { (s : TextStage) (a b : List ℕ) (c : ℕ) → Keeps s (a ++ c ∷ b) →
        kept_with a c ≡ c ∷ [] }
    ensures comments { (k : List ℕ) → begins_comment k ≡ true → kept_with k 37 ≡ [] }
    ensures ends { (k : List ℕ) → ends_after_it k ≡ true → kept_with k 40 ≡ [] }
{}

/// Law: of a text that a stage keeps all is kept. The fate of a character after it is what the
/// stage does with it: whether a `%` begins a comment, whether a `(` ends the text, and what is
/// kept of any character.
pub fn a_stage_follows_fates()
    ensures whole { (s : TextStage) (k : List ℕ) → Keeps s k → kept k ≡ k }
    ensures comment { (s : TextStage) (k : List ℕ) → Keeps s k →
        Decides (begins_comment k) (fate_in_text (reverse (tokens k)) 37 ≡ Comment) }
    ensures end { (s : TextStage) (k : List ℕ) → Keeps s k →
        Decides (ends_after_it k) (fate_in_text (reverse (tokens k)) 40 ≡ Ends) }
    ensures kept { (s : TextStage) (k : List ℕ) (c : ℕ) → Keeps s k →
        kept_with k c ≡ kept_after (reverse (tokens k)) c }
{}

/// Law: the kept text of a text is kept a character after the other: by the fate of each after what
/// is kept before it, and by whether a comment is open.
pub fn a_text_is_kept_by_fates()
    ensures { (t : List ℕ) → kept t ≡ kept_past [] false t }
{}

/// Law: the events of each character of a text, but for the parts of its view, follow from what is
/// kept of the text before, whether a comment is open, and the place of the opener.
pub fn text_events_are_by_kept()
    ensures { (at : Place) (t : List ℕ) → CountsFit at t →
        map emitted (events_by_point at t) ≡ emitted_past text_begins at t }
{}

/// Law: a stage that has not ended takes each character: it emits some events, and from then on
/// what follows them. The text that it keeps, and whether a comment is open, decide whether the
/// character ends the text, what is kept of it and said with it, and whether a comment is open
/// then. An opener is as it was, or is this character. No more than one character is kept, and none
/// where a comment is open then; a `%` that is not kept opens one. A fresh stage keeps nothing yet,
/// and one that has ended keeps no text.
pub fn a_stage_takes_each_character()
    ensures fresh { (at : Place) → Keeps (fresh_stage at) [] }
    ensures takes { (s : TextStage) (c : ℕ) → has_ended s ≡ false → Takes s c }
{}

/// Law: to move a stage leaves its opener at the same place, and its comment open, if one is. To
/// set the place of an opener opens and ends nothing.
pub fn what_is_open_stays_open_elsewhere()
    ensures opener { (s : TextStage) (at : Place) → opener_of (moved_to at s) ≡ opener_of s }
    ensures comment { (s : TextStage) (at : Place) →
        is_in_comment (moved_to at s) ≡ is_in_comment s }
    ensures opened { (s : TextStage) (at : Place) →
        opener_of (opened_at at s) ≡ option_map (λ _. at) (opener_of s) }
    ensures comment_opened { (s : TextStage) (at : Place) →
        is_in_comment (opened_at at s) ≡ is_in_comment s }
{}

/// Law: the place of the next character of a stage is the one that it reports: of a fresh one the
/// place where the text begins, and of one that was moved the place to which it was.
pub fn the_next_character_stands_where_it_is_reported()
    ensures stands { (s : TextStage) → IsNext s (next_of s) }
    ensures fresh { (at : Place) → next_of (fresh_stage at) ≡ at }
    ensures moved { (s : TextStage) (at : Place) → next_of (moved_to at s) ≡ at }
    ensures there { (s : TextStage) (at : Place) → IsNext (moved_to at s) at }
{}

/// Law: a fresh stage has not ended, and to move a stage does not end it. One that has ended emits
/// nothing, whatever follows.
pub fn a_stage_that_has_ended_emits_nothing()
    ensures fresh { (at : Place) → has_ended (fresh_stage at) ≡ false }
    ensures moved { (s : TextStage) (at : Place) → has_ended (moved_to at s) ≡ has_ended s }
    ensures silent { (s : TextStage) (t : List ℕ) → has_ended s ≡ true →
        concat_of (events_left s t) ≡ [] }
{}

/// Law: a fresh stage reports no opener and no open comment.
pub fn a_fresh_stage_reports_nothing_open()
    ensures opener { (at : Place) → opener_of (fresh_stage at) ≡ None }
    ensures comment { (at : Place) → is_in_comment (fresh_stage at) ≡ false }
{}

/// Law: a fresh stage owes no piece, and to move a stage changes nothing of what it owes.
pub fn a_fresh_stage_owes_no_piece()
    ensures fresh { (at : Place) → pieces_owed (fresh_stage at) ≡ 0 }
    ensures moved { (s : TextStage) (at : Place) → pieces_owed (moved_to at s) ≡ pieces_owed s }
{}

/// Law: if something is kept of a character that follows at once, the stage has one place for the
/// next character, and no other.
pub fn the_next_character_stands_at_one_place()
    ensures { (s : TextStage) (p q : Place) (c : ℕ) (x : Char) (xs : List Char) →
        kept_chars_in (concat_of (take 1 (events_left s (c ∷ [])))) ≡ x ∷ xs →
        IsNext s p → IsNext s q → p ≡ q }
{}

/// Law: the opener of a stage may be at any place, and the stage keeps the same text.
pub fn an_opener_may_be_anywhere()
    ensures { (s : TextStage) (k : List ℕ) (at : Place) → Keeps s k →
        is_some (opener_of s) ≡ true → OpensThere s k at }
{}

/// Law: what was said of a text that a stage keeps, and that a `(` after it ends, is all that is
/// said of it before this `(`, whatever follows: its kept text is the text, and its view is
/// the one that was built.
pub fn a_kept_text_is_said_in_full()
    ensures { (s : TextStage) (k rest : List ℕ) → Keeps s k → ends_after_it k ≡ true →
        CountsFit (record { line = 0; column = 0 }) (k ++ 40 ∷ rest) → IsSaidInFull k rest }
{}

/// Law: a stage in a comment that has kept nothing passes over the comment, whatever the place of
/// the next character is set to. The LF after it is the first character of a text that begins
/// there.
pub fn a_comment_before_a_text_counts_for_nothing()
    ensures on { (s : TextStage) (c : ℕ) (t : List ℕ) → Keeps s [] → is_in_comment s ≡ true →
        (c == 10) ≡ false → events_left s (c ∷ t)
        ≡ [] ∷ events_left (moved_to (saturating_next_place (next_of s) c) s) t }
    ensures stays { (s : TextStage) (place : Place) → Keeps s [] → Keeps (moved_to place s) [] }
    ensures text { (s : TextStage) (t : List ℕ) → Keeps s [] → is_in_comment s ≡ true →
        events_left s (10 ∷ t) ≡ events_left (fresh_stage (next_of s)) (10 ∷ t) }
    ensures end { (s : TextStage) → Keeps s [] → is_in_comment s ≡ true →
        events_left s [] ≡ (TextEvent.Ended TextEnd.Finished ∷ []) ∷ [] }
{}

/// Returns a stage that is restored from the text `kept` that `stage` keeps and from its reports: a
/// fresh stage reads this text again, then a `%` if a comment is open, and is told the places of
/// the opener and of the next character. From then on it emits what `stage` emits. `room` is empty,
/// and has room for 8 events.
pub fn a_kept_text_gives_the_stage_back(
    stage: &TextStage,
    kept: &[char],
    room: &mut Room<TextEvent>,
) -> TextStage
    requires keeps { Keeps stage.now kept.now }
    requires room { room.old ≡ record { items = []; limit = 8 } }
    ensures keeps { Keeps result kept.now }
    ensures opener { opener_of result ≡ opener_of stage.now }
    ensures comment { is_in_comment result ≡ is_in_comment stage.now }
    ensures next { next_of result ≡ next_of stage.now }
    ensures events { (t : List ℕ) → events_left result t ≡ events_left stage.now t }
{
    let place = stage.opener().unwrap_or(Place::START);
    let mut again = TextStage::new(place);
    for c in kept {
        again.push(Char { c: *c, place }, room);
        room.clear();
    }
    if stage.in_comment() {
        again.push(Char { c: '%', place }, room);
        room.clear();
    }
    again.open_at(place);
    again.go_to(stage.next());
    again
}
