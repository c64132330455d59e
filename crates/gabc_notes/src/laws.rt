//! Laws of the definitions that contracts use. Each function is there for its clauses: all but one
//! do nothing, and that one drives a fresh stage.

ghost use Rattle.std.specs.Prelude.{◌≡◌, ◌↔◌, ◌≤◌, ◌+◌, ◌*◌, ℕ, List, [], ◌∷◌, ◌++◌, Bool, true, false, not, ◌&&◌, ◌==◌, length, take, drop, map, sum_by, codes, Some, is_some, Decides};
ghost use Rattle.std.specs.Char.{len_utf8};
ghost use Rattle.std.specs.Str.{IsUtf8, chars};
ghost use Rattle.gabc_places.specs.declared.place.Char.{Char};
ghost use Rattle.gabc_places.specs.declared.place.Place.{Place};
ghost use Rattle.gabc_places.specs.Findings.{AreInOrder, LieBetween};
ghost use Rattle.gabc_places.specs.BoundedList.{Fits, extended_by};
ghost use Rattle.gabc_places.specs.StageLaw.{concat_of};
ghost use Rattle.gabc_patterns.specs.LongestItems.{IsReading, IsItem, OneKind, IsSnippet, IsViable};
ghost use Rattle.gabc_patterns.specs.Kept.{Keeps as KeepsOf, Trims};
ghost use Rattle.gabc_patterns.specs.Reads.{items_by};
ghost use Rattle.gabc_notes.specs.Table.{gabc};
ghost use Rattle.gabc_notes.specs.Items.{IsKept, AreItemsOf, MakeUp, items_of};
ghost use Rattle.gabc_notes.specs.Events.{ItemText, in_raw, Point, outside_comments, with_comments, ends_in_comment, is_comment, is_end, is_over, is_fused, kept, bytes_of, macro_in, events_at, cut_events, note_events};
ghost use Rattle.gabc_notes.specs.FirstNoteOrClef.{first_note_or_clef};
ghost use Rattle.gabc_notes.specs.FirstSound.{first_sound, is_note};
ghost use Rattle.gabc_notes.specs.KeptNotes.{is_snippet, is_viable, in_raw as in_raw_by_items, is_fused as is_fused_by_items, items_back, fate_in_notes};
ghost use Rattle.gabc_notes.specs.SnippetRead.{kept_of, kept_chars_of, kept_chars_in, findings_of, ends_of, stop_after, kept_by, end_by, IsComputed};
ghost use Rattle.gabc_notes.specs.NotesRead.{AreKeptChars, IsSnippetRead};
ghost use Rattle.gabc_notes.specs.NotesEmitted.{AreNoteEvents};
ghost use Rattle.gabc_notes.specs.declared.snippet_read.SnippetRead.{SnippetRead};
ghost use Rattle.gabc_places.specs.Place.{place_past, placed_characters_from};
ghost use Rattle.gabc_notes.specs.Ends.{IsMarkOf, EndAtMost, AreCutAtMost};
ghost use Rattle.gabc_notes.specs.Raw.{IsOpen, InComment, IsOpenedAt};
ghost use Rattle.gabc_notes.specs.ReadAgain.{IsReadAgain};
ghost use Rattle.gabc_notes.specs.declared.item.Item.{Item};
ghost use Rattle.gabc_notes.specs.declared.item.ItemKind.{ItemKind};
ghost use Rattle.gabc_notes.specs.declared.stage.NoteEnd.{NoteEnd};
ghost use Rattle.gabc_notes.specs.declared.stage.NoteEvent.{NoteEvent};
ghost use Rattle.gabc_notes.specs.witness.ItemMachine.{events_left};
ghost use Rattle.gabc_notes.specs.witness.Keeps.{Begins, IsCutAtOpener, Keeps, OpensThere, Takes, set_down, OpensAt, IsKeptAgain};
ghost use Rattle.gabc_notes.specs.witness.NotesByKept.{kept_by as kept_by_fate, opens, ends, events_past};
ghost use Rattle.gabc_notes.specs.StageReports.{opener_of, comment_of, told};

use crate::stage::{NoteEvent, NoteStage};
use gabc_places::{Char, Room, drive};

/// Law: a fresh stage, driven over all characters and then ended, emits the events of the
/// definition.
pub fn a_fresh_stage_emits(split: bool, macros: u16, inputs: Vec<Char>, out: &mut Room<NoteEvent>)
    requires { Fits out.old (3 * (length inputs.items + 1)) }
    ensures { out.new ≡ extended_by out.old (concat_of (note_events split macros inputs.items)) }
{
    let mut stage = NoteStage::new(split, macros);
    drive(&mut stage, inputs, out);
}

/// Law: the characters that a stage emits as kept, without their places, are the kept text.
pub fn kept_characters_are_the_kept_text()
    ensures { (events : List NoteEvent) →
        map (λ x. x.c) (kept_chars_of events) ≡ kept_of events }
{}

/// Law: no row of the table spells the empty text: what the laws of tables in `gabc_patterns` ask
/// of a table.
pub fn no_item_is_empty()
    ensures { ¬ IsItem gabc [] }
{}

/// Law: rows of the table that spell one text are of one kind.
pub fn an_item_has_one_kind()
    ensures { OneKind gabc }
{}

/// Law: a text has one reading at most, and one list of items.
pub fn items_are_one()
    ensures readings { (is js : List (ItemKind × List ℕ)) (t : List ℕ) → IsReading gabc is t →
        IsReading gabc js t → is ≡ js }
    ensures items { (bytes : List ℕ) (is js : List Item) → AreItemsOf bytes is →
        AreItemsOf bytes js → is ≡ js }
{}

/// Law: the function `items_of` gives the items of any text. Those of a snippet make it up.
pub fn items_are_computed()
    ensures items { (kept : List ℕ) → AreItemsOf kept (items_of kept) }
    ensures snippet { (kept : List ℕ) → IsUtf8 kept → IsKept kept →
        MakeUp kept (items_of kept) }
{}

/// Law: the kept text goes on with each character outside comments that leaves it viable, and at a
/// mark the longest prefix of it that is a snippet is what stays.
pub fn what_is_kept_goes_on()
    ensures keep { (back : List Char) →
        KeepsOf gabc [] (outside_comments (with_comments back)) (kept back) }
    ensures trim { (mark : ℕ) (back : List Char) →
        Trims gabc (kept back) (kept_by (Some mark) back) }
{}

/// Law: the reading of a text by relations, over the whole of it, is the one that is computed a
/// character at a time.
pub fn what_is_read_is_computed()
    ensures { (at : Place) (split : Bool) (macros : ℕ) (t : List ℕ) (read : SnippetRead) →
        IsSnippetRead at split macros t read ↔ IsComputed at split macros t read }
{}

/// Law: the events of characters by relations, over the whole of the text before each, are those
/// that are computed a character at a time.
pub fn what_is_emitted_is_computed()
    ensures { (split : Bool) (macros : ℕ) (xs : List Char) (lists : List (List NoteEvent)) →
        AreNoteEvents split macros xs lists ↔ lists ≡ note_events split macros xs }
{}

/// Law: the characters of a kept text, by relations, are those that are computed.
pub fn kept_characters_are_computed()
    ensures { (at : Place) (split : Bool) (macros : ℕ) (t : List ℕ) (cs : List Char) →
        AreKeptChars at split macros t cs →
        cs ≡ kept_chars_in split macros (placed_characters_from at t) }
{}

/// Law: a viable text is a snippet with at most one character more.
pub fn one_character_completes()
    ensures { (t : List ℕ) → IsViable gabc t →
        (more : List ℕ) × (length more ≤ 1) × IsSnippet gabc (t ++ more) }
{}

/// Law: a text lies inside raw exactly if it is no snippet, but is one with a `]` more.
pub fn inside_raw_is_decided()
    ensures { (t : List ℕ) →
        Decides (in_raw t) (IsSnippet gabc (t ++ codes "]") × (¬ IsSnippet gabc t)) }
{}

/// Law: a text lies inside raw exactly if it is a snippet whose last item is no `@`, a `[`, and
/// characters other than `]`.
pub fn inside_raw_is_an_open_bracket()
    ensures { (t : List ℕ) → Decides (in_raw t) (IsOpen t) }
{}

/// Law: inside raw, the opener is the place of the `[` from which on the kept text lies inside raw.
pub fn the_opener_is_the_bracket()
    ensures { (back : List Char) → in_raw (kept back) ≡ true → IsOpenedAt back }
{}

/// Law: a character lies in a comment exactly if from a `%` outside raw up to it there is no LF.
pub fn a_comment_begins_with_a_percent()
    ensures { (back : List Char) (x : Char) →
        Decides (is_comment (record { back = back; here = x })) (InComment (x ∷ back)) }
{}

/// Law: the characters that are emitted as kept are the kept text of the characters before the end
/// of the snippet.
pub fn the_kept_text_is_emitted()
    ensures { (split : Bool) (macros : ℕ) (xs : List Char) →
        kept_of (concat_of (note_events split macros xs)) ≡ kept (stop_after split [] xs).back }
{}

/// Law: one end is emitted, with the bytes of the kept text, without an unfinished end unless the
/// snippet is cut: at most those of the characters that are emitted as kept.
pub fn one_end_is_emitted()
    ensures end { (split : Bool) (macros : ℕ) (xs : List Char) → (let s = stop_after split [] xs in
        ends_of (concat_of (note_events split macros xs))
        ≡ (end_by s.mark s.back, bytes_of (kept_by s.mark s.back)) ∷ []) }
    ensures bytes { (split : Bool) (macros : ℕ) (xs : List Char) →
        (let s = stop_after split [] xs in
        bytes_of (kept_by s.mark s.back)
        ≤ sum_by len_utf8 (kept_of (concat_of (note_events split macros xs)))) }
{}

/// Law: the events of characters do not depend on those that follow them, and after the end nothing
/// is emitted.
pub fn what_follows_emits_nothing()
    ensures end { (split : Bool) (macros : ℕ) (p : Point) → is_over split p.back ≡ true →
        events_at split macros p ≡ [] }
    ensures prefix { (split : Bool) (macros : ℕ) (xs ys zs : List Char) →
        take (length xs) (note_events split macros (xs ++ ys))
        ≡ take (length xs) (note_events split macros (xs ++ zs)) }
{}

/// Law: the place of each finding of a text is strictly before that of the next.
pub fn findings_are_in_order()
    ensures { (at : Place) (split : Bool) (macros : ℕ) (t : List ℕ) →
        AreInOrder (findings_of (concat_of (note_events split macros (placed_characters_from at t)))) }
{}

/// Law: the findings of a text that are emitted through the character after a prefix are at the
/// text's place or later, and no later than that character.
pub fn findings_lie_within()
    ensures { (at : Place) (split : Bool) (macros : ℕ) (prefix rest : List ℕ) →
        let events = concat_of (take (length prefix + 1)
        (note_events split macros (placed_characters_from at (prefix ++ rest)))) in
        LieBetween at (place_past at prefix) (findings_of events) }
{}

/// Law: at most one end is emitted at a character, after all other events: at a `)`, or if notes
/// are split at a `|`. At the end of the characters nothing is emitted but that they were cut.
pub fn a_snippet_ends_at_its_mark()
    ensures mark { (split : Bool) (macros : ℕ) (p : Point) →
        EndAtMost split p.here.c (events_at split macros p) }
    ensures last { (split : Bool) (back : List Char) → AreCutAtMost (cut_events split back) }
{}

/// Law: a snippet of the table before its mark, whatever follows, is read again as exactly
/// that snippet: it ends at that mark, each character is kept at its place, and no error is found.
/// The kept text of each snippet that has ended is one.
pub fn kept_again()
    ensures snippet { (split : Bool) (macros : ℕ) (at : Place) (how : NoteEnd) (t rest : List ℕ)
        (mark : ℕ) → IsSnippet gabc t → IsMarkOf split how mark →
        IsReadAgain split macros at t mark rest }
    ensures kept { (mark : ℕ) (back : List Char) → IsSnippet gabc (kept_by (Some mark) back) }
{}

/// Law: two stages emit the same of whatever follows, if they report the same, but for a place
/// outside raw.
pub fn stages_that_report_the_same_agree(one: &NoteStage, other: &NoteStage)
    requires { told one.now ≡ told other.now }
    ensures { (xs : List Char) → events_left one.now xs ≡ events_left other.now xs }
{}

/// Law: two stages after one kept text that report the same emit the same of whatever follows: the
/// place of the bracket that is open, and whether a comment is open.
pub fn stages_after_one_text_agree()
    ensures { (split : Bool) (macros : ℕ) (one other : NoteStage) (k : List ℕ) →
        Keeps split macros one k → Keeps split macros other k →
        opener_of one ≡ opener_of other → comment_of one ≡ comment_of other →
        (xs : List Char) → events_left one xs ≡ events_left other xs }
{}

/// Law: a stage that keeps a text reports an opener exactly if that text lies inside raw, and there
/// no comment is open.
pub fn an_opener_is_reported_inside_raw()
    ensures opener { (split : Bool) (macros : ℕ) (s : NoteStage) (k : List ℕ) →
        Keeps split macros s k → is_some (opener_of s) ≡ in_raw k }
    ensures comment { (split : Bool) (macros : ℕ) (s : NoteStage) (k : List ℕ) →
        Keeps split macros s k → comment_of s ≡ true → in_raw k ≡ false }
{}

/// Law: of a text that a stage keeps, each character is kept again after those before it, and none
/// of them ends the snippet.
pub fn a_kept_character_is_kept_again()
    ensures { (split : Bool) (macros : ℕ) (s : NoteStage) (k more : List ℕ) (c : ℕ) →
        Keeps split macros s (k ++ c ∷ more) → IsKeptAgain split k c }
{}

/// Law: a stage that has not ended takes each character: it emits some events, and from then on
/// what follows them. The kept text, and what it reports of an opener and a comment, decide whether
/// the character is kept, begins a comment or ends the snippet, how many bytes the end reports, and
/// what the stage reports then. A `%` that is not kept opens a comment. Where the characters end,
/// the stage is cut at its opener. A fresh one keeps nothing yet.
pub fn a_stage_takes_each_character()
    ensures fresh { (split : Bool) (macros : ℕ) → Begins split macros }
    ensures takes { (s : NoteStage) (x : Char) → s.ended ≡ false → Takes s x }
    ensures cut { (s : NoteStage) → s.ended ≡ false → IsCutAtOpener s }
{}

/// Law: the open bracket of a stage may be at any place, and the stage keeps the same text.
pub fn an_opener_may_be_anywhere()
    ensures { (split : Bool) (macros : ℕ) (s : NoteStage) (k : List ℕ) (at : Place) →
        Keeps split macros s k → is_some (opener_of s) ≡ true →
        OpensThere split macros s k at }
{}

/// Law: a kept text gives the stage back. After it, each character placed at the bracket that is
/// open, and a `%` where a comment is open, a fresh stage emits the same of whatever follows.
pub fn a_kept_text_gives_the_stage_back(stage: &NoteStage)
    ensures { (split : Bool) (macros : ℕ) (k : List ℕ) (at : Place) →
        Keeps split macros stage.now k → OpensAt at stage.now →
        (xs : List Char) → let down = set_down at k (comment_of stage.now) in
        drop (length down) (note_events split macros (down ++ xs)) ≡ events_left stage.now xs }
{}

/// Law: the tests by longest items decide which texts are snippets and which are viable, and say
/// which lie inside raw.
pub fn notes_are_decided()
    ensures snippet { (t : List ℕ) → Decides (is_snippet t) (IsSnippet gabc t) }
    ensures viable { (t : List ℕ) → Decides (is_viable t) (IsViable gabc t) }
    ensures raw { (t : List ℕ) → in_raw_by_items t ≡ in_raw t }
{}

/// Law: outside comments, the fate of a character after what is kept says whether it ends the
/// snippet, whether it begins a comment, and what is kept then.
pub fn fates_in_notes()
    ensures ends { (split : Bool) (back : List Char) (x : Char) →
        (ends_in_comment (with_comments back) && not (x.c == 10)) ≡ false →
        is_end split (record { back = back; here = x })
        ≡ ends (fate_in_notes split (kept back) x.c) }
    ensures opens { (split : Bool) (back : List Char) (x : Char) →
        (ends_in_comment (with_comments back) && not (x.c == 10)) ≡ false →
        is_comment (record { back = back; here = x })
        ≡ opens (fate_in_notes split (kept back) x.c) }
    ensures kept { (split : Bool) (back : List Char) (x : Char) →
        (ends_in_comment (with_comments back) && not (x.c == 10)) ≡ false →
        kept (x ∷ back) ≡ kept_by_fate (fate_in_notes split (kept back) x.c) (kept back) x.c }
{}

/// Law: whether an `@[` is open is said by the items of what is kept.
pub fn fusion_is_by_kept()
    ensures { (back : List Char) → is_fused back ≡ is_fused_by_items (items_back (kept back)) }
{}

/// Law: all that is emitted of a snippet is said by what is kept before each character, whether a
/// comment is open, and the place of the bracket that is open.
pub fn note_events_are_by_kept()
    ensures { (split : Bool) (macros : ℕ) (xs : List Char) →
        note_events split macros xs
        ≡ events_past split macros [] (record { line = 0; column = 0 }) false xs }
{}

/// Law: an item that uses a macro ends inside raw: with the `]` of a bracket that is open before
/// it.
pub fn a_macro_ends_inside_raw()
    ensures { (front : List ItemText) (i : ItemText) (t : List ℕ) (c digit : ℕ) →
        IsReading gabc (front ++ i ∷ []) (t ++ c ∷ []) → macro_in i.1 ≡ Some digit →
        in_raw_by_items t ≡ true }
{}

/// Law: which comes first in a kept text, a note or a clef, is said by the items that make it up.
pub fn the_first_sound_is_by_kept()
    ensures { (bytes : List ℕ) →
        first_sound (items_by gabc (chars bytes)) ≡ is_note (first_note_or_clef (items_of bytes)) }
{}
