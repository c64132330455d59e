//! Laws of the definitions that contracts use. Each function is there for its clauses: all but one
//! do nothing, and that one drives a fresh stage.

ghost use Rattle.std.specs.Prelude.{◌≡◌, ◌≤◌, ◌+◌, ◌*◌, ℕ, List, [], ◌∷◌, ◌++◌, Bool, length, take, drop, map, true, false, Some, encode_utf8_all, IsTrue, ◌↔◌, Decides};
ghost use Rattle.gabc_places.specs.Findings.{AreInOrder, LieBetween};
ghost use Rattle.gabc_places.specs.BoundedList.{Fits, extended_by};
ghost use Rattle.gabc_places.specs.StageLaw.{concat_of};
ghost use Rattle.gabc_places.specs.declared.place.Place.{Place};
ghost use Rattle.gabc_places.specs.declared.place.Char.{Char};
ghost use Rattle.gabc_patterns.specs.Pattern.{Spells};
ghost use Rattle.gabc_patterns.specs.LongestItems.{IsReading, IsItem, OneKind, IsSnippet, IsViable};
ghost use Rattle.gabc_nabc.specs.Table.{nabc, code, descriptor};
ghost use Rattle.std.specs.Str.{IsUtf8};
ghost use Rattle.gabc_nabc.specs.Codes.{HasCodesOfGlyphs};
ghost use Rattle.gabc_nabc.specs.Names.{name_by};
ghost use Rattle.gabc_nabc.specs.declared.descriptor.Descriptor.{Descriptor};
ghost use Rattle.gabc_nabc.specs.Parts.{IsNabc, AreDescriptorsOf, MakeUp, AreWithin, parts_of};
ghost use Rattle.gabc_nabc.specs.Events.{bytes_in, in_comment, has_end, is_end, is_code, kept_of, nabc_events, events_at, nabc_events_after, cut_events};
ghost use Rattle.gabc_notes.specs.SnippetRead.{ends_of, findings_of, kept_of as kept_in};
ghost use Rattle.gabc_notes.specs.Ends.{IsMarkOf, EndAtMost, AreCutAtMost};
ghost use Rattle.gabc_notes.specs.declared.stage.NoteEnd.{NoteEnd};
ghost use Rattle.gabc_notes.specs.declared.stage.NoteEvent.{NoteEvent};
ghost use Rattle.gabc_places.specs.Place.{place_past, placed_characters_from};
ghost use Rattle.gabc_notes.specs.witness.Keeps.{set_down};
ghost use Rattle.gabc_nabc.specs.witness.DescriptorMachine.{events_left};
ghost use Rattle.gabc_nabc.specs.declared.stage.NabcStage.{NabcStage};
ghost use Rattle.gabc_nabc.specs.witness.Keeps.{comment_of, Begins, IsKeptAgain, Keeps, Takes};
ghost use Rattle.gabc_nabc.specs.KeptNabc.{is_snippet, is_viable, fate_in_nabc};
ghost use Rattle.gabc_notes.specs.witness.NotesByKept.{kept_by, opens, ends};
ghost use Rattle.gabc_nabc.specs.witness.NabcByKept.{events_past};
ghost use Rattle.gabc_nabc.specs.ReadAgain.{IsNabcReadAgain};
ghost use Rattle.gabc_nabc.specs.SnippetRead.{before_end, from_end, kept_before, kept_chars_in, end_before, AreAtMostOne, IsComputed};
ghost use Rattle.gabc_nabc.specs.NabcRead.{AreKeptChars, IsNabcRead};
ghost use Rattle.gabc_nabc.specs.NabcEmitted.{AreNabcEvents};
ghost use Rattle.gabc_notes.specs.declared.snippet_read.SnippetRead.{SnippetRead};

pub use crate::names::names_are_these;
use crate::stage::NabcStage;
use gabc_notes::NoteEvent;
use gabc_places::{Char, Room, drive};

/// Law: a fresh stage, driven over all characters and then ended, emits the events of the
/// definition.
pub fn a_fresh_stage_emits(inputs: Vec<Char>, out: &mut Room<NoteEvent>)
    requires { Fits out.old (3 * (length inputs.items + 1)) }
    ensures { out.new ≡ extended_by out.old (concat_of (nabc_events inputs.items)) }
{
    let mut stage = NabcStage::new();
    drive(&mut stage, inputs, out);
}

/// Law: no row of the table spells the empty text: what the laws of tables in `gabc_patterns` ask
/// of a table.
pub fn no_part_is_empty()
    ensures { ¬ IsItem nabc [] }
{}

/// Law: no text is spelled both as a space and as a descriptor.
pub fn a_part_has_one_kind()
    ensures { OneKind nabc }
{}

/// Law: a text has one reading at most, and one list of descriptors and spaces.
pub fn descriptors_are_one()
    ensures readings { (is js : List (Bool × List ℕ)) (t : List ℕ) → IsReading nabc is t →
        IsReading nabc js t → is ≡ js }
    ensures parts { (bytes : List ℕ) (ps qs : List Descriptor) → AreDescriptorsOf bytes ps →
        AreDescriptorsOf bytes qs → ps ≡ qs }
{}

/// Law: the function `parts_of` gives the parts of any text, which lie in it if it is UTF-8. Those
/// of an NABC snippet make it up.
pub fn parts_are_computed()
    ensures parts { (bytes : List ℕ) → AreDescriptorsOf bytes (parts_of bytes) }
    ensures snippet { (bytes : List ℕ) → IsUtf8 bytes → IsNabc bytes →
        MakeUp bytes (parts_of bytes) }
    ensures within { (bytes : List ℕ) → IsUtf8 bytes → AreWithin bytes (parts_of bytes) }
{}

/// Law: the reading of a text by relations, over the whole of it, is the one that is computed a
/// character at a time.
pub fn what_is_read_is_computed()
    ensures { (at : Place) (t : List ℕ) (read : SnippetRead) →
        IsNabcRead at t read ↔ IsComputed at t read }
{}

/// Law: the events of characters by relations, over the whole of the text before each, are those
/// that are computed a character at a time.
pub fn what_is_emitted_is_computed()
    ensures { (xs : List Char) (lists : List (List NoteEvent)) →
        AreNabcEvents xs lists ↔ lists ≡ nabc_events xs }
{}

/// Law: the characters of a kept text, by relations, are those that are computed.
pub fn kept_characters_are_computed()
    ensures { (at : Place) (t : List ℕ) (cs : List Char) →
        AreKeptChars at t cs → cs ≡ kept_chars_in at t }
{}

/// Law: a viable text is an NABC snippet with at most two characters more.
pub fn two_characters_complete()
    ensures { (t : List ℕ) → IsViable nabc t →
        (more : List ℕ) × (length more ≤ 2) × IsSnippet nabc (t ++ more) }
{}

/// Law: the two letters that W7 takes for a code are those that the table spells as one.
pub fn codes_are_two_letters()
    ensures { (a c : ℕ) → IsTrue (is_code a c) ↔ Spells code (a ∷ c ∷ []) }
{}

/// Law: the events of characters do not depend on those that follow them, and after the end nothing
/// is emitted.
pub fn what_follows_emits_nothing()
    ensures prefix { (xs ys zs : List Char) →
        take (length xs) (nabc_events (xs ++ ys)) ≡ take (length xs) (nabc_events (xs ++ zs)) }
    ensures end { (t : List ℕ) (xs : List Char) → has_end t ≡ true →
        concat_of (nabc_events_after t xs) ≡ [] }
{}

/// Law: the characters that are emitted as kept are what the table keeps of the text before the
/// snippet's end.
pub fn the_kept_text_is_emitted()
    ensures { (xs : List Char) →
        kept_in (concat_of (nabc_events xs)) ≡ kept_of (before_end (map (λ x. x.c) xs)) }
{}

/// Law: one end is emitted, with the bytes of the kept text, without an unfinished end unless the
/// snippet is cut: at most those of the characters that are emitted as kept.
pub fn one_end_is_emitted()
    ensures end { (xs : List Char) → (let t = map (λ x. x.c) xs in
        ends_of (concat_of (nabc_events xs))
        ≡ (end_before (from_end t), bytes_in (kept_before (before_end t) (from_end t))) ∷ []) }
    ensures bytes { (xs : List Char) → (let t = map (λ x. x.c) xs in
        bytes_in (kept_before (before_end t) (from_end t))
        ≤ length (encode_utf8_all (kept_in (concat_of (nabc_events xs))))) }
{}

/// Law: the events of a character have at most one finding, which is at its place.
pub fn one_finding_a_character()
    ensures { (t : List ℕ) (x : Char) → AreAtMostOne x.place (findings_of (events_at t x)) }
{}

/// Law: the findings of a text are in the order of their places, none twice.
pub fn findings_are_in_order()
    ensures { (at : Place) (t : List ℕ) →
        AreInOrder (findings_of (concat_of (nabc_events (placed_characters_from at t)))) }
{}

/// Law: the codes of a descriptor are the first two letters of its glyphs, in order.
pub fn codes_are_of_glyphs()
    ensures { (t : List ℕ) → Spells descriptor t → HasCodesOfGlyphs t }
{}

/// Law: each name of the table of names has at most 20 bytes.
pub fn names_are_short()
    ensures { (a c : ℕ) (name : List ℕ) → name_by a c ≡ Some name → length name ≤ 20 }
{}

/// Law: the findings of a text that are emitted through the character after a prefix are at the
/// text's place or later, and no later than that character.
pub fn findings_lie_within()
    ensures { (at : Place) (prefix rest : List ℕ) →
        let events = concat_of (take (length prefix + 1)
        (nabc_events (placed_characters_from at (prefix ++ rest)))) in
        LieBetween at (place_past at prefix) (findings_of events) }
{}

/// Law: at most one end is emitted at a character, after all other events: at a `)` or a `|`. At
/// the end of the characters nothing is emitted but that they were cut.
pub fn a_snippet_ends_at_its_mark()
    ensures mark { (t : List ℕ) (x : Char) → EndAtMost true x.c (events_at t x) }
    ensures last { (t : List ℕ) → AreCutAtMost (cut_events t) }
{}

/// Law: a snippet of the table before its mark, whatever follows, is read again as exactly
/// that snippet: it ends at that mark, each character is kept at its place, and no error is found.
/// The kept text of each snippet that has ended is one.
pub fn kept_again()
    ensures snippet { (at : Place) (how : NoteEnd) (t rest : List ℕ) (mark : ℕ) →
        IsSnippet nabc t → IsMarkOf true how mark → IsNabcReadAgain at t mark rest }
    ensures kept { (prefix : List ℕ) (mark : ℕ) (rest : List ℕ) →
        IsSnippet nabc (kept_before prefix (mark ∷ rest)) }
{}

/// Law: two stages after one kept text emit the same of whatever follows, if both report the same
/// of whether a comment is open.
pub fn stages_after_one_text_agree()
    ensures { (one other : NabcStage) (k : List ℕ) → Keeps one k → Keeps other k →
        comment_of one ≡ comment_of other →
        (xs : List Char) → events_left one xs ≡ events_left other xs }
{}

/// Law: a stage takes each character: it emits some events, and from then on what follows them. The
/// kept text, and whether a comment is open, decide whether the character is kept or ends the
/// snippet, how many bytes the end reports, and whether a comment is open then. A fresh stage keeps
/// nothing yet.
pub fn a_stage_takes_each_character()
    ensures fresh { Begins }
    ensures takes { (s : NabcStage) (x : Char) → Takes s x }
{}

/// Law: a kept text gives the stage back. A fresh stage keeps it again whole, and after it, and a
/// `%` where a comment is open, placed anywhere, it emits the same of whatever follows.
pub fn a_kept_text_gives_the_stage_back(stage: &NabcStage)
    ensures whole { (k more : List ℕ) (c : ℕ) →
        Keeps stage.now (k ++ c ∷ more) → IsKeptAgain k c }
    ensures back { (k : List ℕ) (at : Place) → Keeps stage.now k →
        (xs : List Char) → let down = set_down at k (comment_of stage.now) in
        drop (length down) (nabc_events (down ++ xs)) ≡ events_left stage.now xs }
{}

/// Law: the tests by longest items decide which texts are snippets and which are viable.
pub fn nabc_is_decided()
    ensures snippet { (t : List ℕ) → Decides (is_snippet t) (IsSnippet nabc t) }
    ensures viable { (t : List ℕ) → Decides (is_viable t) (IsViable nabc t) }
{}

/// Law: outside comments, the fate of a character after what is kept says whether it ends the
/// snippet, whether it begins a comment, and if it does not end the snippet, what is kept then.
pub fn fates_in_nabc()
    ensures ends { (t : List ℕ) (c : ℕ) → in_comment t ≡ false →
        is_end t c ≡ ends (fate_in_nabc (kept_of t) c) }
    ensures opens { (t : List ℕ) (c : ℕ) → in_comment t ≡ false →
        in_comment (t ++ c ∷ []) ≡ opens (fate_in_nabc (kept_of t) c) }
    ensures kept { (t : List ℕ) (c : ℕ) → in_comment t ≡ false → is_end t c ≡ false →
        kept_of (t ++ c ∷ []) ≡ kept_by (fate_in_nabc (kept_of t) c) (kept_of t) c }
{}

/// Law: all that is emitted of a snippet is said by what is kept before each character, and whether
/// a comment is open.
pub fn nabc_events_are_by_kept()
    ensures { (xs : List Char) → nabc_events xs ≡ events_past [] false xs }
{}
