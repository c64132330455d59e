//! Laws of a stage over a score. Each function's contract is a law. Its body drives a stage, gives
//! it one input, calls other laws, or does nothing.

ghost use Rattle.std.specs.Prelude.{◌≡◌, ◌==◌, ◌+◌, ◌*◌, ◌<◌, ◌≤◌, ◌^◌, ℕ, List, [], ◌∷◌, None, Some, true, false, length, map, is_some, option_to_list, encode_utf8_all, IfOk, IfSome, OnErr, OnOk, Ok};
ghost use Rattle.gabc_headers.specs.declared.head_event.HeadEvent.{HeadEvent};
ghost use Rattle.gabc_headers.specs.declared.head_event.HeadEvent.TheVariants.{Stop};
ghost use Rattle.std.specs.List.{All};
ghost use Rattle.std.specs.Str.{IsUtf8};
ghost use Rattle.gabc_headers.specs.witness.HeadEvents.{events_of_input, reading};
ghost use Rattle.gabc_places.specs.declared.code.Fault.{Fault};
ghost use Rattle.gabc_places.specs.declared.place.Char.{Char};
ghost use Rattle.gabc_places.specs.declared.limits.Limits.{Limits};
ghost use Rattle.gabc_places.specs.BoundedList.{Fits, extended_by};
ghost use Rattle.gabc_places.specs.declared.place.Place.{Place};
ghost use Rattle.gabc_places.specs.Findings.{IsUpTo};
ghost use Rattle.gabc_places.specs.Place.{placed_characters_from};
ghost use Rattle.gabc_places.specs.StageLaw.{concat_of};
ghost use Rattle.gabc_text.specs.Events.{CountsFit};
ghost use Rattle.gabc_text.specs.TextStage.{fresh_stage};
ghost use Rattle.gabc_score.specs.declared.body_stage.BodyPart.TheVariants.{Text};
ghost use Rattle.gabc_score.specs.witness.BodyStage.{BodyStageState, running_events_left, texts_by_stage};
ghost use Rattle.gabc_body.specs.declared.ending.InputEnding.{InputEnding};
ghost use Rattle.gabc_body.specs.Events.{texts_by_definition, text_from, events_from};
ghost use Rattle.gabc_body.specs.ScoreEvents.{HasNoEnd, ScoreOutput, fault_in, findings_in, has_end, head_events, outputs_of_text, score_outputs, syllables_in};
ghost use Rattle.gabc_score.specs.HeldAside.{HoldTheSame, GiveTheSame};
ghost use Rattle.gabc_score.specs.AreEquivalent.{AreEquivalent};
ghost use Rattle.gabc_body.specs.ReadAlone.{IsReadAsSyllable};
ghost use Rattle.gabc_score.specs.HeldAgain.{MayBeHeld};
ghost use Rattle.gabc_score.specs.ReadAgain.{CanBeReadInText, ComesBefore};
ghost use Rattle.gabc_score.specs.Resumed.{BeginsText, IsAfterSyllables};
ghost use Rattle.gabc_body.specs.declared.before.Before.{Before};
ghost use Rattle.gabc_body.specs.declared.before.Spans.{Spans};
ghost use Rattle.gabc_score.specs.ScoreReports.{before_of, held_of, moved_to, reading_of, openers_of, is_in_comment, is_in_front, IsAt, IsInFront};
ghost use Rattle.gabc_score.specs.ScoreStage.{AreCountsBelow, GivesAt, IsWithinAnywhere, MayCome, AreInLine, events_of};
ghost use Rattle.gabc_body.specs.SpansPast.{FollowsSpans};
ghost use Rattle.gabc_body.specs.Syllable.{UnplacedSyllable};
ghost use Rattle.gabc_body.specs.UnitRead.{HoldsSomeUnit};
ghost use Rattle.gabc_score.specs.witness.IsReachable.{IsReachable};
ghost use Rattle.gabc_score.specs.witness.ReadAgain.{CanBeReadAgain};
ghost use Rattle.gabc_places.specs.TextOfAnInput.{IsText};
ghost use Rattle.gabc_score.specs.ReportedWithin.{AreCountsWithin, IsPlace, ReportsWithin, ReportsText, whole_syllables, written_after};
ghost use Rattle.gabc_score.specs.witness.ScoreStage.{ScoreStageState, left_of};

use crate::score_event::ScoreEvent;
use crate::score_stage::ScoreStage;
use crate::{kept_laws, machine_laws};
use gabc_headers::HeadEvent;
use gabc_places::{Limits, Place, Room, Stage, drive};
use std::alloc::{AllocError, Global};

/// Law: a fresh stage over a score, driven over `inputs` of which no count reaches its last value,
/// emits what the definition says of them, each syllable as the event that lends it. If memory
/// cannot be allocated, nothing is emitted.
pub fn a_fresh_stage_emits(
    alloc: Global,
    limits: Limits,
    inputs: Vec<HeadEvent>,
    out: &mut Room<ScoreEvent>,
) -> Result<(), AllocError>
    requires counts { AreCountsBelow inputs.items }
    requires fits { Fits out.old (16 * (length inputs.items + 1)) }
    ensures given { OnOk result (out.new ≡ extended_by out.old (concat_of
        (map (λ (outputs : List ScoreOutput). events_of outputs)
        (score_outputs texts_by_stage limits inputs.items)))) }
    ensures unchanged { OnErr result (out.new ≡ out.old) }
{
    let mut stage = ScoreStage::with_limits(alloc, limits)?;
    drive(&mut stage, inputs, out);
    Ok(())
}

/// Law: at an input the stage emits the next outputs, as events, and lends their syllables. What
/// the stage reports stays that of a text, if the input may come of one and a text that is read has
/// counted the place of the next character. An input may come of a text if the numbers of the
/// headers are in range, and if a character is where the next one is expected, at a place whose
/// numbers have not reached their last value, and is no CR and no U+FEFF. Whatever the input, if no
/// syllable is pending only as long as none was emitted, this stays so.
pub fn an_input_is_taken(stage: &mut ScoreStage, input: HeadEvent, out: &mut Room<ScoreEvent>)
    requires { Fits out.old 16 }
    ensures { GivesAt stage.old input stage.new out.old out.new }
{
    stage.push(input, out);
}

/// Law: if the inputs of a stage just cease, it emits no finding, no stop and no end then, whatever
/// it has read.
pub fn inputs_that_cease_give_no_stop()
    ensures findings { (s : ScoreStageState) → findings_in (concat_of (left_of s [])) ≡ [] }
    ensures stop { (s : ScoreStageState) → fault_in (concat_of (left_of s [])) ≡ None }
    ensures end { (s : ScoreStageState) → has_end (concat_of (left_of s [])) ≡ false }
{}

/// Law: if the inputs of a stage just cease, it emits at most one syllable then, the pending one.
pub fn at_most_one_syllable_is_held(stage: &ScoreStage)
    ensures { length (syllables_in (concat_of (left_of stage.now []))) ≤ 1 }
{
    machine_laws::at_most_one_is_given(&stage.machine);
}

/// Law: each state of a stage is reachable, whatever it has read. The laws of reachable states hold
/// of it, and of what it reported once it is gone.
pub fn a_stage_is_reachable(stage: &ScoreStage)
    ensures { IsReachable stage.now }
{
    machine_laws::a_stage_may_stand_so(&stage.machine);
}

/// Law: in the body what a stage reports is within its limits, whatever it has read. The kept text
/// of the syllable that is read is no longer than the limit of a syllable, nor is the canonical
/// text of the pending one, with its LF if it begins a word; with what comes before it and a last
/// LF this is within the limit of the input. Before the first syllable no span is open, and no note
/// or clef has come. Inside a tag, a raw part, a translation or a raw bracket no comment is open.
pub fn what_is_reported_is_within_the_limits()
    ensures { (s : ScoreStageState) → IsReachable s → is_some (before_of s) ≡ true → ReportsWithin s }
{
    gabc_text::laws::what_is_open_follows_from_the_kept_text();
    gabc_notes::laws::an_opener_is_reported_inside_raw();
}

/// Law: in the body the whole syllables are those that were emitted, and the pending one, if there
/// is one, whatever a stage has read.
pub fn whole_syllables_are_given_or_held(stage: &ScoreStage)
    requires runs { is_some (before_of stage.now) ≡ true }
    ensures { whole_syllables stage.now
        ≡ stage.now.before.syllables + length (option_to_list (held_of stage.now)) }
{
    machine_laws::whole_ones_are_given_or_held(&stage.machine);
}

/// Law: the events that a stage of headers emits before the body may come of a text, whatever the
/// place of the next character.
pub fn headers_may_come()
    ensures { (limits : Limits) (t : List ℕ) (x : Char) (next : Place) →
        All (MayCome limits next) (events_of_input limits (reading t) (Ok x)) }
{
    gabc_headers::laws::canonical_lines_are_within_the_limits();
    gabc_headers::laws::the_numbers_of_headers_are_in_range();
}

/// Law: if the place of the next character is set to one that is no earlier, what a stage reports
/// is still that of a text.
pub fn what_is_reported_may_move(stage: &mut ScoreStage, at: Place)
    requires later { IsUpTo stage.old.held.next at }
    requires place { IsPlace at }
    ensures { ReportsText stage.old → ReportsText stage.new }
{
    gabc_text::laws::what_is_open_stays_open_elsewhere();
    stage.go_to(at);
}

/// Law: what a stage reports that resumes after syllables, and has read nothing yet, is that of a
/// text, if the counts of what comes before it are in range.
pub fn a_resumed_stage_reports_a_text()
    ensures { (limits : Limits) (before : Before) (s : ScoreStageState) →
        IsAfterSyllables limits before s →
        AreCountsWithin limits before.nabc_lines before.macros before.canonical → ReportsText s }
{}

/// Law: at the beginning of a text no comment is open.
pub fn a_text_begins_outside_a_comment()
    ensures { (s : ScoreStageState) → BeginsText s → is_in_comment s.body.part ≡ false }
{
    gabc_text::laws::a_fresh_stage_reports_nothing_open();
}

/// Law: in the body, while the comment after the `%%` is open, a stage is in front of the first
/// text: no syllable is whole, and nothing is read of one.
pub fn in_front_nothing_is_read()
    ensures { (s : ScoreStageState) → IsReachable s → is_some (before_of s) ≡ true →
        is_in_front s.body.part ≡ true → IsInFront s }
{}

/// Law: in front of the first text a stage emits the same of whatever follows, whatever the place
/// of the next character is set to: its place counts only once the character has come.
pub fn a_body_may_begin_anywhere(stage: &ScoreStage)
    requires { IsInFront stage.now }
    ensures { (place : Place) (xs : List HeadEvent) →
        left_of (moved_to place stage.now) xs ≡ left_of stage.now xs }
{
    machine_laws::a_body_begins_anywhere(&stage.machine);
}

/// Law: a stage emits the end only if the end is among its inputs, whatever it has read.
pub fn the_end_comes_with_the_end()
    ensures { (s : ScoreStageState) (xs : List HeadEvent) → HasNoEnd xs →
        has_end (concat_of (left_of s xs)) ≡ false }
{}

/// Law: after a stop a stage emits nothing, whatever it has read and whatever follows.
pub fn nothing_follows_a_stop()
    ensures { (s : ScoreStageState) (fault : Fault) (later : List HeadEvent) →
        concat_of (left_of s (Stop fault ∷ later)) ≡ concat_of (left_of s (Stop fault ∷ [])) }
{}

/// Law: over a text with fewer than 2^63 bytes a stage of headers emits events of which no count
/// reaches its last value, and a score reads the texts of its body by their machine as by their
/// definition.
pub fn texts_are_read_in_full()
    ensures counts { (limits : Limits) (ending : InputEnding) (t : List ℕ) →
        length (encode_utf8_all t) < 2 ^ 63 → AreCountsBelow (head_events limits ending t) }
    ensures outputs { (limits : Limits) (ending : InputEnding) (t : List ℕ) →
        length (encode_utf8_all t) < 2 ^ 63 →
        score_outputs texts_by_stage limits (head_events limits ending t)
        ≡ score_outputs texts_by_definition limits (head_events limits ending t) }
{
    gabc_headers::laws::canonical_lines_are_within_the_limits();
    gabc_text::laws::a_fresh_stage_emits_the_events_by_point();
}

/// Law: a stage over a body at the beginning of a text emits of the characters from there on what
/// the definition says of a text that begins there, if no count of theirs reaches its last value.
pub fn a_text_is_read_from_its_beginning()
    ensures { (r : BodyStageState) (at : Place) (t : List ℕ) →
        r.part ≡ Text (fresh_stage at) → CountsFit at t →
        (let xs = placed_characters_from at t in running_events_left r xs
        ≡ events_from texts_by_definition r.nabc_lines r.macros
        (text_from texts_by_definition at xs) xs) }
{
    gabc_text::laws::a_fresh_stage_emits_the_events_by_point();
}

/// Law: a fresh stage over a score emits what the definition says of a text with fewer than 2^63
/// bytes, however its input ended, once it takes the events that a stage of headers emits of this
/// text. Returns this stage.
pub fn a_fresh_stage_reads_texts(alloc: Global, limits: Limits) -> Result<ScoreStage, AllocError>
    ensures { IfOk result (λ stage. (ending : InputEnding) (t : List ℕ) →
        length (encode_utf8_all t) < 2 ^ 63 →
        concat_of (left_of stage (head_events limits ending t)) ≡ outputs_of_text limits ending t) }
{
    texts_are_read_in_full();
    ScoreStage::with_limits(alloc, limits)
}

/// Law: two stages in the body that run under the same limits and report the same emit the same of
/// whatever follows, if both or none of them are in front of the first text. They report the same
/// if these are the same: the context of the pending syllable, the kept text of the one that is
/// read, the open brackets, whether a comment is open, and the place of the next character, as a
/// text that is read has counted it. Their pending syllables need only say the same: then the one
/// emits its own at the point at which the other emits its own.
pub fn stages_that_report_the_same_agree()
    ensures { (one other : ScoreStageState) → IsReachable one → IsReachable other → AreEquivalent one other →
        is_in_front one.body.part ≡ is_in_front other.body.part →
        (xs : List HeadEvent) →
        GiveTheSame (held_of one) (held_of other) (left_of one xs) (left_of other xs) }
{
    kept_laws::laws_of_stages();
    gabc_text::laws::stages_after_one_text_agree();
    gabc_notes::laws::stages_after_one_text_agree();
    gabc_nabc::laws::stages_after_one_text_agree();
}

/// Law: the same holds if only one of them is in front of the first text, and the other in a
/// comment of a text of which nothing is read, if the characters that follow are one after the
/// other, from the place of the next one on.
pub fn stages_that_report_the_same_agree_in_line()
    ensures { (one other : ScoreStageState) → IsReachable one → IsReachable other → AreEquivalent one other →
        (xs : List HeadEvent) → AreInLine one.held.next xs →
        GiveTheSame (held_of one) (held_of other) (left_of one xs) (left_of other xs) }
{
    kept_laws::laws_of_stages();
    gabc_text::laws::a_comment_before_a_text_counts_for_nothing();
    gabc_text::laws::what_is_open_stays_open_elsewhere();
    in_front_nothing_is_read();
    stages_that_report_the_same_agree();
}

/// Law: the pending syllable of a stage, whatever the stage has read, holds some unit: a text and
/// its notes, with one snippet if there are no NABC lines.
pub fn what_is_held_holds_a_unit()
    ensures { (s : ScoreStageState) → IsReachable s →
        IfSome (held_of s) (HoldsSomeUnit s.body.nabc_lines) }
{
    gabc_text::laws::a_kept_text_is_said_in_full();
    gabc_text::laws::spans_stand_for_the_view();
    gabc_notes::laws::kept_again();
    gabc_nabc::laws::kept_again();
}

/// Law: if the inputs of a stage just cease, whatever it has read, each syllable that it emits then
/// is the pending one.
pub fn what_breaks_off_is_held()
    ensures { (s : ScoreStageState) → IsReachable s → All (λ p. held_of s ≡ Some p.made)
        (syllables_in (concat_of (left_of s []))) }
{}

/// Law: the spans that are open after the pending syllable of a stage, whatever the stage has read,
/// follow from its text and from those that are open before it.
pub fn spans_of_what_is_held_follow()
    ensures { (s : ScoreStageState) → IsReachable s →
        IfSome (held_of s) (FollowsSpans s.before.spans) }
{
    gabc_text::laws::a_kept_text_is_said_in_full();
    gabc_text::laws::spans_stand_for_the_view();
    gabc_notes::laws::kept_again();
    gabc_nabc::laws::kept_again();
}

/// Law: the canonical text of the pending syllable of a stage is a text of an input (UTF-8 without
/// CR and U+FEFF), as long as what the stage reports is that of a text.
pub fn what_is_held_is_a_text()
    ensures { (s : ScoreStageState) → IsReachable s → ReportsText s →
        IfSome (held_of s) (λ m. IsText (written_after s.before m)) }
{
    gabc_body::unit_laws::the_canonical_text_of_a_unit_is_a_text();
    what_is_held_holds_a_unit();
}

/// Law: the kept text of the pending syllable of a stage is in UTF-8.
pub fn what_is_held_is_in_utf8(stage: &ScoreStage)
    ensures { IfSome (held_of stage.now) (λ m. IsUtf8 m.kept) }
{
    if let Some(syllable) = stage.held() {
        let _ = syllable.kept.as_str();
    }
}

/// Law: the pending syllable of a stage, whatever the stage has read, is within the stage's limits,
/// whatever its position in its word.
pub fn what_is_held_is_within_the_limits()
    ensures { (s : ScoreStageState) → IsReachable s →
        IfSome (held_of s) (IsWithinAnywhere s.limits) }
{}

/// Law: of a stage in the body the kept text of the syllable that it reads can be read again.
pub fn what_is_read_can_be_read_again(stage: &ScoreStage)
    ensures { is_some (before_of stage.now) ≡ true → CanBeReadAgain stage.now }
{
    machine_laws::what_is_read_can_be_read(&stage.machine);
}

/// Law: in front of the first text the comment that is open can be read again as one in a text of
/// which nothing is kept, after the same and under the same limits.
pub fn a_comment_in_front_can_be_read_in_a_text()
    ensures { (s : ScoreStageState) → is_some (before_of s) ≡ true → IsInFront s →
        CanBeReadInText s }
{}

/// Law: a text read by itself after the same is one syllable at most.
pub fn a_text_is_one_syllable()
    ensures { (limits : Limits) (before : Before) (text : List ℕ) (m n : UnplacedSyllable) →
        MayBeHeld limits before text m → MayBeHeld limits before text n → m ≡ n }
{}

/// Law: a text that is one syllable keeps no more bytes than it has, on the way and in all. So it
/// is that syllable under each limit that is no less than its bytes.
pub fn one_syllable_keeps_no_more_than_its_text()
    ensures { (lines macros : ℕ) (t : List ℕ) (spans : Spans) (limit other : ℕ)
        (m : UnplacedSyllable) → length (encode_utf8_all t) ≤ other →
        IsReadAsSyllable lines macros t spans limit m →
        IsReadAsSyllable lines macros t spans other m × (length m.kept ≤ other) }
{}

/// Law: a stage that reads again the kept text that `told` reports emits what `told` emits. `again`
/// is before this syllable, both are after the same and under the same limits, and their pending
/// syllables say the same. From then on `again` emits what `told` emits, but for the pending
/// syllable.
pub fn a_kept_text_gives_the_stage_back(told: &ScoreStage, again: &mut ScoreStage)
    requires runs { is_some (before_of told.now) ≡ true }
    requires front { is_in_front told.now.body.part ≡ false }
    requires stands { IsAt told.now.held.next told.now.body.part }
    requires limits { told.now.limits ≡ again.old.limits }
    requires before { before_of told.now ≡ before_of again.old }
    requires held { HoldTheSame (told.now.before.syllables == 0)
        (held_of told.now) (held_of again.old) }
    requires first { ComesBefore again.old }
    ensures { (xs : List HeadEvent) → GiveTheSame (held_of told.now) (held_of again.new)
        (left_of told.now xs) (left_of again.new xs) }
{
    what_is_read_can_be_read_again(told);
    let Some(openers) = told.openers() else {
        return;
    };
    let Some(in_comment) = told.in_comment() else {
        return;
    };
    let Some(next) = told.next() else {
        return;
    };
    again.read_again(told.reading(), openers, in_comment, next);
    a_stage_is_reachable(told);
    a_stage_is_reachable(again);
    stages_that_report_the_same_agree();
}
