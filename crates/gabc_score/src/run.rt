//! A machine over a score that takes whole regular syllables from a text at once.

ghost use Rattle.std.specs.Prelude.{◌≡◌, ◌+◌, ◌<◌, ◌≤◌, ◌^◌, ◌||◌, not, nat_lt, ℕ, List, [], ◌∷◌, ◌++◌, length, take, true, false, IfSome};
ghost use Rattle.std.specs.List.{All};
ghost use Rattle.gabc_places.specs.Place.{place_past};
ghost use Rattle.gabc_body.specs.Canonical.{position_by};
ghost use Rattle.gabc_score.specs.SpelledSyllable.{IsSpelling, Spells};
ghost use Rattle.gabc_score.specs.machine.RegularLen.{BeginsRegularly, IsPlainByte};
ghost use Rattle.gabc_body.specs.Syllable.{PlacedSyllable, UnplacedSyllable};
ghost use Rattle.gabc_score.specs.RegularSyllable.{with_lines};
ghost use Rattle.gabc_score.specs.machine.Run.{EndsRun, GoesBefore, IsFound, IsSamePair, IsSpelledBy, KeepsFirstSound, SpellsFound, IsBetweenSyllables, RunsTo, RunsMore, TakesRun, before_by, canonical_length, len_of, mark_of, sounds_among};
ghost use Rattle.gabc_score.specs.machine.ScoreMachine.{has_given, IsScore, IsShort};
ghost use Rattle.gabc_score.specs.machine.SlotPair.{is_preceded};

use crate::body_stage::BodyPart;
use crate::give::{Give, Run};
use crate::preceding::{NO_SPANS, Preceding};
use crate::regular::{plain_len, regular_syllable, spans_past};
use crate::regular_laws;
use crate::score_machine::{ScoreMachine, ScorePart};
use crate::slot_pair::{SlotPair, SlotUse};
use crate::spelled::SpelledSyllable;
use crate::text_places::place_past;
use crate::waiting::Waiting;
use gabc_body::{Spans, position_by};
use gabc_places::{Limits, Place};
use gabc_text::{SpanMark, mark_at};

/// The number of bytes that are tested for plain bytes at once.
const MOST_LOOKED_AT: usize = 256;

/// A regular syllable of a run, not yet emitted.
#[derive(Clone, Copy)]
pub(crate) struct Found<'a> {
    /// Its characters.
    spelled: &'a str,
    /// The text after it.
    rest: &'a str,
    /// The bytes of the blanks and comments before its text.
    gap: usize,
    /// The bytes before its `(`.
    opening: usize,
    /// The number of first bytes of `rest` that are known to be plain.
    plain: usize,
}

/// Returns the number of first bytes of `rest` that are known to be plain, if the first `left` are.
/// If `left` is 0, tests further bytes.
#[inline(always)]
fn plain_after(rest: &str, left: usize) -> usize
    requires { All IsPlainByte (take left rest.now) }
    ensures { All IsPlainByte (take result rest.now) }
{
    if left > 0 {
        return left;
    }
    let bytes = rest.as_bytes();
    plain_len(&bytes[..bytes.len().min(MOST_LOOKED_AT)])
}

/// Returns the regular syllable that `text` begins with, if it begins with one under `lines` NABC
/// lines, and no limit is passed with it after `total` canonical bytes. The first `plain` bytes of
/// `text` are known to be plain.
#[inline(always)]
fn find<'a>(
    lines: u8,
    limits: &Limits,
    text: &'a str,
    plain: usize,
    total: usize,
) -> Option<Found<'a>>
    requires { All IsPlainByte (take plain text.now) }
    ensures found { IfSome result (λ f. IsFound lines limits.now total f) }
    ensures text { IfSome result (λ f. text.now ≡ f.spelled.now ++ f.rest.now) }
{
    let Some(found) = regular_syllable(lines, text, plain) else {
        return None;
    };
    let left = (limits.input as usize).saturating_sub(total);
    if found.len > limits.syllable as usize || found.len >= left {
        return None;
    }
    let (spelled, rest) = text.split_at(found.len);
    Some(Found {
        spelled,
        rest,
        gap: found.gap,
        opening: found.opening,
        plain: plain_after(rest, plain.saturating_sub(found.len)),
    })
}

/// Returns whether the lines and columns of `text`, whose first character is at `at`, are far below
/// the last value of a `u64`.
fn is_low(at: Place, text: &str) -> bool
    ensures line { result ≡ true → at.line + length text.now < 2 ^ 63 }
    ensures column { result ≡ true → at.column + length text.now < 2 ^ 63 }
{
    let most = 1 << 62;
    at.line < most && at.column < most && (text.len() as u64) < most
}

impl<'a> Found<'a> {
    /// Returns whether it begins a word.
    fn starts_word(self) -> bool
        ensures { result ≡ nat_lt 0 self.entry.gap }
    {
        self.gap > 0
    }

    /// Returns the span mark that its text begins with, if it begins with one.
    #[inline(always)]
    fn mark(self) -> Option<SpanMark>
        requires { self.gap ≤ length self.spelled.now }
        ensures { result ≡ mark_of self.entry }
    {
        mark_at(&self.spelled.as_bytes()[self.gap..])
    }

    /// Returns the number of canonical bytes before the next syllable, if there are `before` before
    /// this one.
    #[inline(always)]
    fn canonical_after(self, before: usize) -> usize
        requires gap { self.gap ≤ length self.spelled.now }
        requires fits { before + length self.spelled.now + 1 < 2 ^ 64 }
        ensures { result ≡ before + canonical_length self.entry }
    {
        let start = if self.starts_word() { 1 } else { 0 };
        before + (self.spelled.len() - self.gap) + start
    }

    /// Returns its slices, under `lines` NABC lines and with `spans` open after it. `next_starts`
    /// says whether the next syllable begins a word.
    fn slices(self, lines: u8, spans: Spans, next_starts: bool) -> SpelledSyllable<'a>
        requires { BeginsRegularly lines (self.spelled.now ++ self.rest.now) (len_of self) }
        ensures is { IsSpelling result }
        ensures parts { (is : BeginsRegularly lines (self.entry.spelled.now ++ self.entry.rest.now)
            (len_of self.entry)) → IsSpelledBy result lines is.syllable }
        ensures spells { (is : BeginsRegularly lines (self.entry.spelled.now ++ self.entry.rest.now)
            (len_of self.entry)) (s : PlacedSyllable) →
            SpellsFound lines spans next_starts self.entry is.syllable s → Spells result s }
    {
        let (_, canonical) = self.spelled.split_at(self.gap);
        SpelledSyllable {
            position: position_by(self.starts_word(), next_starts),
            spans,
            lines,
            canonical,
            opening: self.opening - self.gap,
        }
    }

    /// Returns whether its GABC has a note or a clef, under `lines` NABC lines.
    #[inline(never)]
    fn sounds(self, lines: u8) -> bool
        requires { BeginsRegularly lines (self.spelled.now ++ self.rest.now) (len_of self) }
        ensures { (is : BeginsRegularly lines (self.entry.spelled.now ++ self.entry.rest.now)
            (len_of self.entry)) →
            result ≡ sounds_among (with_lines lines 0 is.syllable.nexts is.syllable.final) }
    {
        self.slices(lines, NO_SPANS, true).sounds()
    }

    /// Passes it to `out`, under `lines` NABC lines and with `spans` open after it. `next_starts`
    /// says whether the next syllable begins a word. Returns whether `out` took it.
    fn give<G: Give>(self, lines: u8, spans: Spans, next_starts: bool, out: &mut G) -> bool
        requires { BeginsRegularly lines (self.spelled.now ++ self.rest.now) (len_of self) }
        ensures given { result ≡ true → (is : BeginsRegularly lines
            (self.entry.spelled.now ++ self.entry.rest.now) (len_of self.entry))
            (s : PlacedSyllable) → SpellsFound lines spans next_starts self.entry is.syllable s →
            out.new ≡ G.given out.old (s ∷ []) }
        ensures same { result ≡ false → out.new ≡ out.old }
    {
        out.give_spelled(self.slices(lines, spans, next_starts))
    }
}

/// The state of a run: before a syllable that was found and is not yet emitted.
#[derive(Clone, Copy)]
pub(crate) struct Reached<'a> {
    /// That syllable.
    last: Found<'a>,
    /// The number of syllables of the run before it.
    count: u64,
    /// The canonical bytes before it.
    canonical: usize,
    /// The spans that are open before it.
    spans: Spans,
}

impl<'a> Reached<'a> {
    /// Returns the totals before its syllable, if `begun` are those before the run.
    fn preceding(self, begun: Preceding) -> Preceding
        ensures { result ≡ before_by begun self.entry }
    {
        Preceding {
            syllables: begun.syllables.saturating_add(self.count),
            canonical: self.canonical,
            spans: self.spans,
            ..begun
        }
    }
}

impl SlotPair {
    /// Gives the pending syllable its position in its word. `next_starts` says whether the next one
    /// begins a word.
    fn place_held(&mut self, next_starts: bool)
        requires used { self.old.used ≡ SlotUse.Filling }
        ensures gathered { self.new.gathered ≡ self.old.gathered }
        ensures contexts { self.new.contexts ≡ self.old.contexts }
        ensures used { self.new.used ≡ SlotUse.Filling }
        ensures first { (m : UnplacedSyllable) → self.old.gathered.made ≡ m ∷ [] →
            self.new.first ≡ record {
              made = m;
              position = position_by (not (is_preceded self.old) || m.text.word_start) next_starts;
            } }
    {
        self.holder.place(self.before.has_syllable(), next_starts);
    }
}

impl ScoreMachine {
    /// Returns whether the machine is between two syllables, of which the first is pending, and a
    /// text begins at `at`.
    fn is_between(&self, at: Place) -> bool
        requires rests { IsScore self.now }
        ensures { result ≡ true → IsBetweenSyllables self.now at }
    {
        let ScorePart::Body = self.part else {
            return false;
        };
        let Some(_) = self.pair.held() else {
            return false;
        };
        if !self.pair.reading().is_empty() {
            return false;
        }
        self.body.begins_text(at)
    }

    /// Returns whether the first note or clef of the score is in `found`, under `lines` NABC lines.
    #[inline(always)]
    fn is_first_with(&self, lines: u8, found: &Found<'_>) -> bool
        requires { BeginsRegularly lines (found.now.spelled.now ++ found.now.rest.now)
            (len_of found.now) }
        ensures { result ≡ false → (is : BeginsRegularly lines
            (found.now.spelled.now ++ found.now.rest.now) (len_of found.now)) →
            KeepsFirstSound lines self.now.pair.gathered.first_kind is.syllable }
    {
        if self.pair.has_sounded() {
            return false;
        }
        found.sounds(lines)
    }

    /// Passes the pending syllable to `out`. `next_starts` says whether the next one begins a word.
    /// Returns whether `out` took it.
    fn give_held<G: Give>(&mut self, next_starts: bool, out: &mut G) -> bool
        requires used { self.old.pair.used ≡ SlotUse.Filling }
        requires short { All (IsShort self.old.limits.syllable) self.old.pair.gathered.made }
        requires one { length self.old.pair.gathered.made ≡ 1 }
        ensures same { IsSamePair self.old self.new }
        ensures given { result ≡ true → (m : UnplacedSyllable) → self.old.pair.gathered.made ≡ m ∷ [] →
            out.new ≡ G.given out.old (record {
              made = m;
              position = position_by (not (has_given self.old) || m.text.word_start) next_starts;
            } ∷ []) }
        ensures kept { result ≡ false → out.new ≡ out.old }
    {
        self.pair.place_held(next_starts);
        out.give(self.pair.first(), self.limits.syllable as usize + 1)
    }

    /// Passes the syllables of a run to `out`, beginning with the one of `begun`, with which `text`
    /// begins, as long as one follows and `out` takes them. Returns the state of the run then.
    #[inline(never)]
    fn give_on<'a, G: Give>(&self, begun: Reached<'a>, text: &'a str, out: &mut G) -> Reached<'a>
        requires found { IsFound self.now.body.nabc_lines self.now.limits begun.canonical
            begun.last }
        requires text { text.now ≡ begun.last.spelled.now ++ begun.last.rest.now }
        requires first { begun.count ≡ 0 }
        ensures { (at : Place) (text : List ℕ) (given : List PlacedSyllable) →
            RunsTo self.now at text given begun.entry →
            RunsMore G.given self.now at text given out.old result out.new }
    {
        regular_laws::a_regular_syllable_goes_through();
        let lines = self.body.nabc_lines();
        let mut reached = begun;
        let mut waiting = Waiting::none(text, begun.last.gap, 0, out.joins());
        loop {
            let last = reached.last;
            let canonical = last.canonical_after(reached.canonical);
            let Some(next) = find(lines, &self.limits, last.rest, last.plain, canonical) else {
                break;
            };
            if self.is_first_with(lines, &next) {
                break;
            }
            let spans = spans_past(last.mark(), reached.spans);
            let count = reached.count + 1;
            if next.starts_word() || !waiting.fits(next.rest.len()) {
                if waiting.fits(last.rest.len()) {
                    waiting.give(count, last.rest.len(), out);
                } else if !last.give(lines, spans, next.starts_word(), out) {
                    break;
                }
                waiting = Waiting::none(last.rest, next.gap, count, out.joins());
            }
            reached = Reached {
                last: next,
                count,
                canonical,
                spans,
            };
        }
        if waiting.is_some(reached.count) {
            let left = reached.last.spelled.len() + reached.last.rest.len();
            waiting.give(reached.count, left, out);
        }
        reached
    }

    /// Resumes before a syllable whose first character is at `at`, after `before`: those before it
    /// are emitted, none is pending.
    fn go_before(&mut self, before: Preceding, at: Place)
        requires { self.old.pair.used ≡ SlotUse.Filling }
        ensures { GoesBefore self.old before at self.new }
    {
        self.pair.follow(before);
        self.body.begin_text(at);
        self.next = at;
    }

    /// Ends a run in `text`, whose first character is at `at`: reads by its characters the syllable
    /// of `reached`, which is pending then. Returns the length of the run and the place after it.
    fn end_run(&mut self, at: Place, text: &str, reached: Reached<'_>) -> Run
        requires used { self.old.pair.used ≡ SlotUse.Filling }
        requires to { (given : List PlacedSyllable) × RunsTo self.old at text.now given reached }
        ensures { EndsRun self.old at text.now reached.entry result self.new }
    {
        regular_laws::a_regular_syllable_goes_through();
        let last = reached.last;
        let bytes = text.len() - last.rest.len();
        let (before, _) = text.split_at(bytes - last.spelled.len());
        let start = place_past(at, before);
        let next = place_past(start, last.spelled);
        let context = reached.preceding(self.pair.after());
        self.go_before(context, start);
        self.read_text_silently(last.spelled, true);
        self.body.begin_text(next);
        self.next = next;
        Run { bytes, next }
    }

    /// Takes whole syllables from the front of `text`, as `ScoreStage::take_run` does.
    pub(crate) fn take_run<G: Give>(&mut self, at: Place, text: &str, out: &mut G) -> Run
        requires { IsScore self.old }
        ensures { TakesRun G.given self.old at text.now result self.new out.old out.new }
    {
        let none = Run { bytes: 0, next: at };
        if !is_low(at, text) || !self.is_between(at) {
            return none;
        }
        let before = self.pair.after();
        let lines = self.body.nabc_lines();
        let Some(first) = find(lines, &self.limits, text, 0, before.canonical) else {
            return none;
        };
        if self.is_first_with(lines, &first) {
            return none;
        }
        self.pair.free();
        if !self.give_held(first.starts_word(), out) {
            return none;
        }
        let begun = Reached {
            last: first,
            count: 0,
            canonical: before.canonical,
            spans: before.spans,
        };
        let reached = self.give_on(begun, text, out);
        self.end_run(at, text, reached)
    }
}
