//! What a stage over a score emits at a point.

ghost use Rattle.std.specs.Prelude.{◌≡◌, ◌≢◌, ◌≤◌, ◌||◌, [], ◌∷◌, ◌++◌, map, length, cond, None};
ghost use Rattle.gabc_places.specs.BoundedList.{Fits, extended_by};
ghost use Rattle.gabc_body.specs.NoteBeforeClef.{found_first};
ghost use Rattle.gabc_body.specs.ScoreEvents.{outputs_of, Stop, End};
ghost use Rattle.gabc_body.specs.witness.BodyBuilder.{end_findings};
ghost use Rattle.gabc_score.specs.machine.FirstSound.{kind_of};
ghost use Rattle.gabc_score.specs.machine.ReadsChar.{GivesAsLast, GivesPoint};
ghost use Rattle.gabc_score.specs.machine.ScoreStage.{placed_after};
ghost use Rattle.gabc_score.specs.machine.SlotPair.{is_preceded, lent_of};

use crate::first_sound::FirstSound;
use crate::score_event::{BorrowedSyllable, ScoreEvent};
use crate::slot_pair::{SlotPair, SlotUse};
use gabc_places::{Code, Fault, Finding, Place, Room};

/// Adds the warning of a note before any clef at `place` to `found`, if by `was` neither a note nor
/// a clef had come in GABC, and by `now` a note came first.
#[inline(always)]
pub(crate) fn find_first(
    was: Option<FirstSound>,
    now: Option<FirstSound>,
    place: Place,
    found: &mut Room<Finding>,
)
    requires { Fits found.old 1 }
    ensures { found.new ≡ extended_by found.old (found_first (kind_of was) (kind_of now) place) }
{
    if was.is_some() {
        return;
    }
    if now.is_some() {
        find_note(now, place, found);
    }
}

/// Adds the warning of a note before any clef at `place` to `found`, if `now` says that a note came
/// first in GABC.
#[inline(never)]
fn find_note(now: Option<FirstSound>, place: Place, found: &mut Room<Finding>)
    requires { Fits found.old 1 }
    ensures { found.new ≡ extended_by found.old (found_first None (kind_of now) place) }
{
    if let Some(FirstSound::Note) = now {
        found.push(Finding {
            place,
            code: Code::W12,
        });
    }
}

/// Emits the findings `found`.
fn give_found(found: &[Finding], out: &mut Room<ScoreEvent>)
    requires { Fits out.old (length found.now) }
    ensures { out.new ≡ extended_by out.old (map (λ f. ScoreEvent.Found f) found.now) }
{
    for finding in found {
        out.push(ScoreEvent::Found(*finding));
    }
}

/// Emits a finding with `code` at `place`, if `is_found`.
fn give_code(is_found: bool, place: Place, code: Code, out: &mut Room<ScoreEvent>)
    requires { Fits out.old 1 }
    ensures { out.new ≡ extended_by out.old
        (map (λ f. ScoreEvent.Found f)
        (cond is_found (record { place = place; code = code } ∷ []) [])) }
{
    if is_found {
        out.push(ScoreEvent::Found(Finding { place, code }));
    }
}

/// Emits the first `count` of the borrowed syllables.
fn give_lent(count: usize, out: &mut Room<ScoreEvent>)
    requires most { count ≤ 2 }
    requires fits { Fits out.old count }
    ensures { out.new ≡ extended_by out.old (lent_of count) }
{
    if count > 0 {
        out.push(ScoreEvent::Syllable(BorrowedSyllable::First));
    }
    if count > 1 {
        out.push(ScoreEvent::Syllable(BorrowedSyllable::Second));
    }
}

/// Emits the findings of a point, and the pending syllable if another has become whole, which is
/// pending from then on.
pub(crate) fn give_point(pair: &mut SlotPair, found: &mut Room<Finding>, out: &mut Room<ScoreEvent>)
    requires few { length found.old.items ≤ 9 }
    requires fits { Fits out.old 16 }
    ensures { GivesPoint pair.old found.old pair.new found.new out.old out.new }
{
    give_found(found.slice(), out);
    found.clear();
    let count = pair.rotate();
    give_lent(count, out);
}

/// Emits the pending syllable as the last one, and the fault that stops the score.
pub(crate) fn give_stop(pair: &mut SlotPair, fault: Fault, out: &mut Room<ScoreEvent>)
    requires used { pair.old.used ≢ SlotUse.Lent }
    requires fits { Fits out.old 16 }
    ensures { let held = placed_after (is_preceded pair.old) pair.old.held in
        GivesAsLast pair.old (outputs_of [] held ++ Stop fault ∷ []) held 1
        out.old out.new pair.new }
{
    let count = pair.give_held();
    give_lent(count, out);
    out.push(ScoreEvent::Stop(fault));
}

/// Emits the pending syllable as the last one, after the source has failed.
pub(crate) fn give_broken(pair: &mut SlotPair, out: &mut Room<ScoreEvent>)
    requires used { pair.old.used ≢ SlotUse.Lent }
    requires fits { Fits out.old 16 }
    ensures { let held = placed_after (is_preceded pair.old) pair.old.held in
        GivesAsLast pair.old (outputs_of [] held) held 1 out.old out.new pair.new }
{
    let count = pair.give_held();
    give_lent(count, out);
}

/// Emits the findings of the end, which is at `at`, the syllables that are left, and the end.
/// `has_last` says whether a last text is a syllable.
pub(crate) fn give_end(
    pair: &mut SlotPair,
    has_last: bool,
    at: Place,
    found: &[Finding],
    out: &mut Room<ScoreEvent>,
)
    requires used { pair.old.used ≢ SlotUse.Lent }
    requires few { length found.now ≤ 8 }
    requires fits { Fits out.old 16 }
    ensures { let g = pair.old.gathered in
        let made = placed_after (is_preceded pair.old) g.made in
        GivesAsLast pair.old
        (outputs_of (found.now ++ end_findings at has_last (g.eu || g.nlba)) made ++ End ∷ [])
        made 2 out.old out.new pair.new }
{
    give_found(found, out);
    give_code(has_last, at, Code::W9, out);
    give_code(pair.has_open(), at, Code::W11, out);
    let count = pair.give_all();
    give_lent(count, out);
    out.push(ScoreEvent::End);
}
