//! The reading of a whole body.

ghost use Rattle.std.specs.Prelude.{◌≡◌, ◌+◌, ◌<◌, ◌^◌, [], length, IfOk};
ghost use Rattle.std.specs.Str.{chars};
ghost use Rattle.gabc_body.specs.Body.{body_of};
ghost use Rattle.gabc_body.specs.NoteBeforeClef.{with_first_each};
ghost use Rattle.gabc_score.specs.witness.BodyStage.{running_events_left};
ghost use Rattle.gabc_places.specs.BoundedList.{Fits};
ghost use Rattle.gabc_places.specs.Place.{place_past, placed_characters_from};
ghost use Rattle.gabc_score.specs.machine.Collected.{EndsAs, IsSaid, PassesRun};
ghost use Rattle.gabc_score.specs.machine.ScoreMachine.{shown, IsScore};

use crate::body_stage::{BodyPart, BodyStage};
use crate::collecting::{Said, add_all};
use crate::context::BodyContext;
use crate::give::Collect;
use crate::score_event::ScoreEvent;
use crate::score_machine::ScoreMachine;
use gabc_body::InputEnding;
use gabc_headers::HeadEvent;
use gabc_places::{Char, Limits, Memory, Place, Room};
use std::alloc::AllocError;

/// Lets `taker` take a run of regular syllables from the front of `text`, whose first character is
/// at `place`, if it takes runs. Returns the text that is left, and sets `place` to the place of
/// its first character.
fn pass_run<'a, C: Collect>(
    machine: &mut ScoreMachine,
    place: &mut Place,
    text: &'a str,
    taker: &mut C,
) -> &'a str
    requires { IsScore machine.old }
    ensures rests { IsScore machine.new }
    ensures passes { PassesRun C.given (shown machine.old) place.old text.now (shown machine.new)
        place.new result.now taker.old taker.new }
{
    if !taker.takes_runs() {
        return text;
    }
    let run = machine.take_run(*place, text, taker);
    *place = run.next;
    let (_, rest) = text.split_at(run.bytes);
    rest
}

/// Reads `body` to its end or the first fault, by the new stage `stage`, and passes its syllables
/// to `taker`. Returns the findings and the fault. The machine lies in `memory`.
pub(crate) fn build_body<C: Collect>(
    memory: &Memory,
    stage: BodyStage,
    body: &str,
    start: BodyContext,
    limits: Limits,
    ending: InputEnding,
    taker: &mut C,
) -> Result<Said, AllocError>
    requires part { stage.part ≡ BodyPart.Comment }
    requires line { start.at.line + length body.now < 2 ^ 64 }
    requires column { start.at.column + length body.now < 2 ^ 64 }
    ensures { let xs = placed_characters_from start.at (chars body.now) in
        IfOk result (λ said. IsSaid C.given taker.old taker.new said.findings said.fault
        (body_of limits start.head start.findings (place_past start.at (chars body.now)) ending xs
        (with_first_each [] xs (running_events_left stage xs)))) }
{
    let BodyContext { at, head, findings } = start;
    let mut machine = ScoreMachine::in_body(memory, limits, stage, at, head)?;
    let mut out = Room::in_memory(memory, 16)?;
    let mut said = Said {
        findings,
        fault: None,
    };
    let mut place = at;
    let mut chars = pass_run(&mut machine, &mut place, body, taker).chars();
    while let Some(c) = chars.next() {
        machine.push(HeadEvent::Body(Char { c, place }), &mut out);
        add_all(&mut said, taker, &machine.pair, &mut out)?;
        place = place.after(c);
        chars = pass_run(&mut machine, &mut place, chars.as_str(), taker).chars();
    }
    end_machine(&mut machine, ending, &mut out);
    add_all(&mut said, taker, &machine.pair, &mut out)?;
    Ok(said)
}

/// Ends the inputs of a machine as `ending` says, and adds its last events to `out`.
fn end_machine(machine: &mut ScoreMachine, ending: InputEnding, out: &mut Room<ScoreEvent>)
    requires rests { IsScore machine.old }
    requires fits { Fits out.old 16 }
    ensures { EndsAs (shown machine.old) ending out.old out.new
        machine.new.pair.first machine.new.pair.second }
{
    match ending {
        InputEnding::Whole => machine.push(HeadEvent::End, out),
        InputEnding::Broken => machine.finish(out),
        InputEnding::At(fault) => machine.push(HeadEvent::Stop(fault), out),
    }
}
