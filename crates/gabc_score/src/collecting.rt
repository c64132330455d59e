//! The events of a score stage, gathered into findings, a fault and the syllables of a taker.

ghost use Rattle.std.specs.Prelude.{◌≡◌, List, [], take, length, ◌∷◌, OnOk};
ghost use Rattle.gabc_body.specs.ScoreEvents.{ScoreOutput, syllables_in};
ghost use Rattle.gabc_body.specs.declared.body_result.BodyResult.{BodyResult};
ghost use Rattle.gabc_score.specs.ScoreStage.{events_of};
ghost use Rattle.gabc_score.specs.machine.Collected.{IsSaid, result_past, result_with};

use crate::give::Collect;
use crate::score_event::{BorrowedSyllable, ScoreEvent};
use crate::slot_pair::SlotPair;
use gabc_places::{Fault, Findings, Room};
use std::alloc::AllocError;

/// The findings and the fault of a body, whose syllables a taker took.
#[derive(Drop)]
pub(crate) struct Said {
    /// The findings before the stop, in the order of places.
    pub(crate) findings: Findings,
    /// The fault that stopped the reading, if there is one.
    pub(crate) fault: Option<Fault>,
}

/// Adds a finding or a fault to `said`, or passes a syllable to `taker`.
fn add<C: Collect>(
    said: &mut Said,
    taker: &mut C,
    pair: &SlotPair,
    event: ScoreEvent,
) -> Result<(), AllocError>
    ensures { OnOk result ((first : C) (r : BodyResult) →
        IsSaid C.given first taker.old said.old.findings said.old.fault r →
        IsSaid C.given first taker.new said.new.findings said.new.fault
        (result_past pair.now.first pair.now.second r event)) }
{
    match event {
        ScoreEvent::Found(finding) => said.findings.push(finding)?,
        ScoreEvent::Stop(fault) => {
            if said.fault.is_none() {
                said.fault = Some(fault);
            }
        }
        ScoreEvent::Syllable(BorrowedSyllable::First) => taker.collect(pair.first().syllable)?,
        ScoreEvent::Syllable(BorrowedSyllable::Second) => taker.collect(pair.second().syllable)?,
        ScoreEvent::End => {}
    }
    Ok(())
}

/// Adds the findings and the fault in `out` to `said`, passes its syllables to `taker`, and empties
/// `out`.
pub(crate) fn add_all<C: Collect>(
    said: &mut Said,
    taker: &mut C,
    pair: &SlotPair,
    out: &mut Room<ScoreEvent>,
) -> Result<(), AllocError>
    ensures result_is { OnOk result ((outputs : List ScoreOutput) →
        out.old.items ≡ events_of outputs →
        syllables_in outputs ≡ take (length (syllables_in outputs))
        (pair.now.first ∷ pair.now.second ∷ []) → (first : C) (r : BodyResult) →
        IsSaid C.given first taker.old said.old.findings said.old.fault r →
        IsSaid C.given first taker.new said.new.findings said.new.fault
        (result_with r outputs)) }
    ensures room { OnOk result (out.new ≡ record out.old { items = [] }) }
{
    for event in out.slice() {
        add(said, taker, pair, *event)?;
    }
    out.clear();
    Ok(())
}
