//! The messages of a score as records.

ghost use Rattle.std.specs.Prelude.{◌≡◌, ◌-◌, ◌^◌, [], ◌∷◌, length, min, IfOk, OnErr};
ghost use Rattle.gabc_places.specs.Filling.{filled, filled_len};
ghost use Rattle.gregorio.specs.declared.source_ending.SourceEnding.TheVariants.{Whole};
ghost use Rattle.gregorio.specs.Outcome.{ending_by, outcome_of};
ghost use Rattle.gregorio_c.specs.Answers.{MessagesAnswer};
ghost use Rattle.gregorio_c.specs.Messages.{messages_by};
ghost use Rattle.gregorio_c.specs.machine.Found.{IsFound, outcome_with, without_syllables};

use crate::buffers::start_of;
use crate::dropped::Dropped;
use crate::engines::{hasher_of, is_too_long, small_limits};
use crate::message::Message;
use gabc_places::{Fault, Limits, text_of};
use gabc_score::{InputEnding, Score, ScoreRest, Syllables, score_given};
use gregorio::{Outcome, is_shown};
use std::alloc::{AllocError, Global};

/// Returns the ending of the text of an input with this `fault`.
fn ending_of(fault: Option<Fault>) -> InputEnding
    ensures { result ≡ ending_by Whole fault }
{
    match fault {
        Some(fault) => InputEnding::At(fault),
        None => InputEnding::Whole,
    }
}

/// Returns the outcome of a whole score without its syllables, made of the `rest` of the score.
fn outcome_by(alloc: Global, rest: ScoreRest) -> Outcome
    ensures { result ≡ outcome_with rest }
{
    let ScoreRest {
        book,
        findings,
        fault,
    } = rest;
    Outcome {
        score: Score {
            book,
            syllables: Syllables::new(alloc),
            findings,
            fault,
        },
        broken: false,
    }
}

/// Reads `score` under `limits`, and returns its outcome without the syllables. It fails only if
/// memory runs out.
fn found_in(alloc: Global, key: &[u64], score: &[u8], limits: Limits) -> Result<Outcome, AllocError>
    ensures { IfOk result (λ outcome.
        outcome ≡ without_syllables (outcome_of limits Whole score.now)) }
{
    let decoded = text_of(alloc, score, true, limits)?;
    let ending = ending_of(decoded.fault);
    let hasher = hasher_of(key);
    let rest = score_given(alloc, &decoded.text, ending, limits, hasher, &mut Dropped)?;
    Ok(outcome_by(alloc, rest))
}

/// Reads `score` under the default limits, and returns its outcome without the syllables. It fails
/// only if memory runs out. Small limits are tried first, under which it allocates less.
fn found(alloc: Global, key: &[u64], score: &[u8]) -> Result<Outcome, AllocError>
    ensures { IfOk result (λ outcome. IsFound score.now outcome) }
{
    gregorio::laws::larger_limits_change_nothing();
    let usual = Limits::default();
    let outcome = found_in(alloc, key, score, small_limits(usual, score))?;
    if is_too_long(outcome.score.fault) {
        return found_in(alloc, key, score, usual);
    }
    Ok(outcome)
}

/// Writes `message` into `buf` at `at`, if there is room for it, and returns the index after it,
/// else `at`.
fn put_at(buf: &mut [Message], at: usize, message: Message) -> usize
    ensures buf { buf.new ≡ filled buf.old at (message ∷ []) }
    ensures len { result ≡ filled_len buf.old at (message ∷ []) }
{
    if at < buf.len() {
        buf[at] = message;
        at + 1
    } else {
        at
    }
}

/// Writes the messages of what `score` found into `buf` from `at` on, as many as there is room for:
/// warnings only if `all_warnings`, and last the message of its fault. Returns the number of its
/// messages, or the last value of a `usize` if it has as many or more.
fn fill(all_warnings: bool, score: &Score, buf: &mut [Message], at: usize) -> usize
    ensures buf { buf.new ≡ filled buf.old at (messages_by all_warnings score.now) }
    ensures count { result ≡ min (length (messages_by all_warnings score.now)) (2 ^ 64 - 1) }
{
    let mut len = at;
    let mut count: usize = 0;
    for finding in score.findings.as_slice() {
        if is_shown(all_warnings, *finding) {
            len = put_at(buf, len, Message::at(finding.place, finding.code));
            count = count.saturating_add(1);
        }
    }
    if let Some(fault) = score.fault {
        let _ = put_at(buf, len, Message::at(fault.place, fault.code));
        count = count.saturating_add(1);
    }
    count
}

/// Puts the messages of `score` into `messages`, if there is room for all, and their number into
/// `count`: warnings only if `all_warnings`. Returns the exit status. It fails only if memory runs
/// out, or if there are more messages than can be counted, and writes nothing then.
pub(crate) fn tell_messages(
    alloc: Global,
    all_warnings: bool,
    key: &[u64],
    score: &[u8],
    messages: &mut [Message],
    count: &mut usize,
) -> Result<u32, AllocError>
    ensures answered { IfOk result (λ status.
        MessagesAnswer all_warnings score.now messages.old messages.new count.new status) }
    ensures unchanged { OnErr result (messages.new ≡ messages.old) }
    ensures count_unchanged { OnErr result (count.new ≡ count.old) }
{
    let outcome = found(alloc, key, score)?;
    let len = fill(all_warnings, &outcome.score, &mut [], 0);
    if len == usize::MAX {
        return Err(AllocError);
    }
    let start = start_of(messages, len);
    let _ = fill(all_warnings, &outcome.score, messages, start);
    *count = len;
    Ok(u32::from(outcome.status().code()))
}
