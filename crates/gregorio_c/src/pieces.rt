//! The calls for a run in pieces. A step is a function from bytes to bytes: from the state of a run
//! and a piece of its input it makes the bytes to be written and the state after it. Nothing is
//! kept between two calls.

ghost use Rattle.std.specs.Prelude.{◌≡◌, ◌⊎◌, ◌+◌, ◌*◌, max, take};
ghost use Rattle.gabc_places.specs.declared.limits.Limits.{Limits as RunLimits};
ghost use Rattle.gregorio.specs.declared.source_ending.SourceEnding.TheVariants.{Broken, Whole};
ghost use Rattle.gregorio_c.specs.Asked.{AreLimitsOf, AsksFor, AsksForNothing};
ghost use Rattle.gregorio_c.specs.StepAnswers.{BeginAnswer, EndAnswer, FeedAnswer, IsReason, IsRefusal, used};
ghost use Rattle.gregorio_c.specs.Steps.{job_of};
ghost use Rattle.gregorio_c.specs.declared.request.Request.{Request as Wanted};

use crate::handing_out::{hand_out, number_of_refusal};
use crate::lengths::Lengths;
use crate::options::{Options, asked_of, hasher_by, limits_of};
use crate::step::Step;
use crate::steps::{self, Made};
use crate::{NO_MEMORY, REFUSED};
use gregorio::SourceEnding;
use std::alloc::Global;

/// Returns the first `len` bytes of `bytes`, or all if it has fewer.
pub(crate) fn front(bytes: &[u8], len: usize) -> &[u8]
    ensures { result.now ≡ take len bytes.now }
{
    &bytes[..len.min(bytes.len())]
}

/// Returns the most bytes of a state of a run under the limits of `options`: 128 plus the limit of
/// the headers or twice that of a syllable, whichever is more. It returns 0 if `options` are out of
/// range.
#[unsafe(no_mangle)]
pub extern "C" fn gregorio_state_bound(options: &[Options]) -> usize
    ensures bound { (limits : RunLimits) → AreLimitsOf options.now limits →
        result ≡ max limits.header (2 * limits.syllable) + 128 }
    ensures none { ((limits : RunLimits) → AreLimitsOf options.now limits → ⊥) → result ≡ 0 }
{
    match limits_of(options) {
        Some(limits) => (limits.header as usize).max(2 * limits.syllable as usize) + 128,
        None => 0,
    }
}

/// Begins a run: writes its first state to the front of `state`. `format` and `flags` are those of
/// `gregorio_compile`. `options` are limits and a key, one or none. `step` is set to the lengths.
///
/// Returns 6: the run goes on. It returns 7 if `state` is too small, which then stays as it was; 3
/// if a number is not known or out of range, and 5 if there is no memory: nothing is written then.
///
/// The state stands for the whole run, over whatever follows and however that ends.
#[unsafe(no_mangle)]
pub extern "C" fn gregorio_begin(
    alloc: Global,
    format: u32,
    flags: u32,
    options: &[Options],
    state: &mut [u8],
    step: &mut Step,
) -> u32
    ensures refused { result ≡ 3 → AsksForNothing format flags options.now }
    ensures refuses { AsksForNothing format flags options.now → result ≡ 3 }
    ensures unchanged { IsRefusal result → (state.new ≡ state.old) × (step.new ≡ step.old) }
    ensures answered { (request : Wanted) (limits : RunLimits) →
        AsksFor format flags options.now request limits → (result ≡ 5) ⊎
        BeginAnswer (job_of request) limits (used state.old state.new) step.new result }
{
    let Some(asked) = asked_of(format, flags, options) else {
        return REFUSED;
    };
    match steps::begin(alloc, asked, hasher_by(options)) {
        Ok(made) => {
            *step = made.step();
            hand_out(&made, state, &mut [], &mut [])
        }
        Err(_) => NO_MEMORY,
    }
}

/// Feeds `piece` to the run whose state are the first `state_length` bytes of `state`: puts what
/// became known into `output` and `messages`, and the state after it in the place of that before.
/// The other parameters are those of `gregorio_begin`, and have to be those of that run.
///
/// Returns 6: the run goes on. If a fatal fault stopped it, it returns 2: what is written is the
/// last, and there is no state. It returns 7 if a buffer is too small: all stay as they were, and
/// `step` is set to the lengths that they need. With 3 and 5, as `gregorio_begin` returns them,
/// with 8, if the bytes are no state, and 9, if they are one of another format, of other flags or
/// limits, nothing is written.
///
/// Of whatever the state before stands for, what is written are the first bytes: all that is known,
/// but for the pending syllable. The state after it stands for the rest. A state is accepted
/// exactly if `Engine::restore` accepts it.
#[unsafe(no_mangle)]
pub extern "C" fn gregorio_feed(
    alloc: Global,
    format: u32,
    flags: u32,
    options: &[Options],
    state: &mut [u8],
    state_length: usize,
    piece: &[u8],
    output: &mut [u8],
    messages: &mut [u8],
    step: &mut Step,
) -> u32
    ensures refused { result ≡ 3 → AsksForNothing format flags options.now }
    ensures refuses { AsksForNothing format flags options.now → result ≡ 3 }
    ensures unchanged { IsRefusal result → (state.new ≡ state.old) × ((output.new ≡ output.old) ×
        ((messages.new ≡ messages.old) × (step.new ≡ step.old))) }
    ensures answered { (request : Wanted) (limits : RunLimits) →
        AsksFor format flags options.now request limits →
        IsReason (job_of request) limits (take state_length state.old) result ⊎
        FeedAnswer (job_of request) limits (take state_length state.old) piece.now
        (used state.old state.new) (used output.old output.new)
        (used messages.old messages.new) step.new result }
{
    let Some(asked) = asked_of(format, flags, options) else {
        return REFUSED;
    };
    let before = front(state, state_length);
    match steps::feed(alloc, asked, hasher_by(options), before, piece) {
        Ok(made) => {
            *step = made.step();
            hand_out(&made, state, output, messages)
        }
        Err(refusal) => number_of_refusal(refusal),
    }
}

/// Ends the run whose state is `before` with this `ending` of its input, and hands out what is
/// written then.
fn end_so(
    alloc: Global,
    format: u32,
    flags: u32,
    options: &[Options],
    before: &[u8],
    ending: SourceEnding,
    output: &mut [u8],
    messages: &mut [u8],
    lengths: &mut Lengths,
) -> u32
    ensures refused { result ≡ 3 → AsksForNothing format flags options.now }
    ensures refuses { AsksForNothing format flags options.now → result ≡ 3 }
    ensures unchanged { IsRefusal result → (output.new ≡ output.old) ×
        ((messages.new ≡ messages.old) × (lengths.new ≡ lengths.old)) }
    ensures answered { (request : Wanted) (limits : RunLimits) →
        AsksFor format flags options.now request limits →
        IsReason (job_of request) limits before.now result ⊎
        EndAnswer (job_of request) limits ending before.now (used output.old output.new)
        (used messages.old messages.new) lengths.new result }
{
    let Some(asked) = asked_of(format, flags, options) else {
        return REFUSED;
    };
    match steps::end(alloc, asked, hasher_by(options), before, ending) {
        Ok(made) => {
            *lengths = made.lengths();
            hand_out(&made, &mut [], output, messages)
        }
        Err(refusal) => number_of_refusal(refusal),
    }
}

/// Ends the run whose state is `state`, at the end of its input: puts the last of the output and of
/// the messages into the buffers, and sets their `lengths`. The other parameters are those of
/// `gregorio_begin`, and have to be those of that run.
///
/// Returns the exit status that the program would have: 0, 1 or 2. With 7 the buffers stay as they
/// were, and `lengths` are those that they need; with 3, 5, 8 and 9, as `gregorio_feed` returns
/// them, nothing is written.
#[unsafe(no_mangle)]
pub extern "C" fn gregorio_end(
    alloc: Global,
    format: u32,
    flags: u32,
    options: &[Options],
    state: &[u8],
    output: &mut [u8],
    messages: &mut [u8],
    lengths: &mut Lengths,
) -> u32
    ensures refused { result ≡ 3 → AsksForNothing format flags options.now }
    ensures refuses { AsksForNothing format flags options.now → result ≡ 3 }
    ensures unchanged { IsRefusal result → (output.new ≡ output.old) ×
        ((messages.new ≡ messages.old) × (lengths.new ≡ lengths.old)) }
    ensures answered { (request : Wanted) (limits : RunLimits) →
        AsksFor format flags options.now request limits →
        IsReason (job_of request) limits state.now result ⊎
        EndAnswer (job_of request) limits Whole state.now (used output.old output.new)
        (used messages.old messages.new) lengths.new result }
{
    let ending = SourceEnding::Whole;
    end_so(
        alloc, format, flags, options, state, ending, output, messages, lengths,
    )
}

/// Ends a run as `gregorio_end` does, of an input whose source has failed. Returns 4 if that is how
/// the run ended.
#[unsafe(no_mangle)]
pub extern "C" fn gregorio_broken(
    alloc: Global,
    format: u32,
    flags: u32,
    options: &[Options],
    state: &[u8],
    output: &mut [u8],
    messages: &mut [u8],
    lengths: &mut Lengths,
) -> u32
    ensures refused { result ≡ 3 → AsksForNothing format flags options.now }
    ensures refuses { AsksForNothing format flags options.now → result ≡ 3 }
    ensures unchanged { IsRefusal result → (output.new ≡ output.old) ×
        ((messages.new ≡ messages.old) × (lengths.new ≡ lengths.old)) }
    ensures answered { (request : Wanted) (limits : RunLimits) →
        AsksFor format flags options.now request limits →
        IsReason (job_of request) limits state.now result ⊎
        EndAnswer (job_of request) limits Broken state.now (used output.old output.new)
        (used messages.old messages.new) lengths.new result }
{
    let ending = SourceEnding::Broken;
    end_so(
        alloc, format, flags, options, state, ending, output, messages, lengths,
    )
}
