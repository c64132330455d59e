//! A run in pieces as a whole. The contract of the one public function is a law, and its body makes
//! the calls.

ghost use Rattle.std.specs.Prelude.{◌≡◌, ◌↔◌, ◌⊎◌, [], take, Err, IfErr, IfOk, IsTrue};
ghost use Rattle.gabc_places.specs.declared.limits.Limits.{Limits as RunLimits};
ghost use Rattle.gregorio.specs.Streams.{joined};
ghost use Rattle.gregorio_c.specs.Asked.{AsksFor, AsksForNothing};
ghost use Rattle.gregorio_c.specs.StepAnswers.{EndAnswer, IsReason, used};
ghost use Rattle.gregorio_c.specs.Steps.{Writes, job_of, run_of};
ghost use Rattle.gregorio_c.specs.declared.request.Request.{Request as Wanted};
ghost use Rattle.gregorio_c.specs.InPieces.{MayFail, PutsLast};
ghost use Rattle.gregorio_c.specs.machine.InPieces.{PutsFed, fed_as};
ghost use Rattle.gregorio_c.specs.machine.Steps.{WritesNothing};
ghost use Rattle.gregorio.specs.witness.StandsFor.{StandsFor};

use crate::lengths::Lengths;
use crate::options::Options;
use crate::pieces::{front, gregorio_begin, gregorio_broken, gregorio_end, gregorio_feed};
use crate::step::Step;
use crate::steps::GOES_ON;
use gabc_places::Put;
use gregorio::SourceEnding;
use std::alloc::Global;

/// The numbers and the options that each call of a run takes.
#[derive(Clone, Copy)]
pub struct Numbers<'a> {
    /// The number of the format.
    pub format: u32,
    /// The flags.
    pub flags: u32,
    /// Limits and a key, one or none.
    pub options: &'a [Options],
}

/// The state of a run after a piece.
enum Fed {
    /// It goes on, and its state has this number of bytes.
    On(usize),
    /// It is over, and answered this number.
    Over(u32),
}

/// Returns whether this is the number of an answer with which no output and no messages are
/// written.
fn writes_nothing(number: u32) -> bool
    ensures { IsTrue result ↔ WritesNothing number }
{
    number == 3 || number == 5 || number >= 7
}

/// Returns the state of a run that answered `number`, and whose saved state has `len` bytes then.
fn fed_by(number: u32, len: usize) -> Fed
    ensures { result ≡ fed_as number len }
{
    if number == GOES_ON {
        Fed::On(len)
    } else {
        Fed::Over(number)
    }
}

/// Begins a run, and returns the number of bytes of its first state. The error is the number of an
/// answer with which nothing is written.
fn begin_one(alloc: Global, numbers: &Numbers<'_>, state: &mut [u8]) -> Result<usize, u32>
    ensures begun { (request : Wanted) (limits : RunLimits) →
        AsksFor numbers.now.format numbers.now.flags numbers.now.options.now request limits →
        IfOk result (λ len. StandsFor (job_of request) limits (take len state.new)
        (run_of (job_of request) limits)) }
    ensures error { (request : Wanted) (limits : RunLimits) →
        AsksFor numbers.now.format numbers.now.flags numbers.now.options.now request limits →
        IfErr result MayFail }
    ensures nothing { AsksForNothing numbers.now.format numbers.now.flags numbers.now.options.now →
        result ≡ Err 3 }
{
    let mut step = Step {
        state: 0,
        output: 0,
        messages: 0,
    };
    let (format, flags, options) = (numbers.format, numbers.flags, numbers.options);
    let number = gregorio_begin(alloc, format, flags, options, state, &mut step);
    if writes_nothing(number) {
        return Err(number);
    }
    Ok(step.state)
}

/// Feeds `piece` to the run whose state are the first `len` bytes of `state`, and puts the output
/// and the messages of this step into `out` and `lines`. The error is the number of an answer with
/// which nothing is written.
fn feed_one<O: Put, M: Put>(
    alloc: Global,
    numbers: &Numbers<'_>,
    state: &mut [u8],
    len: usize,
    piece: &[u8],
    output: &mut [u8],
    messages: &mut [u8],
    out: &mut O,
    lines: &mut M,
) -> Result<Fed, u32>
    ensures fed { (request : Wanted) (limits : RunLimits) →
        AsksFor numbers.now.format numbers.now.flags numbers.now.options.now request limits →
        (left : Writes) → StandsFor (job_of request) limits (take len state.old) left →
        IfOk result (PutsFed O.taken M.taken (job_of request) limits left piece.now
        out.old lines.old state.new out.new lines.new) }
    ensures error { (request : Wanted) (limits : RunLimits) →
        AsksFor numbers.now.format numbers.now.flags numbers.now.options.now request limits →
        (left : Writes) → StandsFor (job_of request) limits (take len state.old) left →
        IfErr result MayFail }
{
    let mut step = Step {
        state: 0,
        output: 0,
        messages: 0,
    };
    gregorio::restored_laws::bytes_are_of_one_state(front(state, len));
    let number = gregorio_feed(
        alloc,
        numbers.format,
        numbers.flags,
        numbers.options,
        state,
        len,
        piece,
        output,
        messages,
        &mut step,
    );
    if writes_nothing(number) {
        return Err(number);
    }
    out.put(front(output, step.output));
    lines.put(front(messages, step.messages));
    Ok(fed_by(number, step.state))
}

/// Ends the run whose state is `state` by the call for this `ending` of its input, and returns the
/// number of the answer.
fn end_by(
    alloc: Global,
    numbers: &Numbers<'_>,
    state: &[u8],
    ending: SourceEnding,
    output: &mut [u8],
    messages: &mut [u8],
    lengths: &mut Lengths,
) -> u32
    ensures { (request : Wanted) (limits : RunLimits) →
        AsksFor numbers.now.format numbers.now.flags numbers.now.options.now request limits →
        IsReason (job_of request) limits state.now result ⊎
        EndAnswer (job_of request) limits ending state.now (used output.old output.new)
        (used messages.old messages.new) lengths.new result }
{
    let (format, flags, options) = (numbers.format, numbers.flags, numbers.options);
    match ending {
        SourceEnding::Whole => {
            gregorio_end(
                alloc, format, flags, options, state, output, messages, lengths,
            )
        }
        SourceEnding::Broken => {
            gregorio_broken(
                alloc, format, flags, options, state, output, messages, lengths,
            )
        }
    }
}

/// Ends the run whose state is `state`, and puts the last of the output and of the messages into
/// `out` and `lines`. Returns the number of the answer. The error is that of an answer with which
/// nothing is written.
fn end_one<O: Put, M: Put>(
    alloc: Global,
    numbers: &Numbers<'_>,
    state: &[u8],
    ending: SourceEnding,
    output: &mut [u8],
    messages: &mut [u8],
    out: &mut O,
    lines: &mut M,
) -> Result<u32, u32>
    ensures ended { (request : Wanted) (limits : RunLimits) →
        AsksFor numbers.now.format numbers.now.flags numbers.now.options.now request limits →
        (left : Writes) → StandsFor (job_of request) limits state.now left →
        IfOk result (PutsLast O.taken M.taken (left ending []) out.old lines.old
        out.new lines.new) }
    ensures error { (request : Wanted) (limits : RunLimits) →
        AsksFor numbers.now.format numbers.now.flags numbers.now.options.now request limits →
        (left : Writes) → StandsFor (job_of request) limits state.now left →
        IfErr result MayFail }
{
    let mut lengths = Lengths {
        output: 0,
        messages: 0,
    };
    gregorio::restored_laws::bytes_are_of_one_state(state);
    let number = end_by(
        alloc,
        numbers,
        state,
        ending,
        output,
        messages,
        &mut lengths,
    );
    if writes_nothing(number) {
        return Err(number);
    }
    out.put(front(output, lengths.output));
    lines.put(front(messages, lengths.messages));
    Ok(number)
}

/// Feeds a run in `pieces`, each by a call of its own that is given nothing but the bytes of the
/// state before: however its input is cut, the run writes the output and the messages and answers
/// the status of a run over the pieces joined. They are put into `out` and `lines`. `state`,
/// `output` and `messages` are the buffers of the calls. The error is 3 if the numbers ask for
/// nothing, else 5, if there is too little memory, or 7, if a buffer is too small. That it makes a
/// call for each piece is seen in its body, and is in no clause.
pub fn a_run_may_be_fed_in_pieces<O: Put, M: Put>(
    alloc: Global,
    numbers: &Numbers<'_>,
    pieces: &[&[u8]],
    ending: SourceEnding,
    state: &mut [u8],
    output: &mut [u8],
    messages: &mut [u8],
    out: &mut O,
    lines: &mut M,
) -> Result<u32, u32>
    ensures written { (request : Wanted) (limits : RunLimits) →
        AsksFor numbers.now.format numbers.now.flags numbers.now.options.now request limits →
        IfOk result (PutsLast O.taken M.taken
        (run_of (job_of request) limits ending (joined pieces.now)) out.old lines.old
        out.new lines.new) }
    ensures error { (request : Wanted) (limits : RunLimits) →
        AsksFor numbers.now.format numbers.now.flags numbers.now.options.now request limits →
        IfErr result MayFail }
    ensures nothing { AsksForNothing numbers.now.format numbers.now.flags numbers.now.options.now →
        result ≡ Err 3 }
{
    let mut len = begin_one(alloc, numbers, state)?;
    for piece in pieces {
        let fed = match feed_one(
            alloc, numbers, state, len, piece, output, messages, out, lines,
        ) {
            Ok(fed) => fed,
            Err(number) => return Err(number),
        };
        match fed {
            Fed::On(next) => len = next,
            Fed::Over(number) => return Ok(number),
        }
    }
    end_one(
        alloc,
        numbers,
        front(state, len),
        ending,
        output,
        messages,
        out,
        lines,
    )
}
