//! Copies what a step has made to the buffers of a caller.

ghost use Rattle.std.specs.Prelude.{◌≡◌, ◌↔◌, ◌≤◌, length, IsTrue};
ghost use Rattle.gregorio_c.specs.StepAnswers.{AllHaveRoom, IsHandedOut, used};
ghost use Rattle.gregorio_c.specs.machine.Steps.{number_of};

use crate::buffers::put;
use crate::steps::{Made, Refusal};

/// The answer if a buffer is too small.
const SHORT: u32 = 7;

/// Returns whether each buffer has room for what is made for it.
fn has_room(made: &Made, state: &[u8], output: &[u8], messages: &[u8]) -> bool
    ensures { IsTrue result ↔ AllHaveRoom made.now (used state.now state.now)
        (used output.now output.now) (used messages.now messages.now) }
{
    made.state().len() <= state.len()
        && made.output().len() <= output.len()
        && made.messages().len() <= messages.len()
}

/// Copies what is made to the heads of the buffers, if there is room for all of it, and returns the
/// number of its answer. Else the buffers stay as they were, and it returns 7.
pub(crate) fn hand_out(made: &Made, state: &mut [u8], output: &mut [u8], messages: &mut [u8]) -> u32
    ensures { IsHandedOut made.now (used state.old state.new) (used output.old output.new)
        (used messages.old messages.new) result }
{
    if !has_room(made, state, output, messages) {
        return SHORT;
    }
    put(made.state(), state);
    put(made.output(), output);
    put(made.messages(), messages);
    made.number()
}

/// Returns the number of the answer if no step is made for this `refusal`.
pub(crate) fn number_of_refusal(refusal: Refusal) -> u32
    ensures { result ≡ number_of refusal }
{
    match refusal {
        Refusal::NoMemory => 5,
        Refusal::NoState => 8,
        Refusal::OtherState => 9,
    }
}
