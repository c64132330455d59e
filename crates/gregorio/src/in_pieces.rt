//! A run whose input comes in pieces, with no state saved between them. The contract of the one
//! function is a law, and its body makes the calls.

ghost use Rattle.gregorio.specs.Engine.{IsRunOver, NothingWaits};
ghost use Rattle.gregorio.specs.Streams.{joined};

use crate::engine::Engine;
use crate::in_memory::end_by;
use crate::source_ending::SourceEnding;
use gabc_places::Put;
use gregorio_jobs::Status;

/// Law: however an input is cut into `pieces`, and whichever `ending` it has, `engine` writes of
/// them what it writes of the whole input, and ends with the same status and the same fault. An
/// engine that has taken nothing writes what `compile` writes. Nothing may wait before, and nothing
/// waits afterwards: the run is over then, as after `end`.
pub fn an_input_may_come_in_pieces<O: Put, M: Put>(
    engine: &mut Engine,
    pieces: &[&[u8]],
    ending: SourceEnding,
    out: &mut O,
    messages: &mut M,
) -> Status
    requires waits { NothingWaits engine.old }
    ensures { IsRunOver O.taken M.taken engine.old ending (joined pieces.now) out.old out.new
        messages.old messages.new result engine.new }
{
    for piece in pieces {
        engine.feed_all(piece, out, messages);
    }
    end_by(engine, ending, out, messages)
}
