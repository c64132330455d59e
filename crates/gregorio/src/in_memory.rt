//! A run over an input in memory, in one piece or in several.

ghost use Rattle.std.specs.Prelude.{◌≡◌, List, [], ◌++◌, ℕ, false};
ghost use Rattle.gregorio.specs.declared.source_ending.SourceEnding.{SourceEnding as EndOfSource};
ghost use Rattle.gregorio.specs.declared.source_ending.SourceEnding.TheVariants.{Broken, Whole};
ghost use Rattle.gregorio.specs.Engine.{IsPrompt, IsRunOver, NothingWaits, StillRuns, is_running};
ghost use Rattle.gregorio.specs.Streams.{TakeTheSame};
ghost use Rattle.gregorio.specs.witness.Engine.{streams_left};

use crate::engine::Engine;
use crate::engine_laws;
use crate::source_ending::SourceEnding;
use gabc_places::Put;
use gregorio_jobs::Status;

/// Puts the waiting output into `out` and the waiting messages into `messages`, and drops them.
pub(crate) fn put_waiting<O: Put, M: Put>(engine: &mut Engine, out: &mut O, messages: &mut M)
    ensures out { out.new ≡ O.taken out.old engine.old.output }
    ensures messages { messages.new ≡ M.taken messages.old engine.old.messages }
    ensures forgets { engine.new ≡ record engine.old { output = []; messages = [] } }
{
    out.put(engine.out());
    messages.put(engine.messages());
    engine.taken();
}

/// Ends a run by `ending`, and puts its last output and messages. Returns the status of the run.
pub(crate) fn end_by<O: Put, M: Put>(
    engine: &mut Engine,
    ending: SourceEnding,
    out: &mut O,
    messages: &mut M,
) -> Status
    requires waits { NothingWaits engine.old }
    ensures { IsRunOver O.taken M.taken engine.old ending [] out.old out.new
        messages.old messages.new result engine.new }
{
    let status = match ending {
        SourceEnding::Whole => engine.end(),
        SourceEnding::Broken => engine.broken(),
    };
    put_waiting(engine, out, messages);
    status
}

impl Engine {
    /// Feeds all of `piece`, and puts the output and messages of it into `out` and `messages`.
    /// Nothing may wait before, and nothing waits afterwards. The bytes put by this call and those
    /// still to be written then are together those that were to be written before, whatever follows
    /// the piece and however the input ends: how it is cut into pieces changes nothing. All that is
    /// known is put, but for the pending syllable. After a fatal fault or the end it puts nothing,
    /// and changes nothing. If `out` or `messages` takes less than all, it is left as its `put`
    /// leaves it.
    pub fn feed_all<O: Put, M: Put>(&mut self, piece: &[u8], out: &mut O, messages: &mut M)
        requires waits { NothingWaits self.old }
        ensures waits { NothingWaits self.new }
        ensures put { (ending : EndOfSource) (more : List ℕ) → TakeTheSame O.taken M.taken
            out.old messages.old (streams_left self.old ending (piece.now ++ more))
            out.new messages.new (streams_left self.new ending more) }
        ensures prompt { IsPrompt self.new.written.format (streams_left self.new Broken []) }
        ensures job { StillRuns self.old self.new }
        ensures over { is_running self.old ≡ false → self.new ≡ self.old }
        ensures hasher { self.new.heads.hasher ≡ self.old.heads.hasher }
    {
        let mut count = 0;
        while count < piece.len() {
            count += self.fill(&piece[count..]);
            put_waiting(self, out, messages);
        }
        engine_laws::nothing_is_kept_back(self);
    }

    /// Reads `input`, the whole rest of the input, and puts all that is still to be written into
    /// `out` and `messages`. Returns the status of the run. Nothing may wait before, and nothing
    /// waits afterwards: the run is over then, as after `end`. If `out` or `messages` takes less
    /// than all, it is left as its `put` leaves it; a `ByteCounter` counts all bytes.
    pub fn run_over<O: Put, M: Put>(
        &mut self,
        input: &[u8],
        out: &mut O,
        messages: &mut M,
    ) -> Status
        requires waits { NothingWaits self.old }
        ensures { IsRunOver O.taken M.taken self.old Whole input.now out.old out.new
            messages.old messages.new result self.new }
    {
        self.feed_all(input, out, messages);
        end_by(self, SourceEnding::Whole, out, messages)
    }
}
