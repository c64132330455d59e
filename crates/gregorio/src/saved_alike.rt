//! The law by which a saved state stands for all that is still written: two engines that save the
//! same write the same of whatever follows. It is about the views of engines, since the engine that
//! saved a state may be gone. Each function's contract is a law, and its body calls the laws that
//! it rests on.

ghost use Rattle.std.specs.Prelude.{◌≡◌, List, ℕ, true};
ghost use Rattle.gregorio.specs.declared.source_ending.SourceEnding.{SourceEnding};
ghost use Rattle.gregorio.specs.Engine.{is_running};
ghost use Rattle.gregorio.specs.Saved.{state_of};
ghost use Rattle.gregorio.specs.witness.Engine.{EngineState, streams_left};
ghost use Rattle.gregorio.specs.witness.CanRun.{CanRun};

use crate::engine::Engine;
use gabc_write::saved_alike::{
    what_goes_on_alike_is_written_alike, what_is_saved_alike_goes_on_alike,
};

/// Law: the view of an engine that runs is a state in which an engine can run.
pub fn an_engine_may_run(engine: &Engine)
    requires { is_running engine.now ≡ true }
    ensures { CanRun engine.now }
{
    gabc_places::laws::what_a_decoder_reports_may_be_reported(&engine.decoder);
    gabc_score::stage_laws::a_stage_is_reachable(engine.writer.score());
}

/// Law: two engines that run, have the same name for their inputs and save the same write the same
/// of whatever follows, and end alike: the state has all by which a run goes on. The law is about
/// the views of engines, since one of the two may be gone; the view of each engine that runs is
/// such a state.
pub fn engines_that_save_the_same_agree()
    ensures { (one other : EngineState) → CanRun one → CanRun other →
        one.written.name ≡ other.written.name → state_of one ≡ state_of other →
        (ending : SourceEnding) (bytes : List ℕ) →
        streams_left one ending bytes ≡ streams_left other ending bytes }
{
    gabc_places::laws::decoders_that_report_the_same_agree();
    gabc_headers::stage_laws::stages_of_one_text_agree();
    gabc_headers::stage_laws::stages_after_headers_agree();
    gabc_score::stage_laws::what_is_reported_is_within_the_limits();
    what_is_saved_alike_goes_on_alike();
    what_goes_on_alike_is_written_alike();
}
