//! Laws of engines: what they write from the beginning, that nothing is kept back, and that what
//! they save is a state. Each function's contract is a law, and its body calls other laws or does
//! nothing.

ghost use Rattle.std.specs.Prelude.{◌≡◌, ℕ, List, [], IsUtf8, None, true};
ghost use Rattle.gabc_headers.specs.witness.HeadEvents.{IsInHeaders};
ghost use Rattle.gabc_neumes.specs.InForce.{InForce};
ghost use Rattle.gabc_places.specs.declared.limits.Limits.{Limits};
ghost use Rattle.gabc_score.specs.ScoreReports.{held_of, reading_of};
ghost use Rattle.gabc_score.specs.declared.score_machine.ScorePart.TheVariants.{Body};
ghost use Rattle.gregorio_jobs.specs.declared.job.Job.{Job};
ghost use Rattle.gregorio_jobs.specs.declared.job.Status.TheVariants.{ReadFault};
ghost use Rattle.gregorio_state.specs.Conditions.{AreStateFields};
ghost use Rattle.gregorio.specs.declared.source_ending.SourceEnding.{SourceEnding as EndOfSource};
ghost use Rattle.gregorio.specs.declared.source_ending.SourceEnding.TheVariants.{Broken};
ghost use Rattle.gregorio.specs.Engine.{IsPrompt, is_running};
ghost use Rattle.gregorio.specs.Outcome.{outcome_of};
ghost use Rattle.gregorio.specs.Saved.{held_text, score_fields, state_of};
ghost use Rattle.gregorio.specs.SavedState.{AreOfState, IsPhaseRead, IsScoreRead};
ghost use Rattle.gregorio.specs.Streams.{streams_of_outcome};
ghost use Rattle.gregorio.specs.witness.Engine.{EngineState, streams_left};
ghost use Rattle.gregorio.specs.machine.Begun.{HasBegun};

use crate::engine::Engine;
use crate::saved_alike::an_engine_may_run;
use gabc_score::ScoreStage;

/// Law: an engine that has taken nothing will write the streams of a run over its whole input.
#[inline(always)]
pub(crate) fn what_begins_is_written_whole()
    ensures { (job : Job) (limits : Limits) (s : EngineState) → HasBegun job limits s →
        (bytes : List ℕ) (ending : EndOfSource) → streams_left s ending bytes
        ≡ streams_of_outcome job (outcome_of limits ending bytes) }
{
    gabc_places::laws::texts_are_scalars_within_the_limit();
    gabc_headers::laws::the_book_is_read();
    gabc_score::laws::a_stage_of_headers_emits_the_events();
    gabc_score::laws::a_score_says_what_it_emits();
    gabc_body::by_kept_laws::a_score_says_what_is_kept();
    gabc_score::laws::nothing_follows_the_end();
    gabc_score::laws::syllables_are_fewer_than_bytes();
    gabc_score::stage_laws::texts_are_read_in_full();
}

/// Law: nothing is kept back but the pending syllable, and no fault is kept back while the engine
/// runs.
#[inline(always)]
pub(crate) fn nothing_is_kept_back(engine: &Engine)
    ensures prompt { IsPrompt engine.now.written.format (streams_left engine.now Broken []) }
    ensures running { is_running engine.now ≡ true →
        (streams_left engine.now Broken []).status ≡ ReadFault }
    ensures fault { is_running engine.now ≡ true →
        (streams_left engine.now Broken []).fault ≡ None }
{
    gabc_score::stage_laws::inputs_that_cease_give_no_stop();
    let score = engine.score();
    gabc_write::laws::what_breaks_off_is_one_syllable(score);
    gabc_score::stage_laws::at_most_one_syllable_is_held(score);
    let _ = engine.writer.ended();
}

/// Law: the texts that a stage over a score reports in the body are read as it reports, if they are
/// in UTF-8.
fn texts_of_a_score_are_read(score: &ScoreStage)
    requires body { score.now.part ≡ Body }
    requires texts { IsUtf8 (held_text score.now.before (held_of score.now))
        × IsUtf8 (reading_of score.now) }
    ensures { (force : InForce) → IsScoreRead score.now.limits (score_fields force score.now) }
{
    gabc_write::laws::what_is_held_may_be_held_by_its_text(score);
    gabc_score::stage_laws::what_is_read_can_be_read_again(score);
    gabc_score::stage_laws::a_comment_in_front_can_be_read_in_a_text();
    gabc_score::kept_laws::what_is_reported_is_kept_again();
}

/// Law: the fields that an engine saves while it runs meet the conditions of a state.
pub(crate) fn saved_fields_are_those_of_a_state(engine: &Engine)
    requires runs { is_running engine.now ≡ true }
    ensures { AreStateFields (state_of engine.now) }
{
    an_engine_may_run(engine);
    gabc_headers::stage_laws::a_held_text_is_within_its_limit();
    gabc_score::stage_laws::what_is_reported_is_within_the_limits();
    gabc_score::stage_laws::what_is_held_is_a_text();
    let alterations = engine.writer.run_writer().alterations();
    let _ = (alterations.clef(), alterations.alters());
}

/// Law: the texts that an engine saves are read as its state says.
fn saved_texts_are_read(engine: &Engine)
    requires runs { is_running engine.now ≡ true }
    requires fields { AreStateFields (state_of engine.now) }
    ensures { IsPhaseRead engine.now.score.limits (state_of engine.now)
        (state_of engine.now).phase }
{
    an_engine_may_run(engine);
    if engine.run_writer().headed() {
        texts_of_a_score_are_read(engine.score());
    }
}

/// Law: the bytes that an engine saves while it runs are a state.
pub(crate) fn what_is_saved_is_a_state(engine: &Engine)
    requires runs { is_running engine.now ≡ true }
    ensures { AreOfState (state_of engine.now) }
{
    saved_fields_are_those_of_a_state(engine);
    saved_texts_are_read(engine);
}

/// Law: after its headers an engine that runs is in the body.
pub(crate) fn the_body_comes_after_the_headers(engine: &Engine)
    requires runs { is_running engine.now ≡ true }
    requires after { IsInHeaders engine.now.heads.progress → ⊥ }
    ensures { engine.now.score.part ≡ Body }
{
    an_engine_may_run(engine);
}
