//! The steps of a run in pieces, each from the bytes of a state.

ghost use Rattle.std.specs.Prelude.{◌≡◌, ◌++◌, [], false, true, IfErr, IfOk, OnOk};
ghost use Rattle.gregorio.specs.Engine.{IsPrompt, NothingWaits, RunsJob, StillRuns, fault_of, is_running, with_waiting};
ghost use Rattle.gregorio.specs.Streams.{ended_with};
ghost use Rattle.gregorio_jobs.specs.Status.{code_of};
ghost use Rattle.gregorio.specs.declared.source_ending.SourceEnding.TheVariants.{Broken};
ghost use Rattle.gregorio.specs.witness.Engine.{streams_left};
ghost use Rattle.gregorio.specs.witness.StandsFor.{StandsFor};
ghost use Rattle.gregorio_c.specs.StepAnswers.{IsReason, lengths_of, step_of};
ghost use Rattle.gregorio_c.specs.Steps.{Begins, Ends, Feeds, goes_on, job_of};
ghost use Rattle.gregorio_c.specs.machine.Steps.{EndedAs, FedAs, Gathers, StandsAlone, number_of};

use crate::lengths::Lengths;
use crate::options::Asked;
use crate::step::Step;
use gabc_places::Limits;
use gregorio::run_ends::a_run_ends_by_its_input;
use gregorio::{Engine, Job, SourceEnding, StateFault, Status};
use std::alloc::{AllocError, Global};
use std::hash::DefaultHasher;
use std::marker::Model;

/// The answer if a run goes on.
pub(crate) const GOES_ON: u32 = 6;

/// The reason why a step is not made.
#[derive(Clone, Copy, PartialEq, Eq)]
pub(crate) enum Refusal {
    /// There is no memory.
    NoMemory,
    /// The bytes are no saved state.
    NoState,
    /// The bytes are the state of another run.
    OtherState,
}

/// The output and the messages that a step has gathered.
#[derive(Drop)]
struct Texts {
    output: Vec<u8>,
    messages: Vec<u8>,
}

/// The result of a step. The state is empty if the run is over.
#[derive(Drop)]
pub(crate) struct Made {
    texts: Texts,
    state: Vec<u8>,
    number: u32,
}

impl Model for Made {
    ghost use Rattle.gregorio_c.specs.Steps as steps;

    ghost Value = { steps.Made };

    ghost view = { λ m. record {
      output = m.texts.output.items;
      lines = m.texts.messages.items;
      state = m.state.items;
      number = m.number;
    } };
}

impl Made {
    /// Returns the bytes of the output.
    pub(crate) fn output(&self) -> &[u8]
        ensures { result.now ≡ self.now.output }
    {
        self.texts.output.as_slice()
    }

    /// Returns the lines of the messages.
    pub(crate) fn messages(&self) -> &[u8]
        ensures { result.now ≡ self.now.lines }
    {
        self.texts.messages.as_slice()
    }

    /// Returns the bytes of the state.
    pub(crate) fn state(&self) -> &[u8]
        ensures { result.now ≡ self.now.state }
    {
        self.state.as_slice()
    }

    /// Returns the lengths of the state and the texts.
    pub(crate) fn step(&self) -> Step
        ensures { result ≡ step_of self.now }
    {
        Step {
            state: self.state().len(),
            output: self.output().len(),
            messages: self.messages().len(),
        }
    }

    /// Returns the lengths of the texts.
    pub(crate) fn lengths(&self) -> Lengths
        ensures { result ≡ lengths_of self.now }
    {
        Lengths {
            output: self.output().len(),
            messages: self.messages().len(),
        }
    }

    /// Returns the number of the answer.
    pub(crate) fn number(&self) -> u32
        ensures { result ≡ self.now.number }
    {
        self.number
    }
}

/// Returns texts of no bytes.
fn no_texts(alloc: Global) -> Texts
    ensures output { result.output.items ≡ [] }
    ensures messages { result.messages.items ≡ [] }
{
    Texts {
        output: Vec::new(alloc),
        messages: Vec::new(alloc),
    }
}

/// Moves the bytes that wait in `engine` to the end of `texts`.
fn gather(engine: &mut Engine, texts: &mut Texts) -> Result<(), AllocError>
    ensures output { OnOk result (texts.new.output.items
        ≡ texts.old.output.items ++ engine.old.output) }
    ensures messages { OnOk result (texts.new.messages.items
        ≡ texts.old.messages.items ++ engine.old.messages) }
    ensures forgets { OnOk result (engine.new
        ≡ record engine.old { output = []; messages = [] }) }
{
    texts.output.extend_from_slice(engine.out())?;
    texts.messages.extend_from_slice(engine.messages())?;
    engine.taken();
    Ok(())
}

/// Feeds all of `piece` to `engine`, and returns the texts that it writes.
fn feed_piece(alloc: Global, engine: &mut Engine, piece: &[u8]) -> Result<Texts, AllocError>
    requires waits { NothingWaits engine.old }
    ensures waits { OnOk result (NothingWaits engine.new) }
    ensures job { OnOk result (StillRuns engine.old engine.new) }
    ensures gathers { IfOk result (λ texts. Gathers engine.old piece.now
        texts.output.items texts.messages.items engine.new) }
    ensures prompt { OnOk result (IsPrompt engine.new.written.format
        (streams_left engine.new Broken [])) }
{
    let mut texts = no_texts(alloc);
    let mut count = 0;
    loop {
        count += engine.fill(&piece[count..]);
        gather(engine, &mut texts)?;
        if count == piece.len() {
            return Ok(texts);
        }
    }
}

/// Returns the saved state of `engine`, which stands for what its run will still write.
fn state_by(
    alloc: Global,
    engine: &Engine,
    job: &Job,
    limits: Limits,
) -> Result<Vec<u8>, AllocError>
    requires runs { is_running engine.now ≡ true }
    requires waits { NothingWaits engine.now }
    requires job { RunsJob job.now limits engine.now }
    ensures { IfOk result (λ state.
        StandsFor job.now limits state.items (streams_left engine.now)) }
{
    let mut state = Vec::from_elem(alloc, 0u8, engine.state_len())?;
    let Ok(_) = engine.save_into(state.as_mut_slice()) else {
        unreachable!()
    };
    gregorio::restored_laws::what_is_saved_stands(engine, job, limits, state.as_slice());
    Ok(state)
}

/// Returns the result of a step that makes nothing but `state`.
fn first_of(alloc: Global, state: Vec<u8>) -> Made
    ensures { result ≡ record { output = []; lines = []; state = state.items; number = goes_on } }
{
    Made {
        texts: no_texts(alloc),
        state,
        number: GOES_ON,
    }
}

/// Returns the result of the step that begins a run: its first state. The table of the headers'
/// names hashes from `hasher` on.
pub(crate) fn begin(alloc: Global, asked: Asked, hasher: DefaultHasher) -> Result<Made, Refusal>
    ensures begins { IfOk result (Begins (job_of asked.request) asked.limits) }
    ensures memory { IfErr result (λ refusal. refusal ≡ Refusal.NoMemory) }
{
    let job = asked.request.job();
    match Engine::with_hasher(alloc, &job, asked.limits, hasher) {
        Ok(engine) => {
            let state = state_by(alloc, &engine, &job, asked.limits);
            // A proof follows a call faster than all that lies inside an engine.
            drop(engine);
            match state {
                Ok(state) => Ok(first_of(alloc, state)),
                Err(_) => Err(Refusal::NoMemory),
            }
        }
        Err(_) => Err(Refusal::NoMemory),
    }
}

/// Returns the engine of `job` that is restored from the state `before`.
fn restored(
    alloc: Global,
    job: &Job,
    limits: Limits,
    hasher: DefaultHasher,
    before: &[u8],
) -> Result<Engine, Refusal>
    ensures runs { IfOk result (λ engine. is_running engine ≡ true) }
    ensures waits { IfOk result (λ engine. NothingWaits engine) }
    ensures job { IfOk result (λ engine. RunsJob job.now limits engine) }
    ensures stands { IfOk result (λ engine.
        StandsAlone job.now limits before.now (streams_left engine)) }
    ensures reason { IfErr result (λ refusal.
        IsReason job.now limits before.now (number_of refusal)) }
{
    match Engine::restore_with_hasher(alloc, job, limits, before, hasher) {
        Ok(engine) => {
            gregorio::restored_laws::what_is_saved_stands(&engine, job, limits, before);
            Ok(engine)
        }
        Err(StateFault::K0) => Err(Refusal::NoMemory),
        Err(StateFault::K1) => Err(Refusal::NoState),
        Err(StateFault::K2) => Err(Refusal::OtherState),
    }
}

/// Feeds `piece` to `engine`, and returns the result of that step.
fn fed_by(
    alloc: Global,
    engine: &mut Engine,
    job: &Job,
    limits: Limits,
    piece: &[u8],
) -> Result<Made, AllocError>
    requires runs { is_running engine.old ≡ true }
    requires waits { NothingWaits engine.old }
    requires job { RunsJob job.now limits engine.old }
    ensures { IfOk result (FedAs job.now limits (streams_left engine.old) piece.now) }
{
    a_run_ends_by_its_input();
    let texts = feed_piece(alloc, engine, piece)?;
    if engine.running() {
        let state = state_by(alloc, engine, job, limits)?;
        return Ok(Made {
            texts,
            state,
            number: GOES_ON,
        });
    }
    let status = engine.end();
    Ok(last_by(alloc, texts, status))
}

/// Returns the result of the last step of a run, which writes `texts` and ends with `status`.
fn last_by(alloc: Global, texts: Texts, status: Status) -> Made
    ensures { result ≡ record {
      output = texts.output.items;
      lines = texts.messages.items;
      state = [];
      number = code_of status;
    } }
{
    Made {
        texts,
        state: Vec::new(alloc),
        number: u32::from(status.code()),
    }
}

/// Ends the input of `engine` with this `ending`, and returns the status of the run.
fn end_engine(engine: &mut Engine, ending: SourceEnding) -> Status
    requires { NothingWaits engine.old }
    ensures { streams_left engine.old ending []
        ≡ with_waiting engine.new (ended_with result (fault_of engine.new)) }
{
    match ending {
        SourceEnding::Whole => engine.end(),
        SourceEnding::Broken => engine.broken(),
    }
}

/// Ends the input of `engine` with this `ending`, and returns the result of that step.
fn ended_by(alloc: Global, engine: &mut Engine, ending: SourceEnding) -> Result<Made, AllocError>
    requires runs { is_running engine.old ≡ true }
    requires waits { NothingWaits engine.old }
    ensures { IfOk result (EndedAs ending (streams_left engine.old)) }
{
    a_run_ends_by_its_input();
    let status = end_engine(engine, ending);
    let mut texts = no_texts(alloc);
    gather(engine, &mut texts)?;
    Ok(last_by(alloc, texts, status))
}

/// Returns the result of the step that feeds `piece` to the run whose state is `before`. The table
/// of the headers' names hashes from `hasher` on.
pub(crate) fn feed(
    alloc: Global,
    asked: Asked,
    hasher: DefaultHasher,
    before: &[u8],
    piece: &[u8],
) -> Result<Made, Refusal>
    ensures feeds { IfOk result
        (Feeds (job_of asked.request) asked.limits before.now piece.now) }
    ensures reason { IfErr result (λ refusal.
        IsReason (job_of asked.request) asked.limits before.now (number_of refusal)) }
{
    let job = asked.request.job();
    let mut engine = restored(alloc, &job, asked.limits, hasher, before)?;
    let made = fed_by(alloc, &mut engine, &job, asked.limits, piece);
    drop(engine);
    match made {
        Ok(made) => Ok(made),
        Err(_) => Err(Refusal::NoMemory),
    }
}

/// Returns the result of the step that ends the run whose state is `before` with this `ending` of
/// its input.
pub(crate) fn end(
    alloc: Global,
    asked: Asked,
    hasher: DefaultHasher,
    before: &[u8],
    ending: SourceEnding,
) -> Result<Made, Refusal>
    ensures ends { IfOk result
        (Ends (job_of asked.request) asked.limits ending before.now) }
    ensures reason { IfErr result (λ refusal.
        IsReason (job_of asked.request) asked.limits before.now (number_of refusal)) }
{
    let job = asked.request.job();
    let mut engine = restored(alloc, &job, asked.limits, hasher, before)?;
    let made = ended_by(alloc, &mut engine, ending);
    drop(engine);
    match made {
        Ok(made) => Ok(made),
        Err(_) => Err(Refusal::NoMemory),
    }
}
