//! A run that takes its input in pieces.

ghost use Rattle.std.specs.Hash.DefaultHasher.{initial};
ghost use Rattle.std.specs.Prelude.{◌≡◌, ◌<◌, ◌-◌, List, [], ◌∷◌, ◌++◌, length, take, not, true, false, ℕ, Bool, IfOk, None, option_to_list};
ghost use Rattle.gabc_headers.specs.declared.head_event.HeadEvent.{HeadEvent as HeadItem};
ghost use Rattle.gregorio.specs.declared.source_ending.SourceEnding.{SourceEnding as EndOfSource};
ghost use Rattle.gregorio.specs.declared.source_ending.SourceEnding.TheVariants.{Whole, Broken};
ghost use Rattle.gabc_places.specs.declared.limits.Limits.{Limits};
ghost use Rattle.gregorio_jobs.specs.declared.job.Job.{Job};
ghost use Rattle.gregorio_jobs.specs.declared.job.Status.TheVariants.{ReadFault};
ghost use Rattle.gregorio.specs.Outcome.{outcome_of};
ghost use Rattle.gregorio.specs.Engine.{IsEnded, IsPrompt, NothingWaits, RunsJob, StillRuns, TakesFront, fault_of, is_running};
ghost use Rattle.gregorio.specs.witness.Engine.{streams_left};
ghost use Rattle.gregorio.specs.Streams.{streams_of_outcome, ended_with};
ghost use Rattle.gregorio.specs.machine.Engine.{LeavesRoom, MayRead, ReadsItems, event_of_item};
ghost use Rattle.gregorio.specs.machine.InStep.{TakesEvents};
ghost use Rattle.gregorio.specs.machine.Taking.{Takes};
ghost use Rattle.gregorio.specs.machine.ScoreWriter.{FitsEvents, IsShortBook};

use crate::engine_laws;
use crate::rooms::memory_for;
use crate::run_writer::RunWriter;
use crate::score_writer::ScoreWriter;
use gabc_headers::{HeadEvent, HeaderStage};
use gabc_places::{Char, Decoder, Fault, Limits, Room, Stage};
use gabc_score::ScoreStage;
use gregorio_jobs::{Job, Status};
use std::alloc::{AllocError, Global};
use std::hash::DefaultHasher;
use std::marker::Model;

/// Compiles a score that comes in pieces. All that is known of it is written before the next byte
/// is read, and waits until it is taken. Once made, it does not allocate. `fill` takes bytes while
/// there is room for their output and messages; `feed` stops when something waits.
///
/// ```
/// let mut engine = Engine::new(alloc, &job, Limits::DEFAULT)?;
/// let count = engine.fill(piece);     // how many bytes of the piece it took
/// send(engine.out());                 // the bytes that wait
/// report(engine.messages());
/// engine.taken();                     // they were taken: go on with `&piece[count..]`
/// let status = engine.end();          // the input has ended; what waits now is the last
/// ```
#[derive(Drop)]
pub struct Engine {
    pub(crate) decoder: Decoder,
    pub(crate) heads: HeaderStage,
    pub(crate) from_heads: Room<HeadEvent>,
    pub(crate) writer: ScoreWriter,
}

impl Model for Engine {
    ghost use Rattle.gregorio.specs.witness.Engine.{EngineState};
    ghost use Rattle.gregorio.specs.machine.Engine.{IsEngine};

    ghost Value = { EngineState };

    ghost view = { λ e. record {
      decoder = e.decoder;
      heads = e.heads;
      score = e.writer.score;
      written = e.writer.writer.written;
      output = e.writer.writer.out.items;
      messages = e.writer.writer.messages.items;
    } };

    ghost invariant = { λ e. IsEngine e.decoder e.heads e.from_heads e.writer };
}

/// Passes `from_heads` on to `writer`. `heads` has the headers that are read, if they are whole.
fn pass_on(from_heads: &[HeadEvent], heads: &HeaderStage, writer: &mut ScoreWriter)
    requires room { FitsEvents writer.old false from_heads.now }
    requires book { IsShortBook writer.old.score.limits heads.now.book }
    ensures takes { TakesEvents writer.old from_heads.now heads.now.book writer.new }
    ensures room { (ends : Bool) (events : List HeadItem) →
        FitsEvents writer.old ends (from_heads.now ++ events) →
        FitsEvents writer.new ends events }
{
    for event in from_heads {
        writer.push(*event, heads);
    }
}

/// Returns the event for the body of a character or of the fault that stops the text.
fn body_event(item: Result<Char, Fault>) -> HeadEvent
    ensures { result ≡ event_of_item item }
{
    match item {
        Ok(x) => HeadEvent::Body(x),
        Err(fault) => HeadEvent::Stop(fault),
    }
}

/// Reads a character, or the fault that stops the text. After the line `%%` it passes by the stage
/// of headers.
#[inline(always)]
fn read(
    item: Result<Char, Fault>,
    heads: &mut HeaderStage,
    from_heads: &mut Room<HeadEvent>,
    writer: &mut ScoreWriter,
)
    requires { MayRead heads.old from_heads.old writer.old }
    ensures few { from_heads.new.limit ≡ from_heads.old.limit }
    ensures reads { ReadsItems heads.old writer.old (item ∷ []) heads.new writer.new }
{
    if !writer.headed() {
        return read_in_heads(item, heads, from_heads, writer);
    }
    gabc_score::stage_laws::nothing_follows_a_stop();
    writer.pass(body_event(item));
}

/// Reads a character, or the fault that stops the text, by way of the stage of headers.
#[inline(never)]
fn read_in_heads(
    item: Result<Char, Fault>,
    heads: &mut HeaderStage,
    from_heads: &mut Room<HeadEvent>,
    writer: &mut ScoreWriter,
)
    requires heads { writer.old.writer.written.headed ≡ false }
    requires may { MayRead heads.old from_heads.old writer.old }
    ensures few { from_heads.new.limit ≡ from_heads.old.limit }
    ensures reads { ReadsItems heads.old writer.old (item ∷ []) heads.new writer.new }
{
    gabc_headers::laws::canonical_lines_are_within_the_limits();
    gabc_headers::stage_laws::a_held_text_grows();
    gabc_headers::stage_laws::a_percent_ends_the_headers(heads);
    gabc_score::stage_laws::headers_may_come();
    from_heads.clear();
    heads.push(item, from_heads);
    pass_on(from_heads.slice(), heads, writer);
    writer.begin_body(item);
}

/// Reads the item that the decoder has emitted, if it has emitted one.
#[inline(always)]
fn read_decoded(
    item: Option<Result<Char, Fault>>,
    heads: &mut HeaderStage,
    from_heads: &mut Room<HeadEvent>,
    writer: &mut ScoreWriter,
)
    requires { MayRead heads.old from_heads.old writer.old }
    ensures few { from_heads.new.limit ≡ from_heads.old.limit }
    ensures reads { ReadsItems heads.old writer.old (option_to_list item) heads.new writer.new }
{
    if let Some(item) = item {
        read(item, heads, from_heads, writer);
    }
}

impl Engine {
    /// Returns an engine for `job` under `limits`, before the first byte of its input, and reserves
    /// all the memory that it needs. Fails only if memory cannot be allocated. The files that `job`
    /// names are not opened: only its format, the name of its input and whether warnings are
    /// reported count.
    ///
    /// Whatever bytes come, and however they end, it writes the output and the messages of a run
    /// over them, and ends with the status and the fault of this run. It runs, and nothing waits.
    /// No call changes its job or its limits.
    ///
    /// Names of headers are hashed with fixed keys. If strangers choose the names, they can choose
    /// them so that the headers are read slowly (see docs/BENCHMARKS.md): use `with_hasher` for
    /// these.
    pub fn new(alloc: Global, job: &Job, limits: Limits) -> Result<Engine, AllocError>
        ensures all { IfOk result (λ engine. (bytes : List ℕ) (ending : EndOfSource) →
            streams_left engine ending bytes
            ≡ streams_of_outcome job.now (outcome_of limits ending bytes)) }
        ensures waits { IfOk result (λ engine. NothingWaits engine) }
        ensures running { IfOk result (λ engine. is_running engine ≡ true) }
        ensures job { IfOk result (λ engine. RunsJob job.now limits engine) }
        ensures hasher { IfOk result (λ engine. engine.heads.hasher ≡ initial) }
    {
        Engine::with_hasher(alloc, job, limits, DefaultHasher::new())
    }

    /// Returns an engine as `new` does, which hashes the names of headers from `hasher` on, as
    /// `RandomState::new(&rt)?.build_hasher()`. What is written does not depend on it.
    pub fn with_hasher(
        alloc: Global,
        job: &Job,
        limits: Limits,
        hasher: DefaultHasher,
    ) -> Result<Engine, AllocError>
        ensures all { IfOk result (λ engine. (bytes : List ℕ) (ending : EndOfSource) →
            streams_left engine ending bytes
            ≡ streams_of_outcome job.now (outcome_of limits ending bytes)) }
        ensures waits { IfOk result (λ engine. NothingWaits engine) }
        ensures running { IfOk result (λ engine. is_running engine ≡ true) }
        ensures job { IfOk result (λ engine. RunsJob job.now limits engine) }
        ensures hasher { IfOk result (λ engine. engine.heads.hasher ≡ hasher) }
    {
        engine_laws::what_begins_is_written_whole();
        gabc_headers::stage_laws::a_held_text_grows();
        let memory = memory_for(alloc, job, limits)?;
        let from_heads = Room::in_memory(&memory, 2)?;
        let heads = HeaderStage::in_memory(&memory, limits, hasher)?;
        match ScoreWriter::with_limits(&memory, job, limits) {
            Ok(writer) => Ok(Engine {
                decoder: Decoder::new(limits),
                heads,
                from_heads,
                writer,
            }),
            Err(error) => {
                // A proof follows a call faster than all that lies inside a stage.
                drop(heads);
                Err(error)
            }
        }
    }

    /// Returns the decoder.
    pub(crate) fn decoder(&self) -> &Decoder
        ensures { result.now ≡ self.now.decoder }
    {
        &self.decoder
    }

    /// Returns the stage of headers.
    pub(crate) fn heads(&self) -> &HeaderStage
        ensures { result.now ≡ self.now.heads }
    {
        &self.heads
    }

    /// Returns the stage over the score.
    pub(crate) fn score(&self) -> &ScoreStage
        ensures { result.now ≡ self.now.score }
    {
        self.writer.score()
    }

    /// Returns the writer of the run.
    pub(crate) fn run_writer(&self) -> &RunWriter
        ensures { result.now.written ≡ self.now.written }
    {
        self.writer.run_writer()
    }

    /// Returns whether the run is over. If so, each piece is taken whole and changes nothing.
    pub(crate) fn is_over(&self) -> bool
        ensures over { result ≡ not (is_running self.now) }
        ensures takes { result ≡ true → (piece : List ℕ) →
            TakesFront self.now piece (length piece) self.now }
    {
        self.writer.ended().is_some()
    }

    /// Takes `byte`. Before it nothing is kept back.
    #[inline(always)]
    pub(crate) fn take(&mut self, byte: u8)
        requires room { LeavesRoom self.old }
        ensures prompt { IsPrompt self.old.written.format (streams_left self.old Broken []) }
        ensures running { is_running self.old ≡ true →
            (streams_left self.old Broken []).status ≡ ReadFault }
        ensures takes { Takes self.old (byte ∷ []) self.new }
    {
        engine_laws::nothing_is_kept_back(self);
        let item = self.decoder.take(byte);
        read_decoded(
            item,
            &mut self.heads,
            &mut self.from_heads,
            &mut self.writer,
        );
    }

    /// Takes bytes of `piece` until it is used up or output or messages wait, and returns how many
    /// bytes it took: at least one, unless `piece` is empty. Nothing may wait before. The bytes
    /// that wait then and those still to be written after them are together those that were to be
    /// written before: how the input is cut changes nothing. The bytes that wait became known with
    /// the last byte taken, and so did a fatal fault. All that is known waits, but for the pending
    /// syllable: a run that breaks off then has no message left to write, and of the output at most
    /// this syllable and the last text. After a fatal fault or the end it takes the whole piece and
    /// changes nothing.
    pub fn feed(&mut self, piece: &[u8]) -> usize
        requires waits { NothingWaits self.old }
        ensures takes { TakesFront self.old piece.now result self.new }
        ensures all { NothingWaits self.new → result ≡ length piece.now }
        ensures stops { ¬ (NothingWaits self.new) → IsPrompt self.old.written.format
            (streams_left self.old Broken (take (result - 1) piece.now)) }
        ensures fault { is_running self.old ≡ true → ¬ (NothingWaits self.new) →
            (streams_left self.old Broken (take (result - 1) piece.now)).status ≡ ReadFault }
        ensures hasher { self.new.heads.hasher ≡ self.old.heads.hasher }
    {
        gabc_score::stage_laws::the_end_comes_with_the_end();
        let mut count = 0;
        if self.is_over() {
            return piece.len();
        }
        while count < piece.len() && self.nothing_waits() {
            self.take(piece[count]);
            count += 1;
        }
        engine_laws::nothing_is_kept_back(self);
        count
    }

    /// Returns whether nothing waits.
    fn nothing_waits(&self) -> bool
        ensures waits { result ≡ true → NothingWaits self.now }
        ensures some { NothingWaits self.now → result ≡ true }
    {
        self.out().is_empty() && self.messages().is_empty()
    }

    /// Returns the bytes of the output that wait.
    pub fn out(&self) -> &[u8]
        ensures { result.now ≡ self.now.output }
    {
        self.writer.out()
    }

    /// Returns the bytes of the messages that wait: whole lines.
    pub fn messages(&self) -> &[u8]
        ensures { result.now ≡ self.now.messages }
    {
        self.writer.messages()
    }

    /// Drops the bytes that wait, once they were taken. What is still to be written stays.
    pub fn taken(&mut self)
        ensures forgets { self.new ≡ record self.old { output = []; messages = [] } }
        ensures left { (bytes : List ℕ) (ending : EndOfSource) →
            streams_left self.new ending bytes ≡ streams_left self.old ending bytes }
    {
        self.writer.clear();
    }

    /// Ends the input, and returns the status of the run. The last bytes of the run wait then.
    /// Nothing may wait before. Called again, or after a fatal fault, it changes nothing and
    /// returns the same status.
    pub fn end(&mut self) -> Status
        requires waits { NothingWaits self.old }
        ensures { IsEnded self.old Whole result self.new }
    {
        if let Some(ended) = self.writer.ended() {
            return ended.status();
        }
        let item = self.decoder.end();
        read_decoded(
            item,
            &mut self.heads,
            &mut self.from_heads,
            &mut self.writer,
        );
        self.from_heads.clear();
        self.heads.finish(&mut self.from_heads);
        pass_on(self.from_heads.slice(), &self.heads, &mut self.writer);
        self.writer.finish().status()
    }

    /// Ends the run of an input whose source has failed, and returns the status of the run. The
    /// last bytes of the run wait then. Nothing may wait before. Called again, or after a fatal
    /// fault, it changes nothing and returns the same status.
    pub fn broken(&mut self) -> Status
        requires waits { NothingWaits self.old }
        ensures { IsEnded self.old Broken result self.new }
    {
        if let Some(ended) = self.writer.ended() {
            return ended.status();
        }
        // The stages read no end.
        self.writer.finish().status()
    }

    /// Begins again, as a new engine for the same job under the same limits does, whatever it has
    /// read. The bytes that wait are dropped: nothing waits then, and the engine runs. It does not
    /// allocate, and hashes the names of headers as before.
    pub fn restart(&mut self)
        ensures all { (job : Job) (limits : Limits) → RunsJob job limits self.old →
            (bytes : List ℕ) (ending : EndOfSource) → streams_left self.new ending bytes
            ≡ streams_of_outcome job (outcome_of limits ending bytes) }
        ensures waits { NothingWaits self.new }
        ensures running { is_running self.new ≡ true }
        ensures job { StillRuns self.old self.new }
        ensures hasher { self.new.heads.hasher ≡ self.old.heads.hasher }
    {
        engine_laws::what_begins_is_written_whole();
        gabc_headers::stage_laws::a_held_text_grows();
        self.decoder = Decoder::new(self.writer.score().limits());
        self.heads.restart();
        self.writer.restart();
    }

    /// Returns whether no fatal fault, `end` or `broken` has come.
    pub fn running(&self) -> bool
        ensures { result ≡ is_running self.now }
    {
        self.writer.ended().is_none()
    }

    /// Returns the fatal fault that stopped the run, with its place. It is known from the byte or
    /// the end that makes it so until `restart`, and the last message reports it. Returns `None`
    /// while the run goes on, and after an input that was read to its end or whose source failed.
    pub fn fault(&self) -> Option<Fault>
        ensures fault { result ≡ fault_of self.now }
        ensures known { result ≡ (streams_left self.now Broken []).fault }
        ensures running { is_running self.now ≡ true → result ≡ None }
        ensures over { is_running self.now ≡ false → (bytes : List ℕ) (ending : EndOfSource) →
            (streams_left self.now ending bytes).fault ≡ result }
    {
        engine_laws::nothing_is_kept_back(self);
        self.writer.ended()?.fault()
    }
}
