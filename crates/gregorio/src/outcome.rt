//! The outcome of a run.

ghost use Rattle.std.specs.Prelude.{◌≡◌, IfOk};
ghost use Rattle.gregorio.specs.Outcome.{outcome_of, ending_by, is_cut_short as cut_short, status_of};

use crate::findings::status_by;
use crate::source_ending::SourceEnding;
use gabc_places::{Fault, Limits, text_of};
use gabc_score::{Score, score_whole_with_hasher};
use gregorio_jobs::Status;
use std::alloc::{AllocError, Global};
use std::hash::DefaultHasher;

/// The outcome of a run: its score, and whether it was cut short since the source failed.
#[derive(Drop)]
pub struct Outcome {
    /// The score as far as it was read.
    pub score: Score,
    /// Whether the source failed, and no fault stopped the run.
    pub broken: bool,
}

/// Returns the end of a text: the fault that stopped it, if there is one, or else the end of the
/// source.
fn ending_of(ending: SourceEnding, fault: Option<Fault>) -> gabc_score::InputEnding
    ensures { result ≡ ending_by ending fault }
{
    match (fault, ending) {
        (Some(fault), _) => gabc_score::InputEnding::At(fault),
        (None, SourceEnding::Broken) => gabc_score::InputEnding::Broken,
        (None, SourceEnding::Whole) => gabc_score::InputEnding::Whole,
    }
}

/// Returns whether the source failed, and no fault stops the run.
fn is_cut_short(ending: SourceEnding, fault: Option<Fault>) -> bool
    ensures { result ≡ cut_short ending fault }
{
    match (fault, ending) {
        (None, SourceEnding::Broken) => true,
        _ => false,
    }
}

impl Outcome {
    /// Reads the score of `bytes` under `limits`. The bytes are a whole input, or those that came
    /// before its source failed, as `ending` says. Fails only if memory cannot be allocated. The
    /// names of headers are hashed with a fixed key: if strangers write the bytes and
    /// `limits.header` is large, use `of_with_hasher`.
    pub fn of(
        alloc: Global,
        bytes: &[u8],
        ending: SourceEnding,
        limits: Limits,
    ) -> Result<Outcome, AllocError>
        ensures { IfOk result (λ outcome. outcome ≡ outcome_of limits ending bytes.now) }
    {
        Outcome::of_with_hasher(alloc, bytes, ending, limits, DefaultHasher::new())
    }

    /// Reads the score of `bytes` as `of` does, and hashes the names of its headers from `hasher`
    /// on. What it returns does not depend on `hasher`.
    pub fn of_with_hasher(
        alloc: Global,
        bytes: &[u8],
        ending: SourceEnding,
        limits: Limits,
        hasher: DefaultHasher,
    ) -> Result<Outcome, AllocError>
        ensures { IfOk result (λ outcome. outcome ≡ outcome_of limits ending bytes.now) }
    {
        let ended = ending == SourceEnding::Whole;
        let decoded = text_of(alloc, bytes, ended, limits)?;
        let how = ending_of(ending, decoded.fault);
        let score = score_whole_with_hasher(alloc, &decoded.text, how, limits, hasher)?;
        let broken = is_cut_short(ending, score.fault);
        Ok(Outcome { score, broken })
    }

    /// Returns the status of the run.
    pub fn status(&self) -> Status
        ensures { result ≡ status_of self.now }
    {
        status_by(&self.score, self.broken)
    }
}
