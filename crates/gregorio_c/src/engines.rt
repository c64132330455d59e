//! Engines for the scores of calls.

ghost use Rattle.std.specs.Prelude.{◌≡◌, ℕ, List, IfOk};
ghost use Rattle.gabc_headers.specs.TooLong.{is_stopped_too_long};
ghost use Rattle.gabc_places.specs.LargerLimits.{AreNoLess};
ghost use Rattle.gregorio.specs.declared.source_ending.SourceEnding.TheVariants.{Whole};
ghost use Rattle.gregorio.specs.Engine.{NothingWaits};
ghost use Rattle.gregorio.specs.witness.Engine.{streams_left};
ghost use Rattle.gregorio_c.specs.machine.Streams.{streams_of_score};

use crate::request::Request;
use gabc_places::{Code, Fault, Limits};
use gregorio::Engine;
use std::alloc::{AllocError, Global};
use std::hash::{DefaultHasher, Hasher};

/// Returns a hasher that has taken the words of `key`; without words it is a fresh one.
pub(crate) fn hasher_of(key: &[u64]) -> DefaultHasher {
    let mut hasher = DefaultHasher::new();
    for word in key {
        hasher.write_u64(*word);
    }
    hasher
}

/// Returns limits for a run over `score` that few scores of its length exceed: its headers and a
/// syllable may have 64 bytes more than twice its bytes, but no more than under the `usual` limits.
/// The smaller the limit of the headers, the less time it takes to make an engine.
pub(crate) fn small_limits(usual: Limits, score: &[u8]) -> Limits
    ensures no_less { AreNoLess result usual }
    ensures input { result.input ≡ usual.input }
{
    let len = u32::try_from(score.len()).unwrap_or(u32::MAX);
    let most = len.saturating_mul(2).saturating_add(64);
    Limits::new(
        usual.header.min(most),
        usual.syllable.min(most),
        usual.input,
    )
    .unwrap_or(usual)
}

/// Returns whether `fault`, which stopped a run if one did, is that the headers or a syllable were
/// too long.
pub(crate) fn is_too_long(fault: Option<Fault>) -> bool
    ensures { result ≡ is_stopped_too_long fault }
{
    match fault {
        Some(fault) => fault.code == Code::F4 || fault.code == Code::F5,
        None => false,
    }
}

/// Returns an engine for `request`, under `limits`. It hashes the names of headers with `key`, and
/// fails only if memory runs out.
pub(crate) fn engine_of(
    alloc: Global,
    request: Request,
    limits: Limits,
    key: &[u64],
) -> Result<Engine, AllocError>
    ensures waits { IfOk result (λ engine. NothingWaits engine) }
    ensures all { IfOk result (λ engine. (score : List ℕ) →
        streams_left engine Whole score ≡ streams_of_score request limits score) }
{
    Engine::with_hasher(alloc, &request.job(), limits, hasher_of(key))
}
