//! Calls that reserve memory for rooms and stages.

use crate::digest::digest_of;
use crate::trial::{Trial, try_call};
use gabc_headers::HeaderStage;
use gabc_places::{Limits, Memory, Room, Shared, Stage, TrialSink};
use gabc_score::{Before, BodyStage, ScoreStage, Spans};
use gabc_text::TextView;
use std::alloc::{AllocError, Allocator, Global};
use std::hash::DefaultHasher;
use std::io;

/// A call that makes something from numbers alone.
#[derive(Clone, Copy)]
enum Made {
    Room,
    RoomInMemory,
    Memory,
    Arena,
    Owners,
    Sink,
    View,
    BodyStage,
    HeaderStage,
    HashedHeaderStage,
    HeaderStageInMemory,
    ResumedScoreStage,
    ScoreStage,
    ScoreStageInMemory,
    LawfulScoreStage,
}

/// Returns the call with this `name`, if it is one that makes something from numbers.
fn named(name: &str) -> Option<Made> {
    Some(match name {
        "gabc_places::Room::with_limit" => Made::Room,
        "gabc_places::Room::in_memory" => Made::RoomInMemory,
        "gabc_places::Shared::new" => Made::Memory,
        "gabc_places::Shared::share" => Made::Owners,
        "gabc_places::Shared::with_capacity" => Made::Arena,
        "gabc_places::TrialSink::new" => Made::Sink,
        "gabc_text::TextView::with_capacity" => Made::View,
        "gabc_score::BodyStage::new" => Made::BodyStage,
        "gabc_headers::HeaderStage::with_limits" => Made::HeaderStage,
        "gabc_headers::HeaderStage::with_hasher" => Made::HashedHeaderStage,
        "gabc_headers::HeaderStage::in_memory" => Made::HeaderStageInMemory,
        "gabc_score::ScoreStage::resume" => Made::ResumedScoreStage,
        "gabc_score::ScoreStage::with_limits" => Made::ScoreStage,
        "gabc_score::ScoreStage::in_memory" => Made::ScoreStageInMemory,
        "gabc_score::stage_laws::a_fresh_stage_reads_texts" => Made::LawfulScoreStage,
        _ => return None,
    })
}

/// Makes a room in memory with no capacity, and returns a digest of it.
fn room_in_memory(alloc: Global) -> Result<u64, AllocError> {
    let memory = Memory::with_capacity(alloc, 0)?;
    let room: Room<u64> = Room::in_memory(&memory, 3)?;
    Ok(digest_of(&room))
}

/// Makes a room, and returns a digest of it.
fn room(alloc: Global) -> Result<u64, AllocError> {
    let room: Room<u64> = Room::with_limit(alloc, 3)?;
    Ok(digest_of(&room))
}

/// Returns a digest of a list of two numbers that lies in `memory`.
fn list_in<A: Allocator>(memory: A) -> Result<u64, AllocError> {
    let mut list: Vec<u64, A> = Vec::with_capacity(memory, 2)?;
    list.extend_from_slice(&[3, 5])?;
    Ok(digest_of(&list))
}

/// Makes the allocator `alloc` one with several owners, and returns a digest of a list in its
/// memory.
fn memory(alloc: Global) -> Result<u64, AllocError> {
    list_in(Shared::new(alloc, alloc)?)
}

/// Makes an arena, and returns a digest of a list in it.
fn arena(alloc: Global) -> Result<u64, AllocError> {
    list_in(Memory::with_capacity(alloc, 64)?)
}

/// Makes an arena with two owners, and returns a digest of a list in it. The other owner is dropped
/// first.
fn owners(alloc: Global) -> Result<u64, AllocError> {
    let memory = Memory::with_capacity(alloc, 64)?;
    let owner = memory.share()?;
    drop(memory);
    list_in(owner)
}

/// Makes a sink, and returns a digest of the bytes that it holds.
fn sink(alloc: Global) -> Result<u64, AllocError> {
    Ok(digest_of(&TrialSink::new(alloc, 1, 8)?.held()))
}

/// Makes a view with room for pieces, and returns a digest of it.
fn view(alloc: Global) -> Result<u64, AllocError> {
    Ok(digest_of(&TextView::with_capacity(alloc, 64)?))
}

/// Returns a digest of the most events that a stage emits at once, and drops the stage.
fn most_of<S: Stage + Drop>(stage: S) -> u64 {
    digest_of(&stage.most())
}

/// Makes a stage of a body, and returns a digest of the most events that it emits at once.
fn body_stage(alloc: Global) -> Result<u64, AllocError> {
    let memory = Memory::with_capacity(alloc, 0)?;
    Ok(most_of(BodyStage::new(&memory, 1, 0)?))
}

/// Makes a stage of headers, and returns a digest of the most events that it emits at once.
fn header_stage(alloc: Global) -> Result<u64, AllocError> {
    Ok(most_of(HeaderStage::with_limits(alloc, Limits::DEFAULT)?))
}

/// Makes a stage of headers with a hasher, and returns a digest of the most events that it emits at
/// once.
fn hashed_header_stage(alloc: Global) -> Result<u64, AllocError> {
    Ok(most_of(HeaderStage::with_hasher(alloc, Limits::DEFAULT, DefaultHasher::new())?))
}

/// Makes a stage of headers in memory of its own, and returns a digest of the most events that it
/// emits at once.
fn header_stage_in_memory(alloc: Global) -> Result<u64, AllocError> {
    let memory = Memory::with_capacity(alloc, 0)?;
    let hasher = DefaultHasher::new();
    Ok(most_of(HeaderStage::in_memory(&memory, Limits::DEFAULT, hasher)?))
}

/// Makes a stage over a score in memory of its own, and returns a digest of the most events that it
/// emits at once.
fn score_stage_in_memory(alloc: Global) -> Result<u64, AllocError> {
    let memory = Memory::with_capacity(alloc, 0)?;
    Ok(most_of(ScoreStage::in_memory(&memory, Limits::DEFAULT)?))
}

/// Makes a stage over a score, and returns a digest of the most events that it emits at once.
fn score_stage(alloc: Global) -> Result<u64, AllocError> {
    Ok(most_of(ScoreStage::with_limits(alloc, Limits::DEFAULT)?))
}

/// Makes a stage over a score after syllables, and returns a digest of the most events that it
/// emits at once.
fn resumed_score_stage(alloc: Global) -> Result<u64, AllocError> {
    let before = Before {
        nabc_lines: 1,
        macros: 0,
        syllables: 2,
        canonical: 40,
        spans: Spans {
            eu: false,
            nlba: false,
        },
        sounded: true,
    };
    let memory = Memory::with_capacity(alloc, 0)?;
    Ok(most_of(ScoreStage::resume(&memory, Limits::DEFAULT, before)?))
}

/// Makes a stage over a score by the law that returns one, and returns a digest of the most events
/// that it emits at once.
fn lawful_score_stage(alloc: Global) -> Result<u64, AllocError> {
    Ok(most_of(gabc_score::stage_laws::a_fresh_stage_reads_texts(alloc, Limits::DEFAULT)?))
}

impl Trial for Made {
    fn call(&mut self, alloc: Global) -> Result<u64, AllocError> {
        match self {
            Made::Room => room(alloc),
            Made::RoomInMemory => room_in_memory(alloc),
            Made::Memory => memory(alloc),
            Made::Arena => arena(alloc),
            Made::Owners => owners(alloc),
            Made::Sink => sink(alloc),
            Made::View => view(alloc),
            Made::BodyStage => body_stage(alloc),
            Made::HeaderStage => header_stage(alloc),
            Made::HashedHeaderStage => hashed_header_stage(alloc),
            Made::HeaderStageInMemory => header_stage_in_memory(alloc),
            Made::ResumedScoreStage => resumed_score_stage(alloc),
            Made::ScoreStage => score_stage(alloc),
            Made::ScoreStageInMemory => score_stage_in_memory(alloc),
            Made::LawfulScoreStage => lawful_score_stage(alloc),
        }
    }

    fn arguments(&self) -> u64 {
        0
    }
}

/// Tries a call that makes something from numbers. Returns whether there is such a call.
pub(crate) fn is_tried(rt: &HostRuntime, name: &str) -> io::Result<bool> {
    let Some(mut made) = named(name) else {
        return Ok(false);
    };
    try_call(rt, &mut made)?;
    Ok(true)
}
