//! The amount of memory of an engine, which is reserved when it is made.

ghost use Rattle.std.specs.Prelude.{◌≡◌, ◌+◌, ◌*◌, ◌^◌, ◌<◌, ◌≤◌, [], IfOk};
ghost use Rattle.gregorio.specs.machine.RunWriter.{syllable_room as room_of_syllable, room_without_notes as room_of_no_notes, heads_room as room_of_heads, most_waiting as most_before_a_step, out_room};

use crate::findings::input_name;
use gabc_places::{Limits, Memory, Room};
use gregorio_jobs::{Format, Job};
use std::alloc::{AllocError, Global};

/// The most lines that one byte or the end adds.
const LINES: usize = 128;

/// Returns the number of bytes reserved for a syllable in the format `format`, whose canonical text
/// has at most `limit` bytes.
fn syllable_room(format: Format, limit: usize) -> usize
    requires { limit < 2 ^ 32 }
    ensures { result ≡ room_of_syllable format limit }
{
    match format {
        Format::Gabc => limit + 1,
        Format::Dump => 64 * (limit + 1) + 256,
    }
}

/// Returns the number of bytes reserved for a syllable without notes in the format `format`, whose
/// canonical text has at most `limit` bytes.
fn room_without_notes(format: Format, limit: usize) -> usize
    requires { limit < 2 ^ 32 }
    ensures { result ≡ room_of_no_notes format limit }
{
    match format {
        Format::Gabc => limit + 1,
        Format::Dump => 2 * (limit + 1) + 128,
    }
}

/// Returns the number of bytes reserved for the headers in the format `format`, whose canonical
/// lines have at most `limit` bytes.
fn heads_room(format: Format, limit: usize) -> usize
    requires { limit < 2 ^ 32 }
    ensures { result ≡ room_of_heads format limit }
{
    match format {
        Format::Gabc => limit + 2,
        Format::Dump => 3 * (limit + 2) + 7,
    }
}

/// Returns the number of bytes of the output, and likewise of the messages, that may wait before a
/// step: the limit of the headers, at most 65,536.
pub(crate) fn most_waiting(limits: Limits) -> usize
    ensures { result ≡ most_before_a_step limits }
{
    (limits.header as usize).min(65_536)
}

/// Returns the number of bytes reserved for the output in the format `format` under `limits`.
pub(crate) fn output_room(format: Format, limits: Limits) -> usize
    ensures { result ≡ out_room format limits + most_before_a_step limits }
{
    let syllable = limits.syllable as usize;
    let heads = heads_room(format, limits.header as usize);
    let last = room_without_notes(format, syllable);
    heads + syllable_room(format, syllable) + last + 128 + most_waiting(limits)
}

/// The most bytes of an engine beside its texts: of its small rooms and its two slots.
const SMALL: usize = 4096;

/// Returns memory for an engine of `job` under `limits`, reserved at once.
pub(crate) fn memory_for(alloc: Global, job: &Job, limits: Limits) -> Result<Memory, AllocError> {
    let name = input_name(&job.input).len();
    let kept = limits.header as usize + 2 * limits.syllable as usize + SMALL;
    let messages = name.saturating_add(128).saturating_mul(LINES);
    let bytes = kept
        .saturating_add(output_room(job.format, limits))
        .saturating_add(messages)
        .saturating_add(most_waiting(limits))
        .saturating_add(name);
    Memory::with_capacity(alloc, bytes)
}

/// Returns an empty room in `memory` for the lines of messages that call the input by a name of
/// `len` bytes: for those of a step, and for `waiting` bytes before them.
pub(crate) fn message_room(
    memory: &Memory,
    len: usize,
    waiting: usize,
) -> Result<Room<u8>, AllocError>
    ensures { IfOk result (λ room. (room.items ≡ [])
        × (128 * (len + 128) + waiting ≤ room.limit)) }
{
    let Some(line) = len.checked_add(128) else {
        return Err(AllocError);
    };
    let Some(lines) = line.checked_mul(LINES) else {
        return Err(AllocError);
    };
    let Some(bytes) = lines.checked_add(waiting) else {
        return Err(AllocError);
    };
    Room::in_memory(memory, bytes)
}
