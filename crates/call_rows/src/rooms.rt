//! Rows of a room of bytes, and of a count of them.

ghost use Rattle.std.specs.Prelude.{◌≡◌, ◌++◌};

use crate::call::Call;
use crate::printed::Printed;
use crate::show::show_bytes;
use gabc_places::{ByteCounter, Put, Room};
use std::alloc::{AllocError, Global};

/// Returns the number of a column; 0 if it is none.
pub(crate) fn number_of(column: &str) -> usize {
    column.parse::<usize>().unwrap_or(0)
}

/// Puts `bytes` two times.
fn put_twice<S: Put>(bytes: &[u8], out: &mut S)
    ensures { out.new ≡ S.taken out.old (bytes.now ++ bytes.now) }
{
    out.put(bytes);
    out.put(bytes);
}

/// Prints the number of bytes for which there is room, whether the room is full, and its bytes.
fn show_room(room: &Room<u8>, out: &mut Printed) {
    out.show(&room.left());
    out.put(if room.is_full() { " full " } else { " open " });
    show_bytes(room.slice(), out);
}

/// Appends all bytes but the last one to a room, pushes this one, and clears the room; prints the
/// room after each step. If a room is too small, nothing is added.
fn answer_room(
    alloc: Global,
    limit: usize,
    bytes: &[u8],
    out: &mut Printed,
) -> Result<(), AllocError> {
    let mut room = Room::with_limit(alloc, limit)?;
    if let Some((last, front)) = bytes.split_last() {
        if front.len() < limit {
            room.append(front);
            show_room(&room, out);
            room.push(*last);
        }
    }
    out.tab();
    show_room(&room, out);
    room.clear();
    out.tab();
    show_room(&room, out);
    Ok(())
}

/// Puts two texts two times each into a room, and prints the room after each.
fn answer_put(
    alloc: Global,
    limit: usize,
    first: &[u8],
    second: &[u8],
    out: &mut Printed,
) -> Result<(), AllocError> {
    let mut room = Room::with_limit(alloc, limit)?;
    put_twice(first, &mut room);
    show_bytes(room.slice(), out);
    out.tab();
    put_twice(second, &mut room);
    show_bytes(room.slice(), out);
    Ok(())
}

/// Counts a text two times, nothing, and another text. Prints the count before it and after it.
fn answer_count(first: &[u8], second: &[u8], out: &mut Printed) {
    let mut counter = ByteCounter::new();
    out.show(&counter.count());
    put_twice(first, &mut counter);
    counter.put(&[]);
    counter.put(second);
    out.tab();
    out.show(&counter.count());
}

/// Prints the answer of a call.
pub(crate) fn answer(alloc: Global, call: Call, out: &mut Printed) -> Result<(), AllocError> {
    let limit = number_of(call.first);
    match call.name {
        "room" => answer_room(alloc, limit, call.bytes, out),
        "put_twice" => answer_put(alloc, limit, call.second.as_bytes(), call.bytes, out),
        "count" => {
            answer_count(call.first.as_bytes(), call.bytes, out);
            Ok(())
        }
        _ => {
            out.refuse();
            Ok(())
        }
    }
}
