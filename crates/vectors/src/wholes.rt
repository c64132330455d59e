//! The output and the messages that the whole form of a score has to write.

use gabc_headers::HeaderBook;
use gabc_neumes::Alterations;
use gabc_places::{ByteCounter, Put, Room};
use gabc_score::{Score, Syllable};
use gabc_write::{
    canon_header, canon_syllable, dump_end, dump_header, dump_syllable, message_line,
};
use gregorio::{Format, Outcome, is_shown};
use std::alloc::{AllocError, Global};

/// Returns an empty room for as many bytes as `counter` has taken. It fails if the counter has
/// saturated.
fn room_for(alloc: Global, counter: &ByteCounter) -> Result<Room<u8>, AllocError> {
    let len = counter.count();
    if len == usize::MAX {
        return Err(AllocError);
    }
    Room::with_limit(alloc, len)
}

/// Puts the canonical file: the header lines, `%%`, the syllables and LF.
fn put_file<S: Put>(book: &HeaderBook, syllables: &[Syllable], out: &mut S) {
    canon_header(book.iter(), out);
    for syllable in syllables {
        canon_syllable(syllable, out);
    }
    out.put(b"\n");
}

/// Puts the dump; its last line only if the syllables are the `whole` score.
fn put_dump<S: Put>(whole: bool, book: &HeaderBook, syllables: &[Syllable], out: &mut S) {
    dump_header(book.iter(), out);
    let mut alterations = Alterations::new();
    for (index, syllable) in syllables.iter().enumerate() {
        dump_syllable(index as u64 + 1, syllable, &mut alterations, out);
    }
    if whole {
        dump_end(syllables.len() as u64, out);
    }
}

/// Returns whether no fault stopped the reading, and the source did not fail.
fn is_read_whole(outcome: &Outcome) -> bool {
    outcome.score.fault.is_none() && !outcome.broken
}

/// Puts the output of a run with this `outcome`: nothing, if its headers were not whole.
fn put_output<S: Put>(format: Format, outcome: &Outcome, out: &mut S) {
    let Some(book) = &outcome.score.book else {
        return;
    };
    let syllables = outcome.score.syllables.as_slice();
    match format {
        Format::Gabc => put_file(book, syllables, out),
        Format::Dump => put_dump(is_read_whole(outcome), book, syllables, out),
    }
}

/// Puts the lines of the findings of `score`, warnings only if `all_warnings`, and last that of its
/// fatal fault. They call the input `name`.
fn put_messages<S: Put>(name: &str, all_warnings: bool, score: &Score, out: &mut S) {
    for finding in score.findings.as_slice() {
        if is_shown(all_warnings, *finding) {
            message_line(name, finding.place, finding.code, out);
        }
    }
    if let Some(fault) = score.fault {
        message_line(name, fault.place, fault.code, out);
    }
}

/// Returns the output of a run with this `outcome`.
pub(crate) fn output_of(
    alloc: Global,
    format: Format,
    outcome: &Outcome,
) -> Result<Room<u8>, AllocError> {
    let mut counter = ByteCounter::new();
    put_output(format, outcome, &mut counter);
    let mut room = room_for(alloc, &counter)?;
    put_output(format, outcome, &mut room);
    Ok(room)
}

/// Returns the messages of a run with this `outcome`, which call the input `name`: warnings only if
/// `all_warnings`.
pub(crate) fn messages_of(
    alloc: Global,
    name: &str,
    all_warnings: bool,
    outcome: &Outcome,
) -> Result<Room<u8>, AllocError> {
    let mut counter = ByteCounter::new();
    put_messages(name, all_warnings, &outcome.score, &mut counter);
    let mut room = room_for(alloc, &counter)?;
    put_messages(name, all_warnings, &outcome.score, &mut room);
    Ok(room)
}
