//! Rows of the texts of the writers.

use crate::call::{Call, limits_of, place_of};
use crate::codes::code_of;
use crate::printed::Printed;
use crate::show::show_bytes;
use gabc_headers::{HeaderBook, headers_whole};
use gabc_neumes::Alterations;
use gabc_places::{Code, Limits, Place, Room, Text};
use gabc_score::{InputEnding, Syllable, score_whole};
use gabc_write::{
    canon_header, canon_len, canon_syllable, dump_end, dump_header, dump_len, dump_syllable,
    message_len, message_line,
};
use std::alloc::{AllocError, Global};

/// Prints the number of bytes of the line of a message, and the line.
fn answer_message(
    alloc: Global,
    code: Code,
    place: Place,
    name: &str,
    out: &mut Printed,
) -> Result<(), AllocError> {
    let len = message_len(name, place, code);
    let mut room = Room::with_limit(alloc, len)?;
    message_line(name, place, code, &mut room);
    out.show(&len);
    out.put("\t");
    show_bytes(room.slice(), out);
    Ok(())
}

/// Prints the number of bytes of the canonical headers of a book, and these.
fn show_header(alloc: Global, book: &HeaderBook, out: &mut Printed) -> Result<(), AllocError> {
    let len = book.canonical_len();
    if len == usize::MAX {
        return Err(AllocError);
    }
    let mut room = Room::with_limit(alloc, len)?;
    canon_header(book.iter(), &mut room);
    out.show(&len);
    out.put("\t");
    show_bytes(room.slice(), out);
    Ok(())
}

/// Prints the canonical headers of a text, or their lines in a dump; or that there are none.
fn answer_header(
    alloc: Global,
    call: Call,
    limits: Limits,
    out: &mut Printed,
) -> Result<(), AllocError> {
    let text = Text::from_str(alloc, call.text)?;
    let read = headers_whole(alloc, &text, limits)?;
    let shown = match &read {
        Ok(heads) if call.name == "header" => show_header(alloc, &heads.book, out),
        Ok(heads) => show_dumped_headers(alloc, &heads.book, out),
        Err(_) => {
            out.put("no headers");
            Ok(())
        }
    };
    drop(read);
    shown
}

/// Prints a length and the text that has it.
fn show_counted(len: usize, text: &[u8], out: &mut Printed) {
    out.show(&len);
    out.put(" ");
    show_bytes(text, out);
}

/// Prints the number of bytes of the canonical text of a syllable, and this text.
fn show_syllable(alloc: Global, syllable: &Syllable, out: &mut Printed) -> Result<(), AllocError> {
    let len = canon_len(syllable);
    if len == usize::MAX {
        return Err(AllocError);
    }
    let mut room = Room::with_limit(alloc, len)?;
    canon_syllable(syllable, &mut room);
    out.put("\t");
    show_counted(len, room.slice(), out);
    Ok(())
}

/// Prints the number of syllables, and their canonical texts.
fn show_syllables(
    alloc: Global,
    syllables: &[Syllable],
    out: &mut Printed,
) -> Result<(), AllocError> {
    out.show(&syllables.len());
    for syllable in syllables {
        show_syllable(alloc, syllable, out)?;
    }
    Ok(())
}

/// Prints the number of syllables of a score, and their canonical texts.
fn answer_syllables(
    alloc: Global,
    limits: Limits,
    input: &str,
    out: &mut Printed,
) -> Result<(), AllocError> {
    let text = Text::from_str(alloc, input)?;
    let score = score_whole(alloc, &text, InputEnding::Whole, limits)?;
    show_syllables(alloc, score.syllables.as_slice(), out)
}

/// Prints the number of bytes of the lines of a syllable with this `number` in a dump, before which
/// these `alterations` are in force, and the lines.
fn show_lines(
    alloc: Global,
    number: u64,
    syllable: &Syllable,
    alterations: &mut Alterations,
    out: &mut Printed,
) -> Result<(), AllocError> {
    let len = dump_len(number, syllable, alterations);
    if len == usize::MAX {
        return Err(AllocError);
    }
    let mut room = Room::with_limit(alloc, len)?;
    dump_syllable(number, syllable, alterations, &mut room);
    out.put("\t");
    show_counted(len, room.slice(), out);
    Ok(())
}

/// Prints the number of syllables, and the lines of each in a dump. The first one has the number
/// 4294967295.
fn show_dumps(alloc: Global, syllables: &[Syllable], out: &mut Printed) -> Result<(), AllocError> {
    out.show(&syllables.len());
    let mut alterations = Alterations::new();
    for (index, syllable) in syllables.iter().enumerate() {
        let number = (index as u64).saturating_add(4294967295);
        show_lines(alloc, number, syllable, &mut alterations, out)?;
    }
    Ok(())
}

/// Prints the number of syllables of a score, and the lines of each in a dump.
fn answer_dump(
    alloc: Global,
    limits: Limits,
    input: &str,
    out: &mut Printed,
) -> Result<(), AllocError> {
    let text = Text::from_str(alloc, input)?;
    let score = score_whole(alloc, &text, InputEnding::Whole, limits)?;
    let shown = show_dumps(alloc, score.syllables.as_slice(), out);
    drop(score);
    shown
}

/// Prints the lines of headers in a dump, and the last line of a dump of 4294967296 syllables.
fn show_dumped_headers(
    alloc: Global,
    book: &HeaderBook,
    out: &mut Printed,
) -> Result<(), AllocError> {
    let mut room = Room::with_limit(alloc, 128)?;
    dump_header(book.iter(), &mut room);
    dump_end(4294967296, &mut room);
    show_bytes(room.slice(), out);
    Ok(())
}

/// Prints the answer of a call with these limits.
fn answer_within(
    alloc: Global,
    call: Call,
    limits: Limits,
    out: &mut Printed,
) -> Result<(), AllocError> {
    match call.name {
        "header" | "dump_header" => answer_header(alloc, call, limits, out),
        "syllables" => answer_syllables(alloc, limits, call.text, out),
        "dump" => answer_dump(alloc, limits, call.text, out),
        _ => {
            out.refuse();
            Ok(())
        }
    }
}

/// Prints the answer of a call.
pub(crate) fn answer(alloc: Global, call: Call, out: &mut Printed) -> Result<(), AllocError> {
    if let (Some(code), Some(place)) = (code_of(call.first), place_of(call.second)) {
        return answer_message(alloc, code, place, call.text, out);
    }
    match limits_of(call.first) {
        Some(limits) => answer_within(alloc, call, limits, out),
        None => {
            out.refuse();
            Ok(())
        }
    }
}
