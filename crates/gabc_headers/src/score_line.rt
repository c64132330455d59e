//! The faults of headers at their end.

ghost use Rattle.std.specs.Prelude.{◌≡◌};
ghost use Rattle.gabc_headers.specs.Heads.{line_place};
ghost use Rattle.gabc_places.specs.declared.code.Code.TheVariants.{F3};
ghost use Rattle.gabc_headers.specs.machine.Collected as spec;
ghost use Rattle.gabc_headers.specs.machine.Collected.{len_at_score};
ghost use Rattle.gabc_headers.specs.Entries.{spelled_entries};
ghost use Rattle.gabc_headers.specs.machine.EntryMap.{AreWithin};

use crate::entry_map::EntryMap;
use gabc_places::{Code, Fault, Limits, Place};

/// Returns the fault of a value of a header that begins on the line `line`.
fn value_fault(line: u64) -> Fault
    ensures { result ≡ record { place = line_place line; code = F3 } }
{
    let place = Place { line, column: 1 };
    Fault {
        place,
        code: Code::F3,
    }
}

/// Returns the fault of the headers at the end of the text, which is at `place`. The value of the
/// header of `open_line` is open, if there is one.
pub(crate) fn end_fault(place: Place, open_line: Option<u64>) -> Fault
    ensures { result ≡ spec.end_fault place open_line }
{
    match open_line {
        None => Fault {
            place,
            code: Code::F2,
        },
        Some(line) => value_fault(line),
    }
}

/// Returns the number of bytes of the canonical header lines at the line `%%`, or the fault of the
/// headers there.
pub(crate) fn score_len(
    limits: Limits,
    text: &str,
    headers: &EntryMap,
    place: Place,
    open_line: Option<u64>,
) -> Result<usize, Fault>
    requires { AreWithin text.now headers.now.0 }
    ensures { result
        ≡ len_at_score limits place open_line (spelled_entries text.now headers.now.0) }
{
    if let Some(line) = open_line {
        return Err(value_fault(line));
    }
    let size = headers.canonical_len(text);
    if size > limits.header as usize {
        return Err(Fault {
            place,
            code: Code::F4,
        });
    }
    if size + 3 > limits.input as usize {
        return Err(Fault {
            place,
            code: Code::F7,
        });
    }
    Ok(size)
}
