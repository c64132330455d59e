//! The headers of a whole text.

ghost use Rattle.std.specs.Prelude.{◌≡◌, IfOk};
ghost use Rattle.gabc_places.specs.Findings.{AreInOrder};
ghost use Rattle.gabc_headers.specs.Entries.{spelled_entries};
ghost use Rattle.gabc_headers.specs.machine.EntryMap.{AreWithin};
ghost use Rattle.gabc_headers.specs.Heads.{findings_of};
ghost use Rattle.gabc_headers.specs.HeadsOfGroups.{AreHeads};
ghost use Rattle.gabc_headers.specs.machine.Collected.{heads_at_score};

use crate::book::HeaderBook;
use crate::collected::{Collected, collect};
use crate::event_list::events_of_headers;
use crate::events::HeaderEnding;
use crate::heads::{HeadFault, Heads};
use crate::score_line::{end_fault, score_len};
use gabc_places::{Code, Fault, Finding, Findings, Limits, Place, Text};
use std::alloc::{AllocError, Global};
use std::hash::DefaultHasher;

/// Reads the headers of `text`, whose end is the input's end (GregorioRef, "Headers"). Returns the
/// headers and the byte at which the body begins, or the fault that stopped them: no line `%%`
/// (F2), a value that is not ended (F3), more bytes than `limits.header`, as read or in canonical
/// form (F4), or with `%%` and an LF more canonical bytes than `limits.input` (F7). Fails only if
/// memory cannot be allocated. Names are hashed with a fixed key, so names can be chosen that are
/// slow to read: 1,872 of 8 bytes took 31 ms, while others take 3. If strangers write the text, use
/// `headers_whole_with_hasher`.
pub fn headers_whole(
    alloc: Global,
    text: &Text,
    limits: Limits,
) -> Result<Result<Heads, HeadFault>, AllocError>
    ensures exact { IfOk result (AreHeads limits text.now) }
    ensures order { IfOk result (λ read. AreInOrder (findings_of read)) }
{
    headers_whole_with_hasher(alloc, text, limits, DefaultHasher::new())
}

/// Reads the headers of `text` as `headers_whole` does, and hashes their names from `hasher` on.
/// The result does not depend on `hasher`, but whoever does not know how it begins cannot choose
/// names that make the reading slow.
pub fn headers_whole_with_hasher(
    alloc: Global,
    text: &Text,
    limits: Limits,
    hasher: DefaultHasher,
) -> Result<Result<Heads, HeadFault>, AllocError>
    ensures exact { IfOk result (AreHeads limits text.now) }
    ensures order { IfOk result (λ read. AreInOrder (findings_of read)) }
{
    let read = events_of_headers(alloc, text, limits.header)?;
    let written = text.as_str();
    let collected = collect(alloc, written, &read.events, hasher)?;
    match read.end {
        HeaderEnding::Score {
            place,
            body,
            open_line,
        } => at_score(alloc, written, limits, place, body, open_line, collected),
        HeaderEnding::Limit(place) => {
            let code = Code::F4;
            Ok(Err(head_fault(Fault { place, code }, collected.findings, false)))
        }
        HeaderEnding::Text { place, open_line } => {
            let fault = end_fault(place, open_line);
            Ok(Err(head_fault(fault, collected.findings, true)))
        }
    }
}

/// Returns the headers at the line `%%`, whose first character is at `place`, or their fault. The
/// value of the header of `open_line` is open, if there is one.
fn at_score(
    alloc: Global,
    text: &str,
    limits: Limits,
    place: Place,
    body: usize,
    open_line: Option<u64>,
    collected: Collected,
) -> Result<Result<Heads, HeadFault>, AllocError>
    requires { AreWithin text.now collected.headers.0 }
    ensures { IfOk result (λ read. read
        ≡ heads_at_score limits place body open_line
        (spelled_entries text.now collected.headers.0) collected.findings) }
{
    match score_len(limits, text, &collected.headers, place, open_line) {
        Ok(_) => {}
        Err(fault) => return Ok(Err(head_fault(fault, collected.findings, false))),
    }
    let Collected {
        headers,
        mut findings,
    } = collected;
    let book = HeaderBook::of(alloc, text, headers)?;
    if book.get("name").is_none() {
        findings.push(Finding {
            place,
            code: Code::W1,
        })?;
    }
    Ok(Ok(Heads {
        book,
        body,
        findings,
    }))
}

/// Returns the fault `fault` of the headers, with the findings before it. `at_end` says whether its
/// point is the end of the text.
fn head_fault(fault: Fault, findings: Findings, at_end: bool) -> HeadFault
    ensures { result ≡ record { fault = fault; findings = findings; at_end = at_end } }
{
    HeadFault {
        fault,
        findings,
        at_end,
    }
}
