//! The nodes of the lines of the headers.

ghost use Rattle.std.specs.Prelude.{◌≡◌, ◌+◌, ◌<◌, ◌≤◌, ◌^◌, ◌++◌, length, take, slice_range, position, ◌==◌, Some, false, IfSome, OnOk, IfOk};
ghost use Rattle.gabc_headers.specs.Lines.{is_blank, is_blank_or_lf, ends_no_value, is_bare, trim_end};
ghost use Rattle.gabc_tree.specs.HeaderLines.{part, span, span_of, semicolons, comment_of, header_by, header_with, ended_at, header_at, line_nodes, left_open, nodes_below, open_below, found_at, found_after, nodes_of, open_after, header_line_nodes};
ghost use Rattle.gabc_tree.specs.machine.HeaderLines.{is_last, lead_of, run_with, bare_with, first_mark, first_colon, row_of, IsHeaderWithin, IsOpen};

use crate::placing::offset;
use gabc_nodes::{Kind, Node};
use gabc_places::{Code, Finding, Span};
use std::alloc::AllocError;

/// A header whose value is not ended yet.
#[derive(Clone, Copy)]
pub(crate) struct Header {
    /// The code that is found at it, if any.
    found: Option<Code>,
    /// Its name.
    name: Span,
    /// The place at which its value begins.
    value: usize,
}

/// Returns whether `byte` is a blank of a line.
fn is_blank(byte: u8) -> bool
    ensures { result ≡ is_blank byte }
{
    byte == b' ' || byte == b'\t'
}

/// Returns whether `byte` is left out at the start of a value.
fn is_blank_or_lf(byte: u8) -> bool
    ensures { result ≡ is_blank_or_lf byte }
{
    is_blank(byte) || byte == b'\n'
}

/// Returns whether `byte` is left out at the end of a value if `of_value`, else of a name.
fn is_last(of_value: bool, byte: u8) -> bool
    ensures { result ≡ is_last of_value byte }
{
    if of_value {
        is_blank_or_lf(byte) || byte == b';'
    } else {
        is_blank(byte)
    }
}

/// Returns whether `row` is bare: blanks, and then its end or a `%`.
fn is_bare(row: &[u8]) -> bool
    ensures { result ≡ is_bare row.now }
{
    for byte in row {
        if *byte == b'%' {
            return true;
        }
        if !is_blank(*byte) {
            return false;
        }
    }
    true
}

/// Returns the index of the first `:` of `row`, if it has one.
fn first_colon(row: &[u8]) -> Option<usize>
    ensures place { result ≡ first_colon row.now }
    ensures within { IfSome result (λ at. at < length row.now) }
{
    for at in 0..row.len() {
        if row[at] == b':' {
            return Some(at);
        }
    }
    None
}

/// Returns the length of the mark of `;` that begins at `byte`, or 0 if none does: `run` is the
/// length of the mark directly after it, and `bare` says whether the rest of the line after it is
/// bare.
fn run_with(byte: u8, bare: bool, run: usize) -> usize
    requires { run + 1 < 2 ^ 64 }
    ensures { result ≡ run_with byte bare run }
{
    if byte == b';' && (bare || run > 0) {
        run + 1
    } else {
        0
    }
}

/// Returns whether the rest of a line from `byte` on is bare; `bare` says whether it is after
/// `byte`.
fn bare_with(byte: u8, bare: bool) -> bool
    ensures { result ≡ bare_with byte bare }
{
    byte == b'%' || is_blank(byte) && bare
}

/// Returns the index at which the first mark of `least` or more `;` begins in `row`, if it has one.
fn first_mark(row: &[u8], least: usize) -> Option<usize>
    requires { 1 ≤ least }
    ensures place { result ≡ first_mark least row.now }
    ensures within { IfSome result (λ at. at < length row.now) }
{
    let mut found = None;
    let mut bare = true;
    let mut run: usize = 0;
    for at in (0..row.len()).rev() {
        run = run_with(row[at], bare, run);
        bare = bare_with(row[at], bare);
        if run >= least {
            found = Some(at);
        }
    }
    found
}

/// Returns the number of `;` at the start of `row`.
fn semicolons(row: &[u8]) -> usize
    ensures number { result ≡ semicolons row.now }
    ensures within { result ≤ length row.now }
{
    for at in 0..row.len() {
        if row[at] != b';' {
            return at;
        }
    }
    row.len()
}

/// Returns `part` without the bytes that are left out at the end of a value if `of_value`, else of
/// a name.
fn kept_part(part: &[u8], of_value: bool) -> &[u8]
    ensures kept { result.now ≡ trim_end (is_last of_value) part.now }
    ensures within { length result.now ≤ length part.now }
{
    let mut len = 0;
    for at in 0..part.len() {
        if !is_last(of_value, part[at]) {
            len = at + 1;
        }
    }
    &part[..len]
}

/// Returns the number of blanks and LFs at the start of `part`.
fn lead_of(part: &[u8]) -> usize
    ensures number { result ≡ lead_of part.now }
    ensures within { result ≤ length part.now }
{
    for at in 0..part.len() {
        if !is_blank_or_lf(part[at]) {
            return at;
        }
    }
    part.len()
}

/// Returns the span of `part`, which begins at the byte `at`, trimmed as a value if `of_value`,
/// else as a name.
fn trimmed(at: usize, part: &[u8], of_value: bool) -> Span
    requires { at + length part.now < 2 ^ 63 }
    ensures span { result ≡ span_of at (trim_end (is_last of_value) part.now) }
    ensures from { result.from ≤ at + length part.now }
    ensures to { result.to ≤ at + length part.now }
{
    let kept = kept_part(part, of_value);
    Span {
        from: at + lead_of(kept),
        to: at + kept.len(),
    }
}

/// Returns the index of the first `%` of `part`, if it has one.
fn first_percent(part: &[u8]) -> Option<usize>
    ensures { result ≡ position (λ c. c == 37) part.now }
{
    part.iter().position(|byte| *byte == b'%')
}

/// Returns a node of this `kind` and `number`, with the bytes of `span`.
fn part(kind: Kind, number: u16, span: Span) -> Node
    ensures { result ≡ part kind number span }
{
    Node::leaf(kind, number, offset(span.from), offset(span.to))
}

/// Adds the comment of `row`, if it has one; `row` begins at the byte `at` and is bare from `from`
/// on.
fn add_comment(at: usize, from: usize, row: &[u8], out: &mut Vec<Node>) -> Result<(), AllocError>
    requires from { from ≤ length row.now }
    requires fits { at + length row.now < 2 ^ 63 }
    ensures { OnOk result (out.new.items ≡ out.old.items ++ comment_of at from row.now) }
{
    if let Some(blanks) = first_percent(&row[from..]) {
        let span = Span {
            from: at + from + blanks,
            to: at + row.len(),
        };
        out.push(part(Kind::HeaderComment, 0, span))?;
    }
    Ok(())
}

/// Adds a header that counts, with its name and its value, and with the number `code`. The value
/// ends before the byte `mark` of `text`, and the header before the byte `to`.
fn add_kept(
    text: &[u8],
    header: Header,
    mark: usize,
    to: usize,
    code: u16,
    out: &mut Vec<Node>,
) -> Result<(), AllocError>
    requires within { IsHeaderWithin text.now header mark }
    ensures { OnOk result
        (out.new.items ≡ out.old.items ++ header_with text.now header mark to code) }
{
    let span = Span {
        from: header.name.from,
        to,
    };
    out.push(Node {
        inner: 2,
        ..part(Kind::Header, code, span)
    })?;
    out.push(part(Kind::HeaderName, 0, header.name))?;
    let value = trimmed(header.value, &text[header.value..mark], true);
    out.push(part(Kind::HeaderValue, 0, value))?;
    Ok(())
}

/// Adds a header as `add_kept` does, with 202 if a code is found at it; or a node of one that is
/// left out, with E4 or E5.
fn add_header(
    text: &[u8],
    header: Header,
    mark: usize,
    to: usize,
    out: &mut Vec<Node>,
) -> Result<(), AllocError>
    requires within { IsHeaderWithin text.now header mark }
    ensures { OnOk result
        (out.new.items ≡ out.old.items ++ header_by text.now header mark to header.found) }
{
    let span = Span {
        from: header.name.from,
        to,
    };
    match header.found {
        None => add_kept(text, header, mark, to, 0, out),
        Some(Code::E4) => {
            out.push(part(Kind::HeaderLeftOut, 104, span))?;
            Ok(())
        }
        Some(Code::E5) => {
            out.push(part(Kind::HeaderLeftOut, 105, span))?;
            Ok(())
        }
        Some(_) => add_kept(text, header, mark, to, 202, out),
    }
}

/// Adds the `header` whose mark begins at `mark` of `row`, and the comment after the mark.
fn end_header(
    text: &[u8],
    header: Header,
    at: usize,
    row: &[u8],
    mark: usize,
    out: &mut Vec<Node>,
) -> Result<(), AllocError>
    requires open { IsOpen (at + mark) (Some header) }
    requires mark { mark ≤ length row.now }
    requires row { at + length row.now ≤ length text.now }
    requires short { length text.now < 2 ^ 63 }
    ensures { OnOk result
        (out.new.items ≡ out.old.items ++ ended_at text.now header at row.now mark) }
{
    let to = mark + semicolons(&row[mark..]);
    add_header(text, header, at + mark, at + to, out)?;
    add_comment(at, to, row, out)
}

/// Adds the nodes of a line with a `:` that is in no value, if its value ends there, else returns
/// the header that it leaves open.
fn header_line(
    text: &[u8],
    found: Option<Code>,
    at: usize,
    row: &[u8],
    colon: usize,
    out: &mut Vec<Node>,
) -> Result<Option<Header>, AllocError>
    requires seen { is_bare row.now ≡ false }
    requires colon { first_colon row.now ≡ Some colon }
    requires within { colon < length row.now }
    requires row { at + length row.now ≤ length text.now }
    requires short { length text.now < 2 ^ 63 }
    ensures nodes { OnOk result
        (out.new.items ≡ out.old.items ++ line_nodes text.now found at row.now) }
    ensures header { IfOk result (λ header. header ≡ left_open found at row.now) }
{
    let header = Header {
        found,
        name: trimmed(at, &row[..colon], false),
        value: at + colon + 1,
    };
    match first_mark(&row[colon + 1..], 1) {
        Some(mark) => {
            end_header(text, header, at, row, colon + 1 + mark, out)?;
            Ok(None)
        }
        None => Ok(Some(header)),
    }
}

/// Adds the nodes of a line that is in no value, and returns the header that it leaves open, if
/// any.
fn first_line(
    text: &[u8],
    found: Option<Code>,
    at: usize,
    row: &[u8],
    out: &mut Vec<Node>,
) -> Result<Option<Header>, AllocError>
    requires row { at + length row.now ≤ length text.now }
    requires short { length text.now < 2 ^ 63 }
    ensures nodes { OnOk result
        (out.new.items ≡ out.old.items ++ line_nodes text.now found at row.now) }
    ensures header { IfOk result (λ header. header ≡ left_open found at row.now) }
{
    if is_bare(row) {
        add_comment(at, 0, row, out)?;
        return Ok(None);
    }
    match first_colon(row) {
        Some(colon) => header_line(text, found, at, row, colon, out),
        None => {
            out.push(part(Kind::HeaderLeftOut, 104, trimmed(at, row, false)))?;
            Ok(None)
        }
    }
}

/// Adds the nodes of a line in the value of `header`, and returns the header if it stays open.
fn line_below(
    text: &[u8],
    header: Header,
    at: usize,
    row: &[u8],
    out: &mut Vec<Node>,
) -> Result<Option<Header>, AllocError>
    requires open { IsOpen at (Some header) }
    requires row { at + length row.now ≤ length text.now }
    requires short { length text.now < 2 ^ 63 }
    ensures nodes { OnOk result
        (out.new.items ≡ out.old.items ++ nodes_below text.now header at row.now) }
    ensures header { IfOk result (λ after. after ≡ open_below header row.now) }
{
    match first_mark(row, 2) {
        Some(mark) => {
            end_header(text, header, at, row, mark, out)?;
            Ok(None)
        }
        None => Ok(Some(header)),
    }
}

/// Adds the nodes of a line, which is in the value of `header` if there is one, and returns the
/// header that it leaves open, if any.
fn next_line(
    text: &[u8],
    header: Option<Header>,
    found: Option<Code>,
    at: usize,
    row: &[u8],
    out: &mut Vec<Node>,
) -> Result<Option<Header>, AllocError>
    requires open { IsOpen at header }
    requires row { at + length row.now ≤ length text.now }
    requires short { length text.now < 2 ^ 63 }
    ensures nodes { OnOk result
        (out.new.items ≡ out.old.items ++ nodes_of text.now header found at row.now) }
    ensures header { IfOk result (λ after. after ≡ open_after header found at row.now) }
{
    match header {
        Some(header) => line_below(text, header, at, row, out),
        None => first_line(text, found, at, row, out),
    }
}

/// Returns the code of the first of `findings`, if its place is on `line`.
fn found_at(line: u64, findings: &[Finding]) -> Option<Code>
    ensures { result ≡ found_at line findings.now }
{
    match findings {
        [first, ..] if first.place.line == line => Some(first.code),
        _ => None,
    }
}

/// Returns `findings` without the first one, if its place is on `line`, else all of them.
fn found_after(line: u64, findings: &[Finding]) -> &[Finding]
    ensures { result.now ≡ found_after line findings.now }
{
    match findings {
        [first, rest @ ..] if first.place.line == line => rest,
        _ => findings,
    }
}

/// Returns the first line of `text`, without its LF.
fn first_row(text: &[u8]) -> &[u8]
    ensures row { result.now ≡ row_of text.now }
    ensures within { length result.now ≤ length text.now }
{
    for at in 0..text.len() {
        if text[at] == b'\n' {
            return &text[..at];
        }
    }
    text
}

/// Adds to `out` the nodes of the lines of headers (GregorioRef, "Headers"): of `text`, which comes
/// before the line `%%` and in which `findings` were found, in their order.
pub(crate) fn header_lines(
    text: &[u8],
    findings: &[Finding],
    out: &mut Vec<Node>,
) -> Result<(), AllocError>
    ensures { OnOk result
        (out.new.items ≡ out.old.items ++ header_line_nodes text.now findings.now) }
{
    let mut ahead = findings;
    let mut header = None;
    let mut at: usize = 0;
    let mut line: u64 = 1;
    while at < text.len() {
        let row = first_row(&text[at..]);
        let found = found_at(line, ahead);
        header = next_line(text, header, found, at, row, out)?;
        ahead = found_after(line, ahead);
        at += row.len() + 1;
        line += 1;
    }
    Ok(())
}
