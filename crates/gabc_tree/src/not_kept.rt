//! The nodes of what is not kept of an input: comments, what is left out, further blanks, and what
//! is silent.

ghost use Rattle.std.specs.Prelude.{◌≡◌, ◌↔◌, ℕ, ◌+◌, ◌<◌, ◌≤◌, ◌^◌, List, [], ◌∷◌, ◌++◌, length, IfOk, OnOk, IsTrue, None, true, false};
ghost use Rattle.std.specs.Char.{len_utf8};
ghost use Rattle.std.specs.Str.{chars};
ghost use Rattle.gabc_places.specs.Text.{is_left_out as is_silent, read_as as read};
ghost use Rattle.gabc_text.specs.Token.{is_blank as is_a_blank};
ghost use Rattle.gabc_tree.specs.NotKept.{leaves_out, is_before, is_at, from_here as findings_from, comes_next as comes_first, but_first, nodes_from, out_by_code, out_in_body, out_of as what_is_out, past as reached_past, not_kept as all_not_kept};
ghost use Rattle.gabc_tree.specs.Placed.{bytes_in};
ghost use Rattle.gabc_tree.specs.machine.NotKept.{is_kept_as as kept_as, joined_after};

use crate::code_number::number_of_code;
use crate::joining::Joining;
use gabc_nodes::{Kind, Node};
use gabc_places::{Code, Finding, Place};
use std::alloc::{AllocError, Global};
use std::marker::Model;

/// Returns whether `c` is silent after `previous`: an LF directly after a CR, and each U+FEFF.
pub(crate) fn is_silent_after(previous: char, c: char) -> bool
    ensures { result ≡ is_silent (previous, c) }
{
    (previous == '\r' && c == '\n') || c == '\u{FEFF}'
}

/// Returns `c`, or an LF for a CR.
pub(crate) fn read_as(c: char) -> char
    ensures { result ≡ read c }
{
    if c == '\r' { '\n' } else { c }
}

/// Returns whether a finding of `code` is about a character that is left out.
fn is_left_out(code: Code) -> bool
    ensures { result ≡ leaves_out code }
{
    match code {
        Code::E1 | Code::E2 | Code::E3 | Code::W4 => true,
        _ => false,
    }
}

/// Returns whether `one` is before `other`.
pub(crate) fn is_earlier(one: Place, other: Place) -> bool
    ensures { result ≡ is_before one other }
{
    one.line < other.line || (one.line == other.line && one.column < other.column)
}

/// Returns whether `one` and `other` are the same place.
fn is_same(one: Place, other: Place) -> bool
    ensures { result ≡ is_at one other }
{
    one.line == other.line && one.column == other.column
}

/// Returns whether `c` is a blank of a text.
fn is_blank(c: char) -> bool
    ensures { result ≡ is_a_blank c }
{
    c == ' ' || c == '\t' || c == '\n'
}

/// Returns `findings` from the first one on that leaves out a character at `here` or later.
#[inline(always)]
fn from_here(findings: &[Finding], here: Place) -> &[Finding]
    ensures { result.now ≡ findings_from here findings.now }
{
    let mut rest = findings;
    while let [first, after @ ..] = rest {
        if is_left_out(first.code) && !is_earlier(first.place, here) {
            return rest;
        }
        rest = after;
    }
    rest
}

/// Returns whether `c` is kept as `next`, the next character that is to be kept: a blank may be
/// kept as U+0020.
#[inline(always)]
fn is_kept_as(next: char, c: char) -> bool
    ensures { result ≡ kept_as next c }
{
    c == next || (next == ' ' && is_blank(c))
}

/// Returns whether `c` is the first character of `kept`, which is to be kept.
fn comes_next(kept: &str, c: char) -> bool
    ensures { result ≡ comes_first (chars kept.now) c }
{
    match kept.chars().next() {
        Some(next) => is_kept_as(next, c),
        None => false,
    }
}

/// Returns whether `byte` is a character and the first one of `kept`, which is to be kept.
#[inline(always)]
fn byte_comes_next(kept: &str, byte: u8) -> bool
    ensures comes { IsTrue result → comes_first (chars kept.now) byte ≡ true }
    ensures ascii { IsTrue result → byte < 128 }
{
    match kept.as_bytes() {
        [next, ..] if *next < 128 => is_kept_as(*next as char, byte as char),
        _ => false,
    }
}

/// Returns `kept` without its first character.
#[inline(always)]
fn past_first(kept: &str) -> &str
    ensures { chars result.now ≡ but_first (chars kept.now) }
{
    let mut rest = kept.chars();
    match rest.next() {
        Some(_) => rest.as_str(),
        None => kept,
    }
}

/// Returns the kind and the number of `c`, which is not kept and of which nothing is found. It has
/// none if nothing of the body is still to be kept, which `kept` says.
fn out_in_silence(kept: &str, c: char) -> Option<(Kind, u16)>
    ensures { result ≡ out_by_code (chars kept.now) c None }
{
    match kept.chars().next() {
        Some(_) if is_blank(c) => Some((Kind::FurtherBlank, 0)),
        Some(_) => Some((Kind::LeftOut, number_of_code(Code::E6))),
        None => None,
    }
}

/// The state of the reading between two characters of an input.
#[derive(Drop)]
struct Reading<'a> {
    /// The character before the next one.
    previous: char,
    /// The byte and the place of the next one.
    byte: u32,
    place: Place,
    /// The number of characters of the headers that are to come.
    heads: usize,
    /// Whether a comment is open.
    comment: bool,
    /// The characters of the body that are still to be kept.
    kept: &'a str,
    /// The findings from here on that leave out a character.
    findings: &'a [Finding],
}

impl<'a> Model for Reading<'a> {
    ghost use Rattle.std.specs.Str.{chars};
    ghost use Rattle.gabc_tree.specs.NotKept.{Reached};

    ghost Value = { Reached };

    ghost view = { λ r. record {
      previous = r.previous;
      byte = r.byte;
      place = r.place;
      heads = r.heads;
      comment = r.comment;
      kept = chars r.kept.now;
      findings = r.findings.now;
    } };
}

impl<'a> Reading<'a> {
    ghost use Rattle.gabc_tree.specs.NotKept.{begun, past_shown};

    /// Returns the state before the first character: the headers have `heads` characters.
    fn new(heads: usize, kept: &'a str, findings: &'a [Finding]) -> Reading<'a>
        ensures { result ≡ begun heads (chars kept.now) findings.now }
    {
        Reading {
            previous: '\0',
            byte: 0,
            place: Place::START,
            heads,
            comment: heads == 0,
            kept,
            findings: from_here(findings, Place::START),
        }
    }

    /// Returns the kind and the number of `c`, a character of the body that is read, if it is not
    /// kept.
    fn out_in_body(&self, c: char) -> Option<(Kind, u16)>
        ensures { result ≡ out_in_body self.now c }
    {
        if self.comment && c != '\n' {
            return Some((Kind::Comment, 0));
        }
        if comes_next(self.kept, c) {
            return None;
        }
        if c == '%' {
            return Some((Kind::Comment, 0));
        }
        match self.findings {
            [first, ..] if is_same(first.place, self.place) => {
                Some((Kind::LeftOut, number_of_code(first.code)))
            }
            _ => out_in_silence(self.kept, c),
        }
    }

    /// Returns the kind and the number of the next character of the input, which is `c`, if it is
    /// not kept.
    fn out_of(&self, c: char) -> Option<(Kind, u16)>
        ensures { result ≡ what_is_out self.now c }
    {
        if is_silent_after(self.previous, c) {
            Some((Kind::Silent, 0))
        } else if 0 < self.heads {
            None
        } else {
            self.out_in_body(read_as(c))
        }
    }

    /// Updates the state past `c`, which is read; `out` is its kind and number if it is not kept.
    #[inline(always)]
    fn pass_shown(&mut self, c: char, out: Option<(Kind, u16)>)
        requires { self.old.heads ≡ 0 → out ≡ out_in_body self.old c }
        ensures { self.new ≡ past_shown self.old c }
    {
        if 0 < self.heads {
            self.heads -= 1;
            self.comment = self.heads == 0;
        } else {
            match out {
                Some((Kind::Comment, _)) => self.comment = true,
                Some(_) => self.comment = false,
                None => {
                    self.comment = false;
                    self.kept = past_first(self.kept);
                }
            }
        }
        self.place = self.place.saturating_after(c);
        self.findings = from_here(self.findings, self.place);
    }

    /// Updates the state past `c`, which ends before the byte `end`; `out` is its kind and number
    /// if it is not kept.
    #[inline(always)]
    fn pass(&mut self, c: char, out: Option<(Kind, u16)>, end: u32)
        requires out { out ≡ what_is_out self.old c }
        requires end { end ≡ self.old.byte + len_utf8 c }
        ensures { self.new ≡ reached_past self.old c }
    {
        if !is_silent_after(self.previous, c) {
            self.pass_shown(read_as(c), out);
        }
        self.previous = c;
        self.byte = end;
    }

    /// Returns whether `byte` is a character that is kept of the body, if it is the next one.
    #[inline(always)]
    fn is_kept(&self, byte: u8) -> bool
        ensures kept { IsTrue result → what_is_out self.now byte ≡ None }
        ensures ascii { IsTrue result → byte < 128 }
    {
        let c = byte as char;
        self.heads == 0
            && !self.comment
            && byte != b'\r'
            && !is_silent_after(self.previous, c)
            && byte_comes_next(self.kept, byte)
    }

    /// Updates the state past `byte` if it is the next character and is kept of the body, and
    /// returns whether it did.
    #[inline(always)]
    fn pass_byte(&mut self, byte: u8) -> bool
        requires { self.old.byte + 1 < 2 ^ 32 }
        ensures past { IsTrue result → self.new ≡ reached_past self.old byte }
        ensures kept { IsTrue result → what_is_out self.old byte ≡ None }
        ensures ascii { IsTrue result → byte < 128 }
        ensures stays { result ≡ false → self.new ≡ self.old }
    {
        let is_kept = self.is_kept(byte);
        if is_kept {
            self.pass(byte as char, None, self.byte + 1);
        }
        is_kept
    }
}

/// Updates `reading` past the characters at the begin of `text` that are all kept and have one byte
/// each, and returns the rest of `text`.
#[inline(always)]
fn pass_kept<'i>(reading: &mut Reading<'_>, text: &'i str) -> &'i str
    requires { reading.old.byte + length text.now < 2 ^ 32 }
    ensures nodes { nodes_from reading.new (chars result.now)
        ≡ nodes_from reading.old (chars text.now) }
    ensures end { reading.new.byte + length result.now ≡ reading.old.byte + length text.now }
    ensures rest { length result.now ≤ length text.now }
{
    let mut count = 0;
    for byte in text.as_bytes() {
        if !reading.pass_byte(*byte) {
            break;
        }
        count += 1;
    }
    text.split_at(count).1
}

/// Updates `reading` past `c`, the next character of the input, and adds its node to `joining` if
/// it is not kept.
fn pass(reading: &mut Reading<'_>, joining: &mut Joining, c: char) -> Result<(), AllocError>
    requires { reading.old.byte + len_utf8 c < 2 ^ 32 }
    ensures byte { OnOk result (reading.new.byte ≡ reading.old.byte + len_utf8 c) }
    ensures all { OnOk result ((cs : List ℕ) →
        joined_after joining.new (nodes_from reading.new cs)
        ≡ joined_after joining.old (nodes_from reading.old (c ∷ cs))) }
{
    let begin = reading.byte;
    let end = begin + c.len_utf8() as u32;
    let out = reading.out_of(c);
    if let Some((kind, number)) = out {
        joining.add(Node::leaf(kind, number, begin, end))?;
    }
    reading.pass(c, out, end);
    Ok(())
}

/// Returns the nodes of what is not kept of `input`: its headers have `heads` characters, `kept` is
/// kept of its body, and `findings` were found in it. It fails only if memory runs out.
pub(crate) fn not_kept(
    alloc: Global,
    input: &str,
    heads: usize,
    kept: &str,
    findings: &[Finding],
) -> Result<Vec<Node>, AllocError>
    requires { length input.now < 2 ^ 32 }
    ensures nodes { IfOk result (λ nodes.
        nodes.items ≡ all_not_kept heads (chars kept.now) findings.now (chars input.now)) }
    ensures few { IfOk result (λ nodes. bytes_in nodes.items < 2 ^ 32) }
{
    let mut joining = Joining::new(alloc);
    let mut reading = Reading::new(heads, kept, findings);
    let mut chars = pass_kept(&mut reading, input).chars();
    while let Some(c) = chars.next() {
        pass(&mut reading, &mut joining, c)?;
        chars = pass_kept(&mut reading, chars.as_str()).chars();
    }
    let nodes = joining.into_nodes()?;
    Ok(nodes)
}
