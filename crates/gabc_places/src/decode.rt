//! The text of an input's bytes.

ghost use Rattle.std.specs.Prelude.{◌≡◌, ◌↔◌, ◌≤◌, ◌==◌, length, take, drop, slice_index, IfOk, IsTrue, if◌then◌else◌};
ghost use Rattle.gabc_places.specs.DecoderMachine.{IsPartial};
ghost use Rattle.std.specs.Str.{chars};
ghost use Rattle.gabc_places.specs.Text.{decoded_of, utf8_prefix_of as utf8_prefix, tail_of, stop_code_of, text_of_characters};

use crate::code::{Code, Fault};
use crate::decoded::{Decoded, Tail};
use crate::limits::Limits;
use crate::text::Text;
use memchr::memchr;
use std::alloc::{AllocError, Global};

/// Returns the text of an input's `bytes`, and its fault. `ended` says that the source ended and
/// did not fail.
///
/// The text is the longest prefix of the bytes that is UTF-8, without U+FEFF, with CR LF and CR as
/// LF. Bytes past `limits.input` are not read. The fault is F1 at bytes that begin no character,
/// else F7 where there are more bytes than the limit, else F1 at an unfinished character if the
/// source ended. Its place is after the text.
pub fn text_of(
    alloc: Global,
    bytes: &[u8],
    ended: bool,
    limits: Limits,
) -> Result<Decoded, AllocError>
    ensures { IfOk result (λ decoded. decoded ≡ decoded_of limits ended bytes.now) }
{
    let limit = limits.input as usize;
    let over = limit < bytes.len();
    let within = if over { &bytes[..limit] } else { bytes };
    let (prefix, tail) = prefix_and_tail(within);
    let text = text_of_prefix(alloc, prefix)?;
    let fault = stop_code(over, ended, tail).map(|code| Fault {
        place: text.end(),
        code,
    });
    Ok(Decoded { text, fault })
}

/// Returns the longest front of `bytes` that is UTF-8.
pub fn valid_front(bytes: &[u8]) -> &str
    ensures text { chars result.now ≡ utf8_prefix bytes.now }
    ensures front { result.now ≡ take (length result.now) bytes.now }
{
    let (text, _) = prefix_and_tail(bytes);
    text
}

/// Returns the longest prefix of `bytes` that is UTF-8, and its tail.
pub(crate) fn prefix_and_tail(bytes: &[u8]) -> (&str, Tail)
    ensures text { chars result.0.now ≡ utf8_prefix bytes.now }
    ensures front { result.0.now ≡ take (length result.0.now) bytes.now }
    ensures tail { result.1 ≡ tail_of bytes.now }
{
    match simdutf8::compat::from_utf8(bytes) {
        Ok(text) => (text, Tail::Nothing),
        Err(error) => {
            let prefix = &bytes[..error.valid_up_to()];
            let Ok(text) = simdutf8::compat::from_utf8(prefix) else {
                unreachable!()
            };
            match error.error_len() {
                None => (text, Tail::Part),
                Some(_) => (text, Tail::Wrong),
            }
        }
    }
}

/// Returns whether `bytes` are empty, or the beginning of one character.
pub(crate) fn is_partial(bytes: &[u8]) -> bool
    ensures { IsTrue result ↔ IsPartial bytes.now }
{
    match simdutf8::compat::from_utf8(bytes) {
        Ok(_) => bytes.is_empty(),
        Err(error) => error.valid_up_to() == 0 && error.error_len().is_none(),
    }
}

/// Returns the code of the fault of an input with the tail `tail`, if it has one. `over` says
/// whether the input is longer than its limit, and `ended` whether the source ended.
fn stop_code(over: bool, ended: bool, tail: Tail) -> Option<Code>
    ensures { result ≡ stop_code_of over ended tail }
{
    match tail {
        Tail::Wrong => Some(Code::F1),
        _ if over => Some(Code::F7),
        Tail::Part if ended => Some(Code::F1),
        _ => None,
    }
}

/// Returns the text of the characters of `prefix`: each CR LF and each other CR as LF, without
/// U+FEFF.
fn text_of_prefix(alloc: Global, prefix: &str) -> Result<Text, AllocError>
    ensures { IfOk result (λ text. text ≡ text_of_characters (chars prefix.now)) }
{
    let mut text = Text::new(alloc);
    let mut rest = prefix;
    while let Some(at) = memchr(b'\r', rest.as_bytes()) {
        text.push_shown(&rest[..at])?;
        text.push('\n')?;
        rest = without_line_feed(&rest[at + 1..]);
    }
    text.push_shown(rest)?;
    Ok(text)
}

/// Returns `text` without the LF at its start, or all of it if it has none there.
fn without_line_feed(text: &str) -> &str
    ensures text { chars result.now
        ≡ (if slice_index (chars text.now) 0 == 10 then drop 1 (chars text.now)
        else chars text.now) }
    ensures no_longer { length result.now ≤ length text.now }
{
    match text.strip_prefix('\n') {
        Some(rest) => rest,
        None => text,
    }
}
