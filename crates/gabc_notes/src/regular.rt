//! The length of a regular snippet: it is kept as it is written, and nothing is found in it.

ghost use Rattle.std.specs.Prelude.{◌≡◌, ◌≤◌, ◌<◌, ◌==◌, ◌&&◌, ◌||◌, false, get_or, length, take, true};
ghost use Rattle.std.specs.List.{list_all};
ghost use Rattle.std.specs.Option.{option_map};
ghost use Rattle.gabc_patterns.specs.LongestPrefix.{IsLongestPrefix};
ghost use Rattle.gabc_notes.specs.Regular.{IsRegular};
ghost use Rattle.gabc_notes.specs.machine.ItemMachine.{attribute_state, raw_state};
ghost use Rattle.gabc_notes.specs.machine.Regular.{begins_bar, begins_front, closed_point, front_state, goes_on_front, is_bar, is_front, is_inside, is_macro, item_at, longest_at, reading_at, regular_after};

use crate::class::class_of;
use crate::state::{FullItem, ItemState, is_attribute, is_raw, is_whole, next_state, short_step};

/// Returns whether `byte` is a mark that ends a snippet.
fn is_mark(byte: u8) -> bool
    ensures { result ≡ (byte == 41 || byte == 124) }
{
    byte == b')' || byte == b'|'
}

/// The state of the reading of a snippet in which nothing was found yet: outside brackets, or at
/// the place where one was opened.
#[derive(Clone, Copy)]
pub(crate) struct RegularPoint {
    item: ItemState,
    /// Whether an `@[` is open.
    fused: bool,
}

impl RegularPoint {
    /// Returns the state after `byte`, outside brackets; `None` if that is not kept or something is
    /// found at it. Most notes take a short way.
    #[inline(always)]
    #[tactic(auto, using(crate::proofs::machine::RegularBrackets::at_mark))]
    fn after(self, byte: u8) -> Option<RegularPoint>
        ensures { raw_state self.item ≡ false →
            option_map reading_at result ≡ regular_after (reading_at self) byte }
    {
        match short_step(self.item, byte as char) {
            Some(item) => Some(RegularPoint { item, ..self }),
            None if is_mark(byte) => None,
            None => self.after_any(byte),
        }
    }

    /// Returns the state that `after` returns, for any `byte`.
    #[tactic(auto, using(crate::proofs::machine::RegularBrackets::enters))]
    fn after_any(self, byte: u8) -> Option<RegularPoint>
        ensures { raw_state self.item ≡ false →
            option_map reading_at result ≡ regular_after (reading_at self) byte }
    {
        let item = match next_state(self.item, class_of(byte as char)) {
            Some(next) => next,
            None => return None,
        };
        let fused = match byte {
            _ if is_raw(item) => self.fused,
            b'[' if self.fused => return None,
            b']' if !self.fused => return None,
            b'[' | b']' => !self.fused,
            _ => self.fused,
        };
        Some(RegularPoint { item, fused })
    }

    /// Returns the state after the `]` of the bracket that was opened.
    fn closed(self) -> RegularPoint
        ensures { result ≡ closed_point self }
    {
        let full = match self.item {
            ItemState::SlashRaw => FullItem::Spacing,
            _ => FullItem::Attribute,
        };
        RegularPoint {
            item: ItemState::Done(full),
            ..self
        }
    }

    /// Returns whether the `]` after `bytes`, the content of the bracket that was opened, has a
    /// warning, if no macro is defined.
    fn warns_after(self, bytes: &[u8]) -> bool
        ensures { result ≡ (attribute_state (closed_point self).item && is_macro bytes.now) }
    {
        is_attribute(self.closed().item) && is_macro(bytes)
    }

    /// Returns the length in bytes of the longest regular prefix of the `read` bytes up to here:
    /// `read`, if the snippet may end here with nothing found, else `before`.
    #[inline(always)]
    fn longest(self, read: usize, before: usize) -> usize
        ensures { result ≡ longest_at (reading_at self) read before }
    {
        if is_whole(self.item) && !self.fused {
            read
        } else {
            before
        }
    }
}

/// Returns whether an attribute with the content `bytes` names a macro.
fn is_macro(bytes: &[u8]) -> bool
    ensures { result ≡ is_macro bytes.now }
{
    match bytes {
        [b'n' | b'g' | b'e', b'm', b'0'..=b'9'] => true,
        _ => false,
    }
}

/// Returns the number of bytes before the first `]` of `bytes`, or of all.
#[inline(always)]
fn inside_len(bytes: &[u8]) -> usize
    ensures within { result ≤ length bytes.now }
    ensures inside { list_all is_inside (take result bytes.now) ≡ true }
    ensures closed { result < length bytes.now → get_or bytes.now result 0 ≡ 93 }
{
    let mut len = 0;
    while len < bytes.len() && bytes[len] != b']' {
        len += 1;
    }
    len
}

/// Returns whether `byte` is a pitch other than `b`.
fn begins_front(byte: u8) -> bool
    ensures { result ≡ begins_front byte }
{
    (byte >= b'c' && byte <= b'n') || byte == b'a' || byte == b'p'
}

/// Returns whether `byte` is a pitch other than `b`, or a frequent suffix or sign. Most bytes of
/// notes are known by one comparison, and most fronts end at a `)`.
fn goes_on_front(byte: u8) -> bool
    ensures { result ≡ goes_on_front byte }
{
    if byte >= b'c' && byte <= b'p' {
        return true;
    }
    if byte == b')' {
        return false;
    }
    match byte {
        b'a' | b'.' | b'_' | b'\'' | b'v' | b's' | b'w' => true,
        _ => false,
    }
}

/// Returns the state of the item after the character `byte` of a front.
fn item_at(byte: u8) -> ItemState
    ensures { result ≡ item_at byte }
{
    match byte {
        b'c' | b'f' => ItemState::ClefPitch,
        b'a' | b'd' | b'e' | b'g'..=b'n' | b'p' => ItemState::Pitch,
        _ => ItemState::Body,
    }
}

/// Returns the length in bytes of the front that `bytes` begin with: pitches other than `b`, and
/// after the first of them frequent suffixes and signs too. After each of its bytes a regular
/// snippet may end.
#[inline(always)]
fn front_len(bytes: &[u8]) -> usize
    ensures within { result ≤ length bytes.now }
    ensures front { is_front (take result bytes.now) ≡ true }
{
    if bytes.is_empty() || !begins_front(bytes[0]) {
        return 0;
    }
    let mut len = 1;
    while len < bytes.len() && goes_on_front(bytes[len]) {
        len += 1;
    }
    len
}

/// Returns whether `byte` is a bar or a line break, of those that a snippet often is.
fn begins_bar(byte: u8) -> bool
    ensures { result ≡ begins_bar byte }
{
    match byte {
        b',' | b':' | b';' | b'Z' | b'z' => true,
        _ => false,
    }
}

/// Returns the length in bytes of the bar or the line break that `bytes` begin with, if it is one
/// that a snippet often is; else 0.
#[inline(always)]
fn bar_len(bytes: &[u8]) -> usize
    ensures within { result ≤ length bytes.now }
    ensures bar { is_bar (take result bytes.now) ≡ true }
{
    if bytes.is_empty() || !begins_bar(bytes[0]) {
        return 0;
    }
    if bytes.len() > 1 && bytes[1] == b':' && bytes[0] == b':' {
        return 2;
    }
    1
}

/// Returns the state after a front of `len` bytes at the beginning of `bytes`.
fn front_point(bytes: &[u8], len: usize) -> RegularPoint
    requires { len ≤ length bytes.now }
    ensures { reading_at result ≡ front_state (take len bytes.now) }
{
    RegularPoint {
        item: if len == 0 {
            ItemState::Start
        } else {
            item_at(bytes[len - 1])
        },
        fused: false,
    }
}

/// Returns the length that `regular_notes` returns, if the first `front` bytes of `text` are a
/// front, by reading the bytes after them. In a bracket it looks for the end alone.
fn regular_by_bytes(text: &str, front: usize) -> usize
    requires within { front ≤ length text.now }
    requires is_front { is_front (take front text.now) ≡ true }
    ensures { IsLongestPrefix IsRegular text.now result }
{
    let bytes = text.as_bytes();
    let mut point = front_point(bytes, front);
    let mut read = front;
    let mut regular = front;
    while read < bytes.len() {
        point = match point.after(bytes[read]) {
            Some(next) => next,
            None => return regular,
        };
        read += 1;
        if is_raw(point.item) {
            let rest = &bytes[read..];
            let len = inside_len(rest);
            if len == rest.len() || point.warns_after(&rest[..len]) {
                return regular;
            }
            read += len + 1;
            point = point.closed();
        }
        regular = point.longest(read, regular);
    }
    regular
}

/// Returns the length that `regular_notes` returns, by a short way if `text` is a bar before its
/// mark.
fn regular_from_bar(text: &str) -> usize
    ensures { IsLongestPrefix IsRegular text.now result }
{
    let bytes = text.as_bytes();
    let bar = bar_len(bytes);
    if bar < bytes.len() && is_mark(bytes[bar]) {
        return bar;
    }
    regular_by_bytes(text, 0)
}

/// Returns the length that `regular_notes` returns, if the first `front` bytes of `text` are a
/// front. It stays out of line: few snippets are more than a front.
#[inline(never)]
fn regular_after_front(text: &str, front: usize) -> usize
    requires within { front ≤ length text.now }
    requires is_front { is_front (take front text.now) ≡ true }
    ensures { IsLongestPrefix IsRegular text.now result }
{
    if front == 0 {
        regular_from_bar(text)
    } else {
        regular_by_bytes(text, front)
    }
}

/// Returns the length in bytes of the longest prefix of `text` that is a regular snippet: before
/// the `)` or `|` that ends it, each of its characters is kept and nothing is found, whatever
/// macros are defined (GregorioRef, "Notation — Note Syntax"). The empty text is such a prefix. It
/// does not allocate.
#[inline(always)]
pub fn regular_notes(text: &str) -> usize
    ensures { IsLongestPrefix IsRegular text.now result }
{
    let bytes = text.as_bytes();
    let front = front_len(bytes);
    // most snippets are a front alone
    if front < bytes.len() && is_mark(bytes[front]) {
        return front;
    }
    regular_after_front(text, front)
}
