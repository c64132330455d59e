//! The headers of a book, one after the other.

ghost use Rattle.std.specs.Prelude.{◌≡◌, ◌<◌, ◌-◌, ◌^◌, ◌&&◌, [], None, Some, MatchOption, min, nat_lt};
ghost use Rattle.std.specs.Str.{chars};
ghost use Rattle.gabc_headers.specs.Book.{lines_by, value_named, has_header, macro_name, nabc_lines_of, macros_of};
ghost use Rattle.gabc_headers.specs.Canonical.{canonical_heads};
ghost use Rattle.gabc_headers.specs.Lines.{bytes_len};
ghost use Rattle.gabc_headers.specs.Entries.{spelled_entries};
ghost use Rattle.gabc_headers.specs.machine.EntryMap.{AreWithin};

use crate::canonical::canon_header;
use crate::entry_map::EntryMap;
use crate::nabc_lines::NABC_LINES;
use gabc_places::ByteCounter;
use std::marker::Model;

/// An iterator over the names and values of a book, in order. In contracts it is the list of the
/// remaining ones.
#[derive(Drop)]
pub struct Headers<'a> {
    /// The text that has the values.
    text: &'a str,
    headers: &'a EntryMap,
    /// The index of the next header.
    first: usize,
}

impl<'a> Model for Headers<'a> {
    ghost use Rattle.std.specs.Prelude.{ℕ, List, drop};
    ghost use Rattle.gabc_headers.specs.Entries.{spelled_entries};
    ghost use Rattle.gabc_headers.specs.machine.EntryMap.{AreWithin};

    ghost Value = { List (List ℕ × List ℕ) };

    ghost view = { λ h. drop h.first (spelled_entries h.text.now h.headers.now.0) };

    ghost invariant = { λ h. AreWithin h.text.now h.headers.now.0 };
}

/// Returns the name of the header of the macro of `digit`.
fn macro_header(digit: u8) -> &'static str
    requires { digit < 10 }
    ensures { result.now ≡ macro_name digit }
{
    match digit {
        0 => "def-m0",
        1 => "def-m1",
        2 => "def-m2",
        3 => "def-m3",
        4 => "def-m4",
        5 => "def-m5",
        6 => "def-m6",
        7 => "def-m7",
        8 => "def-m8",
        _ => "def-m9",
    }
}

/// Returns the number of NABC lines for the value `value` of `nabc-lines`.
fn lines_in(value: &str) -> u8
    ensures { result ≡ lines_by (Some (chars value.now)) }
{
    let lines = NABC_LINES.iter().position(|known| *known == value);
    lines.unwrap_or(0) as u8
}

impl<'a> Headers<'a> {
    /// Returns an iterator over all `headers` of `text`.
    pub(crate) fn of(text: &'a str, headers: &'a EntryMap) -> Headers<'a>
        requires { AreWithin text.now headers.now.0 }
        ensures { result ≡ spelled_entries text.now headers.now.0 }
    {
        Headers {
            text,
            headers,
            first: 0,
        }
    }

    /// Returns an iterator over none of `headers`.
    pub(crate) fn none(text: &'a str, headers: &'a EntryMap) -> Headers<'a>
        requires { AreWithin text.now headers.now.0 }
        ensures { result ≡ [] }
    {
        Headers {
            text,
            headers,
            first: headers.len(),
        }
    }

    /// Returns the value of the first of the remaining headers with the name `name`, or `None` if
    /// there is none.
    pub fn get(&self, name: &str) -> Option<&'a str>
        ensures { MatchOption result (value_named (chars name.now) self.now ≡ None)
            (λ v. value_named (chars name.now) self.now ≡ Some (chars v.now)) }
    {
        for index in self.first..self.headers.len() {
            if name == self.headers.name(index) {
                return Some(self.headers.value_in(self.text, index));
            }
        }
        None
    }

    /// Returns the number of lines of NABC under each snippet of notes: 0 to 4, by the header
    /// `nabc-lines` (GregorioRef, "Headers").
    pub fn nabc_lines(&self) -> u8
        ensures { result ≡ nabc_lines_of self.now }
    {
        match self.get("nabc-lines") {
            Some(value) => lines_in(value),
            None => 0,
        }
    }

    /// Returns whether the macro of `digit` is defined (GregorioRef, "Macros"). Only the digits 0
    /// to 9 have macros.
    pub fn is_macro(&self, digit: u8) -> bool
        ensures { result ≡ (nat_lt digit 10 && has_header (macro_name digit) self.now) }
    {
        digit < 10 && self.get(macro_header(digit)).is_some()
    }

    /// Returns the defined macros: the bit `d` says that the macro of the digit `d` is defined
    /// (GregorioRef, "Macros").
    pub fn macros(&self) -> u16
        ensures { result ≡ macros_of self.now }
    {
        let mut macros = 0;
        let mut bit = 1;
        for digit in 0..10 {
            if self.is_macro(digit) {
                macros += bit;
            }
            bit *= 2;
        }
        macros
    }
    /// Returns the number of bytes of the canonical lines of these headers and `%%`; it saturates
    /// at the last value of a `usize`.
    pub fn canonical_len(&self) -> usize
        ensures { result ≡ min (bytes_len (canonical_heads self.now)) (2 ^ 64 - 1) }
    {
        let mut counter = ByteCounter::new();
        canon_header(Headers { ..*self }, &mut counter);
        counter.count()
    }
}

impl<'a> Iterator for Headers<'a> {
    type Item = (&'a str, &'a str);

    ghost use Rattle.std.specs.Prelude.{length};
    ghost use Rattle.std.specs.Iterator.{at_most};
    ghost use Rattle.gabc_headers.specs.NextHeader.{GivesHeader};

    ghost next_gives = { GivesHeader };

    ghost remaining = { λ ahead. at_most (length ahead) };

    fn next(&mut self) -> Option<(&'a str, &'a str)> {
        if self.first >= self.headers.len() {
            return None;
        }
        let name = self.headers.name(self.first);
        let value = self.headers.value_in(self.text, self.first);
        self.first += 1;
        Some((name, value))
    }
}
