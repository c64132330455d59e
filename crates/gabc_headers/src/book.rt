//! The book of headers.

ghost use Rattle.std.specs.Prelude.{◌≡◌, ◌<◌, ◌==◌, ◌&&◌, None, Some, length, nat_lt, slice_get, IfOk, MatchOption, IsSomeAnd, encode_utf8_all};
ghost use Rattle.std.specs.Str.{chars};
ghost use Rattle.gabc_headers.specs.Book.{value_named, has_header, macro_name, nabc_lines_of, macros_of};
ghost use Rattle.gabc_headers.specs.Canonical.{canonical_heads};
ghost use Rattle.gabc_headers.specs.Lines.{bytes_len};
ghost use Rattle.gabc_headers.specs.Entries.{spelled_entries};
ghost use Rattle.gabc_headers.specs.machine.HeaderBook.{IsBook};

use crate::entry_map::EntryMap;
use crate::headers::Headers;
use std::alloc::{AllocError, Global};
use std::fmt;
use std::marker::Model;

/// The headers of a text, in order. In contracts they are a list of names and values, each the list
/// of its characters.
#[derive(Drop)]
pub struct HeaderBook {
    /// The text, at least through the last value.
    text: String,
    headers: EntryMap,
}

impl Model for HeaderBook {
    ghost use Rattle.std.specs.Prelude.{ℕ, List, string_bytes};
    ghost use Rattle.gabc_headers.specs.Entries.{spelled_entries};
    ghost use Rattle.gabc_headers.specs.machine.HeaderBook.{IsBook};

    ghost Value = { List (List ℕ × List ℕ) };

    ghost view = { λ b. spelled_entries (string_bytes b.text) b.headers.0 };

    ghost invariant = { λ b. IsBook (string_bytes b.text) b.headers.0 };
}

impl HeaderBook {
    /// Returns the book of `headers` of `text`, with a copy of `text` through the last value.
    pub(crate) fn of(alloc: Global, text: &str, headers: EntryMap) -> Result<HeaderBook, AllocError>
        requires { IsBook text.now headers.0 }
        ensures { IfOk result (λ book. book ≡ spelled_entries text.now headers.0) }
    {
        let end = headers.end(text);
        Ok(HeaderBook {
            text: String::from_str(alloc, &text[..end])?,
            headers,
        })
    }

    /// Returns the number of headers.
    pub fn len(&self) -> usize
        ensures { result ≡ length self.now }
    {
        self.headers.len()
    }

    /// Returns whether there are no headers.
    pub fn is_empty(&self) -> bool
        ensures { result ≡ (length self.now == 0) }
    {
        self.headers.len() == 0
    }

    /// Returns the name of the header at `index`, from 0 and below `len()`.
    pub fn name(&self, index: usize) -> &str
        requires { index < length self.now }
        ensures { IsSomeAnd (slice_get self.now index) (λ entry. chars result.now ≡ entry.0) }
    {
        self.headers.name(index)
    }

    /// Returns the value of the header at `index`, from 0 and below `len()`.
    pub fn value(&self, index: usize) -> &str
        requires { index < length self.now }
        ensures { IsSomeAnd (slice_get self.now index) (λ entry. chars result.now ≡ entry.1) }
    {
        self.headers.value_in(self.text.as_str(), index)
    }

    /// Returns an iterator over the names and values of the headers, in order.
    pub fn iter(&self) -> Headers<'_>
        ensures { result ≡ self.now }
    {
        Headers::of(self.text.as_str(), &self.headers)
    }

    /// Returns the value of the first header with the name `name`, or `None` if there is none.
    pub fn get(&self, name: &str) -> Option<&str>
        ensures { MatchOption result (value_named (chars name.now) self.now ≡ None)
            (λ v. value_named (chars name.now) self.now ≡ Some (chars v.now)) }
    {
        self.iter().get(name)
    }

    /// Returns the number of lines of NABC under each snippet of notes: 0 to 4, by the header
    /// `nabc-lines` (GregorioRef, "Headers").
    pub fn nabc_lines(&self) -> u8
        ensures { result ≡ nabc_lines_of self.now }
    {
        self.iter().nabc_lines()
    }

    /// Returns whether the macro of `digit` is defined (GregorioRef, "Macros"). Only the digits 0
    /// to 9 have macros.
    pub fn is_macro(&self, digit: u8) -> bool
        ensures { result ≡ (nat_lt digit 10 && has_header (macro_name digit) self.now) }
    {
        self.iter().is_macro(digit)
    }

    /// Returns the defined macros: the bit `d` says that the macro of the digit `d` is defined
    /// (GregorioRef, "Macros").
    pub fn macros(&self) -> u16
        ensures { result ≡ macros_of self.now }
    {
        self.iter().macros()
    }

    /// Returns the number of bytes of the canonical header lines and `%%`.
    pub fn canonical_len(&self) -> usize
        ensures len { result ≡ bytes_len (canonical_heads self.now) }
        ensures bytes { result ≡ length (encode_utf8_all (canonical_heads self.now)) }
    {
        // what a book holds is known where a field is used
        let _ = &self.headers;
        self.iter().canonical_len()
    }
}

impl<'a> IntoIterator for &'a HeaderBook {
    type Item = (&'a str, &'a str);

    type IntoIter = Headers<'a>;

    ghost into_iter_gives = { λ book r. r ≡ book.now };

    fn into_iter(self) -> Headers<'a> {
        self.iter()
    }
}

/// Writes the names and values of the headers, in order.
impl fmt::Debug for HeaderBook {
    fn fmt<W: fmt::Write>(&self, f: &mut fmt::Formatter<W>) -> fmt::Result {
        f.debug_map().entries(self).finish()
    }
}
