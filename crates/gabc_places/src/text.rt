//! A text of characters.

ghost use Rattle.std.specs.Prelude.{◌≡◌, ◌<◌, ◌^◌, [], ◌∷◌, ◌++◌, length, filter, IfOk, OnOk, OnErr, encode_utf8_all};
ghost use Rattle.std.specs.Str.{chars};
ghost use Rattle.gabc_places.specs.Place.{place_after};
ghost use Rattle.gabc_places.specs.Text.{is_shown};

use crate::place::Place;
use std::alloc::{AllocError, Global};
use std::marker::Model;

/// The text of an input. In contracts it is the list of its characters.
#[derive(Debug, Drop)]
pub struct Text {
    string: String,
}

impl Model for Text {
    ghost use Rattle.std.specs.Prelude.{ℕ, List, string_bytes};
    ghost use Rattle.std.specs.Str.{chars};

    ghost Value = { List ℕ };

    ghost view = { λ t. chars (string_bytes t.string) };
}

impl Text {
    /// Returns the empty text.
    pub fn new(alloc: Global) -> Text
        ensures { result ≡ [] }
    {
        Text {
            string: String::new(alloc),
        }
    }

    /// Returns a text of the characters of `text`, none of them left out or changed.
    pub fn from_str(alloc: Global, text: &str) -> Result<Text, AllocError>
        ensures { IfOk result (λ t. t ≡ chars text.now) }
    {
        Ok(Text {
            string: String::from_str(alloc, text)?,
        })
    }

    /// Returns the text, which has fewer than 2^63 bytes.
    pub fn as_str(&self) -> &str
        ensures short { length result.now < 2 ^ 63 }
        ensures bytes { result.now ≡ encode_utf8_all self.now }
        ensures characters { chars result.now ≡ self.now }
    {
        self.string.as_str()
    }

    /// Adds the character `c` at the end.
    pub(crate) fn push(&mut self, c: char) -> Result<(), AllocError>
        ensures added { OnOk result (self.new ≡ self.old ++ c ∷ []) }
        ensures unchanged { OnErr result (self.new ≡ self.old) }
    {
        self.string.push(c)
    }

    /// Adds `text` at the end.
    fn push_str(&mut self, text: &str) -> Result<(), AllocError>
        ensures { OnOk result (self.new ≡ self.old ++ chars text.now) }
    {
        self.string.push_str(text)
    }

    /// Adds the characters of `line` at the end, but for each U+FEFF.
    pub(crate) fn push_shown(&mut self, line: &str) -> Result<(), AllocError>
        ensures { OnOk result (self.new ≡ self.old ++ filter is_shown (chars line.now)) }
    {
        let mut rest = line;
        while let Some((shown, after)) = rest.split_once("\u{FEFF}") {
            self.push_str(shown)?;
            rest = after;
        }
        self.push_str(rest)
    }

    /// Returns the place after the last character.
    pub fn end(&self) -> Place
        ensures { result ≡ place_after self.now }
    {
        let mut place = Place::START;
        for c in self.as_str().chars() {
            place = place.after(c);
        }
        place
    }
}
