//! Lines and columns.

ghost use Rattle.std.specs.Prelude.{◌≡◌, ◌+◌, ◌^◌, ◌<◌, ℕ, List, [], ◌∷◌, ◌++◌};

/// The place of a character in a text: its line and its column in characters, both from 1.
#[derive(Clone, Copy, Debug, PartialEq, Eq)]
pub struct Place {
    /// The line, from 1.
    pub line: u64,
    /// The column in characters, from 1.
    pub column: u64,
}

impl Place {
    ghost use Rattle.gabc_places.specs.Place.{next_place, place_after, saturating_next_place};

    /// The place of the first character of a text.
    pub const START: Place = Place { line: 1, column: 1 };

    /// Returns the place after `c`, which is at this place. If this is the place after some text,
    /// it is the place after that text with the character.
    pub fn after(self, c: char) -> Place
        requires line { self.line + 1 < 2 ^ 64 }
        requires column { self.column + 1 < 2 ^ 64 }
        ensures next { result ≡ next_place self c }
        ensures follows { (text : List ℕ) → self ≡ place_after text →
            result ≡ place_after (text ++ c ∷ []) }
    {
        if c == '\n' {
            Place {
                line: self.line + 1,
                column: 1,
            }
        } else {
            Place {
                line: self.line,
                column: self.column + 1,
            }
        }
    }

    /// Returns the place after `c`, which is at this place. A count that has reached the last value
    /// of a `u64` stays there.
    #[inline(always)]
    pub fn saturating_after(self, c: char) -> Place
        ensures { result ≡ saturating_next_place self c }
    {
        if c == '\n' {
            Place {
                line: self.line.saturating_add(1),
                column: 1,
            }
        } else {
            Place {
                line: self.line,
                column: self.column.saturating_add(1),
            }
        }
    }
}

/// A character of a text, with its place.
#[derive(Clone, Copy, Debug, PartialEq, Eq)]
pub struct Char {
    /// The character.
    pub c: char,
    /// Its place.
    pub place: Place,
}

/// A part of a text: its bytes from `from` up to before `to`, counted from 0; of a centre, a part
/// of the pieces; of elements and segments, a part of the items.
#[derive(Clone, Copy, Debug, PartialEq, Eq)]
pub struct Span {
    /// The first byte, from 0.
    pub from: usize,
    /// The byte after the last one.
    pub to: usize,
}
