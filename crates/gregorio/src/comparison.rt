//! A comparison of bytes, as they come, with a text.

ghost use Rattle.std.specs.Prelude.{◌≡◌, ◌↔◌, [], Some, IsTrue};
ghost use Rattle.gregorio.specs.machine.Comparison.{compared_with};

use gabc_places::Put;
use std::marker::Model;

/// Compares the bytes that it takes with a text, and does not allocate. In contracts it is the rest
/// of the text, as long as the bytes taken are the beginning of the text.
#[derive(Drop)]
pub(crate) struct Comparison<'a> {
    rest: Option<&'a [u8]>,
}

impl<'a> Model for Comparison<'a> {
    ghost use Rattle.std.specs.Prelude.{ℕ, List, Option};
    ghost use Rattle.std.specs.Option.{option_map};

    ghost Value = { Option (List ℕ) };

    ghost view = { λ c. option_map (λ rest. rest.now) c.rest };
}

impl<'a> Comparison<'a> {
    /// Returns a comparison with `text`, before its first byte.
    pub(crate) fn with(text: &'a [u8]) -> Comparison<'a>
        ensures { result ≡ Some text.now }
    {
        Comparison { rest: Some(text) }
    }

    /// Returns whether the bytes taken are the whole text, and nothing else.
    pub(crate) fn is_same(&self) -> bool
        ensures { IsTrue result ↔ self.now ≡ Some [] }
    {
        matches!(self.rest, Some([]))
    }
}

/// Compares the bytes.
impl Put for Comparison<'_> {
    ghost use Rattle.gregorio.specs.machine.Comparison.{compared_with_both, compared_with_none};

    ghost taken = { compared_with };

    ghost taken_nothing = { compared_with_none };

    ghost taken_both = { compared_with_both };

    fn put(&mut self, bytes: &[u8]) {
        if let Some(rest) = self.rest {
            self.rest = rest.strip_prefix(bytes);
        }
    }
}
