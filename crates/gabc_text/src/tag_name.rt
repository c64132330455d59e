//! The names of tags, as their characters come.

ghost use Rattle.std.specs.Prelude.{◌≡◌, ◌==◌, ℕ, ◌-◌, ◌≤◌, List, [], ◌∷◌, ◌++◌, length, take, drop, replicate, map};
ghost use Rattle.std.specs.List.{list_all, zip};
ghost use Rattle.std.proofs.Common.{ap, sym, ◌∙◌, subst, take-append-drop, length-take-le};
ghost use Rattle.gabc_text.specs.declared.tags.TheConstants.{KEPT};
ghost use Rattle.gabc_text.specs.Token.{is_text, effect_in, effect_of};
ghost use Rattle.gabc_text.specs.machine.TagPrefix.{next_name};

use crate::tags::{KEPT, TAGS};
use crate::token::TagEffect;
use std::marker::Model;

/// The first characters of a tag's name, up to more than any known name has. In contracts it is the
/// list of them.
#[derive(Clone, Copy)]
pub struct TagPrefix {
    letters: [char; KEPT],
    len: usize,
}

impl Model for TagPrefix {
    ghost Value = { List ℕ };

    ghost view = { λ n. take n.len n.letters };

    ghost invariant = { λ n. (n.len ≤ KEPT)
        × (length n.letters ≡ KEPT) × (drop n.len n.letters ≡ replicate (KEPT - n.len) 0) };

    ghost inverse = { λ s. record {
      letters = s ++ replicate (KEPT - length s) 0;
      len = length s;
    } };

    ghost inverse_ok = { λ n h i.
        let IsWithin : ℕ → Type 0 = λ k. n.len ≤ k in
        let fits : n.len ≤ length n.letters = subst IsWithin (sym h.1) h.0 in
        let long : length (take n.len n.letters) ≡ n.len = length-take-le n.len n.letters fits in
        record {
          letters = (ap (λ (k : ℕ). take n.len n.letters ++ replicate (KEPT - k) 0) long
              ∙ ap (λ (u : List ℕ). take n.len n.letters ++ u) (sym h.2)
              ∙ take-append-drop n.len n.letters) i;
          len = long i;
        } };
}

impl TagPrefix {
    /// Returns a name of which nothing was read.
    pub(crate) fn new() -> TagPrefix
        ensures { result ≡ [] }
    {
        TagPrefix {
            letters: ['\0'; KEPT],
            len: 0,
        }
    }

    /// Returns the name so far with the character `c` after it.
    pub(crate) fn with(mut self, c: char) -> TagPrefix
        ensures { result ≡ next_name self c }
    {
        if self.len < KEPT {
            self.letters[self.len] = c;
            self.len += 1;
        }
        self
    }

    /// Returns whether it is `name`, in ASCII.
    fn is(&self, name: &str) -> bool
        ensures { result ≡ is_text name.now self.now }
    {
        name.len() == self.len && are_same(name.as_bytes(), &self.letters[..self.len])
    }

    /// Returns the effect of a tag with this name, by the first of `rows` that has it.
    fn effect_among(&self, rows: &[(&'static str, TagEffect)]) -> TagEffect
        ensures { result ≡ effect_in (map (λ row. (row.0.now, row.1)) rows.now) self.now }
    {
        for (name, effect) in rows {
            if self.is(name) {
                return *effect;
            }
        }
        TagEffect::Other
    }

    /// Returns the effect of the tag with this name.
    pub(crate) fn effect(&self) -> TagEffect
        ensures { result ≡ effect_of (60 ∷ self.now ++ 62 ∷ []) }
    {
        self.effect_among(&TAGS)
    }
}

/// Returns whether `letters` are `bytes`, one by one, as far as there are both.
fn are_same(bytes: &[u8], letters: &[char]) -> bool
    ensures { result ≡ list_all (λ p. p.1 == p.0) (zip bytes.now letters.now) }
{
    bytes.iter().zip(letters).all(|(b, c)| *c == char::from(*b))
}
