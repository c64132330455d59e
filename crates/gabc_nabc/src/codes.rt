//! The codes of a descriptor's glyphs.

ghost use Rattle.std.specs.Prelude.{◌≡◌, ◌<◌, ◌≤◌, ◌-◌, length, option_to_list};
ghost use Rattle.gabc_nabc.specs.Codes.{code_at, codes_of};

use crate::code::GlyphCode;
use crate::descriptor::Descriptor;
use std::marker::Model;

/// Returns the code whose second letter is the byte `at` of `text`, from 1, if there is one.
fn code_ending(text: &[u8], at: usize) -> Option<GlyphCode>
    requires from { 1 ≤ at }
    requires within { at < length text.now }
    ensures { option_to_list result ≡ code_at text.now at }
{
    if at == 1 || text[at - 2] == b'!' {
        Some(GlyphCode {
            first: char::from(text[at - 1]),
            second: char::from(text[at]),
        })
    } else {
        None
    }
}

/// An iterator over the codes of a descriptor's glyphs, in order. In contracts it is the list of
/// the remaining ones.
#[derive(Drop)]
pub struct CodeReader<'a> {
    /// The bytes of the descriptor.
    text: &'a [u8],
    /// The byte at which the second letter of the next code may be.
    at: usize,
}

impl<'a> Model for CodeReader<'a> {
    ghost use Rattle.std.specs.Prelude.{◌≤◌, List};
    ghost use Rattle.gabc_nabc.specs.Codes.{codes_from};
    ghost use Rattle.gabc_nabc.specs.declared.code.GlyphCode.{GlyphCode};

    ghost Value = { List GlyphCode };

    ghost view = { λ r. codes_from r.text.now r.at };

    ghost invariant = { λ r. 1 ≤ r.at };
}

impl<'a> Iterator for CodeReader<'a> {
    type Item = GlyphCode;

    ghost use Rattle.std.specs.Iterator.{YieldsFirst, item_count};

    ghost next_gives = { YieldsFirst (λ ahead. ahead) };

    ghost remaining = { item_count (λ ahead. ahead) };

    fn next(&mut self) -> Option<GlyphCode> {
        for at in self.at..self.text.len() {
            if let Some(code) = code_ending(self.text, at) {
                self.at = at + 1;
                return Some(code);
            }
        }
        None
    }
}

/// Returns an iterator over the codes of the glyphs of `part`, in order: the two letters at its
/// start and after each `!`. A space has none. They are at most as many as `part` has bytes. The
/// span of `part` has to lie within `kept`, as that of each part of `parts_in` does. It does not
/// allocate.
pub fn codes_in(kept: &str, part: Descriptor) -> CodeReader<'_>
    requires order { part.span.from ≤ part.span.to }
    requires within { part.span.to ≤ length kept.now }
    ensures codes { result ≡ codes_of kept.now part }
    ensures few { length (codes_of kept.now part) ≤ part.span.to - part.span.from }
{
    let text = match part.space {
        true => &[],
        false => &kept.as_bytes()[part.span.from..part.span.to],
    };
    CodeReader { text, at: 1 }
}
