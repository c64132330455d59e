//! The descriptors and spaces of a kept text.

ghost use Rattle.std.specs.Prelude.{◌≡◌, ◌≤◌, length, IfOk};
ghost use Rattle.gabc_places.specs.BoundedList.{Fits, extended_by};
ghost use Rattle.gabc_nabc.specs.Parts.{parts_of, AreDescriptorsOf, AreWithin};
ghost use Rattle.gabc_nabc.specs.machine.Parts.{first_part_of};

use crate::class::class_of;
use crate::descriptor::{Descriptor, Descriptors};
use crate::laws;
use crate::state::{DescriptorState, ends, goes_on};
use gabc_places::{Room, Span};
use std::alloc::{AllocError, Global};
use std::marker::Model;

/// Returns the longest part that begins `text`: whether it is a space, and its number of bytes.
fn first_part(text: &str) -> Option<(bool, usize)>
    ensures { result ≡ first_part_of text.now }
{
    let mut best = None;
    let mut state = DescriptorState::Start;
    let mut read = 0;
    for c in text.chars() {
        match goes_on(state, class_of(c)) {
            Some(after) => {
                state = after;
                read += c.len_utf8();
                if let Some(space) = ends(state) {
                    best = Some((space, read));
                }
            }
            None => return best,
        }
    }
    best
}

/// An iterator over the descriptors and spaces of a kept text, in order. In contracts it is the
/// list of the remaining ones.
#[derive(Drop)]
pub struct PartReader<'a> {
    /// The text from the next part on.
    rest: &'a str,
    /// The number of bytes of the kept text before it.
    at: usize,
}

impl<'a> Model for PartReader<'a> {
    ghost use Rattle.std.specs.Prelude.{◌+◌, ◌<◌, ◌^◌, List, length, IsUtf8};
    ghost use Rattle.gabc_nabc.specs.Parts.{parts_from};
    ghost use Rattle.gabc_nabc.specs.declared.descriptor.Descriptor.{Descriptor};

    ghost Value = { List Descriptor };

    ghost view = { λ r. parts_from r.at r.rest.now };

    ghost invariant = { λ r. IsUtf8 r.rest.now × (r.at + length r.rest.now < 2 ^ 64) };
}

impl<'a> Iterator for PartReader<'a> {
    type Item = Descriptor;

    ghost use Rattle.std.specs.Iterator.{YieldsFirst, item_count};

    ghost next_gives = { YieldsFirst (λ ahead. ahead) };

    ghost remaining = { item_count (λ ahead. ahead) };

    fn next(&mut self) -> Option<Descriptor> {
        let (space, len) = first_part(self.rest)?;
        let span = Span {
            from: self.at,
            to: self.at + len,
        };
        self.rest = &self.rest[len..];
        self.at += len;
        Some(Descriptor { space, span })
    }
}

/// Returns an iterator over the descriptors and spaces of `kept`, in order: spans that count its
/// bytes, each part the longest that begins at the end of the one before it. They make up all of an
/// NABC snippet, such as the text that `nabc_whole` keeps if the snippet ended; in another text
/// they end at the first place where no part begins. They lie in `kept`, and are at most as many as
/// its bytes. It does not allocate, and reads each part when it is asked for.
pub fn parts_in(kept: &str) -> PartReader<'_>
    ensures parts { result ≡ parts_of kept.now }
    ensures within { AreWithin kept.now (parts_of kept.now) }
    ensures few { length (parts_of kept.now) ≤ length kept.now }
{
    PartReader { rest: kept, at: 0 }
}

/// Returns the descriptors and spaces of `kept`, as `parts_in` returns them. Fails only if memory
/// cannot be allocated.
pub fn descriptors_whole(alloc: Global, kept: &str) -> Result<Descriptors, AllocError>
    ensures { IfOk result (λ parts. AreDescriptorsOf kept.now parts) }
{
    laws::parts_are_computed();
    let mut parts = Descriptors::new(alloc);
    for part in parts_in(kept) {
        parts.push(part)?;
    }
    Ok(parts)
}

/// Adds to `out` the descriptors and spaces of `kept`, as `parts_in` returns them, and does not
/// allocate. `out` has to take as many parts more as `kept` has bytes.
pub fn descriptors_into(kept: &str, out: &mut Room<Descriptor>)
    requires { Fits out.old (length kept.now) }
    ensures { out.new ≡ extended_by out.old (parts_of kept.now) }
{
    for part in parts_in(kept) {
        out.push(part);
    }
}
