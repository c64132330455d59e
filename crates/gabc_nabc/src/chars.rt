//! The characters of a kept text, with their places in the source.

ghost use Rattle.std.specs.Prelude.{◌+◌, ◌<◌, ◌^◌, length, IfOk};
ghost use Rattle.std.specs.Str.{chars};
ghost use Rattle.gabc_nabc.specs.NabcRead.{AreKeptChars};

use crate::stage::NabcStage;
use crate::whole::nabc_whole;
use gabc_notes::kept_chars_by;
use gabc_places::{Char, Place, Sequence};
use std::alloc::{AllocError, Global};

/// Returns the characters of the text that `nabc_whole` keeps of the same arguments, each with its
/// place in the source: a byte of that text belongs to the character of which it is a byte. Fails
/// only if memory cannot be allocated.
pub fn kept_chars(alloc: Global, body: &str, at: Place) -> Result<Sequence<Char>, AllocError>
    requires line { at.line + length body.now < 2 ^ 64 }
    requires column { at.column + length body.now < 2 ^ 64 }
    ensures { IfOk result (λ cs. AreKeptChars at (chars body.now) cs) }
{
    gabc_notes::laws::kept_characters_are_the_kept_text();
    let read = nabc_whole(alloc, body, at)?;
    let stage = NabcStage::new();
    kept_chars_by(alloc, stage, body, at, &read.kept)
}
