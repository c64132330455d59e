//! The kind of a list of notes.

ghost use Rattle.std.specs.Prelude.{MatchOption};
ghost use Rattle.gabc_neumes.specs.Glyphs.{HasKind};
ghost use Rattle.gabc_neumes.specs.declared.glyph.GlyphKind.{GlyphKind};

use crate::glyph::GlyphKind;
use crate::state::{GlyphState, class_of, ends, goes_on};
use gabc_notes::Note;

/// Returns the kind of the glyph of `notes`, if all of them together are one; `None` for no notes.
pub fn kind_of(notes: &[Note]) -> Option<GlyphKind>
    ensures { MatchOption result
        ((kind : GlyphKind) → ¬ HasKind kind notes.now) (λ kind. HasKind kind notes.now) }
{
    let mut state = GlyphState::Start;
    let mut before = None;
    for note in notes {
        state = goes_on(state, class_of(before, *note))?;
        before = Some(note.height);
    }
    ends(state)
}
