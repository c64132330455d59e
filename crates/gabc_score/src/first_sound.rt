//! Whether a note or a clef comes first in a score.

ghost use Rattle.std.specs.Prelude.{◌≡◌};
ghost use Rattle.gabc_notes.specs.FirstNoteOrClef.{first_note_or_clef as first_of};
ghost use Rattle.gabc_notes.specs.Items.{items_of};
ghost use Rattle.gabc_score.specs.machine.FirstSound.{kind_of};

use gabc_notes::{ItemKind, first_note_or_clef};

/// Which of a note and a clef came first in the GABC snippets that have ended.
#[derive(Clone, Copy)]
pub(crate) enum FirstSound {
    Note,
    Clef,
    /// One of the two, of a restored score, which does not know which.
    Either,
}

/// Returns whether a note or a clef comes first in `kept`, the kept text of a snippet of GABC;
/// `None`, if it has neither.
pub(crate) fn first_sound(kept: &str) -> Option<FirstSound>
    ensures { kind_of result ≡ first_of (items_of kept.now) }
{
    match first_note_or_clef(kept)? {
        ItemKind::Note => Some(FirstSound::Note),
        _ => Some(FirstSound::Clef),
    }
}
