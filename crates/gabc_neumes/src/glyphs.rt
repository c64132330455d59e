//! The glyphs of a segment.

ghost use Rattle.std.specs.Prelude.{◌≡◌, ◌<◌, ◌+◌, ◌^◌, ◌∷◌, List, length, [], IfSome, IfNone, true, is_some};
ghost use Rattle.std.specs.List.{take_while};
ghost use Rattle.gabc_places.specs.BoundedList.{Fits, extended_by};
ghost use Rattle.gabc_notes.specs.Items.{AreWithin};
ghost use Rattle.gabc_neumes.specs.Cut.{longest_glyph};
ghost use Rattle.gabc_neumes.specs.Elements.{is_in_segment, notes_in};
ghost use Rattle.gabc_neumes.specs.Glyphs.{AreGlyphsOf};
ghost use Rattle.gabc_neumes.specs.declared.glyph.Glyph.{Glyph};
ghost use Rattle.gabc_neumes.specs.machine.Glyphs.{IsFirstGlyph, search_with};

use crate::glyph::{Glyph, GlyphKind};
use crate::runs::is_in_segment;
use crate::state::{GlyphState, class_of, ends, goes_on};
use gabc_notes::{ItemReader, Note, note_of};
use gabc_places::Room;

/// A search for the longest glyph that begins some notes, which reads them one by one.
#[derive(Clone, Copy)]
struct GlyphSearch {
    /// The state of a glyph after the notes that are read.
    state: GlyphState,
    /// The height of the last of them.
    before: Option<u8>,
    /// Their number.
    read: usize,
    /// The longest glyph that they begin with: its kind, and its number of notes.
    best: Option<(GlyphKind, usize)>,
}

impl GlyphSearch {
    /// Before the first note.
    const START: GlyphSearch = GlyphSearch {
        state: GlyphState::Start,
        before: None,
        read: 0,
        best: None,
    };

    /// Returns the search after `note`, if a glyph may go on with it.
    #[inline(always)]
    fn with(self, note: Note) -> Option<GlyphSearch>
        requires { self.read + 1 < 2 ^ 64 }
        ensures { result ≡ search_with self note }
    {
        let state = goes_on(self.state, class_of(self.before, note))?;
        let read = self.read + 1;
        let best = match ends(state) {
            Some(kind) => Some((kind, read)),
            None => self.best,
        };
        Some(GlyphSearch {
            state,
            before: Some(note.height),
            read,
            best,
        })
    }
}

/// Returns the longest glyph that begins `notes`: its kind, and its number of notes.
fn first_glyph(notes: &[Note]) -> Option<(GlyphKind, usize)>
    ensures found { IfSome result (λ g. IsFirstGlyph notes.now g.0 g.1) }
    ensures none { IfNone result (notes.now ≡ []) }
{
    let mut search = GlyphSearch::START;
    for note in notes {
        match search.with(*note) {
            Some(after) => search = after,
            None => return search.best,
        }
    }
    search.best
}

/// Returns the first glyph of the notes of a segment from `first` on, which are `first` and those
/// among the items of the segment that begin `later`: the longest neume that begins there, as its
/// kind, and its number of notes. `later` has to have items of `kept`, fewer than it has bytes, as
/// `gabc_notes::items_in` has after an item. It does not allocate.
pub fn glyph_from(kept: &str, first: Note, later: &ItemReader<'_>) -> Option<(GlyphKind, usize)>
    requires within { AreWithin kept.now later.now }
    requires few { length later.now < length kept.now }
    ensures glyph { let notes = first ∷ notes_in kept.now (take_while is_in_segment later.now) in
        result ≡ longest_glyph (length notes) notes }
    ensures some { is_some result ≡ true }
{
    let mut search = GlyphSearch::START.with(first)?;
    for item in later.ahead() {
        if !is_in_segment(item) {
            return search.best;
        }
        if let Some(note) = note_of(kept, item) {
            match search.with(note) {
                Some(after) => search = after,
                None => return search.best,
            }
        }
    }
    search.best
}

/// Adds to `out` the glyphs of a segment whose notes are `notes`, in order: each is the longest
/// neume that begins at the end of the one before it, and its notes count from 0 in `notes`
/// (GregorioRef, "Complex Neumes"). `out` has to take as many glyphs more as there are notes. It
/// does not allocate.
pub fn cut(notes: &[Note], out: &mut Room<Glyph>)
    requires { Fits out.old (length notes.now) }
    ensures { (glyphs : List Glyph) × AreGlyphsOf notes.now glyphs ×
        (out.new ≡ extended_by out.old glyphs) }
{
    let mut at = 0;
    while let Some((kind, count)) = first_glyph(&notes[at..]) {
        out.push(Glyph {
            kind,
            first: at,
            count,
        });
        at += count;
    }
}
