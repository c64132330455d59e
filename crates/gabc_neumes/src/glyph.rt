//! The glyphs of notes.

use gabc_notes::Shape;

/// The neume of a glyph without its tail.
#[derive(Clone, Copy, Debug, PartialEq, Eq)]
pub enum Base {
    /// Two joined notes, the second higher.
    Pes,
    /// Two joined notes, the second lower.
    Clivis,
    /// Three joined notes: the second higher, the third lower.
    Torculus,
    /// Three joined notes: the second lower, the third higher.
    Porrectus,
    /// Three or more joined notes, each higher than the one before.
    Scandicus,
    /// A scandicus and a lower joined note.
    ScandicusFlexus,
    /// A torculus and a higher joined note.
    TorculusResupinus,
    /// A porrectus and a lower joined note.
    PorrectusFlexus,
    /// A torculus resupinus and a lower joined note.
    TorculusResupinusFlexus,
    /// A punctum or virga, then two or more inclinata, each lower than the note before.
    Climacus,
    /// One or more inclinata, of any heights.
    Inclinata,
    /// One note of the shape `Shape`.
    One(Shape),
}

/// The notes of a glyph after those of its base.
#[derive(Clone, Copy, Debug, PartialEq, Eq)]
pub enum Tail {
    /// Nothing.
    Plain,
    /// Inclinata, each lower than the note before it.
    Subpunctis,
    /// A joinable note after such inclinata, higher than the last of them.
    Resupinus,
}

/// The neume of a glyph.
#[derive(Clone, Copy, Debug, PartialEq, Eq)]
pub struct GlyphKind {
    /// The neume without its tail.
    pub base: Base,
    /// The notes after those of the base.
    pub tail: Tail,
}

/// A glyph of a segment: its kind, the index of its first note in the segment, and its number of
/// notes.
#[derive(Clone, Copy, Debug, PartialEq, Eq)]
pub struct Glyph {
    /// Its neume.
    pub kind: GlyphKind,
    /// The index of its first note in the segment, from 0.
    pub first: usize,
    /// Its number of notes.
    pub count: usize,
}
