//! The view of a text: its pieces, its centre and its translation.

ghost use Rattle.std.specs.Prelude.{◌≡◌, ◌≤◌, IsOk, IfOk, OnOk, OnErr};
ghost use Rattle.smallvec.specs.SmallVec.{HasRoomFor};
ghost use Rattle.gabc_text.specs.BuiltText.{empty_view, with_part};
ghost use Rattle.gabc_text.specs.TextView.{content_of};

use crate::styles::Styles;
use crate::text_event::TextPart;
use gabc_places::{Place, Span};
use smallvec::SmallVec;
use std::alloc::{AllocError, Global};

/// The kind of a piece of a text.
#[derive(Clone, Copy, Debug, PartialEq, Eq)]
pub enum PieceKind {
    /// A character that is printed as itself.
    Char,
    /// A run of blanks.
    Blank,
    /// A raw part with its two tags.
    Raw,
    /// A tag that is kept as it is written.
    Tag,
    /// One of `<eu>`, `</eu>`, `<nlba>` and `</nlba>`.
    Mark,
}

/// A piece of a text. Its span counts bytes of the kept text; that of a character is without the
/// `$` before it.
#[derive(Clone, Copy, Debug, PartialEq, Eq)]
pub struct Piece {
    /// Its kind.
    pub kind: PieceKind,
    /// The styles that are open at it.
    pub styles: Styles,
    /// Its bytes in the kept text.
    pub span: Span,
}

/// A character without bytes or styles.
impl Default for Piece {
    ghost use Rattle.gabc_text.specs.declared.view.PieceKind.TheVariants.{Char};
    ghost use Rattle.gabc_text.specs.declared.styles.TheConstants.Styles.{NONE};

    ghost is_default = { λ p.
        (p.kind ≡ Char) × ((p.styles ≡ NONE) × ((p.span.from ≡ 0) × (p.span.to ≡ 0))) };

    fn default() -> Piece {
        Piece {
            kind: PieceKind::Char,
            styles: Styles::NONE,
            span: Span { from: 0, to: 0 },
        }
    }
}

/// The end of a text.
#[derive(Clone, Copy, Debug, PartialEq, Eq)]
pub enum TextEnding {
    /// At the `(` at this index, in bytes of the text.
    Notes(usize),
    /// At the end of the input.
    Finished,
    /// At the end of the input, inside the tag, raw part or translation that begins here.
    Cut(Place),
}

/// The pieces of a text, in order. Up to four of them are not allocated.
pub type Pieces = SmallVec<Piece, 4>;

/// The view of a text.
#[derive(Debug, Drop)]
pub struct TextView {
    /// Whether the syllable begins a word.
    pub word_start: bool,
    /// The pieces, in order.
    pub pieces: Pieces,
    /// The centre, from and to a number of pieces (GregorioRef, "Lyric Centering").
    pub centre: Option<Span>,
    /// The first translation without its brackets, in bytes of the kept text (GregorioRef,
    /// "Translation Text").
    pub translation: Option<Span>,
}

impl TextView {
    /// Returns an empty view.
    pub fn new(alloc: Global) -> TextView
        ensures { content_of result ≡ empty_view }
    {
        TextView {
            word_start: false,
            pieces: Pieces::new(alloc),
            centre: None,
            translation: None,
        }
    }

    /// Returns an empty view, and reserves memory for `pieces` pieces.
    pub fn with_capacity(alloc: Global, pieces: usize) -> Result<TextView, AllocError>
        ensures content { IfOk result (λ view. content_of view ≡ empty_view) }
        ensures capacity { IfOk result (λ view. pieces ≤ view.pieces.capacity) }
    {
        Ok(TextView {
            word_start: false,
            pieces: Pieces::with_capacity(alloc, pieces)?,
            centre: None,
            translation: None,
        })
    }

    /// Adds `part`, as the machine emitted it. If one piece more is within the capacity, it does
    /// not allocate. If memory cannot be allocated, the view is unchanged.
    pub fn add(&mut self, part: TextPart) -> Result<(), AllocError>
        ensures added { OnOk result (content_of self.new ≡ with_part (content_of self.old) part) }
        ensures capacity { self.old.pieces.capacity ≤ self.new.pieces.capacity }
        ensures had_room { HasRoomFor self.old.pieces 1 →
            self.new.pieces.capacity ≡ self.old.pieces.capacity }
        ensures succeeds { HasRoomFor self.old.pieces 1 → IsOk result }
        ensures unchanged { OnErr result (content_of self.new ≡ content_of self.old) }
    {
        match part {
            TextPart::WordStart => self.word_start = true,
            TextPart::Piece(piece) => self.pieces.push(piece)?,
            TextPart::Centre(span) => self.centre = Some(span),
            TextPart::Translation(span) => self.translation = Some(span),
        }
        Ok(())
    }

    /// Adds `part`, as `add` does, if one piece more is within the capacity. It does not allocate.
    pub fn add_reserved(&mut self, part: TextPart)
        requires { HasRoomFor self.old.pieces 1 }
        ensures added { content_of self.new ≡ with_part (content_of self.old) part }
        ensures capacity { self.new.pieces.capacity ≡ self.old.pieces.capacity }
    {
        match part {
            TextPart::WordStart => self.word_start = true,
            TextPart::Piece(piece) => self.pieces.push_reserved(piece),
            TextPart::Centre(span) => self.centre = Some(span),
            TextPart::Translation(span) => self.translation = Some(span),
        }
    }

    /// Returns a view that says the same, in memory of its own.
    pub fn copy(&self, alloc: Global) -> Result<TextView, AllocError>
        ensures { IfOk result (λ view. content_of view ≡ content_of self.now) }
    {
        Ok(TextView {
            word_start: self.word_start,
            pieces: Pieces::from_slice(alloc, self.pieces.as_slice())?,
            centre: self.centre,
            translation: self.translation,
        })
    }

    /// Makes the view empty. The memory stays reserved.
    pub fn clear(&mut self)
        ensures content { content_of self.new ≡ empty_view }
        ensures capacity { self.new.pieces.capacity ≡ self.old.pieces.capacity }
    {
        self.word_start = false;
        self.pieces.clear();
        self.centre = None;
        self.translation = None;
    }
}
