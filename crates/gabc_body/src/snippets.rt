//! The snippets of a syllable.

use gabc_places::Span;
use smallvec::SmallVec;

/// A snippet of the notes: line 0 is GABC, and the lines from 1 on are the NABC of the GABC snippet
/// before them (GregorioRef, "Headers": `nabc-lines`). The span counts bytes of the kept text.
#[derive(Clone, Copy, Debug, PartialEq, Eq)]
pub struct Snippet {
    /// 0 for GABC, and 1 to 4 for NABC.
    pub line: u8,
    /// Its bytes in the kept text.
    pub span: Span,
}

/// A snippet of GABC without bytes.
impl Default for Snippet {
    ghost use Rattle.std.specs.Prelude.{◌≡◌};

    ghost is_default = { λ s. (s.line ≡ 0) × ((s.span.from ≡ 0) × (s.span.to ≡ 0)) };

    fn default() -> Snippet {
        Snippet {
            line: 0,
            span: Span { from: 0, to: 0 },
        }
    }
}

/// The snippets of a syllable, in order. One alone is not allocated.
pub type Snippets = SmallVec<Snippet, 1>;
