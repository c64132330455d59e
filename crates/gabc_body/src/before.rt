//! The context of a syllable in its score.

/// The open spans (GregorioRef, "Syllable Text Syntax").
#[derive(Clone, Copy, Debug, PartialEq, Eq)]
pub struct Spans {
    /// Whether the span of `<eu>` is open.
    pub eu: bool,
    /// Whether the span of `<nlba>` is open.
    pub nlba: bool,
}

/// The context of a syllable in its score: the numbers of the headers, and the totals of the
/// syllables before it.
#[derive(Clone, Copy, Debug, PartialEq, Eq)]
pub struct Before {
    /// The number of NABC lines under each GABC snippet.
    pub nabc_lines: u8,
    /// The defined macros: the bit `d` says that the macro of the digit `d` is defined.
    pub macros: u16,
    /// The number of syllables, a count that saturates at the last value of a `u64`.
    pub syllables: u64,
    /// The bytes of the canonical headers and of the canonical texts of these syllables, a count
    /// that saturates at the last value of a `usize`.
    pub canonical: usize,
    /// The spans that are open after these syllables.
    pub spans: Spans,
    /// Whether one of these syllables has a note or a clef in GABC.
    pub sounded: bool,
}
