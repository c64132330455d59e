//! The kinds of the nodes of a tree.

/// The kind of a node. The number of a kind never changes.
#[derive(Clone, Copy, Debug, PartialEq, Eq)]
pub enum Kind {
    /// The whole input.
    File,
    /// A header, with its `;` (GregorioRef, "Headers").
    Header,
    /// The name of a header.
    HeaderName,
    /// The value of a header.
    HeaderValue,
    /// A header or a line of the headers that is left out.
    HeaderLeftOut,
    /// A comment in the headers, from its `%` to the line's end.
    HeaderComment,
    /// The `%%` that ends the headers.
    ScoreLine,
    /// A text with its notes in parentheses (GregorioRef, "Syllable Text Syntax").
    Syllable,
    /// Characters of a text, one after the other, all in the same styles.
    Characters,
    /// A character that a `$` makes plain, with its `$`.
    Escape,
    /// A blank of a text.
    TextBlank,
    /// A raw part of a text with its tags, as `<sp>V/</sp>`.
    Raw,
    /// A tag that is not known.
    Tag,
    /// A tag that opens or closes the span of `eu` or `nlba`.
    SpanMark,
    /// A tag that opens or closes a style.
    StyleTag,
    /// A centring brace.
    Brace,
    /// A translation with its brackets.
    Translation,
    /// The notes between two of the marks `(`, `|` and `)`: GABC or a line of NABC.
    Snippet,
    /// A neume of one or more notes.
    Glyph,
    /// A note (GregorioRef, "One-Note Neumes").
    Note,
    /// A flat, a natural or a sharp.
    Alteration,
    /// A clef, or two joined by `@`.
    Clef,
    /// A bar.
    Bar,
    /// A space between notes.
    Spacing,
    /// A custos.
    Custos,
    /// A line break.
    LineBreak,
    /// A text in brackets, as `[nm1]`.
    Attribute,
    /// An `@`, `@[` or `]`.
    Fusion,
    /// A descriptor of NABC: glyphs with their points and letters.
    Descriptor,
    /// A space of NABC.
    NabcSpace,
    /// A glyph of a descriptor.
    NabcGlyph,
    /// Subpuncta or prepuncta of a descriptor.
    NabcPoints,
    /// Significant or tironian letters of a descriptor.
    NabcLetters,
    /// A comment of the body, from its `%` to the line's end.
    Comment,
    /// A character that is left out.
    LeftOut,
    /// Blanks after one that is kept, and blanks of NABC.
    FurtherBlank,
    /// A U+FEFF, or the LF directly after a CR.
    Silent,
    /// The rest of the input, not read after a fatal fault.
    Unread,
}

impl Kind {
    ghost use Rattle.std.specs.Prelude.{◌≡◌};
    ghost use Rattle.gabc_nodes.specs.Kind.{number_of};

    /// Returns its number, which never changes: 0 for `File`, 1 for `Header` and so on.
    pub fn number(self) -> u16
        ensures { result ≡ number_of self }
    {
        self as u16
    }
}
