//! The tokens of a text: the parts of its spelling that the rules are about.

ghost use Rattle.std.specs.Prelude.{◌≡◌};
ghost use Rattle.gabc_text.specs.Token.{is_special, single};
ghost use Rattle.gabc_text.specs.View.{is_space};

use crate::styles::Style;

/// The kind of a token of a text.
#[derive(Clone, Copy, Debug, PartialEq, Eq)]
pub enum TokenKind {
    /// A character that is printed as itself, with its `$` if it has one.
    Letter,
    /// A blank.
    Blank,
    /// A comment, from its `%` to the line's end.
    Comment,
    /// A character that is left out.
    Stray,
    /// A `{`.
    Begin,
    /// A `}`.
    End,
    /// A tag.
    Tag,
    /// A raw part with both its tags.
    Raw,
    /// A translation with its brackets.
    Translation,
    /// A tag or raw part that the end of the text leaves open.
    OpenTag,
    /// A translation that the end of the text leaves open.
    OpenTranslation,
}

/// A raw part of a text, by its tag.
#[derive(Clone, Copy, Debug, PartialEq, Eq)]
pub enum RawKind {
    /// `<v>`, verbatim TeX.
    V,
    /// `<sp>`, a special character.
    Sp,
    /// `<alt>`, a text over the line.
    Alt,
}

/// The effect of a tag.
#[derive(Clone, Copy, Debug, PartialEq, Eq)]
pub enum TagEffect {
    /// It opens a style.
    Opens(Style),
    /// It closes a style.
    Closes(Style),
    /// It opens or closes a span of several syllables.
    Mark,
    /// It begins a raw part.
    Begins(RawKind),
    /// None of these.
    Other,
}

pub(crate) fn is_special(c: char) -> bool
    ensures { result ≡ is_special c }
{
    match c {
        '(' | ')' | '[' | ']' | '{' | '}' | '<' | '>' | '%' | '$' => true,
        _ => false,
    }
}

pub(crate) fn single(c: char) -> TokenKind
    ensures { result ≡ single c }
{
    match c {
        ' ' | '\t' | '\n' => TokenKind::Blank,
        ')' | ']' | '>' => TokenKind::Stray,
        '{' => TokenKind::Begin,
        '}' => TokenKind::End,
        _ => TokenKind::Letter,
    }
}

pub(crate) fn is_blank_kind(kind: TokenKind) -> bool
    ensures { result ≡ is_space kind }
{
    match kind {
        TokenKind::Blank => true,
        _ => false,
    }
}
