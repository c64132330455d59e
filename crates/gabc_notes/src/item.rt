//! The items of a snippet.

use gabc_places::{Sequence, Span};

/// The kind of an item.
#[derive(Clone, Copy, Debug, PartialEq, Eq)]
pub enum ItemKind {
    /// A pitch with its signs, as `gv`, or a capital (GregorioRef, "One-Note Neumes").
    Note,
    /// A flat, a natural or a sharp, as `gx` ("Additional Symbols").
    Alteration,
    /// A clef, as `c4`, or two joined by `@` ("Clefs").
    Clef,
    /// A bar, as `;` ("Separation Bars").
    Bar,
    /// A space between notes, as `/` or blanks ("Neume Spacing").
    Spacing,
    /// A custos, as `g+` or `z0` ("Custos").
    Custos,
    /// A line break, as `z` ("Line Breaks").
    Break,
    /// A text in brackets, as `[nm1]` ("Choral Signs", "Macros").
    Attribute,
    /// An `@`, `@[` or `]` ("Neume Fusion").
    Fusion,
}

/// An item of a kept text: its kind, and its span in bytes of the kept text.
#[derive(Clone, Copy, Debug, PartialEq, Eq)]
pub struct Item {
    /// Its kind.
    pub kind: ItemKind,
    /// Its bytes in the kept text.
    pub span: Span,
}

/// The items of a kept text, in order.
pub type Items = Sequence<Item>;
