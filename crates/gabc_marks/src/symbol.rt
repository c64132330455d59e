//! The outlines of a staff that are no heads of notes.

use crate::head::Metrics;

/// An outline that is no head of a note.
#[derive(Clone, Copy, Debug, PartialEq, Eq)]
pub enum Symbol {
    CClef,
    FClef,
    Flat,
    Natural,
    Sharp,
    CustosUp,
    CustosDown,
    Mora,
    /// The tail of a liquescent note, up or down.
    TailUp,
    TailDown,
    Virgula,
    Accent,
    Grave,
    Circle,
    LowerArc,
    UpperArc,
    /// The brace over a bar.
    Brace,
    BracketLeft,
    BracketRight,
}

impl Symbol {
    /// Returns the width of the outline, and its reach up and down from its origin.
    pub fn metrics(self) -> Metrics {
        let (width, up, down) = match self {
            Symbol::CClef => (526, 858, 858),
            Symbol::FClef => (1021, 858, 934),
            Symbol::Flat => (514, 817, 370),
            Symbol::Natural => (342, 823, 804),
            Symbol::Sharp => (818, 421, 379),
            Symbol::CustosUp => (235, 1166, 376),
            Symbol::CustosDown => (232, 379, 1128),
            Symbol::Mora => (150, 160, 160),
            Symbol::TailUp => (20, 650, 0),
            Symbol::TailDown => (20, 0, 650),
            Symbol::Virgula => (220, 270, 350),
            Symbol::Accent | Symbol::Grave => (280, 230, 190),
            Symbol::Circle => (190, 200, 200),
            Symbol::LowerArc => (220, 90, 150),
            Symbol::UpperArc => (220, 150, 90),
            Symbol::Brace => (600, 100, 170),
            Symbol::BracketLeft => (220, 520, 520),
            Symbol::BracketRight => (260, 520, 520),
        };
        Metrics::new(width, up, down)
    }
}
