//! The styles of a text.

/// The look of letters: the styles of GABC. Texts that are not sung are italic.
#[derive(Clone, Copy, Debug, PartialEq, Eq)]
pub struct Styles {
    pub bold: bool,
    pub red: bool,
    pub italic: bool,
    pub small_capitals: bool,
    pub typewriter: bool,
    pub underlined: bool,
}

impl Styles {
    /// Plain letters.
    pub const PLAIN: Styles = Styles {
        bold: false,
        red: false,
        italic: false,
        small_capitals: false,
        typewriter: false,
        underlined: false,
    };

    /// Italic letters.
    pub const ITALIC: Styles = Styles {
        italic: true,
        ..Styles::PLAIN
    };
}
