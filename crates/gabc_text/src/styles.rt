//! The styles of a text.

ghost use Rattle.std.specs.Prelude.{◌≡◌};
ghost use Rattle.gabc_text.specs.TextFacts.{has_style, is_empty};
ghost use Rattle.gabc_text.specs.machine.TextFacts.{with_style};

/// The styles of a text, in the order in which they are printed (GregorioRef, "Syllable Text
/// Syntax").
#[derive(Clone, Copy, Debug, PartialEq, Eq)]
pub enum Style {
    /// `<b>`, bold.
    B,
    /// `<c>`, coloured.
    C,
    /// `<e>`, elision.
    E,
    /// `<i>`, italic.
    I,
    /// `<sc>`, small capitals.
    Sc,
    /// `<tt>`, typewriter.
    Tt,
    /// `<ul>`, underlined.
    Ul,
}

/// A set of styles: those of the seven that are open.
#[derive(Clone, Copy, Debug, PartialEq, Eq)]
pub struct Styles {
    /// Whether `<b>` is open.
    pub b: bool,
    /// Whether `<c>` is open.
    pub c: bool,
    /// Whether `<e>` is open.
    pub e: bool,
    /// Whether `<i>` is open.
    pub i: bool,
    /// Whether `<sc>` is open.
    pub sc: bool,
    /// Whether `<tt>` is open.
    pub tt: bool,
    /// Whether `<ul>` is open.
    pub ul: bool,
}

impl Styles {
    /// No style is open.
    pub const NONE: Styles = Styles {
        b: false,
        c: false,
        e: false,
        i: false,
        sc: false,
        tt: false,
        ul: false,
    };

    /// Returns whether `style` is open.
    pub fn has(self, style: Style) -> bool
        ensures { result ≡ has_style self style }
    {
        match style {
            Style::B => self.b,
            Style::C => self.c,
            Style::E => self.e,
            Style::I => self.i,
            Style::Sc => self.sc,
            Style::Tt => self.tt,
            Style::Ul => self.ul,
        }
    }

    /// Returns the set with `style` in it, if `is_open`, or else without it.
    pub(crate) fn with(self, style: Style, is_open: bool) -> Styles
        ensures { result ≡ with_style self style is_open }
    {
        match style {
            Style::B => Styles { b: is_open, ..self },
            Style::C => Styles { c: is_open, ..self },
            Style::E => Styles { e: is_open, ..self },
            Style::I => Styles { i: is_open, ..self },
            Style::Sc => Styles {
                sc: is_open,
                ..self
            },
            Style::Tt => Styles {
                tt: is_open,
                ..self
            },
            Style::Ul => Styles {
                ul: is_open,
                ..self
            },
        }
    }

    /// Returns whether no style is open.
    pub fn is_empty(self) -> bool
        ensures { result ≡ is_empty self }
    {
        !(self.b || self.c || self.e || self.i || self.sc || self.tt || self.ul)
    }
}
