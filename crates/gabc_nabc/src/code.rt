//! The code of a glyph.

/// The two letters of a glyph that name its neume.
#[derive(Clone, Copy, Debug, PartialEq, Eq)]
pub struct GlyphCode {
    /// The first letter.
    pub first: char,
    /// The second letter.
    pub second: char,
}

impl GlyphCode {
    ghost use Rattle.std.specs.Prelude.{◌≡◌, MatchOption, Some, None};
    ghost use Rattle.gabc_nabc.specs.Names.{name_by};

    /// Returns its name in this project's words, such as `virga` for `vi`; `None` for a code that
    /// the table of names lacks.
    pub fn name(self) -> Option<&'static str>
        ensures { let by_table = name_by self.first self.second in
            MatchOption result (by_table ≡ None) (λ name. by_table ≡ Some name.now) }
    {
        crate::name::name_at(self.first, self.second)
    }
}
