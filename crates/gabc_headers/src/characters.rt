//! The kinds of characters in headers, and the runs of `;` at the end of a value's line so far.

ghost use Rattle.std.specs.Prelude.{◌≡◌};
ghost use Rattle.gabc_headers.specs.machine.Characters.{header_char_of, next_run, is_mark_run};

/// The kind of a character in a header.
#[derive(Clone, Copy)]
pub(crate) enum HeaderChar {
    Semicolon,
    Percent,
    Blank,
    LineEnd,
    Colon,
    Other,
}

impl HeaderChar {
    /// Returns the kind of `c`.
    pub(crate) fn of(c: char) -> HeaderChar
        ensures { result ≡ header_char_of c }
    {
        match c {
            ';' => HeaderChar::Semicolon,
            '%' => HeaderChar::Percent,
            ' ' | '\t' => HeaderChar::Blank,
            '\n' => HeaderChar::LineEnd,
            ':' => HeaderChar::Colon,
            _ => HeaderChar::Other,
        }
    }
}

/// Within a value: no run of `;` ends here, one that is too short for a mark, one that is enough,
/// or one and blanks.
#[derive(Clone, Copy)]
pub(crate) enum Run {
    Text,
    Short,
    Enough,
    Spaced,
}

impl Run {
    /// Returns the run after one more character, of kind `kind`. If `long`, a mark has to have two
    /// `;`.
    pub(crate) fn after(self, long: bool, kind: HeaderChar) -> Run
        ensures { result ≡ next_run self long kind }
    {
        match kind {
            HeaderChar::Semicolon => match self {
                Run::Short | Run::Enough => Run::Enough,
                _ if long => Run::Short,
                _ => Run::Enough,
            },
            HeaderChar::Blank => match self {
                Run::Enough | Run::Spaced => Run::Spaced,
                _ => Run::Text,
            },
            _ => Run::Text,
        }
    }

    /// Returns whether the line's end or a `%` makes a mark of it.
    pub(crate) fn closes(self) -> bool
        ensures { result ≡ is_mark_run self }
    {
        matches!(self, Run::Enough | Run::Spaced)
    }
}
