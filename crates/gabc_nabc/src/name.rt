//! The names of codes.

ghost use Rattle.std.specs.Prelude.{◌≡◌, MatchOption, Some, None, map};
ghost use Rattle.std.specs.Str.{chars};
ghost use Rattle.gabc_nabc.specs.Names.{name_among, name_by, name_in, is_known};

use crate::names::NAMES;

/// Returns the name of the code of the letters `first` and `second`, by the first row of `names`
/// that has it.
fn find_name(
    names: &[(char, char, &'static str)],
    first: char,
    second: char,
) -> Option<&'static str>
    ensures { let rows = map (λ row. (row.0, row.1, row.2.now)) names.now in
        MatchOption result
        (name_among first second rows ≡ None) (λ name. name_among first second rows
        ≡ Some name.now) }
{
    for (a, b, name) in names {
        if *a == first && *b == second {
            return Some(*name);
        }
    }
    None
}

/// Returns the name of the code of the letters `first` and `second`, if it has one.
#[inline(always)]
pub(crate) fn name_at(first: char, second: char) -> Option<&'static str>
    ensures { MatchOption result (name_by first second ≡ None) (λ name. name_by first second
        ≡ Some name.now) }
{
    find_name(&NAMES, first, second)
}

/// Returns whether the table of names has the code of the letters `first` and `second`.
pub(crate) fn is_named(first: char, second: char) -> bool
    ensures { result ≡ is_known first second }
{
    name_at(first, second).is_some()
}

/// Returns the name of `code` in this project's words, such as `virga` for `vi`; `None` for a code
/// that the table of names lacks, and for a text that has not two characters.
pub fn name_of(code: &str) -> Option<&str>
    ensures { MatchOption result (name_in (chars code.now) ≡ None) (λ name. name_in (chars code.now)
        ≡ Some name.now) }
{
    let mut letters = code.chars();
    match (letters.next(), letters.next(), letters.next()) {
        (Some(first), Some(second), None) => name_at(first, second),
        _ => None,
    }
}
