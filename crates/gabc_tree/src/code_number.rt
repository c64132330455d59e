//! The numbers of codes.

ghost use Rattle.std.specs.Prelude.{◌≡◌};
ghost use Rattle.gabc_tree.specs.CodeNumber.{number_of_code};

use gabc_places::Code;

/// Returns the number of `code`, which never changes: 101 for E1, 201 for W1, 301 for F1.
pub fn number_of_code(code: Code) -> u16
    ensures { result ≡ number_of_code code }
{
    match code {
        Code::E1 => 101,
        Code::E2 => 102,
        Code::E3 => 103,
        Code::E4 => 104,
        Code::E5 => 105,
        Code::E6 => 106,
        Code::W1 => 201,
        Code::W2 => 202,
        Code::W3 => 203,
        Code::W4 => 204,
        Code::W5 => 205,
        Code::W6 => 206,
        Code::W7 => 207,
        Code::W8 => 208,
        Code::W9 => 209,
        Code::W10 => 210,
        Code::W11 => 211,
        Code::W12 => 212,
        Code::F1 => 301,
        Code::F2 => 302,
        Code::F3 => 303,
        Code::F4 => 304,
        Code::F5 => 305,
        Code::F6 => 306,
        Code::F7 => 307,
    }
}
