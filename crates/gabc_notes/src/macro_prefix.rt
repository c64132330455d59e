//! The name of a macro, as far as an open bracket has it.

ghost use Rattle.std.specs.Prelude.{◌≡◌};
ghost use Rattle.gabc_notes.specs.Events.{is_defined};
ghost use Rattle.gabc_notes.specs.machine.ItemMachine.{digit_of_prefix, prefix_with};

/// The beginning of a macro's name in the open bracket.
#[derive(Clone, Copy)]
pub(crate) enum MacroPrefix {
    /// No bracket is open.
    Closed,
    Opened,
    /// After one of `n`, `g`, `e`.
    Letter,
    /// After `m`.
    Named,
    /// After a character more.
    Last(char),
    Other,
}

/// Returns the digit of the macro with the name in the open bracket, if it is one.
pub(crate) fn digit_of_prefix(name: MacroPrefix) -> Option<u8>
    ensures { result ≡ digit_of_prefix name }
{
    match name {
        MacroPrefix::Last(c) if '0' <= c && c <= '9' => Some(c as u8 - b'0'),
        _ => None,
    }
}

/// Returns the name with the character `c` after it.
pub(crate) fn prefix_with(name: MacroPrefix, c: char) -> MacroPrefix
    ensures { result ≡ prefix_with name c }
{
    match name {
        MacroPrefix::Closed if c == '[' => MacroPrefix::Opened,
        MacroPrefix::Opened if c == 'n' || c == 'g' || c == 'e' => MacroPrefix::Letter,
        MacroPrefix::Letter if c == 'm' => MacroPrefix::Named,
        MacroPrefix::Named => MacroPrefix::Last(c),
        _ => MacroPrefix::Other,
    }
}

/// Returns whether the macro of `digit` is defined: whether its bit in `macros` is set.
pub(crate) fn defines(macros: u16, digit: u8) -> bool
    ensures { result ≡ is_defined macros digit }
{
    digit < 16 && (macros >> digit) % 2 == 1
}
