//! How a note sounds: its degree under a clef, and what alters it.

ghost use Rattle.std.specs.Prelude.{◌≡◌, ◌≤◌};
ghost use Rattle.gabc_neumes.specs.Sound.{degree};

/// A clef: its kind, whether it has a `b`, and its line.
#[derive(Clone, Copy, Debug, PartialEq, Eq)]
pub struct Clef {
    /// Whether it is an `f`, which marks the line of fa, and not a `c`, which marks the line of ut.
    pub f: bool,
    /// Whether it has a `b`, by which each si is flat.
    pub flat: bool,
    /// Its line, from 1 for the lowest of the staff to 5.
    pub line: u8,
}

/// The alteration of a note.
#[derive(Clone, Copy, Debug, PartialEq, Eq)]
pub enum Alter {
    /// None.
    None,
    /// A flat, as `ix`.
    Flat,
    /// A natural, as `iy`.
    Natural,
    /// A sharp, as `i#`.
    Sharp,
}

/// The sound of a note.
#[derive(Clone, Copy, Debug, PartialEq, Eq)]
pub struct Sound {
    /// Its degree: 0 for ut to 6 for si; none before any clef.
    pub degree: Option<u8>,
    /// Its alteration.
    pub alter: Alter,
}

/// Returns the degree of a note at the height `height` under `clef`: 0 for ut to 6 for si. A height
/// counts from 0 for the pitch `a`, as `height_of` returns it. The line of `clef` has to be one of
/// 1 to 5; line 1 is the height 3, and each line is 2 above the one before it (GregorioRef,
/// "Pitches", "Clefs").
pub fn degree(clef: Clef, height: u8) -> u8
    requires { (1 ≤ clef.line) × (clef.line ≤ 5) }
    ensures { result ≡ degree clef height }
{
    let of_line = if clef.f { 3 } else { 0 };
    let above = u16::from(height) + 14 + of_line - u16::from(2 * clef.line + 1);
    (above % 7) as u8
}
