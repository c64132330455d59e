//! Laws of the places of findings in the input. Each function is there for its clauses, and does
//! nothing.

ghost use Rattle.std.specs.Prelude.{ℕ, List};
ghost use Rattle.gabc_places.specs.declared.limits.Limits.{Limits};
ghost use Rattle.gabc_tree.specs.InputPlaces.{AllAreThere};

/// Law: each finding of a score, and its fault, has its place at a byte of the input that is read,
/// or at its end: the bytes before that byte are read as the text before the place.
pub fn what_is_found_stands_at_a_byte()
    ensures { (limits : Limits) (bytes : List ℕ) → AllAreThere limits bytes }
{}
