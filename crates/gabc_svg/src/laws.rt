//! Laws of the definitions.

ghost use Rattle.gabc_svg.specs.Laws.{EscapedStays};

/// Law: an escaped text has no `<`, no `>`, no `"` and no byte below the blank, whatever the text
/// is.
#[tactic(auto, using(crate::proofs::EscapedTexts::escaped_stays))]
pub fn escaped_texts_stay()
    ensures { EscapedStays }
{}
