//! Laws: what is not kept of an input is what the reading by what is kept makes of it. Each
//! function is there for its clauses, and does nothing.

ghost use Rattle.std.specs.Prelude.{◌≡◌, ℕ, List, Ok};
ghost use Rattle.gabc_headers.specs.Heads.{heads_of};
ghost use Rattle.gabc_headers.specs.declared.heads.Heads.{Heads};
ghost use Rattle.gabc_places.specs.Text.{text_of_bytes};
ghost use Rattle.gabc_places.specs.declared.limits.Limits.{Limits};
ghost use Rattle.gabc_tree.specs.Fates.{IsWhatIsRead, AllAreFound, IsKeptText, AreLeftOutThere};

/// Law: up to the last character that is kept, a character of the body is a node of what is not
/// kept exactly if the reading does not keep it there, with the kind and the code of what becomes
/// of it: it lies in a comment, or it is left out with a code or in silence. A character that is
/// kept is one if it is cut at the end of its snippet.
pub fn what_is_not_kept_is_what_is_read()
    ensures { (limits : Limits) (bytes : List ℕ) → IsWhatIsRead limits bytes }
{}

/// Law: each character that is kept of the syllables is found in the input.
pub fn all_that_is_kept_is_found()
    ensures { (limits : Limits) (bytes : List ℕ) → AllAreFound limits bytes }
{}

/// Law: without what is not kept, an input is the text of its headers, and then the kept texts of
/// the syllables, one after the other, each blank read as U+0020. The rest after them is kept of no
/// syllable.
pub fn what_is_left_is_the_kept_text()
    ensures { (limits : Limits) (bytes : List ℕ) (heads : Heads) →
        heads_of limits (text_of_bytes limits.input bytes) ≡ Ok heads →
        IsKeptText limits bytes heads }
{}

/// Law: each finding of a score with the code E1, E2 or E3 has its place at a character of the
/// input. That is left out with that code, and so a node, if a character of the syllables is still
/// to come there.
pub fn what_is_found_to_be_left_out_is_a_node()
    ensures { (limits : Limits) (bytes : List ℕ) → AreLeftOutThere limits bytes }
{}
