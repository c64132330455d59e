//! Laws: nodes lie in one another. Each function is there for its clauses, and does nothing.

ghost use Rattle.std.specs.Prelude.{◌+◌, ◌<◌, ◌^◌, ℕ, List, length, IsUtf8};
ghost use Rattle.gabc_neumes.specs.InForce.{InForce};
ghost use Rattle.gabc_places.specs.declared.code.Finding.{Finding};
ghost use Rattle.gabc_tree.specs.HeaderLines.{header_line_nodes};
ghost use Rattle.gabc_places.specs.declared.limits.Limits.{Limits};
ghost use Rattle.gabc_tree.specs.Nested.{AreNested, AreOneTree};
ghost use Rattle.gabc_tree.specs.NabcNodes.{nabc_nodes};
ghost use Rattle.gabc_tree.specs.NoteNodes.{gabc_nodes};
ghost use Rattle.gabc_tree.specs.Own.{HaveAllBytes};
ghost use Rattle.gabc_tree.specs.Placed.{offset};
ghost use Rattle.gabc_tree.specs.Tree.{tree_nodes};
ghost use Rattle.gabc_tree.specs.TextNodes.{text_nodes};

/// Law: the nodes of a snippet of notes lie in one another, and in its text.
pub fn nodes_of_notes_are_nested()
    ensures { (base : ℕ) (force : InForce) (kept : List ℕ) → IsUtf8 kept →
        AreNested base (base + length kept) (gabc_nodes base force kept) }
{}

/// Law: the nodes of a snippet of NABC lie in one another, and in its text.
pub fn nodes_of_nabc_are_nested()
    ensures { (base : ℕ) (kept : List ℕ) → IsUtf8 kept →
        AreNested base (base + length kept) (nabc_nodes base kept) }
{}

/// Law: the nodes of a text lie one after the other in it.
pub fn nodes_of_texts_are_nested()
    ensures { (kept : List ℕ) → IsUtf8 kept → AreNested 0 (length kept) (text_nodes kept) }
{}

/// Law: the nodes of the lines of headers lie in one another, and in their text.
pub fn nodes_of_headers_are_nested()
    ensures { (text : List ℕ) (findings : List Finding) →
        AreNested 0 (offset (length text)) (header_line_nodes text findings) }
{}

/// Law: the nodes of an input are one tree: the first node is the whole input, and the others lie
/// in one another in it. The input has fewer than 2^32 bytes, and the tree as few nodes.
pub fn nodes_of_an_input_are_one_tree()
    ensures { (limits : Limits) (bytes : List ℕ) → length bytes < 2 ^ 32 →
        length (tree_nodes limits bytes) < 2 ^ 32 →
        AreOneTree (length bytes) (tree_nodes limits bytes) }
{
    gabc_body::laws::a_syllable_holds_its_parts();
    gabc_body::by_kept_laws::a_score_says_what_is_kept();
}

/// Law: each byte of an input belongs to one of its nodes: the own bytes of all nodes, those that
/// lie in no node inside, join to the input. The input has fewer than 2^32 bytes, and the tree as
/// few nodes.
pub fn own_bytes_join_to_the_input()
    ensures { (limits : Limits) (bytes : List ℕ) → length bytes < 2 ^ 32 →
        length (tree_nodes limits bytes) < 2 ^ 32 →
        HaveAllBytes bytes (tree_nodes limits bytes) }
{
    nodes_of_an_input_are_one_tree();
}
