//! Laws of the definitions that contracts use. Each function is there for its clauses, and does
//! nothing.

ghost use Rattle.std.specs.Prelude.{◌≡◌, ◌≤◌, ◌<◌, ℕ, ◌⊎◌, List, [], ◌∷◌, ◌++◌, Bool, true, false};
ghost use Rattle.gabc_patterns.specs.LongestItems.{HasSome};
ghost use Rattle.gabc_places.specs.declared.place.Span.{Span};
ghost use Rattle.gabc_notes.specs.declared.item.Item.{Item};
ghost use Rattle.gabc_notes.specs.declared.note.Note.{Note};
ghost use Rattle.gabc_neumes.specs.Cut.{glyphs_of};
ghost use Rattle.gabc_neumes.specs.Elements.{AreElementsOf, AreSegmentsOf, is_in_element, is_in_segment, divides, joins_segment};
ghost use Rattle.gabc_neumes.specs.Glyphs.{HasKind, AreGlyphsOf};
ghost use Rattle.gabc_neumes.specs.InForce.{InForce, ScoreStep, clef_in_force, alter_in_force, in_force_after, passed, own_alter};
ghost use Rattle.gabc_neumes.specs.Runs.{passes_at, IsRun};
ghost use Rattle.gabc_neumes.specs.declared.glyph.Glyph.{Glyph};
ghost use Rattle.gabc_neumes.specs.declared.glyph.GlyphKind.{GlyphKind};

/// Law: a list of notes is of one kind at most, and no notes are of none.
pub fn a_glyph_has_one_kind()
    ensures one { (k j : GlyphKind) (notes : List Note) → HasKind k notes → HasKind j notes
        → k ≡ j }
    ensures some { (k : GlyphKind) → ¬ HasKind k [] }
{}

/// Law: a segment is cut into glyphs in one way.
pub fn glyphs_are_one()
    ensures { (notes : List Note) (gs hs : List Glyph) →
        AreGlyphsOf notes gs → AreGlyphsOf notes hs → gs ≡ hs }
{}

/// Law: the function `glyphs_of` gives the glyphs of each segment.
pub fn glyphs_are_computed()
    ensures { (notes : List Note) → AreGlyphsOf notes (glyphs_of notes) }
{}

/// Law: if a glyph begins with some notes, all of them are a glyph, or all but the last: whoever
/// reads on as long as a glyph may go on has read at most one note after the longest glyph.
pub fn an_open_glyph_has_one_note_more()
    ensures { (k : GlyphKind) (notes more : List Note) (n : Note) → HasKind k (notes ++ n ∷ more) →
        HasSome HasKind (notes ++ n ∷ []) ⊎ HasSome HasKind notes }
{}

/// Law: items have one list of elements, and one of segments.
pub fn elements_are_one()
    ensures elements { (kept : List ℕ) (items : List Item) (ss ts : List Span) →
        AreElementsOf kept items ss → AreElementsOf kept items ts → ss ≡ ts }
    ensures segments { (items : List Item) (ss ts : List Span) →
        AreSegmentsOf items ss → AreSegmentsOf items ts → ss ≡ ts }
{}

/// Law: each item that passes a test is in a run: each item but a divider in an element, and each
/// note in a segment.
pub fn what_passes_stands_in_a_run()
    ensures { (p : Item → Bool) (items : List Item) (i : ℕ) → passes_at p items i ≡ true →
        (s : Span) × IsRun p items s × (s.from ≤ i) × (i < s.to) }
{}

/// Law: each part of a segment is part of an element.
pub fn segments_stand_in_elements()
    ensures { (kept : List ℕ) (i : Item) → is_in_segment i ≡ true → is_in_element kept i ≡ true }
{}

/// Law: the clef in force after some steps is the nearest on the way back, else that of the outset.
/// The alteration in force at a height is the nearest of that height, if nothing that ends
/// alterations comes first; if neither comes, it is that of the outset.
pub fn positions_say_what_is_in_force()
    ensures clef { (outset : InForce) (before : List ScoreStep) →
        (in_force_after outset before).clef ≡ clef_in_force outset before }
    ensures alter { (outset : InForce) (before : List ScoreStep) (height : ℕ) → height < 15 →
        own_alter (in_force_after outset before) height ≡ alter_in_force outset before height }
{}

/// Law: the clef and alterations in force after some steps, and then after more, are those in force
/// after all of them: so whoever passes them one by one has what the definition says of all. It is
/// also said of steps in the order of the score.
pub fn steps_are_passed_one_by_one()
    ensures back { (outset : InForce) (before more : List ScoreStep) →
        in_force_after (in_force_after outset before) more
        ≡ in_force_after outset (more ++ before) }
    ensures forth { (outset : InForce) (steps more : List ScoreStep) →
        passed (passed outset steps) more ≡ passed outset (steps ++ more) }
{}
