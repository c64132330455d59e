//! The elements of a snippet and their segments.

ghost use Rattle.std.specs.Prelude.{◌≡◌, ◌≤◌, ◌<◌, List, length};
ghost use Rattle.gabc_places.specs.BoundedList.{Fits, extended_by};
ghost use Rattle.gabc_places.specs.declared.place.Span.{Span};
ghost use Rattle.gabc_notes.specs.Items.{AreWithin};
ghost use Rattle.gabc_neumes.specs.Elements.{divides, is_in_element, is_in_segment, AreElementsOf, AreSegmentsOf};
ghost use Rattle.gabc_neumes.specs.Runs.{AreRuns};
ghost use Rattle.gabc_neumes.specs.machine.Runs.{is_inner, is_part, run_between};

use gabc_notes::{Item, ItemKind};
use gabc_places::{Room, Span};

/// The kind of a run of items.
#[derive(Clone, Copy)]
pub(crate) enum RunKind {
    Element,
    Segment,
}

/// Returns whether a spacing with the text `text` is inside an element.
fn is_inner_text(text: &[u8]) -> bool
    ensures { result ≡ is_inner text.now }
{
    match text {
        [only] => *only == b'!',
        [first, second] => *first == b'/' && (*second == b'0' || *second == b'!'),
        _ => false,
    }
}

/// Returns whether an item of kind `kind` with the bytes `text` is a divider.
#[tactic(auto, using(crate::proofs::runs_of_items::InnerSpacings::is_inner_same))]
fn is_divider(kind: ItemKind, text: &[u8]) -> bool
    ensures { result ≡ divides kind text.now }
{
    match kind {
        ItemKind::Clef | ItemKind::Bar | ItemKind::Custos | ItemKind::Break => true,
        ItemKind::Spacing => !is_inner_text(text),
        _ => false,
    }
}

/// Returns whether `item` of `kept` is part of an element: whether it is no divider. The span of
/// `item` has to lie within `kept`, as that of each item of `items_whole` does.
pub fn is_in_element(kept: &str, item: Item) -> bool
    requires { (item.span.from ≤ item.span.to) × (item.span.to ≤ length kept.now) }
    ensures { result ≡ is_in_element kept.now item }
{
    let text = &kept.as_bytes()[item.span.from..item.span.to];
    !is_divider(item.kind, text)
}

/// Returns whether `item` is part of a segment: a note, an attribute or a fusion mark.
pub fn is_in_segment(item: Item) -> bool
    ensures { result ≡ is_in_segment item }
{
    match item.kind {
        ItemKind::Note | ItemKind::Attribute | ItemKind::Fusion => true,
        _ => false,
    }
}

impl RunKind {
    /// Returns whether `item` of `kept` is part of a run of this kind.
    fn has(self, kept: &str, item: Item) -> bool
        requires { (item.span.from ≤ item.span.to) × (item.span.to ≤ length kept.now) }
        ensures { result ≡ is_part self kept.now item }
    {
        match self {
            RunKind::Element => is_in_element(kept, item),
            RunKind::Segment => is_in_segment(item),
        }
    }
}

/// Adds the run from the index `from` up to `to` to `out`, if it has any item.
fn add_run(from: usize, to: usize, out: &mut Room<Span>)
    requires { from < to → Fits out.old 1 }
    ensures { out.new ≡ extended_by out.old (run_between from to) }
{
    if from < to {
        out.push(Span { from, to });
    }
}

/// Adds the runs of kind `kind` to `out`.
fn add_runs(kind: RunKind, kept: &str, items: &[Item], out: &mut Room<Span>)
    requires within { AreWithin kept.now items.now }
    requires room { Fits out.old (length items.now) }
    ensures { (spans : List Span) × AreRuns (is_part kind kept.now) items.now spans ×
        (out.new ≡ extended_by out.old spans) }
{
    let mut from = 0;
    for (i, item) in items.iter().enumerate() {
        if !kind.has(kept, *item) {
            add_run(from, i, out);
            from = i + 1;
        }
    }
    add_run(from, items.len(), out);
}

/// Adds to `out` the elements of `items`, items of `kept`, in order. Their spans count the items
/// from 0. An element is a longest row of items with no divider among them; it may have no note
/// (GregorioRef, "Neume Spacing"). The items have to lie in `kept`, as those of `items_whole` do,
/// and `out` has to take as many spans more as there are items. It does not allocate.
pub fn elements(kept: &str, items: &[Item], out: &mut Room<Span>)
    requires within { AreWithin kept.now items.now }
    requires room { Fits out.old (length items.now) }
    ensures { (spans : List Span) × AreElementsOf kept.now items.now spans ×
        (out.new ≡ extended_by out.old spans) }
{
    add_runs(RunKind::Element, kept, items, out);
}

/// Adds to `out` the segments of `items`, items of `kept`, in order. Their spans count the items
/// from 0. A segment is a longest row of notes, attributes and fusion marks; it may have no note.
/// Its notes are cut into glyphs. The items have to lie in `kept`, as those of `items_whole` do,
/// and `out` has to take as many spans more as there are items. It does not allocate.
pub fn segments(kept: &str, items: &[Item], out: &mut Room<Span>)
    requires within { AreWithin kept.now items.now }
    requires room { Fits out.old (length items.now) }
    ensures { (spans : List Span) × AreSegmentsOf items.now spans ×
        (out.new ≡ extended_by out.old spans) }
{
    add_runs(RunKind::Segment, kept, items, out);
}
