//! The nodes of a snippet of GABC.

ghost use Rattle.std.specs.Prelude.{◌≡◌, ◌+◌, ◌≤◌, ◌<◌, ◌^◌, ◌++◌, ◌∷◌, [], suc, length, IfOk, OnOk};
ghost use Rattle.gabc_notes.specs.Items.{AreWithin};
ghost use Rattle.gabc_neumes.specs.InForce.{step_of, steps_of, in_force_after, passed};
ghost use Rattle.gabc_neumes.specs.Elements.{is_in_element};
ghost use Rattle.gabc_tree.specs.Numbers.{number_of_base, number_of_tail, glyph_numbers, item_numbers};
ghost use Rattle.gabc_tree.specs.NoteNodes.{kind_of_item, node_at, item_node, item_nodes, is_note, through, last_to, gabc_nodes};
ghost use Rattle.gabc_tree.specs.machine.NoteNodes.{next_glyph, left_after, nodes_at, place_after};

use crate::numbers::{Numbers, numbers_of_note, numbers_of_other};
use gabc_neumes::{Alterations, Base, GlyphKind, Tail, glyph_from, is_in_element};
use gabc_nodes::{Kind, Node};
use gabc_notes::{Item, ItemKind, ItemReader, items_in, note_of};
use gabc_places::Span;
use std::alloc::AllocError;

/// The state of the maker of nodes between the items of a snippet.
#[derive(Clone, Copy)]
struct ItemPlace {
    /// Whether the item before is part of an element.
    inside: bool,
    /// The number of notes still to come of the glyph whose node was made last.
    left: usize,
}

impl ItemPlace {
    /// Before the first item.
    const START: ItemPlace = ItemPlace {
        inside: false,
        left: 0,
    };
}

/// The items of a glyph: their number, and the byte after the last one.
#[derive(Clone, Copy)]
struct Extent {
    items: usize,
    end: usize,
}

/// Returns the kind of the node of an item of this `kind`.
fn kind_of_item(kind: ItemKind) -> Kind
    ensures { result ≡ kind_of_item kind }
{
    match kind {
        ItemKind::Note => Kind::Note,
        ItemKind::Alteration => Kind::Alteration,
        ItemKind::Clef => Kind::Clef,
        ItemKind::Bar => Kind::Bar,
        ItemKind::Spacing => Kind::Spacing,
        ItemKind::Custos => Kind::Custos,
        ItemKind::Break => Kind::LineBreak,
        ItemKind::Attribute => Kind::Attribute,
        ItemKind::Fusion => Kind::Fusion,
    }
}

/// Returns whether an item of this `kind` is a note.
fn is_note(kind: ItemKind) -> bool
    ensures { result ≡ is_note kind }
{
    match kind {
        ItemKind::Note => true,
        _ => false,
    }
}

/// Returns the number of `base`: for one note 16 plus the number of its shape.
fn number_of_base(base: Base) -> u16
    ensures { result ≡ number_of_base base }
{
    match base {
        Base::Pes => 0,
        Base::Clivis => 1,
        Base::Torculus => 2,
        Base::Porrectus => 3,
        Base::Scandicus => 4,
        Base::ScandicusFlexus => 5,
        Base::TorculusResupinus => 6,
        Base::PorrectusFlexus => 7,
        Base::TorculusResupinusFlexus => 8,
        Base::Climacus => 9,
        Base::Inclinata => 10,
        Base::One(shape) => 16 + shape as u16,
    }
}

/// Returns the number of `tail`.
fn number_of_tail(tail: Tail) -> u16
    ensures { result ≡ number_of_tail tail }
{
    match tail {
        Tail::Plain => 0,
        Tail::Subpunctis => 1,
        Tail::Resupinus => 2,
    }
}

/// Returns the numbers of a glyph of this `kind` with `count` notes.
fn numbers_of_glyph(kind: GlyphKind, count: usize) -> Numbers
    ensures { result ≡ glyph_numbers kind count }
{
    Numbers {
        a: number_of_base(kind.base),
        b: number_of_tail(kind.tail),
        c: count.min(65535) as u16,
    }
}

/// Returns the numbers of `item` of `kept`. Before it `force` is in force; `begins` says whether it
/// begins an element.
fn numbers_of(kept: &str, item: Item, begins: bool, force: &Alterations) -> Numbers
    requires { (item.span.from ≤ item.span.to) × (item.span.to ≤ length kept.now) }
    ensures { result ≡ item_numbers force.now kept.now begins item }
{
    let text = &kept.as_bytes()[item.span.from..item.span.to];
    match note_of(kept, item) {
        Some(note) => numbers_of_note(note, force.sound(note.height), text, begins),
        None => {
            let numbers = numbers_of_other(item.kind, text);
            Numbers {
                c: numbers.c + if begins { 64 } else { 0 },
                ..numbers
            }
        }
    }
}

/// Returns a node of this `kind` with the bytes of `span` in a kept text whose bytes count from
/// `base` on, with these `numbers`, and with `inner` nodes in it.
pub(crate) fn node_at(base: usize, span: Span, inner: usize, kind: Kind, numbers: Numbers) -> Node
    requires begin { base + span.from < 2 ^ 32 }
    requires end { base + span.to < 2 ^ 32 }
    requires inner { inner < 2 ^ 32 }
    ensures { result ≡ node_at base span inner kind numbers }
{
    Node {
        begin: (base + span.from) as u32,
        end: (base + span.to) as u32,
        inner: inner as u32,
        kind,
        a: numbers.a,
        b: numbers.b,
        c: numbers.c,
    }
}

/// Returns the extent of the items of `later` through their note number `left`, together with one
/// item before them that ends at the byte `end`.
#[tactic(auto, using(crate::proofs::NodesOfItems::through_item))]
fn extent_through(left: usize, end: usize, later: &ItemReader<'_>) -> Extent
    requires few { length later.now < 2 ^ 32 }
    ensures items { result.items ≡ suc (length (through left later.now)) }
    ensures end { result.end ≡ last_to end (through left later.now) }
{
    let mut left = left;
    let mut extent = Extent { items: 1, end };
    let mut items = later.ahead();
    while 0 < left {
        let Some(item) = items.next() else {
            return extent;
        };
        extent = Extent {
            items: extent.items + 1,
            end: item.span.to,
        };
        if is_note(item.kind) {
            left -= 1;
        }
    }
    extent
}

/// Adds the node of the glyph that begins with `item`, if `item` is a note and no notes of the
/// glyph before are `left`. Returns the number of notes of its glyph that are left after `item`.
fn add_glyph(
    kept: &str,
    base: usize,
    left: usize,
    item: Item,
    later: &ItemReader<'_>,
    out: &mut Vec<Node>,
) -> Result<usize, AllocError>
    requires within { AreWithin kept.now (item ∷ later.now) }
    requires few { length later.now < length kept.now }
    requires base { base + length kept.now < 2 ^ 32 }
    ensures node { OnOk result (out.new.items
        ≡ out.old.items ++ next_glyph base kept.now left item later.now) }
    ensures left { IfOk result (λ after. after ≡ left_after kept.now left item later.now) }
{
    let Some(note) = note_of(kept, item) else {
        return Ok(left);
    };
    if 0 < left {
        return Ok(left - 1);
    }
    let Some((kind, count)) = glyph_from(kept, note, later) else {
        return Ok(0);
    };
    let left = count.saturating_sub(1);
    let extent = extent_through(left, item.span.to, later);
    let span = Span {
        from: item.span.from,
        to: extent.end,
    };
    let numbers = numbers_of_glyph(kind, count);
    out.push(node_at(base, span, extent.items, Kind::Glyph, numbers))?;
    Ok(left)
}

/// Adds the node of `item` at `place`, and before it that of the glyph that it begins, if it begins
/// one. `later` are the items after it. Changes `alterations` to those in force after the item, and
/// returns the place after it.
fn add_item(
    kept: &str,
    base: usize,
    place: ItemPlace,
    item: Item,
    later: &ItemReader<'_>,
    alterations: &mut Alterations,
    out: &mut Vec<Node>,
) -> Result<ItemPlace, AllocError>
    requires within { AreWithin kept.now (item ∷ later.now) }
    requires few { length later.now < length kept.now }
    requires base { base + length kept.now < 2 ^ 32 }
    ensures nodes { OnOk result (out.new.items
        ≡ out.old.items ++ nodes_at base kept.now place alterations.old item later.now) }
    ensures alterations { OnOk result (alterations.new
        ≡ in_force_after alterations.old (step_of kept.now item ∷ [])) }
    ensures place { IfOk result (λ after. after ≡ place_after kept.now place item later.now) }
{
    let left = add_glyph(kept, base, place.left, item, later, out)?;
    let inside = is_in_element(kept, item);
    let numbers = numbers_of(kept, item, inside && !place.inside, alterations);
    out.push(node_at(base, item.span, 0, kind_of_item(item.kind), numbers))?;
    alterations.pass(kept, item);
    Ok(ItemPlace { inside, left })
}

/// Adds to `out` the nodes of the snippet of notes `kept`, whose bytes count from `base` on, and
/// passes its items: each item is a node, and before the first note of a glyph comes the node of
/// the glyph, in which lie the items through its last note.
pub(crate) fn gabc_nodes(
    kept: &str,
    base: usize,
    alterations: &mut Alterations,
    out: &mut Vec<Node>,
) -> Result<(), AllocError>
    requires { base + length kept.now < 2 ^ 32 }
    ensures nodes { OnOk result (out.new.items
        ≡ out.old.items ++ gabc_nodes base alterations.old kept.now) }
    ensures alterations { OnOk result (alterations.new
        ≡ passed alterations.old (steps_of kept.now)) }
{
    gabc_neumes::laws::steps_are_passed_one_by_one();
    let mut place = ItemPlace::START;
    let mut items = items_in(kept);
    while let Some(item) = items.next() {
        place = add_item(kept, base, place, item, &items, alterations, out)?;
    }
    Ok(())
}
