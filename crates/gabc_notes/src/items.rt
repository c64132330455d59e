//! The items of a kept text.

ghost use Rattle.std.specs.Prelude.{◌≡◌, ◌≤◌, ◌<◌, codes, length, IfOk, IfSome, IfNone, IsTrue, IsUtf8, None};
ghost use Rattle.std.specs.List.{list_any};
ghost use Rattle.std.specs.Str.{chars};
ghost use Rattle.gabc_patterns.specs.Pattern.{is_in};
ghost use Rattle.gabc_patterns.specs.Function.{longest_item};
ghost use Rattle.gabc_places.specs.BoundedList.{Fits, extended_by};
ghost use Rattle.gabc_notes.specs.FirstNoteOrClef.{is_note_or_clef as note_or_clef, first_note_or_clef as first_of};
ghost use Rattle.gabc_notes.specs.Items.{items_of, AreItemsOf, AreWithin};
ghost use Rattle.gabc_notes.specs.Table.{gabc};
ghost use Rattle.gabc_notes.specs.machine.Items.{IsFirstItem, is_from_a_to_p as from_a_to_p};

use crate::class::class_of;
use crate::item::{Item, ItemKind, Items};
use crate::laws;
use crate::state::{ItemState, ends, goes_on};
use gabc_places::{Room, Span};
use std::alloc::{AllocError, Global};
use std::marker::Model;

/// Returns whether `byte` is one of the small pitches from `first` to `n`.
fn is_pitch_from(first: u8, byte: u8) -> bool
    ensures { IsTrue result → (first ≤ byte) × (byte ≤ 110) }
{
    first <= byte && byte <= b'n'
}

/// Returns whether `text` begins with a small pitch that is sure to be an item by itself: nothing
/// comes after it, or one of the small pitches from `c` to `n`.
fn begins_with_one_pitch(text: &[u8]) -> bool
    ensures { IsTrue result → IsUtf8 text.now → IsFirstItem text.now ItemKind.Note 1 }
{
    match text {
        [pitch] => is_pitch_from(b'a', *pitch),
        [pitch, next, ..] => is_pitch_from(b'a', *pitch) && is_pitch_from(b'c', *next),
        [] => false,
    }
}

/// Returns whether `byte` is one of the frequent signs of a note.
fn is_sign(byte: u8) -> bool
    ensures { result ≡ is_in byte (codes "._'") }
{
    match byte {
        b'.' | b'_' | b'\'' => true,
        _ => false,
    }
}

/// Returns whether `text` begins with a small pitch and a `.`, `_` or `'` that are sure to be an
/// item: nothing comes after them, or one of the small pitches from `c` to `n`.
fn begins_with_signed_pitch(text: &[u8]) -> bool
    ensures { IsTrue result → IsUtf8 text.now → IsFirstItem text.now ItemKind.Note 2 }
{
    match text {
        [pitch, sign] if is_sign(*sign) => is_pitch_from(b'a', *pitch),
        [pitch, sign, next, ..] if is_sign(*sign) => {
            is_pitch_from(b'a', *pitch) && is_pitch_from(b'c', *next)
        }
        _ => false,
    }
}

/// Returns the longest item that begins `text`: its kind and its number of bytes. Many items are
/// one pitch, alone or with a sign, so these are found first: else a dump takes 8 % more
/// instructions for the plain score, and 39 % more for `notes` (docs/BENCHMARKS.md).
#[inline(always)]
fn first_item(text: &str) -> Option<(ItemKind, usize)>
    ensures found { IfSome result (λ i. IsFirstItem text.now i.0 i.1) }
    ensures none { IfNone result (longest_item gabc (chars text.now) ≡ None) }
{
    if begins_with_one_pitch(text.as_bytes()) {
        return Some((ItemKind::Note, 1));
    }
    if begins_with_signed_pitch(text.as_bytes()) {
        return Some((ItemKind::Note, 2));
    }
    if text.is_empty() {
        return None;
    }
    item_read(text)
}

/// Returns the longest item that begins `text`, as `first_item` does, by reading it.
#[inline(never)]
fn item_read(text: &str) -> Option<(ItemKind, usize)>
    ensures found { IfSome result (λ i. IsFirstItem text.now i.0 i.1) }
    ensures none { IfNone result (longest_item gabc (chars text.now) ≡ None) }
{
    let mut best = None;
    let mut state = ItemState::Start;
    let mut read = 0;
    for c in text.chars() {
        match goes_on(state, class_of(c)) {
            Some(after) => {
                state = after;
                read += c.len_utf8();
                if let Some(kind) = ends(state) {
                    best = Some((kind, read));
                }
            }
            None => return best,
        }
    }
    best
}

/// An iterator over the items of a kept text, in order. In contracts it is the list of the
/// remaining ones.
#[derive(Drop)]
pub struct ItemReader<'a> {
    /// The text from the next item on.
    rest: &'a str,
    /// The number of bytes of the kept text before it.
    at: usize,
}

impl<'a> Model for ItemReader<'a> {
    ghost use Rattle.std.specs.Prelude.{◌+◌, ◌<◌, ◌^◌, List, length, IsUtf8};
    ghost use Rattle.gabc_notes.specs.Items.{items_from};
    ghost use Rattle.gabc_notes.specs.declared.item.Item.{Item};

    ghost Value = { List Item };

    ghost view = { λ r. items_from r.at r.rest.now };

    ghost invariant = { λ r. IsUtf8 r.rest.now × (r.at + length r.rest.now < 2 ^ 64) };
}

impl<'a> ItemReader<'a> {
    /// Returns an iterator over the remaining items, to look ahead. It takes none of them, and does
    /// not allocate.
    pub fn ahead(&self) -> ItemReader<'a>
        ensures { result ≡ self.now }
    {
        ItemReader {
            rest: self.rest,
            at: self.at,
        }
    }
}

impl<'a> Iterator for ItemReader<'a> {
    type Item = Item;

    ghost use Rattle.std.specs.Iterator.{YieldsFirst, item_count};

    ghost next_gives = { YieldsFirst (λ ahead. ahead) };

    ghost remaining = { item_count (λ ahead. ahead) };

    #[inline(always)]
    fn next(&mut self) -> Option<Item> {
        let (kind, len) = first_item(self.rest)?;
        let span = Span {
            from: self.at,
            to: self.at + len,
        };
        self.rest = &self.rest[len..];
        self.at += len;
        Some(Item { kind, span })
    }
}

/// Returns an iterator over the items of `kept`, in order: spans that count its bytes, each item
/// the longest that begins at the end of the one before it. They make up all of a snippet, as
/// `is_snippet` says; the text that `snippet_whole` keeps is one if the snippet ended. In another
/// text they end at the first place where no item begins. They lie in `kept`, and are at most as
/// many as its bytes. It does not allocate, and reads each item when it is asked for.
pub fn items_in(kept: &str) -> ItemReader<'_>
    ensures items { result ≡ items_of kept.now }
    ensures within { AreWithin kept.now (items_of kept.now) }
    ensures few { length (items_of kept.now) ≤ length kept.now }
{
    ItemReader { rest: kept, at: 0 }
}

/// Returns the items of `kept`, as `items_in` returns them. Fails only if memory cannot be
/// allocated.
pub fn items_whole(alloc: Global, kept: &str) -> Result<Items, AllocError>
    ensures items { IfOk result (λ items. AreItemsOf kept.now items) }
    ensures within { IfOk result (λ items. AreWithin kept.now items) }
    ensures few { IfOk result (λ items. length items ≤ length kept.now) }
{
    laws::items_are_computed();
    let mut items = Items::new(alloc);
    for item in items_in(kept) {
        items.push(item)?;
    }
    Ok(items)
}

/// Adds to `out` the items of `kept`, as `items_in` returns them, and does not allocate. `out` has
/// to take as many items more as `kept` has bytes.
pub fn items_into(kept: &str, out: &mut Room<Item>)
    requires { Fits out.old (length kept.now) }
    ensures items { out.new ≡ extended_by out.old (items_of kept.now) }
    ensures within { AreWithin kept.now (items_of kept.now) }
    ensures few { length (items_of kept.now) ≤ length kept.now }
{
    for item in items_in(kept) {
        out.push(item);
    }
}

/// Returns whether an item of kind `kind` is a note or a clef. A custos is neither.
fn is_note_or_clef(kind: ItemKind) -> bool
    ensures { result ≡ note_or_clef kind }
{
    match kind {
        ItemKind::Note | ItemKind::Clef => true,
        _ => false,
    }
}

/// Returns whether `c` is a letter from a to p, small or capital.
fn is_from_a_to_p(c: char) -> bool
    ensures { result ≡ from_a_to_p c }
{
    matches!(c, 'a'..='p' | 'A'..='P')
}

/// Returns whether `kept` has a letter from a to p: if not, it has neither a note nor a clef.
fn may_sound(kept: &str) -> bool
    ensures { result ≡ list_any from_a_to_p (chars kept.now) }
{
    kept.chars().any(|c| is_from_a_to_p(c))
}

/// Returns the kind of the first note or clef among the items of `kept`, as `items_in` returns
/// them; `None`, if neither is among them. It does not allocate.
pub fn first_note_or_clef(kept: &str) -> Option<ItemKind>
    ensures { result ≡ first_of (items_of kept.now) }
{
    if !may_sound(kept) {
        return None;
    }
    for item in items_in(kept) {
        if is_note_or_clef(item.kind) {
            return Some(item.kind);
        }
    }
    None
}
