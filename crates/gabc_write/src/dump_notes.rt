//! The lines of a GABC snippet in the dump.

ghost use Rattle.std.specs.Prelude.{◌≡◌, ◌≤◌, ◌<◌, ◌++◌, [], ◌∷◌, codes, length, true};
ghost use Rattle.std.specs.Fmt.{decimal};
ghost use Rattle.gabc_patterns.specs.Pattern.{is_in};
ghost use Rattle.gabc_notes.specs.Items.{AreWithin};
ghost use Rattle.gabc_neumes.specs.InForce.{step_of, steps_of, in_force_after, passed};
ghost use Rattle.gabc_neumes.specs.Words.{base_word, tail_word};
ghost use Rattle.gabc_write.specs.DumpOfNotes.{line_of_glyph, lines_of_notes};
ghost use Rattle.gabc_write.specs.machine.NoteLines.{glyph_of, glyph_at, notes_from, line_of_next, left_after, lines_at, place_after_input, lines_of_items};

use crate::dump_item::{put_item, put_last, put_shape};
use crate::dump_pitch::{put_signed_snippet, put_snippet_of};
use gabc_neumes::{
    Alter, Alterations, Base, GlyphKind, Tail, glyph_from, is_in_element, word_of_base,
    word_of_tail,
};
use gabc_notes::{Item, ItemKind, ItemReader, Note, Shape, items_in, note_of};
use gabc_places::{Put, Span};
use itoa::Buffer;

/// The state of a writer between the items of a snippet.
#[derive(Clone, Copy)]
struct ItemPlace {
    /// Whether the item before is part of an element.
    in_element: bool,
    /// The number of remaining notes of the glyph whose line was put last.
    left: usize,
}

impl ItemPlace {
    /// Before the first item.
    const START: ItemPlace = ItemPlace {
        in_element: false,
        left: 0,
    };
}

/// Puts a blank, the number `count` and an LF. Few glyphs have ten notes or more.
fn put_count<S: Put>(count: usize, out: &mut S)
    ensures { out.new ≡ S.taken out.old (codes " " ++ (decimal count ++ codes "\n")) }
{
    match count {
        0..=9 => out.put(&[b' ', b'0' + count as u8, b'\n']),
        _ => {
            out.put(b" ");
            out.put(Buffer::new().format(count).as_bytes());
            out.put(b"\n");
        }
    }
}

/// Puts the word of `base`.
fn put_base<S: Put>(base: Base, out: &mut S)
    ensures { out.new ≡ S.taken out.old (base_word base) }
{
    match base {
        Base::One(shape) => put_shape(shape, out),
        _ => out.put(word_of_base(base).as_bytes()),
    }
}

/// Puts the word of `tail` after `base`. Most glyphs have none.
fn put_tail<S: Put>(base: Base, tail: Tail, out: &mut S)
    ensures { out.new ≡ S.taken out.old (tail_word base tail) }
{
    match tail {
        Tail::Plain => {}
        _ => out.put(word_of_tail(base, tail).as_bytes()),
    }
}

/// Puts the line of a glyph, as `put_glyph` does, word by word. It stays out of line.
#[inline(never)]
fn put_glyph_by_words<S: Put>(kind: GlyphKind, count: usize, out: &mut S)
    ensures { out.new
        ≡ S.taken out.old (line_of_glyph (record { kind = kind; first = 0; count = count })) }
{
    out.put(b"glyph ");
    put_base(kind.base, out);
    put_tail(kind.base, kind.tail, out);
    put_count(count, out);
}

/// Puts the line of a glyph of kind `kind`, with `count` notes: `glyph KIND COUNT`. Most glyphs are
/// one of six, whose lines are put at once.
fn put_glyph<S: Put>(kind: GlyphKind, count: usize, out: &mut S)
    ensures { out.new
        ≡ S.taken out.old (line_of_glyph (record { kind = kind; first = 0; count = count })) }
{
    match (kind.tail, kind.base, count) {
        (Tail::Plain, Base::One(Shape::Punctum), 1) => out.put(b"glyph punctum 1\n"),
        (Tail::Plain, Base::Pes, 2) => out.put(b"glyph pes 2\n"),
        (Tail::Plain, Base::Clivis, 2) => out.put(b"glyph clivis 2\n"),
        (Tail::Plain, Base::Torculus, 3) => out.put(b"glyph torculus 3\n"),
        (Tail::Plain, Base::Porrectus, 3) => out.put(b"glyph porrectus 3\n"),
        (Tail::Plain, Base::Scandicus, 3) => out.put(b"glyph scandicus 3\n"),
        _ => put_glyph_by_words(kind, count, out),
    }
}

/// Puts the line of the glyph that begins with the note `first`, before the items of `after`.
/// Returns the number of its notes after `first`.
fn put_glyph_from<S: Put>(kept: &str, first: Note, after: &ItemReader<'_>, out: &mut S) -> usize
    requires within { AreWithin kept.now after.now }
    requires few { length after.now < length kept.now }
    ensures line { out.new
        ≡ S.taken out.old (line_of_next 0 (glyph_of (notes_from kept.now first after.now))) }
    ensures left { result ≡ left_after 0 (glyph_of (notes_from kept.now first after.now)) }
{
    match glyph_from(kept, first, after) {
        Some((kind, count)) => {
            put_glyph(kind, count, out);
            count - 1
        }
        None => 0,
    }
}

/// Puts the line of the glyph that begins with `item`, a note before the items of `after`, if no
/// notes of the glyph before are `left`. Returns the number of the glyph's notes after it.
fn put_next_glyph<S: Put>(
    kept: &str,
    left: usize,
    item: Item,
    after: &ItemReader<'_>,
    out: &mut S,
) -> usize
    requires is_note { item.kind ≡ ItemKind.Note }
    requires within { AreWithin kept.now (item ∷ after.now) }
    requires few { length after.now < length kept.now }
    ensures line { out.new
        ≡ S.taken out.old (line_of_next left (glyph_at kept.now (item ∷ after.now))) }
    ensures left { result ≡ left_after left (glyph_at kept.now (item ∷ after.now)) }
{
    if left > 0 {
        return left - 1;
    }
    match note_of(kept, item) {
        Some(note) => put_glyph_from(kept, note, after, out),
        None => 0,
    }
}

/// Puts the lines of `item` at `place`: before its own line those of an element and of a glyph that
/// it begins. `after` has the items after it. Updates `alterations`, and returns the place after
/// the item.
fn put_at<S: Put>(
    kept: &str,
    place: ItemPlace,
    item: Item,
    after: &ItemReader<'_>,
    alterations: &mut Alterations,
    out: &mut S,
) -> ItemPlace
    requires within { AreWithin kept.now (item ∷ after.now) }
    requires few { length after.now < length kept.now }
    ensures lines { out.new ≡ S.taken out.old
        (lines_at alterations.old kept.now place item after.now) }
    ensures alterations { alterations.new
        ≡ in_force_after alterations.old (step_of kept.now item ∷ []) }
    ensures place { result ≡ place_after_input kept.now place item after.now }
{
    let in_element = is_in_element(kept, item);
    if in_element && !place.in_element {
        out.put(b"element\n");
    }
    let left = match item.kind {
        ItemKind::Note => put_next_glyph(kept, place.left, item, after, out),
        _ => place.left,
    };
    put_item(kept, item, alterations, out);
    alterations.pass(kept, item);
    ItemPlace { in_element, left }
}

/// Puts the lines of the items of `kept`, and updates `alterations` for each.
fn put_items<S: Put>(kept: &str, alterations: &mut Alterations, out: &mut S)
    ensures lines { out.new ≡ S.taken out.old (lines_of_items alterations.old kept.now) }
    ensures alterations { alterations.new ≡ passed alterations.old (steps_of kept.now) }
{
    gabc_neumes::laws::steps_are_passed_one_by_one();
    gabc_neumes::laws::glyphs_are_computed();
    let mut place = ItemPlace::START;
    let mut items = items_in(kept);
    while let Some(item) = items.next() {
        place = put_at(kept, place, item, &items, alterations, out);
    }
}

/// Puts the lines of a snippet of notes, as `put_notes` does, item by item.
fn put_notes_by_items<S: Put>(kept: &str, alterations: &mut Alterations, out: &mut S)
    ensures lines { out.new ≡ S.taken out.old (lines_of_notes alterations.old kept.now) }
    ensures alterations { alterations.new ≡ passed alterations.old (steps_of kept.now) }
{
    out.put(b"notes:");
    put_last(kept.as_bytes(), out);
    put_items(kept, alterations, out);
}

/// Puts the lines of `kept`, a snippet of notes that is one `pitch` from `a` to `n`, and updates
/// `alterations` for its note.
fn put_one_pitch<S: Put>(kept: &str, pitch: u8, alterations: &mut Alterations, out: &mut S)
    requires one { kept.now ≡ pitch ∷ [] }
    requires small { (97 ≤ pitch) × (pitch ≤ 110) }
    ensures lines { out.new ≡ S.taken out.old (lines_of_notes alterations.old kept.now) }
    ensures alterations { alterations.new ≡ passed alterations.old (steps_of kept.now) }
{
    let sound = alterations.sound(pitch - b'a');
    match sound.alter {
        Alter::None => {
            put_snippet_of(pitch, sound.degree, out);
            alterations.pass(
                kept,
                Item {
                    kind: ItemKind::Note,
                    span: Span { from: 0, to: 1 },
                },
            );
        }
        _ => put_notes_by_items(kept, alterations, out),
    }
}

/// Puts the lines of `kept`, a snippet of notes that is one `pitch` from `a` to `n` with `sign`
/// after it, and updates `alterations` for its note.
fn put_one_signed<S: Put>(
    kept: &str,
    pitch: u8,
    sign: u8,
    alterations: &mut Alterations,
    out: &mut S,
)
    requires one { kept.now ≡ pitch ∷ sign ∷ [] }
    requires small { (97 ≤ pitch) × (pitch ≤ 110) }
    requires sign { is_in sign (codes "._'") ≡ true }
    ensures lines { out.new ≡ S.taken out.old (lines_of_notes alterations.old kept.now) }
    ensures alterations { alterations.new ≡ passed alterations.old (steps_of kept.now) }
{
    let sound = alterations.sound(pitch - b'a');
    match sound.alter {
        Alter::None => {
            put_signed_snippet(pitch, sign, sound.degree, out);
            alterations.pass(
                kept,
                Item {
                    kind: ItemKind::Note,
                    span: Span { from: 0, to: 2 },
                },
            );
        }
        _ => put_notes_by_items(kept, alterations, out),
    }
}

/// Puts the lines of a snippet of notes, `notes:S` and those of its items, and updates
/// `alterations` for these. `kept` may be any text, whose lines end at the first place where no
/// item begins. Many snippets are one pitch, alone or with a sign, so their lines are put at once.
pub(crate) fn put_notes<S: Put>(kept: &str, alterations: &mut Alterations, out: &mut S)
    ensures lines { out.new ≡ S.taken out.old (lines_of_notes alterations.old kept.now) }
    ensures alterations { alterations.new ≡ passed alterations.old (steps_of kept.now) }
{
    match kept.as_bytes() {
        [pitch @ b'a'..=b'n'] => put_one_pitch(kept, *pitch, alterations, out),
        [pitch @ b'a'..=b'n', sign @ (b'.' | b'_' | b'\'')] => {
            put_one_signed(kept, *pitch, *sign, alterations, out);
        }
        _ => put_notes_by_items(kept, alterations, out),
    }
}
