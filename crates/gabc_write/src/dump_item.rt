//! The line of one item of a snippet in the dump.

ghost use Rattle.std.specs.Prelude.{◌≡◌, ◌≤◌, ◌<◌, ◌++◌, [], ◌∷◌, codes, length, false};
ghost use Rattle.gabc_neumes.specs.InForce.{InForce};
ghost use Rattle.gabc_neumes.specs.Words.{shape_word};
ghost use Rattle.gabc_notes.specs.Notes.{from_pitch, height_at, shape_at};
ghost use Rattle.gabc_write.specs.DumpOfNotes.{last_text, pitch_letter, degree_word, sound_words, line_of_note, line_of_alteration, bar_word, line_of_bar, is_blank_run, line_of_spacing, line_of_custos, raw_of, is_note, line_by, line_of_item};

use crate::dump_pitch::{put_pitch, put_signed};
use crate::escape::put_ended;
use gabc_neumes::{Alter, Alterations, Sound, sign_of, word_of_alter, word_of_shape};
use gabc_notes::{Item, ItemKind, Shape, height_of, note_of};
use gabc_places::Put;

/// Puts `text` as the last thing of a line, and the LF after it.
pub(crate) fn put_last<S: Put>(text: &[u8], out: &mut S)
    ensures { out.new ≡ S.taken out.old (last_text text.now) }
{
    put_ended(text, b'\n', out);
}

/// Puts a blank, and after it `text` as the last thing of the line. Many texts are one pitch, so
/// these are put at once.
fn put_blank_and_last<S: Put>(text: &[u8], out: &mut S)
    ensures { out.new ≡ S.taken out.old (codes " " ++ last_text text.now) }
{
    match text {
        [byte @ b'a'..=b'z'] => out.put(&[b' ', *byte, b'\n']),
        _ => {
            out.put(b" ");
            put_last(text, out);
        }
    }
}

/// Puts `word`, and after it `text` as the last thing of the line.
fn put_word_and_last<S: Put>(word: &str, text: &[u8], out: &mut S)
    ensures { out.new ≡ S.taken out.old (word.now ++ (codes " " ++ last_text text.now)) }
{
    out.put(word.as_bytes());
    put_blank_and_last(text, out);
}

/// Puts the word of `shape`. Most notes have one shape, so its word is put as a constant.
pub(crate) fn put_shape<S: Put>(shape: Shape, out: &mut S)
    ensures { out.new ≡ S.taken out.old (shape_word shape) }
{
    match shape {
        Shape::Punctum => out.put(word_of_shape(Shape::Punctum).as_bytes()),
        _ => out.put(word_of_shape(shape).as_bytes()),
    }
}

/// Returns the small letter of `height`.
fn letter_of_height(height: u8) -> u8
    requires { height < 159 }
    ensures { result ≡ pitch_letter height }
{
    if height == 14 { b'p' } else { height + b'a' }
}

/// Returns the small letter of the pitch with which `text` begins.
fn letter_of(text: &[u8]) -> u8
    ensures { result ≡ pitch_letter (height_at text.now) }
{
    match text {
        [pitch, ..] => letter_of_height(height_of(*pitch)),
        [] => b'a',
    }
}

/// Returns the small letter of the pitch of `text`, a note: a `-` may come before it.
fn letter_of_note(text: &[u8]) -> u8
    ensures { result ≡ pitch_letter (height_at (from_pitch text.now)) }
{
    match text {
        [b'-', pitch @ ..] => letter_of(pitch),
        _ => letter_of(text),
    }
}

/// Puts the name of `degree`, or `-` if there is none, with a blank before it and one after it.
fn put_degree<S: Put>(degree: Option<u8>, out: &mut S)
    ensures { out.new ≡ S.taken out.old (codes " " ++ (degree_word degree ++ codes " ")) }
{
    match degree {
        None => out.put(b" - "),
        Some(0) => out.put(b" ut "),
        Some(1) => out.put(b" re "),
        Some(2) => out.put(b" mi "),
        Some(3) => out.put(b" fa "),
        Some(4) => out.put(b" sol "),
        Some(5) => out.put(b" la "),
        Some(_) => out.put(b" si "),
    }
}

/// Puts the degree and the alteration of a note, with a blank before each: ` DEGREE ALTER`. Most
/// notes are not altered, or flat.
fn put_sound<S: Put>(sound: Sound, out: &mut S)
    ensures { out.new ≡ S.taken out.old (sound_words sound) }
{
    put_degree(sound.degree, out);
    match sound.alter {
        Alter::None => out.put(b"none"),
        Alter::Flat => out.put(b"flat"),
        alter => out.put(word_of_alter(alter).as_bytes()),
    }
}

/// Puts the line of a note, as `put_note` does, word by word. It stays out of line.
#[inline(never)]
fn put_note_by_words<S: Put>(shape: Shape, sound: Sound, text: &[u8], out: &mut S)
    requires { shape ≡ shape_at (from_pitch text.now) }
    ensures { out.new ≡ S.taken out.old (line_of_note sound text.now) }
{
    out.put(&[b'n', b'o', b't', b'e', b' ', letter_of_note(text), b' ']);
    put_shape(shape, out);
    put_sound(sound, out);
    put_blank_and_last(text, out);
}

/// Puts the line of a note of shape `shape`, sound `sound` and text `text`: `note PITCH SHAPE
/// DEGREE ALTER S`. Most notes are one small pitch that nothing alters, alone or with one of the
/// signs `.`, `_` and `'`, so their lines are put at once.
fn put_note<S: Put>(shape: Shape, sound: Sound, text: &[u8], out: &mut S)
    requires { shape ≡ shape_at (from_pitch text.now) }
    ensures { out.new ≡ S.taken out.old (line_of_note sound text.now) }
{
    match (text, sound.alter) {
        ([pitch @ b'a'..=b'n'], Alter::None) => put_pitch(*pitch, sound.degree, out),
        ([pitch @ b'a'..=b'n', sign @ (b'.' | b'_' | b'\'')], Alter::None) => {
            put_signed(*pitch, *sign, sound.degree, out);
        }
        _ => put_note_by_words(shape, sound, text, out),
    }
}

/// Puts the line of an alteration: `alteration PITCH flat|natural|sharp S`.
fn put_alteration<S: Put>(text: &[u8], out: &mut S)
    ensures { out.new ≡ S.taken out.old (line_of_alteration text.now) }
{
    out.put(b"alteration ");
    out.put(&[letter_of(text), b' ']);
    put_word_and_last(word_of_alter(sign_of(text)), text, out);
}

/// Returns the name of the bar `text`.
fn name_of_bar(text: &[u8]) -> &'static str
    ensures { result.now ≡ bar_word text.now }
{
    match text {
        [b'`', ..] => "virgula",
        [b'^', ..] => "minimis",
        [b',', ..] => "minima",
        [b';', ..] => "minor",
        [b':', b':', ..] => "finalis",
        _ => "maior",
    }
}

/// Puts the line of a bar: `bar NAME S`.
fn put_bar<S: Put>(text: &[u8], out: &mut S)
    ensures { out.new ≡ S.taken out.old (line_of_bar text.now) }
{
    out.put(b"bar ");
    put_word_and_last(name_of_bar(text), text, out);
}

/// Returns whether `text`, a spacing, is a run of blanks.
fn is_blank(text: &[u8]) -> bool
    ensures { result ≡ is_blank_run text.now }
{
    match text {
        [b' ' | b'\t' | b'\n', ..] => true,
        _ => false,
    }
}

/// Puts the line of a spacing: `space S`, and `space blank` for a run of blanks.
fn put_spacing<S: Put>(text: &[u8], out: &mut S)
    ensures { out.new ≡ S.taken out.old (line_of_spacing text.now) }
{
    out.put(b"space ");
    if is_blank(text) {
        out.put(b"blank\n");
    } else {
        put_last(text, out);
    }
}

/// Puts the line of a custos: `custos PITCH`, or `custos auto`.
fn put_custos<S: Put>(text: &[u8], out: &mut S)
    ensures { out.new ≡ S.taken out.old (line_of_custos text.now) }
{
    out.put(b"custos ");
    match text {
        [b'z', ..] => out.put(b"auto\n"),
        _ => out.put(&[letter_of(text), b'\n']),
    }
}

/// Returns the bytes between the brackets of `text`, an attribute.
fn raw(text: &[u8]) -> &[u8]
    ensures { result.now ≡ raw_of text.now }
{
    match text {
        [_, raw @ .., _] => raw,
        _ => &[],
    }
}

/// Puts the line of an item that is no note, of kind `kind` and text `text`.
fn put_other<S: Put>(kind: ItemKind, text: &[u8], out: &mut S)
    requires { is_note kind ≡ false }
    ensures { (force : InForce) → out.new ≡ S.taken out.old (line_by force kind text.now) }
{
    match kind {
        ItemKind::Note => {}
        ItemKind::Alteration => put_alteration(text, out),
        ItemKind::Clef => {
            out.put(b"clef ");
            put_last(text, out);
        }
        ItemKind::Bar => put_bar(text, out),
        ItemKind::Spacing => put_spacing(text, out),
        ItemKind::Custos => put_custos(text, out),
        ItemKind::Break => {
            out.put(b"break ");
            put_last(text, out);
        }
        ItemKind::Attribute => {
            out.put(b"attribute ");
            put_last(raw(text), out);
        }
        ItemKind::Fusion => {
            out.put(b"fusion ");
            put_last(text, out);
        }
    }
}

/// Puts the line of `item`, which has to lie in `kept`. `force` has the clef and the alterations in
/// force before it.
pub(crate) fn put_item<S: Put>(kept: &str, item: Item, force: &Alterations, out: &mut S)
    requires { (item.span.from ≤ item.span.to) × (item.span.to ≤ length kept.now) }
    ensures { out.new ≡ S.taken out.old (line_of_item force.now kept.now item) }
{
    let text = &kept.as_bytes()[item.span.from..item.span.to];
    match note_of(kept, item) {
        Some(note) => put_note(note.shape, force.sound(note.height), text, out),
        None => put_other(item.kind, text, out),
    }
}
