//! The joints between the notes of a neume.

ghost use Rattle.std.specs.Prelude.{◌≡◌, ◌++◌, OnOk};
ghost use Rattle.gabc_pen.specs.Notes.{pitches_of_planned, pitches_of_notes};

use crate::note::{Note, Shape};
use std::alloc::AllocError;

/// The way in which a note is joined to the one before it, or begins a neume.
#[derive(Clone, Copy, Debug, PartialEq, Eq)]
pub enum Joint {
    /// Right of it, and joined to it by a line.
    Right,
    /// Over it.
    Over,
    /// The first note of a neume, with a stem at its left.
    Stem,
    /// The first note of a neume, with a stem at its right.
    Virga,
    /// The first note of a broad stroke that has a stem.
    StemmedStroke,
    /// The first note of a broad stroke without a stem.
    Stroke,
    /// The second note of a broad stroke.
    StrokeEnd,
    /// A punctum inclinatum.
    Diamond,
    /// Not joined.
    Alone,
}

/// A note of a neume with its joint; `is_up` says whether it is an oriscus that points up.
#[derive(Clone, Copy, Debug, PartialEq, Eq)]
pub struct Planned {
    pub note: Note,
    pub joint: Joint,
    pub is_up: bool,
}

/// The kind of a neume, by the numbers of a tree: its base and its tail.
#[derive(Clone, Copy, Debug, PartialEq, Eq)]
pub struct GlyphKind {
    pub base: u16,
    pub tail: u16,
}

/// The bases of neumes of several notes, as a tree numbers them.
pub(crate) const PES: u16 = 0;

pub(crate) const CLIVIS: u16 = 1;

pub(crate) const TORCULUS: u16 = 2;

pub(crate) const PORRECTUS: u16 = 3;

pub(crate) const SCANDICUS: u16 = 4;

pub(crate) const SCANDICUS_FLEXUS: u16 = 5;

pub(crate) const TORCULUS_RESUPINUS: u16 = 6;

pub(crate) const PORRECTUS_FLEXUS: u16 = 7;

pub(crate) const TORCULUS_RESUPINUS_FLEXUS: u16 = 8;

pub(crate) const CLIMACUS: u16 = 9;
/// The tail of a neume that rises again after its inclinata.
const RESUPINUS: u16 = 2;

impl GlyphKind {
    /// Returns the number of notes before the tail in a neume of `count` notes, of which `diamonds`
    /// are inclinata.
    fn front(self, count: usize, diamonds: usize) -> usize {
        let resupinus = if self.tail == RESUPINUS { 1 } else { 0 };
        count.saturating_sub(diamonds).saturating_sub(resupinus)
    }

    /// Returns the joint of the note `at`, from 0, if the base gives it one: none of the tail has
    /// one, nor any in a neume of another base. `front` notes come before the tail.
    fn joint_at(self, at: usize, front: usize) -> Option<Joint> {
        match (self.base, at) {
            (PES, 0) => Some(Joint::Right),
            (PES, 1) => Some(Joint::Over),
            (CLIVIS, 0) => Some(Joint::Stem),
            (CLIVIS, 1) | (TORCULUS, 0..=2) => Some(Joint::Right),
            (PORRECTUS | PORRECTUS_FLEXUS, 0) => Some(Joint::StemmedStroke),
            (PORRECTUS | PORRECTUS_FLEXUS, 1) => Some(Joint::StrokeEnd),
            (PORRECTUS, 2) => Some(Joint::Over),
            (PORRECTUS_FLEXUS, 2..=3) => Some(Joint::Right),
            (TORCULUS_RESUPINUS | TORCULUS_RESUPINUS_FLEXUS, 0) => Some(Joint::Right),
            (TORCULUS_RESUPINUS | TORCULUS_RESUPINUS_FLEXUS, 1) => Some(Joint::Stroke),
            (TORCULUS_RESUPINUS | TORCULUS_RESUPINUS_FLEXUS, 2) => Some(Joint::StrokeEnd),
            (TORCULUS_RESUPINUS, 3) => Some(Joint::Over),
            (TORCULUS_RESUPINUS_FLEXUS, 3..=4) => Some(Joint::Right),
            (SCANDICUS, _) if at.saturating_add(1) == front => Some(Joint::Over),
            (SCANDICUS | SCANDICUS_FLEXUS, _) if at < front => Some(Joint::Right),
            (CLIMACUS, 0) => Some(Joint::Virga),
            _ => None,
        }
    }
}

/// Returns the number of inclinata among `notes`.
fn count_diamonds(notes: &[Note]) -> usize {
    notes
        .iter()
        .filter(|note| note.shape == Shape::Inclinatum)
        .count()
}

/// Returns whether the oriscus `note` points up: by its own sign if it has one, else if the first
/// different pitch after it is higher. `later` are the notes after it in its neume, and `following`
/// is the first different pitch after these (GregorioRef, "Oriscus Orientation").
fn rises(note: Note, later: &[Note], following: Option<u8>) -> bool {
    if let Some(told) = note.points_up {
        return told;
    }
    for other in later {
        if other.pitch != note.pitch {
            return note.pitch < other.pitch;
        }
    }
    following.is_some_and(|pitch| note.pitch < pitch)
}

/// Returns the number of steps, 1 to 5, by which a broad stroke falls from `note` to `next`;
/// nothing if one of them is no punctum, if `note` is an initio debilis, or if they lie otherwise.
pub(crate) fn fall_between(note: Note, next: Note) -> Option<u8> {
    let is_plain = note.shape == Shape::Punctum && next.shape == Shape::Punctum && !note.is_debilis;
    let fall = note.pitch.saturating_sub(next.pitch);
    if is_plain && 1 <= fall && fall <= 5 {
        Some(fall)
    } else {
        None
    }
}

/// Returns the joint of `notes[at]` in a neume of this `kind` with `front` notes before its tail:
/// in no broad stroke if none falls between its notes, and not over a quadratum.
fn joint_of(kind: GlyphKind, notes: &[Note], at: usize, front: usize) -> Joint {
    let Some(note) = notes.get(at) else {
        return Joint::Alone;
    };
    let tail = if note.shape == Shape::Inclinatum {
        Joint::Diamond
    } else {
        Joint::Alone
    };
    let joint = kind.joint_at(at, front).unwrap_or(tail);
    let before = at.checked_sub(1).and_then(|before| notes.get(before));
    let next = notes.get(at.saturating_add(1));
    let falls = next.is_some_and(|next| fall_between(*note, *next).is_some());
    match joint {
        Joint::StemmedStroke if !falls => Joint::Stem,
        Joint::Stroke if !falls => Joint::Right,
        Joint::StrokeEnd if !before.is_some_and(|it| fall_between(*it, *note).is_some()) => {
            Joint::Right
        }
        Joint::Over if before.is_some_and(|it| it.shape.is_quadratum()) => Joint::Right,
        joint => joint,
    }
}

/// Appends the notes of a neume of this `kind` to `planned`, each with its joint. `following` is
/// the first pitch after the neume that differs from its last one.
pub fn plan_notes(
    kind: GlyphKind,
    notes: &[Note],
    following: Option<u8>,
    planned: &mut Vec<Planned>,
) -> Result<(), AllocError>
    ensures { OnOk result (pitches_of_planned planned.new.items
        ≡ pitches_of_planned planned.old.items ++ pitches_of_notes notes.now) }
{
    let front = kind.front(notes.len(), count_diamonds(notes));
    let mut rest = notes;
    let mut at: usize = 0;
    while let [note, later @ ..] = rest {
        planned.push(Planned {
            note: *note,
            joint: joint_of(kind, notes, at, front),
            is_up: note.shape.is_oriscus() && rises(*note, later, following),
        })?;
        at = at.saturating_add(1);
        rest = later;
    }
    Ok(())
}
