//! The machine that reads a glyph a note at a time.

ghost use Rattle.std.specs.Prelude.{◌≡◌, Some};
ghost use Rattle.gabc_neumes.specs.Letters.{is_joinable};
ghost use Rattle.gabc_neumes.specs.machine.GlyphMachine.{step_class, class_at, next_state, kind_at_end, with_note, begins_climacus, base_of};

use crate::glyph::{Base, GlyphKind, Tail};
use gabc_notes::{Note, Shape};

/// The class of a note in a glyph: of a first note by its shape, of another one by its shape and by
/// whether it is higher or lower than the note before it.
#[derive(Clone, Copy)]
pub(crate) enum NoteClass {
    First(Shape),
    /// A joinable note: higher, lower, level.
    Up,
    Down,
    Level,
    /// An inclinatum: higher, lower, level.
    PointUp,
    PointDown,
    PointLevel,
    Other,
}

/// A base of several joinable notes.
#[derive(Clone, Copy)]
pub(crate) enum JoinedBase {
    Pes,
    Clivis,
    Torculus,
    Porrectus,
    Scandicus,
    ScandicusFlexus,
    TorculusResupinus,
    PorrectusFlexus,
    TorculusResupinusFlexus,
}

/// The state of a glyph after some of its notes.
#[derive(Clone, Copy)]
pub(crate) enum GlyphState {
    Start,
    /// After one note of that shape, or after inclinata alone.
    One(Shape),
    Plain(JoinedBase),
    /// After the base and its falling inclinata.
    Falling(JoinedBase),
    /// After one note and one lower inclinatum, which are no glyph.
    Half,
    Climacus,
    /// After the higher note that ends the glyph.
    Resumed(JoinedBase),
    ResumedClimacus,
}

/// Returns whether a note of shape `shape` may be joined to others.
fn is_joinable_shape(shape: Shape) -> bool
    ensures { result ≡ is_joinable shape }
{
    match shape {
        Shape::Punctum | Shape::Quadratum | Shape::Oriscus | Shape::OriscusScapus => true,
        Shape::Quilisma | Shape::QuilismaQuadratum => true,
        _ => false,
    }
}

/// Returns the class of `note` after a note at the height `before`.
fn class_after(before: u8, note: Note) -> NoteClass
    ensures { result ≡ step_class note.shape before note.height }
{
    match note.shape {
        Shape::Inclinatum => {
            if note.height < before {
                NoteClass::PointDown
            } else if before < note.height {
                NoteClass::PointUp
            } else {
                NoteClass::PointLevel
            }
        }
        shape => {
            if !is_joinable_shape(shape) {
                NoteClass::Other
            } else if note.height < before {
                NoteClass::Down
            } else if before < note.height {
                NoteClass::Up
            } else {
                NoteClass::Level
            }
        }
    }
}

/// Returns the class of `note` after a note at the height `before`, or as the first.
pub(crate) fn class_of(before: Option<u8>, note: Note) -> NoteClass
    ensures { result ≡ class_at before note }
{
    match before {
        Some(height) => class_after(height, note),
        None => NoteClass::First(note.shape),
    }
}

/// Returns whether a climacus may begin with a note of shape `shape`.
fn falls_from(shape: Shape) -> bool
    ensures { result ≡ begins_climacus shape }
{
    match shape {
        Shape::Punctum | Shape::Virga => true,
        _ => false,
    }
}

impl JoinedBase {
    /// Returns the base with one more joinable note, which is higher if `up`, else lower.
    fn with(self, up: bool) -> Option<JoinedBase>
        ensures { result ≡ with_note self up }
    {
        match (self, up) {
            (JoinedBase::Pes | JoinedBase::Scandicus, true) => Some(JoinedBase::Scandicus),
            (JoinedBase::Pes, false) => Some(JoinedBase::Torculus),
            (JoinedBase::Clivis, true) => Some(JoinedBase::Porrectus),
            (JoinedBase::Scandicus, false) => Some(JoinedBase::ScandicusFlexus),
            (JoinedBase::Torculus, true) => Some(JoinedBase::TorculusResupinus),
            (JoinedBase::Porrectus, false) => Some(JoinedBase::PorrectusFlexus),
            (JoinedBase::TorculusResupinus, false) => Some(JoinedBase::TorculusResupinusFlexus),
            _ => None,
        }
    }

    /// Returns the base of a glyph.
    fn base(self) -> Base
        ensures { result ≡ base_of self }
    {
        match self {
            JoinedBase::Pes => Base::Pes,
            JoinedBase::Clivis => Base::Clivis,
            JoinedBase::Torculus => Base::Torculus,
            JoinedBase::Porrectus => Base::Porrectus,
            JoinedBase::Scandicus => Base::Scandicus,
            JoinedBase::ScandicusFlexus => Base::ScandicusFlexus,
            JoinedBase::TorculusResupinus => Base::TorculusResupinus,
            JoinedBase::PorrectusFlexus => Base::PorrectusFlexus,
            JoinedBase::TorculusResupinusFlexus => Base::TorculusResupinusFlexus,
        }
    }
}

/// Returns the state after one more note, if a glyph goes on with it.
pub(crate) fn goes_on(state: GlyphState, class: NoteClass) -> Option<GlyphState>
    ensures { result ≡ next_state state class }
{
    match (state, class) {
        (GlyphState::Start, NoteClass::First(shape)) => Some(GlyphState::One(shape)),
        (
            GlyphState::One(Shape::Inclinatum),
            NoteClass::PointUp | NoteClass::PointDown | NoteClass::PointLevel,
        ) => Some(GlyphState::One(Shape::Inclinatum)),
        (GlyphState::One(shape), NoteClass::Up) if is_joinable_shape(shape) => {
            Some(GlyphState::Plain(JoinedBase::Pes))
        }
        (GlyphState::One(shape), NoteClass::Down) if is_joinable_shape(shape) => {
            Some(GlyphState::Plain(JoinedBase::Clivis))
        }
        (GlyphState::One(shape), NoteClass::PointDown) if falls_from(shape) => {
            Some(GlyphState::Half)
        }
        (GlyphState::Plain(base), NoteClass::Up) => match base.with(true) {
            Some(next) => Some(GlyphState::Plain(next)),
            None => None,
        },
        (GlyphState::Plain(base), NoteClass::Down) => match base.with(false) {
            Some(next) => Some(GlyphState::Plain(next)),
            None => None,
        },
        (GlyphState::Plain(base) | GlyphState::Falling(base), NoteClass::PointDown) => {
            Some(GlyphState::Falling(base))
        }
        (GlyphState::Falling(base), NoteClass::Up) => Some(GlyphState::Resumed(base)),
        (GlyphState::Half | GlyphState::Climacus, NoteClass::PointDown) => {
            Some(GlyphState::Climacus)
        }
        (GlyphState::Climacus, NoteClass::Up) => Some(GlyphState::ResumedClimacus),
        _ => None,
    }
}

/// Returns the kind of a glyph with the base `base` and the tail `tail`.
fn kind(base: Base, tail: Tail) -> Option<GlyphKind>
    ensures { result ≡ Some (record { base = base; tail = tail }) }
{
    Some(GlyphKind { base, tail })
}

/// Returns the kind of the glyph, if it may end here.
pub(crate) fn ends(state: GlyphState) -> Option<GlyphKind>
    ensures { result ≡ kind_at_end state }
{
    match state {
        GlyphState::Start | GlyphState::Half => None,
        GlyphState::One(Shape::Inclinatum) => kind(Base::Inclinata, Tail::Plain),
        GlyphState::One(shape) => kind(Base::One(shape), Tail::Plain),
        GlyphState::Plain(base) => kind(base.base(), Tail::Plain),
        GlyphState::Falling(base) => kind(base.base(), Tail::Subpunctis),
        GlyphState::Resumed(base) => kind(base.base(), Tail::Resupinus),
        GlyphState::Climacus => kind(Base::Climacus, Tail::Plain),
        GlyphState::ResumedClimacus => kind(Base::Climacus, Tail::Resupinus),
    }
}
