//! The heads of notes.

ghost use Rattle.std.specs.Prelude.{◌≡◌};
ghost use Rattle.gabc_marks.specs.Heads.{height_at};

use crate::distance::Distance;
use crate::joined::Joined;

/// The width of an outline, and its reach up and down from its origin.
#[derive(Clone, Copy, Debug, PartialEq, Eq)]
pub struct Metrics {
    pub width: Distance,
    pub up: Distance,
    pub down: Distance,
}

/// The outline of one note. Its origin is at its left, at the height of the note.
#[derive(Clone, Copy, Debug, PartialEq, Eq)]
pub enum Single {
    Punctum,
    /// A punctum without a foot, over one a step lower.
    PunctumOver,
    /// A punctum without a top, under one a step higher.
    PunctumUnder,
    PunctumAscendens,
    PunctumDescendens,
    /// A small punctum: of a deminutus, or of an initio debilis.
    PunctumDeminutus,
    Cavum,
    Inclinatum,
    InclinatumAuctus,
    InclinatumDeminutus,
    InclinatumCavum,
    Stropha,
    StrophaAucta,
    Quilisma,
    OriscusUp,
    OriscusDown,
    OriscusUpScapus,
    OriscusDownScapus,
    OriscusDeminutus,
    Linea,
    LineaPunctum,
    Virga,
    VirgaReversa,
    VirgaReversaAscendens,
    VirgaReversaDescendens,
}

/// The outline of one note or of several. Its origin is at its left, at the height of its first
/// note.
#[derive(Clone, Copy, Debug, PartialEq, Eq)]
pub enum Head {
    Single(Single),
    /// A broad stroke: two notes, the second this number of steps lower than the first.
    Stroke(u8),
    /// A neume that is one outline.
    Joined(Joined),
}

/// A head at its place: `x` is where its outline begins, and `pitch` is the height of its first
/// note, from 0 for `a`.
#[derive(Clone, Copy, Debug, PartialEq, Eq)]
pub struct NoteHead {
    pub head: Head,
    pub x: Distance,
    pub pitch: u8,
}

/// Returns the distance of a note of this `pitch`, from 0 for `a`, below the lowest line of its
/// staff: negative for a note above that line.
pub fn height_of(pitch: u8) -> Distance
    ensures { result.0 ≡ height_at pitch }
{
    Distance(1500 - 500 * i32::from(pitch))
}

impl Metrics {
    /// Returns the metrics with these numbers, in thousandths of a staff space.
    pub(crate) fn new(width: i32, up: i32, down: i32) -> Metrics {
        Metrics {
            width: Distance(width),
            up: Distance(up),
            down: Distance(down),
        }
    }

    /// Returns the metrics of a broad stroke that falls by `steps` steps.
    fn of_stroke(steps: u8) -> Metrics {
        let steps = i32::from(steps);
        Metrics::new(1460 + 120 * steps, 340, 500 * steps + 340)
    }
}

impl Single {
    /// Returns the width of the outline, and its reach up and down from its note.
    pub fn metrics(self) -> Metrics {
        match self {
            Single::Punctum => Metrics::new(526, 335, 335),
            Single::PunctumOver | Single::PunctumUnder | Single::Cavum => Metrics::new(
                580, 340, 340,
            ),
            Single::PunctumAscendens => Metrics::new(526, 478, 348),
            Single::PunctumDescendens => Metrics::new(526, 351, 430),
            Single::PunctumDeminutus => Metrics::new(263, 167, 183),
            Single::Inclinatum => Metrics::new(587, 421, 408),
            Single::InclinatumAuctus => Metrics::new(587, 433, 449),
            Single::InclinatumDeminutus => Metrics::new(441, 351, 278),
            Single::InclinatumCavum => Metrics::new(660, 410, 410),
            Single::Stropha => Metrics::new(545, 433, 433),
            Single::StrophaAucta => Metrics::new(545, 433, 648),
            Single::Quilisma => Metrics::new(526, 462, 364),
            Single::OriscusUp => Metrics::new(526, 402, 386),
            Single::OriscusDown => Metrics::new(526, 402, 395),
            Single::OriscusUpScapus | Single::OriscusDownScapus => Metrics::new(526, 402, 1077),
            Single::OriscusDeminutus => Metrics::new(533, 424, 427),
            Single::Linea => Metrics::new(1367, 439, 405),
            Single::LineaPunctum => Metrics::new(844, 332, 360),
            Single::Virga | Single::VirgaReversa => Metrics::new(526, 348, 1077),
            Single::VirgaReversaAscendens => Metrics::new(526, 468, 1077),
            Single::VirgaReversaDescendens => Metrics::new(526, 392, 1077),
        }
    }
}

impl Head {
    /// Returns the width of the outline, and its reach up and down from its first note. Of a neume
    /// without an outline it returns the metrics of a punctum.
    pub fn metrics(self) -> Metrics {
        match self {
            Head::Single(single) => single.metrics(),
            Head::Stroke(steps) => Metrics::of_stroke(steps),
            Head::Joined(joined) => joined.metrics().unwrap_or(Single::Punctum.metrics()),
        }
    }
}
