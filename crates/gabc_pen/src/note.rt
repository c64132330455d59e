//! The notes of a tree, as a drawing needs them.

ghost use Rattle.std.specs.Prelude.{◌≡◌, ◌%◌};
ghost use Rattle.gabc_pen.specs.Notes.{times_of_shape};

use gabc_nodes::Node;

/// The shape of a note (GregorioRef, "One-Note Neumes").
#[derive(Clone, Copy, Debug, PartialEq, Eq)]
pub enum Shape {
    Punctum,
    Inclinatum,
    Virga,
    Bivirga,
    Trivirga,
    VirgaReversa,
    Stropha,
    Distropha,
    Tristropha,
    Oriscus,
    OriscusScapus,
    Quilisma,
    QuilismaQuadratum,
    Quadratum,
    Cavum,
    Lined,
    Linea,
}

/// The liquescence of a note.
#[derive(Clone, Copy, Debug, PartialEq, Eq)]
pub enum Liquescence {
    None,
    Deminutus,
    Augmented,
    Diminished,
}

/// The side of a note on which a sign is drawn.
#[derive(Clone, Copy, Debug, PartialEq, Eq)]
pub enum Side {
    /// The score names no side.
    Auto,
    Over,
    Under,
}

/// The size of an episema: as wide as its notes, or small and aligned left, centred or right.
#[derive(Clone, Copy, Debug, PartialEq, Eq)]
pub enum EpisemaSize {
    Whole,
    Left,
    Centre,
    Right,
}

/// The number of notes that the episemata of a note cover, itself and those before it: by an
/// episema whose side the score does not name, by one over the notes, and by one under them.
#[derive(Clone, Copy, Debug, PartialEq, Eq)]
pub struct Covers {
    pub auto: u16,
    pub over: u16,
    pub under: u16,
}

/// A note with its signs.
#[derive(Clone, Copy, Debug, PartialEq, Eq)]
pub struct Note {
    /// Its pitch in steps, from 0 for `a`.
    pub pitch: u8,
    /// The number of times that it sounds, which is the number of its heads.
    pub times: u8,
    pub shape: Shape,
    pub liquescence: Liquescence,
    pub morae: u16,
    pub ictus: Option<Side>,
    pub size: EpisemaSize,
    pub is_bridged: bool,
    pub covers: Covers,
    pub is_hollow: bool,
    pub is_lined: bool,
    pub is_debilis: bool,
    /// Whether the score has an oriscus point up (`true`) or down; `None` if it says neither.
    pub points_up: Option<bool>,
    /// The signs over the staff: the sum of 1 for `r1`, 2 for `r2`, 4 for `r3` and so on.
    pub over_staff: u16,
}

impl Shape {
    /// Returns the shape with this number.
    fn of(number: u16) -> Shape {
        match number {
            1 => Shape::Inclinatum,
            2 => Shape::Virga,
            3 => Shape::Bivirga,
            4 => Shape::Trivirga,
            5 => Shape::VirgaReversa,
            6 => Shape::Stropha,
            7 => Shape::Distropha,
            8 => Shape::Tristropha,
            9 => Shape::Oriscus,
            10 => Shape::OriscusScapus,
            11 => Shape::Quilisma,
            12 => Shape::QuilismaQuadratum,
            13 => Shape::Quadratum,
            14 => Shape::Cavum,
            15 => Shape::Lined,
            16 => Shape::Linea,
            _ => Shape::Punctum,
        }
    }

    /// Returns whether it is a quadratum.
    pub fn is_quadratum(self) -> bool {
        self == Shape::Quadratum || self == Shape::QuilismaQuadratum
    }

    /// Returns whether it is an oriscus.
    pub fn is_oriscus(self) -> bool {
        self == Shape::Oriscus || self == Shape::OriscusScapus
    }

    /// Returns whether it is a virga, a bivirga or a trivirga: its stem is at its right.
    pub fn is_virga(self) -> bool {
        self == Shape::Virga || self == Shape::Bivirga || self == Shape::Trivirga
    }
}

/// Returns the number of times that a note with the shape of this number sounds: 2 for a bivirga or
/// a distropha, 3 for a trivirga or a tristropha.
fn times_of(shape: u16) -> u8
    ensures { result ≡ times_of_shape shape }
{
    match shape {
        3 | 7 => 2,
        4 | 8 => 3,
        _ => 1,
    }
}

/// Returns the side with this `number`: 1 for one that the score does not name, 2 over, 3 under,
/// and nothing for any other number.
fn side_of(number: u16) -> Option<Side> {
    match number {
        1 => Some(Side::Auto),
        2 => Some(Side::Over),
        3 => Some(Side::Under),
        _ => None,
    }
}

impl Liquescence {
    /// Returns the liquescence with this number.
    fn of(number: u16) -> Liquescence {
        match number {
            1 => Liquescence::Deminutus,
            2 => Liquescence::Augmented,
            3 => Liquescence::Diminished,
            _ => Liquescence::None,
        }
    }
}

impl EpisemaSize {
    /// Returns the size with this number.
    fn of(number: u16) -> EpisemaSize {
        match number {
            1 => EpisemaSize::Left,
            2 => EpisemaSize::Centre,
            3 => EpisemaSize::Right,
            _ => EpisemaSize::Whole,
        }
    }
}

/// Returns whether an oriscus points up, by the `number` of its orientation: 1 is down, 2 is up,
/// and any other names none.
fn points_up(number: u16) -> Option<bool> {
    match number {
        1 => Some(false),
        2 => Some(true),
        _ => None,
    }
}

impl Note {
    /// Returns the note of `node`, read from its numbers.
    pub fn of(node: Node) -> Note
        ensures pitch { result.pitch ≡ node.a % 16 }
        ensures times { result.times ≡ times_of_shape (node.b % 32) }
    {
        let Node { a, b, c, .. } = node;
        Note {
            pitch: (a % 16) as u8,
            times: times_of(b % 32),
            shape: Shape::of(b % 32),
            liquescence: Liquescence::of(b / 32 % 4),
            morae: b / 128 % 4,
            ictus: side_of(b / 512 % 4),
            size: EpisemaSize::of(b / 2048 % 4),
            is_bridged: b / 8192 % 2 == 0,
            covers: Covers {
                auto: c / 128 % 8,
                over: c / 1024 % 8,
                under: c / 8192,
            },
            is_hollow: a / 4096 % 2 == 1,
            is_lined: a / 8192 % 2 == 1,
            is_debilis: c / 32 % 2 == 1,
            points_up: points_up(a / 16384),
            over_staff: a / 16 % 256,
        }
    }

    /// Returns the number of steps from the lowest line of the staff up to it: negative below that
    /// line.
    pub fn step(self) -> i32 {
        i32::from(self.pitch) - 3
    }
}
