//! The signs of a note, read from its suffixes: all but its shape.

ghost use Rattle.std.specs.Prelude.{◌≡◌, ◌≢◌, ◌≤◌, ◌⊎◌, ◌∷◌, ◌||◌, List, not, true, false, length};
ghost use Rattle.gabc_patterns.specs.Pattern.{is_in};
ghost use Rattle.gabc_notes.specs.Notes.{digits_of, is_sign, is_digit as is_digit_byte};
ghost use Rattle.gabc_tree.specs.Signs.{Suffix, suffixes, side_after, side_by, size_after, size_by, last_size, with_cover, signs_of};
ghost use Rattle.gabc_tree.specs.machine.Signs.{names, over_with, with_r, orientation_with, liquescence_with, with_episema, suffixes_read};

/// The most notes that an episema covers by the numbers of a node.
const MOST_COVERED: u8 = 7;

/// The most puncta mora that a note has by the numbers of a node.
const MOST_MORAE: u8 = 3;

/// The side of its note on which a sign is.
#[derive(Clone, Copy, Debug, PartialEq, Eq)]
pub(crate) enum Side {
    /// The score names no side.
    Auto,
    Over,
    Under,
}

/// The liquescence of a note.
#[derive(Clone, Copy, Debug, PartialEq, Eq)]
pub(crate) enum Liquescence {
    None,
    /// `~`.
    Deminutus,
    /// `<`.
    Augmented,
    /// `>`.
    Diminished,
}

/// The size of a horizontal episema: as wide as its note, or small and aligned left, centred or
/// right.
#[derive(Clone, Copy, Debug, PartialEq, Eq)]
pub(crate) enum EpisemaSize {
    Whole,
    Left,
    Centre,
    Right,
}

/// The direction in which an oriscus points by its sign, if it has one.
#[derive(Clone, Copy, Debug, PartialEq, Eq)]
pub(crate) enum Orientation {
    NotTold,
    Down,
    Up,
}

/// The signs over the staff at a note, from `r1` to `r8`.
#[derive(Clone, Copy, Debug, PartialEq, Eq)]
pub(crate) struct OverStaff {
    pub(crate) accent: bool,
    pub(crate) grave: bool,
    pub(crate) circle: bool,
    pub(crate) lower_arc: bool,
    pub(crate) upper_arc: bool,
    pub(crate) flat: bool,
    pub(crate) natural: bool,
    pub(crate) sharp: bool,
}

/// The number of notes that the longest episema of each side covers, at most `MOST_COVERED`.
#[derive(Clone, Copy, Debug, PartialEq, Eq)]
pub(crate) struct Covered {
    pub(crate) auto: u8,
    pub(crate) over: u8,
    pub(crate) under: u8,
}

/// The signs of a note (GregorioRef, "One-Note Neumes", "Oriscus Orientation", "Additional
/// Symbols", "Rhythmic signs").
#[derive(Clone, Copy, Debug, PartialEq, Eq)]
pub(crate) struct NoteSigns {
    /// The number of its puncta mora, at most `MOST_MORAE`.
    pub(crate) morae: u8,
    /// The side of its first ictus.
    pub(crate) ictus: Option<Side>,
    /// The numbers of notes that its episemata cover.
    pub(crate) covered: Covered,
    /// The size of its last small episema.
    pub(crate) size: EpisemaSize,
    /// Whether an episema is not to be bridged.
    pub(crate) unbridged: bool,
    pub(crate) liquescence: Liquescence,
    /// Whether it is a cavum, or a hollow punctum inclinatum.
    pub(crate) hollow: bool,
    /// Whether it has lines at both of its sides.
    pub(crate) lined: bool,
    pub(crate) over_staff: OverStaff,
    pub(crate) orientation: Orientation,
}

impl OverStaff {
    const NONE: OverStaff = OverStaff {
        accent: false,
        grave: false,
        circle: false,
        lower_arc: false,
        upper_arc: false,
        flat: false,
        natural: false,
        sharp: false,
    };

    /// Returns the signs with the one that `digits` after an `r` name, if they name one.
    fn with(self, digits: &[u8]) -> OverStaff
        ensures { result ≡ over_with self digits.now }
    {
        OverStaff {
            accent: names(digits, b'1') || self.accent,
            grave: names(digits, b'2') || self.grave,
            circle: names(digits, b'3') || self.circle,
            lower_arc: names(digits, b'4') || self.lower_arc,
            upper_arc: names(digits, b'5') || self.upper_arc,
            flat: names(digits, b'6') || self.flat,
            natural: names(digits, b'7') || self.natural,
            sharp: names(digits, b'8') || self.sharp,
        }
    }
}

/// Returns whether `digits` are `digit` alone.
#[tactic(auto, using(crate::proofs::OneDigit::longer_is_not_one))]
fn names(digits: &[u8], digit: u8) -> bool
    ensures { result ≡ names digits.now digit }
{
    match digits {
        [] => false,
        [only] => *only == digit,
        [_, _, ..] => false,
    }
}

/// Returns whether `digits` after an `r` name no sign: they are none, or `0`.
#[tactic(auto, using(crate::proofs::OneDigit::longer_is_sign))]
fn are_plain(digits: &[u8]) -> bool
    ensures { result ≡ not (is_sign digits.now) }
{
    match digits {
        [] => true,
        [only] => *only == b'0',
        [_, _, ..] => false,
    }
}

/// Returns the digits with which `text` begins.
fn digits_at(text: &[u8]) -> &[u8]
    ensures { result.now ≡ digits_of text.now }
{
    for (i, byte) in text.iter().enumerate() {
        if !is_digit(*byte) {
            return &text[..i];
        }
    }
    text
}

/// Returns whether `byte` is a digit.
fn is_digit(byte: u8) -> bool
    ensures { result ≡ is_digit_byte byte }
{
    b'0' <= byte && byte <= b'9'
}

/// Returns the side that `digits` name: the last 0 or 1 counts.
fn side_by(digits: &[u8]) -> Side
    ensures { result ≡ side_by digits.now }
{
    let mut side = Side::Auto;
    for digit in digits {
        match *digit {
            b'0' => side = Side::Under,
            b'1' => side = Side::Over,
            _ => {}
        }
    }
    side
}

/// Returns the size that `digits` name: the last digit from 3 to 5 counts.
fn size_by(digits: &[u8]) -> EpisemaSize
    ensures { result ≡ size_by digits.now }
{
    let mut size = EpisemaSize::Whole;
    for digit in digits {
        match *digit {
            b'3' => size = EpisemaSize::Left,
            b'4' => size = EpisemaSize::Centre,
            b'5' => size = EpisemaSize::Right,
            _ => {}
        }
    }
    size
}

impl Covered {
    const NONE: Covered = Covered {
        auto: 0,
        over: 0,
        under: 0,
    };

    /// Returns the numbers with an episema of `count` notes on this `side` added.
    fn with(self, side: Side, count: u8) -> Covered
        ensures { result ≡ with_cover self side count }
    {
        let mut covered = self;
        match side {
            Side::Auto => covered.auto = covered.auto.max(count),
            Side::Over => covered.over = covered.over.max(count),
            Side::Under => covered.under = covered.under.max(count),
        }
        covered
    }
}

/// Returns the liquescence of `sign`, one of `~`, `<` and `>`, and `other` together: the one that
/// comes first in this order.
fn liquescence_with(sign: u8, other: Liquescence) -> Liquescence
    ensures { result ≡ liquescence_with sign other }
{
    match (sign, other) {
        (b'~', _) => Liquescence::Deminutus,
        (b'<', Liquescence::Deminutus) => Liquescence::Deminutus,
        (b'<', _) => Liquescence::Augmented,
        (_, Liquescence::None) => Liquescence::Diminished,
        (_, other) => other,
    }
}

impl NoteSigns {
    /// The signs of a note without suffixes.
    pub(crate) const NONE: NoteSigns = NoteSigns {
        morae: 0,
        ictus: None,
        covered: Covered::NONE,
        size: EpisemaSize::Whole,
        unbridged: false,
        liquescence: Liquescence::None,
        hollow: false,
        lined: false,
        over_staff: OverStaff::NONE,
        orientation: Orientation::NotTold,
    };

    /// Returns the signs with an `r` and those digits before them.
    fn with_r(self, digits: &[u8]) -> NoteSigns
        ensures { result ≡ with_r self digits.now }
    {
        NoteSigns {
            hollow: are_plain(digits) || self.hollow,
            lined: names(digits, b'0') || self.lined,
            over_staff: self.over_staff.with(digits),
            ..self
        }
    }

    /// Returns the signs with an oriscus and those digits before them.
    fn with_oriscus(self, digits: &[u8]) -> NoteSigns
        ensures { result
            ≡ record self { orientation = orientation_with self.orientation digits.now } }
    {
        let orientation = match digits {
            [b'0', ..] => Orientation::Down,
            [b'1', ..] => Orientation::Up,
            _ => self.orientation,
        };
        NoteSigns {
            orientation,
            ..self
        }
    }

    /// Returns the signs with a `_` and those digits before them.
    fn with_episema(self, digits: &[u8]) -> NoteSigns
        ensures { result ≡ with_episema self digits.now }
    {
        let size = match self.size {
            EpisemaSize::Whole => size_by(digits),
            size => size,
        };
        NoteSigns {
            covered: self.covered.with(side_by(digits), 1),
            size,
            unbridged: digits.contains(&b'2') || self.unbridged,
            ..self
        }
    }

    /// Returns the signs with the suffix before them that begins with `sign`, which is no `_`.
    /// `later` are the bytes after `sign`.
    fn with_suffix(self, sign: u8, later: &[u8]) -> NoteSigns
        requires other { sign ≢ 95 }
        requires morae { self.morae ≤ 3 }
        ensures { (ss : List Suffix) → self ≡ signs_of ss → result ≡ signs_of (record {
          sign = sign;
          count = 1;
          digits = digits_of later.now;
        } ∷ ss) }
    {
        match sign {
            b'.' => NoteSigns {
                morae: MOST_MORAE.min(self.morae + 1),
                ..self
            },
            b'\'' => NoteSigns {
                ictus: Some(side_by(digits_at(later))),
                ..self
            },
            b'r' => self.with_r(digits_at(later)),
            b'R' => NoteSigns {
                lined: true,
                ..self
            },
            b'o' | b'O' => self.with_oriscus(digits_at(later)),
            b'~' | b'<' | b'>' => NoteSigns {
                liquescence: liquescence_with(sign, self.liquescence),
                ..self
            },
            _ => self,
        }
    }
}

/// The suffixes of a note as they are read from a byte on.
#[derive(Clone, Copy)]
struct SuffixesRead {
    signs: NoteSigns,
    /// The number of `_` with which they begin, at most `MOST_COVERED`.
    run: u8,
    /// The side that the digits after these `_` name.
    side: Side,
}

impl SuffixesRead {
    /// No suffixes.
    const NONE: SuffixesRead = SuffixesRead {
        signs: NoteSigns::NONE,
        run: 0,
        side: Side::Auto,
    };

    /// Returns suffixes with these `signs` that begin with no `_`.
    fn without_run(signs: NoteSigns) -> SuffixesRead
        ensures { result ≡ record { signs = signs; run = 0; side = Side.Auto } }
    {
        SuffixesRead {
            signs,
            run: 0,
            side: Side::Auto,
        }
    }

    /// Returns the suffixes with a `_` before them. `later` are their bytes.
    fn with_bar(self, later: &[u8]) -> SuffixesRead
        requires { self ≡ suffixes_read later.now }
        ensures { result ≡ suffixes_read (95 ∷ later.now) }
    {
        if self.run == 0 {
            let digits = digits_at(later);
            return SuffixesRead {
                signs: self.signs.with_episema(digits),
                run: 1,
                side: side_by(digits),
            };
        }
        let run = MOST_COVERED.min(self.run + 1);
        SuffixesRead {
            signs: NoteSigns {
                covered: self.signs.covered.with(self.side, run),
                ..self.signs
            },
            run,
            side: self.side,
        }
    }

    /// Returns the suffixes with `byte` before them. `later` are their bytes.
    fn with_byte(self, byte: u8, later: &[u8]) -> SuffixesRead
        requires { self ≡ suffixes_read later.now }
        ensures { result ≡ suffixes_read (byte ∷ later.now) }
    {
        match byte {
            b'_' => self.with_bar(later),
            b'0'..=b'9' => SuffixesRead::without_run(self.signs),
            _ => SuffixesRead::without_run(self.signs.with_suffix(byte, later)),
        }
    }
}

/// Returns the signs of the suffixes `text`: the bytes after the pitch of a note.
pub(crate) fn signs_in(text: &[u8]) -> NoteSigns
    ensures { result ≡ signs_of (suffixes text.now) }
{
    let mut read = SuffixesRead::NONE;
    let mut at = text.len();
    while 0 < at {
        at -= 1;
        read = read.with_byte(text[at], &text[at + 1..]);
    }
    read.signs
}
