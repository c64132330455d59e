//! Draws what the attributes of notes ask for: slurs, braces, ledger lines, choral signs, texts
//! over the staff, and no custos (GregorioRef, "Choral Signs", "Braces", "Custom Ledger Lines",
//! "Simple Slurs", "Above Lines Text Within Notes").

use crate::sheet::Sheet;
use gabc_lettering::ABOVE_SIZE;
use gabc_marks::{Distance, Level, Sign, Styles, Words, text_between, text_width};
use gabc_nodes::{Kind, Node};
use gabc_pen::{Curve, CurveKind, CurveRole, Drawn, height_of_step, thousandths_of};
use std::alloc::AllocError;

/// The units of TeX, in ten-millionths of a millimetre.
const UNITS: [(&str, i64); 7] = [
    ("mm", 10_000_000),
    ("cm", 100_000_000),
    ("pt", 3_515_000),
    ("bp", 3_528_000),
    ("in", 254_000_000),
    ("ex", 16_000_000),
    ("em", 35_000_000),
];

/// A millimetre of TeX, in thousandths of a staff space: the lines of a staff are 2.74 mm apart in
/// GregorioTeX.
const MILLIMETRE: i64 = 365;

/// The greatest length in either direction, in thousandths of a staff space.
const MOST: i64 = 200_000;

/// The distance of a curve from a head, its height if none is given, and the length to the left of
/// a ledger line that asks for the default by `1`.
const FROM_HEAD: Distance = Distance(500);

const HEIGHT: Distance = Distance(500);

const LEDGER_LEFT: Distance = Distance(200);

/// The size of a choral sign.
const CHORAL_SIZE: Distance = Distance(800);

/// A slur or a brace, or one end of it, as an attribute asks for it: its side, the number of its
/// place at the note (`shift`), and its size.
#[derive(Clone, Copy, Debug)]
pub(crate) struct AskedCurve {
    kind: CurveKind,
    role: CurveRole,
    is_over: bool,
    shift: u8,
    width: Distance,
    height: Distance,
}

/// The meaning of an attribute for the picture.
#[derive(Clone, Copy, Debug)]
pub(crate) enum Attribute<'a> {
    NoCustos,
    Curve(AskedCurve),
    /// A ledger line: its lengths to the left and to the right of the right end of its head.
    Ledger {
        is_over: bool,
        left: Distance,
        right: Distance,
    },
    /// The text of a choral sign.
    Choral(&'a str),
    /// A text over the staff.
    Above(&'a str),
}

/// Returns the length spelled `text`, a number with a unit of TeX, bounded by `MOST`; nothing if it
/// is none.
fn length_of(text: &str) -> Option<Distance> {
    for (unit, size) in &UNITS {
        if let Some(number) = text.strip_suffix(*unit) {
            let millimetres = i64::from(thousandths_of(number)?).saturating_mul(*size) / 100_000;
            let length = millimetres.saturating_mul(MILLIMETRE) / 100_000;
            let bounded = length.max(-MOST).min(MOST);
            return Some(Distance(i32::try_from(bounded).unwrap_or(0)));
        }
    }
    None
}

/// Returns the curve that `value` describes, if it does: a digit from 0 to 2 for its place, and
/// then a `;` and its width, and a `,` and its height if that is given; or `{` or `}` for one end
/// of it.
fn curve_of(kind: CurveKind, is_over: bool, value: &str) -> Option<AskedCurve> {
    let (shift, later) = match value.as_bytes() {
        [b'0'..=b'2', ..] => (
            value.as_bytes().first()?.saturating_sub(b'0'),
            value.get(1..)?,
        ),
        _ => return None,
    };
    let (role, width, height) = match later {
        "{" => (CurveRole::Begin, Distance::ZERO, HEIGHT),
        "}" => (CurveRole::End, Distance::ZERO, HEIGHT),
        later => {
            let lengths = later.strip_prefix(';')?;
            match lengths.split_once(',') {
                Some((width, height)) => (CurveRole::Whole, length_of(width)?, length_of(height)?),
                None => (CurveRole::Whole, length_of(lengths)?, HEIGHT),
            }
        }
    };
    Some(AskedCurve {
        kind,
        role,
        is_over,
        shift,
        width,
        height,
    })
}

/// Returns the ledger line that `value` describes, if it does: its length to the left, a `;`, and
/// its length to the right.
fn ledger_of<'a>(is_over: bool, value: &str) -> Option<Attribute<'a>> {
    let (left, right) = value.split_once(';')?;
    let left = match left {
        "0" => Distance::ZERO,
        "1" => LEDGER_LEFT,
        left => length_of(left)?,
    };
    Some(Attribute::Ledger {
        is_over,
        left,
        right: length_of(right)?,
    })
}

/// Returns the meaning of an attribute with this `value` and this `name`, from which the letter of
/// its side is taken away; nothing if it is not known.
fn sided<'a>(is_over: bool, name: &str, value: &str) -> Option<Attribute<'a>> {
    let kind = match name {
        "slur" => CurveKind::Slur,
        "b" => CurveKind::Round,
        "cb" => CurveKind::Curly,
        "cba" => CurveKind::Accented,
        "ll" => return ledger_of(is_over, value),
        _ => return None,
    };
    curve_of(kind, is_over, value).map(|curve| Attribute::Curve(curve))
}

impl<'a> Attribute<'a> {
    /// Returns the meaning of an attribute that is spelled `text`, with its brackets; nothing if it
    /// changes nothing in the picture.
    pub(crate) fn of(text: &'a str) -> Option<Attribute<'a>> {
        let inner = text.strip_prefix('[')?.strip_suffix(']')?;
        if inner == "nocustos" {
            return Some(Attribute::NoCustos);
        }
        let (name, value) = inner.split_once(':')?;
        match name {
            "cs" | "alt" if value.trim().is_empty() => None,
            "cs" => Some(Attribute::Choral(value)),
            "alt" => Some(Attribute::Above(value)),
            name => match name.strip_prefix('o') {
                Some(name) => sided(true, name, value),
                None => sided(false, name.strip_prefix('u')?, value),
            },
        }
    }
}

/// Returns the distances of the highest and of the lowest of `heads` and `head` below the lowest
/// line of the staff.
fn bounds_of(heads: &[Drawn], head: Drawn) -> (Distance, Distance) {
    let y = head.y();
    heads.iter().fold((y, y), |(high, low), it| {
        (high.min(it.y()), low.max(it.y()))
    })
}

/// Returns the right end of `heads` and `head`.
fn end_of(heads: &[Drawn], head: Drawn) -> Distance {
    heads
        .iter()
        .fold(head.right(), |right, it| right.max(it.right()))
}

impl AskedCurve {
    /// Returns the place at which it begins or ends: a slur at the right of its note, at its left
    /// or in its middle; a brace at the end of the neume, or at its start.
    fn x_at(self, heads: &[Drawn], head: Drawn) -> Distance {
        if self.kind == CurveKind::Slur {
            return match self.shift {
                0 => head.right(),
                1 => head.x,
                _ => head.x + head.width.half(),
            };
        }
        if self.role != CurveRole::End && self.shift == 1 {
            heads.iter().fold(head.x, |left, it| left.min(it.x))
        } else {
            end_of(heads, head)
        }
    }

    /// Returns the distance of its ends below the lowest line of the staff: outside the head for a
    /// slur, and outside the neume and the four lines of a staff for a brace.
    fn y_at(self, heads: &[Drawn], head: Drawn) -> Distance {
        let (high, low) = if self.kind == CurveKind::Slur {
            (head.y(), head.y())
        } else {
            let (high, low) = bounds_of(heads, head);
            (high.min(height_of_step(6)), low.max(Distance::ZERO))
        };
        if self.is_over {
            high - FROM_HEAD
        } else {
            low + FROM_HEAD
        }
    }

    /// Returns the curve at `head`, of the neume with these `heads`.
    pub(crate) fn at(self, heads: &[Drawn], head: Drawn) -> Curve {
        Curve {
            kind: self.kind,
            role: self.role,
            is_over: self.is_over,
            x: self.x_at(heads, head),
            y: self.y_at(heads, head),
            width: self.width,
            height: self.height,
        }
    }
}

impl<'a> Sheet<'a> {
    /// Draws what the attributes within a neume with these `heads` ask for.
    pub(crate) fn put_attributes(&mut self, heads: &[Drawn]) -> Result<(), AllocError> {
        for at in 0..self.attributes.len() {
            if let Some((note, attribute)) = self.attributes.get(at).copied() {
                if let Some(head) = heads.get(note).copied() {
                    self.put_attribute(attribute, heads, head)?;
                }
            }
        }
        self.attributes.clear();
        self.take_signs()
    }

    /// Draws what `attribute` asks for, which comes after `head` in the neume with these `heads`.
    fn put_attribute(
        &mut self,
        attribute: Attribute<'a>,
        heads: &[Drawn],
        head: Drawn,
    ) -> Result<(), AllocError> {
        match attribute {
            Attribute::NoCustos => {
                self.part.wants_no_custos = true;
                Ok(())
            }
            Attribute::Curve(curve) => {
                self.part.curves.push(curve.at(heads, head))?;
                Ok(())
            }
            Attribute::Ledger {
                is_over,
                left,
                right,
            } => {
                let y = height_of_step(if is_over { 8 } else { -2 }) - Distance(35);
                self.pen
                    .rect(head.right() - left, y, left + right, Distance(70))
            }
            Attribute::Choral(text) => {
                let y = head.y() - FROM_HEAD;
                self.pen.top = self.pen.top.min(y - CHORAL_SIZE);
                self.put_small(text, head.x, Level::At(y), CHORAL_SIZE)?;
                Ok(())
            }
            Attribute::Above(text) => {
                let right = self.put_small(text, head.x, Level::Above, ABOVE_SIZE)?;
                self.part.above = Some(self.part.above.map_or(right, |it| it.max(right)));
                Ok(())
            }
        }
    }

    /// Adds `text` in italics from `x` on, and returns its right end.
    fn put_small(
        &mut self,
        text: &'a str,
        x: Distance,
        level: Level,
        size: Distance,
    ) -> Result<Distance, AllocError> {
        let width = text_width(text, size);
        self.part.signs.push(Sign::Words(Words {
            text,
            x,
            level,
            width,
            size,
            styles: Styles::ITALIC,
        }))?;
        Ok(x + width)
    }

    /// Adds `node`, which comes within a neume after this number of its `notes`: nodes other than
    /// attributes are skipped.
    pub(crate) fn add_inside(&mut self, node: Node, notes: usize) -> Result<(), AllocError> {
        if node.kind == Kind::Attribute {
            let asked = Attribute::of(text_between(self.input, node.begin, node.end));
            if let (Some(asked), Some(note)) = (asked, notes.checked_sub(1)) {
                self.attributes.push((note, asked))?;
            }
        }
        Ok(())
    }

    /// Adds the attribute of `node` after a neume.
    pub(crate) fn add_attribute(&mut self, node: Node) -> Result<(), AllocError> {
        let asked = Attribute::of(text_between(self.input, node.begin, node.end));
        let head = self.pen.drawn.as_slice().last().copied();
        if let (Some(asked), Some(head)) = (asked, head) {
            let heads = self.pen.drawn.clone()?;
            self.put_attribute(asked, heads.as_slice(), head)?;
            return self.take_signs();
        }
        Ok(())
    }
}
