//! The outlines of NABC.

ghost use Rattle.std.specs.Prelude.{◌≡◌, IfSome};

use crate::head::Metrics;
use crate::laon::LAON;
use crate::st_gall::ST_GALL;

/// A hand: the family of neumes in which NABC is drawn (GregorioNabcRef).
#[derive(Clone, Copy, Debug, PartialEq, Eq)]
pub enum Hand {
    StGall,
    Laon,
}

/// An outline of NABC: a neume with whatever belongs to it, or points, or letters. Its name is
/// their spelling, with `B`, `N`, `E` and `T` for `>`, `-`, `!` and `~`. Its ink begins at its
/// origin.
#[derive(Clone, Copy, Debug)]
pub struct NabcOutline {
    pub hand: Hand,
    pub name: &'static str,
    pub metrics: Metrics,
}

/// A row of a table of outlines: the name, the width, and the reach up and down.
pub(crate) type Row = (&'static str, i16, i16, i16);

/// Returns the row with this `name` of `rows`, which are in the order of their names.
fn row_of(rows: &'static [Row], name: &str) -> Option<Row>
    ensures { IfSome result (λ row. row.0.now ≡ name.now) }
{
    let at = rows.binary_search_by(|row| row.0.cmp(name)).ok()?;
    let row = *rows.get(at)?;
    if row.0 == name { Some(row) } else { None }
}

impl Hand {
    /// Returns the outline of this `name`, if the hand has one.
    pub fn outline(self, name: &str) -> Option<NabcOutline>
        ensures { IfSome result (λ it. (it.hand ≡ self) × (it.name.now ≡ name.now)) }
    {
        let rows: &'static [Row] = match self {
            Hand::StGall => &ST_GALL,
            Hand::Laon => &LAON,
        };
        let (name, width, up, down) = row_of(rows, name)?;
        let metrics = Metrics::new(i32::from(width), i32::from(up), i32::from(down));
        Some(NabcOutline {
            hand: self,
            name,
            metrics,
        })
    }
}
