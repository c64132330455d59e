//! Distances in a picture.

use std::ops::{Add, AddAssign, Neg, Sub, SubAssign};

/// A distance, or a place on one axis, in thousandths of a staff space: two lines of a staff are
/// 1,000 apart. Sums saturate, so each of them has a value.
#[derive(Clone, Copy, Debug, PartialEq, Eq, PartialOrd, Ord)]
pub struct Distance(pub i32);

impl Distance {
    /// No distance.
    pub const ZERO: Distance = Distance(0);

    /// Returns the distance taken `count` times.
    pub fn times(self, count: i32) -> Distance {
        Distance(self.0.saturating_mul(count))
    }

    /// Returns half of the distance, rounded towards 0.
    pub fn half(self) -> Distance {
        Distance(self.0 / 2)
    }

    /// Returns the distance divided by `count`, rounded towards 0; the whole distance if `count` is
    /// below 1.
    pub fn share(self, count: i32) -> Distance {
        if 1 < count {
            Distance(self.0 / count)
        } else {
            self
        }
    }

    /// Returns the distance without its direction.
    pub fn size(self) -> Distance {
        self.max(-self)
    }
}

impl Add for Distance {
    type Output = Distance;

    fn add(self, other: Distance) -> Distance {
        Distance(self.0.saturating_add(other.0))
    }
}

impl Sub for Distance {
    type Output = Distance;

    fn sub(self, other: Distance) -> Distance {
        Distance(self.0.saturating_sub(other.0))
    }
}

impl AddAssign for Distance {
    fn add_assign(&mut self, other: Distance) {
        self.0 = self.0.saturating_add(other.0);
    }
}

impl SubAssign for Distance {
    fn sub_assign(&mut self, other: Distance) {
        self.0 = self.0.saturating_sub(other.0);
    }
}

impl Neg for Distance {
    type Output = Distance;

    fn neg(self) -> Distance {
        Distance(0i32.saturating_sub(self.0))
    }
}
