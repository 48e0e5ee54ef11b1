//! Lengths in a plan.

use std::ops::{Add, Sub};

/// A length, or a place on an axis. It stays at the largest one rather than overflow.
#[derive(Clone, Copy)]
pub(crate) struct Units(pub(crate) i32);

impl Add for Units {
    type Output = Units;

    fn add(self, other: Units) -> Units {
        Units(self.0.saturating_add(other.0))
    }
}

impl Sub for Units {
    type Output = Units;

    fn sub(self, other: Units) -> Units {
        Units(self.0.saturating_sub(other.0))
    }
}

impl Units {
    /// So many times as long.
    pub(crate) fn times(self, count: i32) -> Units {
        Units(self.0.saturating_mul(count))
    }

    /// Half as long.
    pub(crate) fn half(self) -> Units {
        Units(self.0.saturating_div(2))
    }

    /// The part `over / under` of it.
    pub(crate) fn part(self, over: i32, under: i32) -> Units {
        if under < 1 {
            return self;
        }
        Units(self.0.saturating_mul(over).saturating_div(under))
    }

    /// How far it is from another place.
    pub(crate) fn distance(self, other: Units) -> Units {
        Units(self.0.saturating_sub(other.0).saturating_abs())
    }

    /// The larger one.
    pub(crate) fn or_more(self, other: Units) -> Units {
        if self.0 < other.0 { other } else { self }
    }

    /// The smaller one.
    pub(crate) fn or_less(self, other: Units) -> Units {
        if other.0 < self.0 { other } else { self }
    }
}

/// A count as a number that lengths are multiplied with.
pub(crate) fn count(number: usize) -> i32 {
    i32::try_from(number).unwrap_or(i32::MAX)
}
