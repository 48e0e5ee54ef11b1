//! A set of places below 64.

ghost use Rattle.std.specs.Prelude.{◌≡◌, ℕ, ◌<◌, ◌↔◌, IsTrue, IsNone, IfSome, MatchBool};
ghost use Rattle.std.specs.FinSet as set;
ghost use Rattle.bit_row.specs.Places.{IsLeast, IsPart, HasSome, IsWithin, Meet};

use std::marker::Model;

/// How many places there are.
const PLACES: usize = 64;

/// A set of places below 64, which clauses see as that set. Each call is a few machine operations.
#[derive(Clone, Copy, Debug)]
pub struct BitRow {
    bits: u64,
}

impl Model for BitRow {
    ghost use Rattle.std.specs.Prelude.{◌≡◌};
    ghost use Rattle.std.proofs.Common.{ap};
    ghost use Rattle.std.specs.Ordering.{nat_cmp};
    ghost use Rattle.std.specs.Coded.{coded_ℕ};
    ghost use Rattle.std.specs.FinSet as set;

    ghost Value = { set.FinSet nat_cmp };

    ghost coded = { set.code coded_ℕ };

    ghost use Rattle.bit_row.specs.Bits.{places, number};

    ghost view = { λ r. places r.bits };

    ghost invariant = { λ r. number (places r.bits) ≡ r.bits };

    ghost inverse = { λ s. record { bits = number s } };

    ghost inverse_ok = { λ r kept. ap (λ b. record { bits = b }) kept };
}

#[tactic(auto, using(crate::proofs::BitLaws::rows))]
impl BitRow {
    /// The row of no place.
    pub const fn empty() -> BitRow
        ensures { result ≡ set.empty }
    {
        BitRow { bits: 0 }
    }

    /// The row that also has this place.
    pub fn with(self, place: usize) -> BitRow
        requires { place < 64 }
        ensures { result ≡ set.insert self place }
    {
        BitRow {
            bits: self.bits | 1 << place,
        }
    }

    /// The row without this place.
    pub fn without(self, place: usize) -> BitRow
        requires { place < 64 }
        ensures { result ≡ set.remove self place }
    {
        BitRow {
            bits: self.bits & !(1 << place),
        }
    }

    /// Whether the row has this place.
    pub fn contains(self, place: usize) -> bool
        ensures { result ≡ set.contains self place }
    {
        place < PLACES && self.bits >> place & 1 == 1
    }

    /// The places of either row.
    pub fn union(self, other: BitRow) -> BitRow
        ensures { result ≡ set.union self other }
    {
        BitRow {
            bits: self.bits | other.bits,
        }
    }

    /// The places of both rows.
    pub fn intersection(self, other: BitRow) -> BitRow
        ensures { result ≡ set.intersection self other }
    {
        BitRow {
            bits: self.bits & other.bits,
        }
    }

    /// The places of this row that the other hasn't.
    pub fn minus(self, other: BitRow) -> BitRow
        ensures { result ≡ set.difference self other }
    {
        BitRow {
            bits: self.bits & !other.bits,
        }
    }

    /// Whether the rows have a place in common.
    pub fn intersects(self, other: BitRow) -> bool
        ensures { IsTrue result ↔ Meet self other }
    {
        self.bits & other.bits != 0
    }

    /// Whether the other row has each place of this one.
    pub fn is_subset(self, other: BitRow) -> bool
        ensures { IsTrue result ↔ IsPart self other }
    {
        self.bits & !other.bits == 0
    }

    /// Whether the row has no place.
    pub fn is_empty(self) -> bool
        ensures { MatchBool result (self ≡ set.empty) (HasSome self) }
    {
        self.bits == 0
    }

    /// The lowest place of the row.
    pub fn first(self) -> Option<usize>
        ensures least { IfSome result (IsLeast self) }
        ensures none { IsNone result ↔ (self ≡ set.empty) }
        ensures within { IsWithin self }
    {
        match self.bits {
            0 => None,
            bits => Some(bits.trailing_zeros() as usize),
        }
    }
}
