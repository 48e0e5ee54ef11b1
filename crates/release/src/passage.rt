//! The passage of a train over the sections of a route.

ghost use Rattle.std.specs.Prelude.{◌≡◌, ◌<◌, ◌≤◌, ◌↔◌, ℕ, List, [], ◌∷◌, IsTrue};
ghost use Rattle.bit_row.specs.Places.{Has};
ghost use Rattle.release.specs.Passage.{IsReached, Look, MayBeFreed, after_look, is_freeable, passage_after};

use bit_row::BitRow;
use std::marker::Model;

/// What was seen of a route's sections since the passage began. Sections count from 0, in path order.
///
/// It is of fixed size. Clauses see it as `passage_after` of the looks that it was told of, the latest
/// first.
#[derive(Clone, Copy, Debug)]
pub struct Passage {
    sections: usize,
    seen: BitRow,
    occupied: BitRow,
}

impl Model for Passage {
    ghost use Rattle.std.specs.Prelude.{◌≤◌};
    ghost use Rattle.std.specs.Coded.{codes};
    ghost use Rattle.bit_row.specs.Places.{places_code};
    ghost use Rattle.release.specs.Passage.{PassageState};

    ghost Value = { PassageState };

    ghost coded = { Prim.hlevel (codes, places_code) };

    ghost view = { λ p. record { sections = p.sections; seen = p.seen; occupied = p.occupied } };

    ghost invariant = { λ p. p.sections ≤ 64 };

    ghost inverse = { λ s. record { sections = s.sections; seen = s.seen; occupied = s.occupied } };
}

#[tactic(auto, unfolding(crate::specs::Passage::passage_after), using(crate::proofs::Looks::freed))]
impl Passage {
    /// The passage over a route of so many sections, of which nothing was seen.
    pub fn new(sections: usize) -> Passage
        requires some { 1 ≤ sections }
        requires within { sections ≤ 64 }
        ensures state { result ≡ passage_after sections [] }
        ensures length { result.sections ≡ sections }
    {
        Passage {
            sections,
            seen: BitRow::empty(),
            occupied: BitRow::empty(),
        }
    }

    /// Begins anew: nothing was seen.
    pub fn begin(&mut self)
        ensures state { self.new ≡ passage_after self.old.sections [] }
        ensures length { self.new.sections ≡ self.old.sections }
    {
        self.seen = BitRow::empty();
        self.occupied = BitRow::empty();
    }

    /// Is told that section k was seen occupied, or not.
    pub fn see(&mut self, k: usize, occupied: bool)
        requires { k < self.old.sections }
        ensures state { self.new ≡ after_look self.old k occupied }
        ensures length { self.new.sections ≡ self.old.sections }
        ensures told { (looks : List Look) → self.old ≡ passage_after self.old.sections looks → self.new ≡ passage_after self.old.sections (record { section = k; occupied = occupied } ∷ looks) }
    {
        if occupied {
            self.seen = self.seen.with(k);
            self.occupied = self.occupied.with(k);
        } else {
            self.occupied = self.occupied.without(k);
        }
    }

    /// Whether some section was seen occupied: from then on the route is let go by the passage alone.
    pub fn is_reached(&self) -> bool
        ensures value { IsTrue result ↔ ((k : ℕ) × Has self.now.seen k) }
        ensures told { (looks : List Look) → self.now ≡ passage_after self.now.sections looks → IsTrue result ↔ IsReached looks }
    {
        self.seen.first().is_some()
    }

    /// Whether the passage lets section k go, where the route's authority has ended or hasn't: the section
    /// was seen occupied and is no longer, and the train was seen in the next one, unless it is the last.
    pub fn freeable(&self, k: usize, ended: bool) -> bool
        requires { k < self.now.sections }
        ensures value { result ≡ is_freeable self.now k ended }
        ensures told { (looks : List Look) → self.now ≡ passage_after self.now.sections looks → IsTrue result ↔ MayBeFreed self.now.sections looks k ended }
    {
        ended
            && self.seen.contains(k)
            && !self.occupied.contains(k)
            && (k + 1 == self.sections || self.seen.contains(k + 1))
    }
}
