//! How far chains reach, by the ranks of what lies on them and hangs at them.

use crate::links::{Link, NO_LINK};
use crate::lists::{at, put};
use crate::sketch::Sketch;
use crate::yard::Place;

/// How far a chain reaches, and where it lies.
#[derive(Clone, Copy)]
pub(crate) struct Strand {
    /// The piece of the layout that it is part of.
    pub(crate) piece: usize,
    /// The least rank of what lies on it or hangs at its ends.
    pub(crate) low: usize,
    /// The greatest one.
    pub(crate) high: usize,
    /// How many elements it has.
    pub(crate) length: usize,
    /// The leftmost element on it or at its end.
    pub(crate) first: usize,
    /// The rightmost one.
    pub(crate) last: usize,
    /// Its row, from above, once it is placed.
    pub(crate) row: Option<usize>,
}

/// A chain of which nothing is known yet.
pub(crate) const NOTHING: Strand = Strand {
    piece: usize::MAX,
    low: usize::MAX,
    high: 0,
    length: 0,
    first: usize::MAX,
    last: usize::MAX,
    row: None,
};

impl Strand {
    /// Whether it reaches some rank of an interval.
    pub(crate) fn touches(self, low: usize, high: usize) -> bool {
        self.low <= high && low <= self.high
    }
}

impl Sketch {
    /// How far a chain reaches.
    pub(crate) fn strand(&self, chain: usize) -> Strand {
        at(&self.strands, chain, NOTHING)
    }

    /// Finds how far each chain reaches.
    pub(crate) fn lay_strands(&mut self) {
        for element in 0..self.elements.len() {
            let chain = self.facts(element).chain;
            self.lengthen(chain, element, 1);
        }
        self.reach_over_links();
    }

    /// Makes chains reach over all links.
    fn reach_over_links(&mut self) {
        for number in 0..self.links.len() {
            let link = at(&self.links, number, NO_LINK);
            self.reach_over(link);
        }
    }

    /// Makes a chain reach to an element, by so many elements.
    fn lengthen(&mut self, chain: Option<usize>, element: usize, elements: usize) {
        let Some(chain) = chain else {
            return;
        };
        let facts = self.facts(element);
        let mut strand = self.strand(chain);
        strand.piece = facts.piece.unwrap_or(0);
        strand.length = strand.length.saturating_add(elements);
        if facts.rank < strand.low || strand.first == usize::MAX {
            strand.low = facts.rank;
            strand.first = element;
        }
        if strand.high < facts.rank || strand.last == usize::MAX {
            strand.high = facts.rank;
            strand.last = element;
        }
        put(&mut self.strands, chain, strand);
    }

    /// Makes chains reach over a link.
    fn reach_over(&mut self, link: Link) {
        if link.chain.is_some() {
            self.lengthen(link.chain, link.from.element, 0);
            self.lengthen(link.chain, link.to.element, 0);
        } else {
            self.hang(link.from, link.to);
            self.hang(link.to, link.from);
        }
    }

    /// Makes the chain of a port on its row reach to what it hangs at.
    fn hang(&mut self, other: Place, place: Place) {
        let chain = self.facts(place.element).chain;
        if chain != self.facts(other.element).chain && self.is_level(place) {
            self.lengthen(chain, other.element, 0);
        }
    }
}
