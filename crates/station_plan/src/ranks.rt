//! How far to the right each element lies, in elements.

use crate::lists::at;
use crate::sketch::Sketch;
use crate::yard::{FAR, Place, Ways};
use control_table::layout::Element;

impl Sketch {
    /// Finds the ranks of all elements, and the ways from them to both sides.
    pub(crate) fn lay_ranks(&mut self) {
        self.measure_all(true);
        self.order.reverse();
        let longest = self.measure_all(false);
        self.settle_ranks(longest);
        self.lay_beside(longest);
    }

    /// Finds the ways from all elements to a side, in an order in which what lies there comes first. It tells how many elements
    /// the longest one has.
    fn measure_all(&mut self, right: bool) -> usize {
        let mut longest: usize = 1;
        for turn in 0..self.elements.len() {
            let element = at(&self.order, turn, 0);
            let ways = self.measure(element, right);
            longest = longest.max(ways.longest);
        }
        longest
    }

    /// The ways from an element to a side.
    pub(crate) fn ways(&self, element: usize, right: bool) -> Ways {
        let facts = self.facts(element);
        if right { facts.right } else { facts.left }
    }

    /// Finds the ways from an element to a side, by those of what it is joined to there.
    fn measure(&mut self, element: usize, right: bool) -> Ways {
        let beyond = self.ways_beyond(element, right);
        let longest = beyond.longest.saturating_add(1);
        let points = match self.numbers.element(element) {
            Element::Track(_) => beyond.points,
            Element::Point(_) => beyond.points.saturating_add(1).min(FAR),
            Element::Border(_) => 0,
        };
        let ways = Ways { longest, points };
        let mut facts = self.facts(element);
        if right {
            facts.right = ways;
        } else {
            facts.left = ways;
        }
        self.keep(element, facts);
        ways
    }

    /// The ways from what an element is joined to at a side.
    fn ways_beyond(&self, element: usize, right: bool) -> Ways {
        let mut ways = Ways {
            longest: 0,
            points: FAR,
        };
        for end in self.numbers.ends(element) {
            if let Some(mate) = self.neighbour(Place { element, end: *end }, right) {
                let beyond = self.ways(mate.element, right);
                ways.longest = ways.longest.max(beyond.longest);
                ways.points = ways.points.min(beyond.points);
            }
        }
        ways
    }

    /// Finds the ranks by the ways to the left. A border at the right has that of the longest way.
    fn settle_ranks(&mut self, longest: usize) {
        for element in 0..self.elements.len() {
            let mut facts = self.facts(element);
            let is_last = self.numbers.border(0) <= element && facts.is_flipped;
            let way = if is_last { longest } else { facts.left.longest };
            facts.rank = way.saturating_sub(1);
            self.keep(element, facts);
        }
    }

    /// Lays lines that hang at nothing after one another, as long as they are together no longer than the longest way: so
    /// they can share a row.
    fn lay_beside(&mut self, longest: usize) {
        let mut begin: usize = 0;
        for piece in 0..self.pieces {
            if self.is_line(piece) {
                let length = self.length_of(piece);
                if longest < begin.saturating_add(length) {
                    begin = 0;
                }
                self.shift(piece, begin);
                begin = begin.saturating_add(length);
            }
        }
    }

    /// How many ranks a piece has.
    fn length_of(&self, piece: usize) -> usize {
        let mut length = 0;
        for facts in &self.elements {
            if facts.piece == Some(piece) {
                length = length.max(facts.rank.saturating_add(1));
            }
        }
        length
    }

    /// Moves a piece to the right.
    fn shift(&mut self, piece: usize, by: usize) {
        for element in 0..self.elements.len() {
            let mut facts = self.facts(element);
            if facts.piece == Some(piece) {
                facts.rank = facts.rank.saturating_add(by);
                self.keep(element, facts);
            }
        }
    }
}
