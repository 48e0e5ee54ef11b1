//! What lies on one row: elements that hang together by tracks, tips and main legs.

use crate::sketch::Sketch;
use crate::yard::Place;

impl Sketch {
    /// The port of an element on its row, at a side.
    pub(crate) fn level_port(&self, element: usize, right: bool) -> Option<Place> {
        for end in self.numbers.ends(element) {
            let place = Place { element, end: *end };
            if self.is_level(place) && self.is_right(place) == right {
                return Some(place);
            }
        }
        None
    }

    /// The port at an element on its row, at a side, of the element beside it there.
    pub(crate) fn beside(&self, element: usize, right: bool) -> Option<Place> {
        let place = self.level_port(element, right)?;
        match self.next(place) {
            Some(mate) if self.is_level(mate) => Some(mate),
            _ => None,
        }
    }

    /// Finds the chains, in the order of their first elements by number.
    pub(crate) fn lay_chains(&mut self) {
        for element in 0..self.elements.len() {
            if self.facts(element).chain.is_none() {
                self.string(element, false);
                self.string(element, true);
                self.chains = self.chains.saturating_add(1);
            }
        }
    }

    /// Adds an element and all at a side of it to the chain that is found last.
    fn string(&mut self, first: usize, right: bool) {
        let mut element = first;
        for _ in 0..self.elements.len() {
            let mut facts = self.facts(element);
            facts.chain = Some(self.chains);
            self.keep(element, facts);
            match self.beside(element, right) {
                Some(next) => element = next.element,
                None => return,
            }
        }
    }
}
