//! Which way each element lies, and of which piece of the layout it is part.

use crate::lists::{at, put};
use crate::sketch::Sketch;
use crate::yard::Place;
use control_table::layout::End;

impl Sketch {
    /// Lays all elements: from the borders first, in table order, then from the rest.
    pub(crate) fn lay_directions(&mut self) {
        let size = self.elements.len();
        for turn in 0..size {
            self.explore(self.numbers.border(turn) % size);
        }
    }

    /// Whether a port lies at the right of its element.
    pub(crate) fn is_right(&self, place: Place) -> bool {
        let is_natural_right = match place.end {
            End::B | End::Left | End::Right | End::End => true,
            End::A | End::Tip => false,
        };
        is_natural_right != self.facts(place.element).is_flipped
    }

    /// Whether a piece is a line by itself: it has no point, and ends at no border at the right of the plan.
    pub(crate) fn is_line(&self, piece: usize) -> bool {
        for element in self.numbers.point(0)..self.elements.len() {
            let facts = self.facts(element);
            let parts = element < self.numbers.border(0) || facts.is_flipped;
            if parts && facts.piece == Some(piece) {
                return false;
            }
        }
        true
    }

    /// Puts an element after those that a search found before.
    pub(crate) fn enlist(&mut self, element: usize) {
        put(&mut self.order, self.found, element);
        self.found = self.found.saturating_add(1);
    }

    /// Finds the piece of an element, if it isn't found yet, and lays it as it comes, with all that hangs together with it.
    fn explore(&mut self, start: usize) {
        if self.facts(start).piece.is_some() {
            return;
        }
        self.lay_element(start, false);
        for turn in 0..self.elements.len() {
            if turn < self.found {
                let element = at(&self.order, turn, 0);
                self.reach_from(element);
            }
        }
        self.pieces = self.pieces.saturating_add(1);
    }

    /// Lays an element of the piece that is found last.
    fn lay_element(&mut self, element: usize, is_flipped: bool) {
        let mut facts = self.facts(element);
        facts.piece = Some(self.pieces);
        facts.is_flipped = is_flipped;
        self.keep(element, facts);
        self.enlist(element);
    }

    /// Lays what an element is joined to, so that it lies at the other side of it.
    fn reach_from(&mut self, element: usize) {
        for end in self.numbers.ends(element) {
            let place = Place { element, end: *end };
            if let Some(mate) = self.port(place).mate {
                if self.facts(mate.element).piece.is_none() {
                    let turned = self.is_right(mate) == self.is_right(place);
                    self.lay_element(mate.element, turned);
                }
            }
        }
    }
}
