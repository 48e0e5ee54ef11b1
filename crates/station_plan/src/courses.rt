//! Which joints go on from left to right. Those that turn back or close a circle are left out of the rows.

use crate::sketch::Sketch;
use crate::yard::Place;
use control_table::layout::Joint;

impl Sketch {
    /// Finds the joints that close circles, and an order of the elements in which each stands before those at its left: by a
    /// search, depth first. It goes over all elements: first from those at whose left there is nothing.
    pub(crate) fn lay_courses(&mut self) {
        self.found = 0;
        self.visit_all(true);
        self.visit_all(false);
    }

    /// Goes from all elements, or from the leftmost ones alone.
    fn visit_all(&mut self, leftmost: bool) {
        for element in 0..self.elements.len() {
            if !leftmost || !self.has_left(element) {
                self.visit(element);
            }
        }
    }

    /// Numbers the joints that don't go on: those that aren't drawn as a line.
    pub(crate) fn number_connectors(&mut self, joints: &[Joint]) {
        let mut number: usize = 0;
        for joint in joints {
            let first = self.numbers.place(joint.first);
            if self.is_connector(first) {
                number = number.saturating_add(1);
                self.set_connector(first, number);
                self.set_connector(self.numbers.place(joint.second), number);
            }
        }
    }

    fn set_connector(&mut self, place: Place, number: usize) {
        let mut port = self.port(place);
        port.connector = Some(number);
        self.keep_port(place, port);
    }

    /// The port that is joined to one by a joint that goes on: it leads from a right side to a left side, and closes no circle.
    pub(crate) fn next(&self, place: Place) -> Option<Place> {
        let port = self.port(place);
        match port.mate {
            Some(mate) if !port.is_cut && self.is_right(mate) != self.is_right(place) => Some(mate),
            _ => None,
        }
    }

    /// The port that is joined to one of a side by a joint that goes on.
    pub(crate) fn neighbour(&self, place: Place, right: bool) -> Option<Place> {
        if self.is_right(place) == right {
            self.next(place)
        } else {
            None
        }
    }

    fn has_left(&self, element: usize) -> bool {
        for end in self.numbers.ends(element) {
            let place = Place { element, end: *end };
            if self.neighbour(place, false).is_some() {
                return true;
            }
        }
        false
    }

    /// Goes from an element as far to the right as there is something new.
    fn visit(&mut self, root: usize) {
        self.open(root);
        for _ in 0..self.elements.len().saturating_mul(4) {
            self.step();
        }
    }

    fn open(&mut self, element: usize) {
        let mut facts = self.facts(element);
        if facts.is_visited {
            return;
        }
        facts.is_visited = true;
        facts.is_open = true;
        facts.before = self.visited;
        self.keep(element, facts);
        self.visited = Some(element);
    }

    /// Tries the next port of the element to which the search came last.
    fn step(&mut self) {
        let Some(element) = self.visited else {
            return;
        };
        let mut facts = self.facts(element);
        match self.numbers.ends(element).get(facts.tried) {
            Some(end) => {
                facts.tried = facts.tried.saturating_add(1);
                self.keep(element, facts);
                self.follow(Place { element, end: *end });
            }
            None => {
                facts.is_open = false;
                self.keep(element, facts);
                self.visited = facts.before;
                self.enlist(element);
            }
        }
    }

    /// Goes to the right over a joint. One into an element that is still open closes a circle.
    fn follow(&mut self, place: Place) {
        let Some(mate) = self.neighbour(place, true) else {
            return;
        };
        if self.facts(mate.element).is_open {
            self.cut(place);
            self.cut(mate);
        } else {
            self.open(mate.element);
        }
    }

    fn cut(&mut self, place: Place) {
        let mut port = self.port(place);
        port.is_cut = true;
        self.keep_port(place, port);
    }
}
