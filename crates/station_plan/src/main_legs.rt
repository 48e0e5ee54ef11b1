//! The leg of each point by which its row goes on.

use crate::sketch::Sketch;
use crate::yard::{FAR, Place};
use control_table::layout::{End, Route};
use control_table::{Aspect, PointId, Side};

/// The base of the number of a way, whose digits are at most `FAR`.
const BASE: usize = 1001;

/// The number of the worst way.
const WORST: usize = 1_003_003_000;

/// What a way counts more by which a row is lost.
const LOST: usize = 2_000_000_000;

impl Sketch {
    /// Chooses the main legs, by the first rule that decides: only one leg carries a route that isn't slow; a leg that is
    /// joined to no leg goes before one that is, and this before an open one; the better way. Where both legs are joined to
    /// legs, the one whose peer gives up the worse row.
    pub(crate) fn choose_main_legs(&mut self, routes: &[Route]) {
        for element in self.numbers.point(0)..self.numbers.border(0) {
            self.choose_plain_leg(routes, element);
        }
        for element in self.numbers.point(0)..self.numbers.border(0) {
            if self.facts(element).main.is_none() {
                self.settle_leg(element);
            }
        }
    }

    fn set_main(&mut self, leg: Place) {
        let mut facts = self.facts(leg.element);
        facts.main = Some(leg.end);
        self.keep(leg.element, facts);
    }

    /// The main leg of a point.
    pub(crate) fn main(&self, element: usize) -> End {
        self.facts(element).main.unwrap_or(End::Left)
    }

    /// The leg of a point that isn't its main one.
    pub(crate) fn minor(&self, element: usize) -> Place {
        let end = if self.main(element) == End::Left {
            End::Right
        } else {
            End::Left
        };
        Place { element, end }
    }

    /// Whether a port lies on the row of its element.
    pub(crate) fn is_level(&self, place: Place) -> bool {
        match place.end {
            End::Left | End::Right => place.end == self.main(place.element),
            End::A | End::B | End::Tip | End::End => true,
        }
    }

    /// Whether a leg is joined to the leg of a point.
    fn is_to_leg(&self, leg: Place) -> bool {
        match self.next(leg) {
            Some(mate) => matches!(mate.end, End::Left | End::Right),
            None => false,
        }
    }

    /// Chooses the main leg of a point, unless both lead to legs and no route decides.
    fn choose_plain_leg(&mut self, routes: &[Route], element: usize) {
        let point = PointId(element.saturating_sub(self.numbers.point(0)));
        let is_left_fast = is_fast(routes, point, Side::Left);
        let is_right_fast = is_fast(routes, point, Side::Right);
        let (left, right) = legs(element);
        if is_left_fast && !is_right_fast {
            self.set_main(left);
        } else if is_right_fast && !is_left_fast {
            self.set_main(right);
        } else if !self.is_to_leg(left) || !self.is_to_leg(right) {
            self.set_main(better(left, self.grade(left), right, self.grade(right)));
        }
    }

    /// How good a leg is by what it is joined to, as a number; the least one is the best.
    fn grade(&self, leg: Place) -> usize {
        if self.next(leg).is_none() {
            return usize::MAX;
        }
        let way = self.way_behind(leg);
        if self.is_to_leg(leg) {
            way.saturating_add(LOST)
        } else {
            way
        }
    }

    /// Settles a point of which both legs lead to legs: the row of one peer goes on over it.
    fn settle_leg(&mut self, element: usize) {
        let (left, right) = legs(element);
        let leg = better(left, self.loss(left), right, self.loss(right));
        self.set_main(leg);
        if let Some(mate) = self.next(leg) {
            self.set_main(mate);
        }
    }

    /// What is lost where the row goes on by a leg: whether its peer has to give up its row, and how good that is.
    fn loss(&self, leg: Place) -> usize {
        let way = self.way_behind(leg);
        let Some(mate) = self.next(leg) else {
            return way.saturating_add(LOST);
        };
        let element = mate.element;
        match self.facts(element).main {
            Some(end) if mate.end != end => WORST
                .saturating_sub(self.way_behind(Place { element, end }))
                .saturating_add(LOST),
            _ => way,
        }
    }

    /// How good the way after a leg is, as a number; the least one is the best. Its digits: how many points it passes to a
    /// border, at best; how much shorter it is than the longest that could be; the number of the element to which the leg
    /// leads.
    fn way_behind(&self, leg: Place) -> usize {
        let Some(mate) = self.next(leg) else {
            return WORST;
        };
        let ways = self.ways(mate.element, self.is_right(leg));
        ways.points
            .saturating_mul(BASE)
            .saturating_add(FAR.saturating_sub(ways.longest))
            .saturating_mul(BASE)
            .saturating_add(mate.element)
    }
}

/// The two legs of a point.
fn legs(element: usize) -> (Place, Place) {
    let left = Place {
        element,
        end: End::Left,
    };
    let right = Place {
        element,
        end: End::Right,
    };
    (left, right)
}

/// Whether a route that isn't slow runs over a leg.
fn is_fast(routes: &[Route], point: PointId, side: Side) -> bool {
    for route in routes {
        let is_slow = matches!(route.aspect(), Aspect::Slow);
        if !is_slow && route.points().contains(&(point, side)) {
            return true;
        }
    }
    false
}

/// The better of two legs by what each costs: the left one where that is the same.
fn better(left: Place, left_cost: usize, right: Place, right_cost: usize) -> Place {
    if right_cost < left_cost { right } else { left }
}
