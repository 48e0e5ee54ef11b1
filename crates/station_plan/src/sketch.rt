//! Where everything lies in a plan.

use crate::drawn_lines::DrawnLine;
use crate::heights::{EMPTY, Room};
use crate::links::Link;
use crate::numbers::Numbers;
use crate::strands::{NOTHING, Strand};
use crate::units::Units;
use crate::widths::{CONNECTOR, POINT};
use crate::yard::{ElementFacts, Place, PortFacts, UNJOINED, UNKNOWN};
use control_table::Layout;
use control_table::layout::Element;
use drawing::Spot;
use std::alloc::{AllocError, Global};

/// Where everything lies, as far as it is found.
#[derive(Drop)]
pub(crate) struct Sketch {
    pub(crate) alloc: Global,
    pub(crate) numbers: Numbers,
    /// What is known of each element.
    pub(crate) elements: Vec<ElementFacts>,
    /// What is known of each port, in `port_number`'s order.
    pub(crate) ports: Vec<PortFacts>,
    /// How many pieces there are.
    pub(crate) pieces: usize,
    /// The element to which the search for circles came last.
    pub(crate) visited: Option<usize>,
    /// The elements as a search finds them: in the end from right to left, and from left to right once the ways to the right
    /// are found.
    pub(crate) order: Vec<usize>,
    /// How many of them it has found.
    pub(crate) found: usize,
    /// How many chains there are.
    pub(crate) chains: usize,
    /// How far each chain reaches.
    pub(crate) strands: Vec<Strand>,
    /// What joins chains.
    pub(crate) links: Vec<Link>,
    /// How many rows there are.
    pub(crate) row_count: usize,
    /// What is known of each row.
    pub(crate) rows: Vec<Room>,
    /// The line of each port, in `port_number`'s order, where the layout is drawn by hand.
    pub(crate) drawn: Vec<Vec<Spot>>,
}

/// A spot by its two places.
pub(crate) fn spot(x: Units, y: Units) -> Spot {
    Spot { x: x.0, y: y.0 }
}

/// One to the right, or one to the left.
pub(crate) fn sign(positive: bool) -> i32 {
    if positive { 1 } else { -1 }
}

impl Sketch {
    /// A sketch of so many elements, in which nothing is found yet.
    pub(crate) fn new(alloc: Global, numbers: Numbers) -> Sketch {
        Sketch {
            alloc,
            numbers,
            elements: Vec::new(alloc),
            ports: Vec::new(alloc),
            pieces: 0,
            visited: None,
            order: Vec::new(alloc),
            found: 0,
            chains: 0,
            strands: Vec::new(alloc),
            links: Vec::new(alloc),
            row_count: 0,
            rows: Vec::new(alloc),
            drawn: Vec::new(alloc),
        }
    }

    /// Lays out a layout as these lines say, or by itself, one thing after the other. Nobody else has what is being made, so
    /// an error drops it in one place.
    pub(crate) fn lay(&mut self, layout: &Layout, lines: &[DrawnLine]) -> Result<(), AllocError> {
        self.take_up(layout)?;
        if self.draw_by_hand(layout, lines)? {
            return Ok(());
        }
        self.lay_elements(layout);
        self.lay_chains();
        self.lay_links()?;
        self.strands.resize(self.chains, NOTHING)?;
        self.lay_strands();
        self.lay_rows();
        self.rows.resize(self.row_count, EMPTY)?;
        self.set_out();
        // Once more, as it is known which links are level between rows.
        self.set_out();
        Ok(())
    }

    /// Takes up what a layout tells of its elements and their ports.
    fn take_up(&mut self, layout: &Layout) -> Result<(), AllocError> {
        let size = self.numbers.all();
        self.elements.resize(size, UNKNOWN)?;
        self.ports.resize(size.saturating_mul(3), UNJOINED)?;
        self.order.resize(size, 0)?;
        self.read_labels(layout);
        self.join(layout.joints());
        self.stand(layout.signals());
        Ok(())
    }

    /// Finds which way elements lie, how far to the right, and the legs by which rows go on.
    fn lay_elements(&mut self, layout: &Layout) {
        self.lay_directions();
        self.lay_courses();
        self.number_connectors(layout.joints());
        self.lay_ranks();
        self.choose_main_legs(layout.routes());
    }

    /// Finds where rows and columns lie.
    fn set_out(&mut self) {
        self.level_links();
        self.lay_heights();
        self.lay_widths();
        self.lay_columns();
    }

    /// How far to the right an element lies.
    pub(crate) fn x(&self, element: usize) -> Units {
        self.facts(element).x
    }

    /// How far down an element lies.
    pub(crate) fn y(&self, element: usize) -> Units {
        self.room(self.row(element)).y
    }

    /// Where an element lies.
    pub(crate) fn spot(&self, element: usize) -> Spot {
        if self.is_by_hand() {
            return self.hand_spot(element);
        }
        spot(self.x(element), self.y(element))
    }

    /// Where the line of an element on its row ends at a side: at its neighbour where this is a point or a border,
    /// halfway between tracks, and where a leg reaches the row.
    pub(crate) fn edge(&self, element: usize, right: bool) -> Units {
        let side = sign(right);
        let own = self.x(element) + self.facts(element).half.times(side);
        let Some(place) = self.level_port(element, right) else {
            return own;
        };
        if self.is_connector(place) {
            return own - CONNECTOR.times(side);
        }
        match self.next(place) {
            Some(mate) => self.edge_to(element, mate, own, side),
            None => own,
        }
    }

    fn edge_to(&self, element: usize, mate: Place, own: Units, side: i32) -> Units {
        let other = self.x(mate.element);
        if !self.is_level(mate) {
            let down = self.y(element).distance(self.y(mate.element));
            return other - down.times(side);
        }
        let theirs = other - self.facts(mate.element).half.times(side);
        let is_track = matches!(self.numbers.element(element), Element::Track(_));
        let is_to_track = matches!(self.numbers.element(mate.element), Element::Track(_));
        if !is_track && is_to_track {
            own
        } else if is_track && !is_to_track {
            theirs
        } else {
            (own + theirs).half()
        }
    }

    /// The line of an element on its row, from its left end to its right one.
    pub(crate) fn row_line(&self, element: usize) -> (Spot, Spot) {
        let y = self.y(element);
        (
            spot(self.edge(element, false), y),
            spot(self.edge(element, true), y),
        )
    }

    /// How far the other leg of a point leads up or down: -1 is up.
    pub(crate) fn slope(&self, element: usize) -> i32 {
        sign(!self.is_drawn_up(element))
    }

    /// Where a line that leads from a point by 45 degrees to a height reaches it.
    fn corner(&self, place: Place, height: Units) -> Spot {
        let down = self.y(place.element).distance(height);
        let side = sign(self.is_right(place));
        spot(self.x(place.element) + down.times(side), height)
    }

    /// The height of the level part of a link between two legs.
    fn level_height(&self, link: Link) -> Units {
        if let Some(row) = self.link_row(link) {
            return self.room(row).y;
        }
        match link.slot {
            Some(slot) => self.level_between(link, slot),
            None => (self.y(link.from.element) + self.y(link.to.element)).half(),
        }
    }

    /// The corner of the other leg of a point: where its diagonal ends.
    fn leg_corner(&self, place: Place) -> Spot {
        match self.link(place) {
            Some(link) if link.is_crossover => self.corner(place, self.level_height(link)),
            Some(link) => self.corner(place, self.y(link.to.element)),
            None => self.stub(place, POINT),
        }
    }

    /// Where the other leg of a point ends.
    fn leg_end(&self, place: Place) -> Spot {
        match self.link(place) {
            Some(link) if link.is_crossover => {
                let height = self.level_height(link);
                let one = self.corner(link.from, height);
                let other = self.corner(link.to, height);
                spot((Units(one.x) + Units(other.x)).half(), height)
            }
            _ => self.leg_corner(place),
        }
    }

    /// A spot on the other leg of a point, so far from the point to the side and as far up or down.
    pub(crate) fn stub(&self, place: Place, length: Units) -> Spot {
        let side = sign(self.is_right(place));
        let x = self.x(place.element) + length.times(side);
        let y = self.y(place.element) + length.times(self.slope(place.element));
        spot(x, y)
    }

    /// Where a port lies.
    pub(crate) fn port_spot(&self, place: Place) -> Spot {
        if self.is_by_hand() {
            self.hand_port(place)
        } else if self.is_level(place) {
            let x = self.edge(place.element, self.is_right(place));
            spot(x, self.y(place.element))
        } else {
            self.leg_end(place)
        }
    }

    /// Where the line from an element to a port has a corner, if it has one: else where the port lies.
    pub(crate) fn corner_of(&self, place: Place) -> Spot {
        if self.is_level(place) {
            self.port_spot(place)
        } else {
            self.leg_corner(place)
        }
    }

    /// Whether a port lies on a line that leads up or down. Where two legs meet from above, or both from below, the line
    /// has a corner there.
    pub(crate) fn is_slanted(&self, place: Place) -> bool {
        if self.is_level(place) {
            return false;
        }
        match self.link(place) {
            Some(link) if link.is_crossover => {
                let goes_on = self.slope(link.from.element) != self.slope(link.to.element);
                goes_on && self.leg_corner(place) == self.leg_end(place)
            }
            _ => false,
        }
    }
}
