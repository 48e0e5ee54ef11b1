//! How much room each element takes on its row.

use crate::labels::width;
use crate::sketch::Sketch;
use crate::units::Units;
use crate::yard::Place;
use control_table::layout::{Element, End};

/// The least length of a track.
pub(crate) const LEAST: Units = Units(28);
/// Half the length of a point.
pub(crate) const POINT: Units = Units(14);
/// Half the length of a border.
const BORDER: Units = Units(10);
/// How long a signal is, from its foot to the joint.
const SIGNAL: Units = Units(36);
/// How far a signal stands away from a joint after which a leg parts at its side.
const CLEAR: Units = Units(22);
/// The room beside a text.
const BESIDE: Units = Units(14);
/// How long the end of a line is that goes on elsewhere.
pub(crate) const CONNECTOR: Units = Units(34);

impl Sketch {
    /// Finds the widths of all elements, and puts them as far to the left as their own room allows.
    pub(crate) fn lay_widths(&mut self) {
        for element in 0..self.elements.len() {
            let mut facts = self.facts(element);
            facts.half = self.half_of(element);
            facts.x = facts.half;
            self.keep(element, facts);
        }
    }

    /// How much room the signal at a port takes.
    fn signal_width(&self, place: Place) -> Units {
        match self.port(place).signal_letters {
            0 => Units(0),
            letters => SIGNAL.or_more(width(letters) + Units(8)),
        }
    }

    /// How much room the signal at a side of an element takes, on its row.
    pub(crate) fn signal_room(&self, element: usize, right: bool) -> Units {
        match self.level_port(element, right) {
            Some(place) => self.signal_width(place) + self.clearance(element, right),
            None => Units(0),
        }
    }

    /// How far a signal at a side of an element stands away from its joint: it keeps clear of a leg that parts there.
    pub(crate) fn clearance(&self, element: usize, right: bool) -> Units {
        match self.parting(element, right) {
            Some(point) if self.is_drawn_up(point) != right => CLEAR,
            _ => Units(0),
        }
    }

    /// The point that parts behind a signal at a side of an element.
    fn parting(&self, element: usize, right: bool) -> Option<usize> {
        let place = self.level_port(element, right)?;
        if self.port(place).signal_letters == 0 {
            return None;
        }
        match self.next(place) {
            Some(mate) if mate.end == self.main(mate.element) => Some(mate.element),
            _ => None,
        }
    }

    /// Whether a port is joined to one that the plan doesn't draw beside it.
    pub(crate) fn is_connector(&self, place: Place) -> bool {
        self.port(place).mate.is_some() && self.next(place).is_none()
    }

    /// The room for the end of a line that goes on elsewhere.
    fn connector_room(&self, element: usize, right: bool) -> Units {
        match self.level_port(element, right) {
            Some(place) if self.is_connector(place) => CONNECTOR,
            _ => Units(0),
        }
    }

    /// The signals at the three ports of a point, of which the widest counts.
    fn widest_signal(&self, element: usize) -> Units {
        let mut widest = Units(0);
        for end in self.numbers.ends(element) {
            widest = widest.or_more(self.signal_width(Place { element, end: *end }));
        }
        widest
    }

    /// Half of the room of an element.
    fn half_of(&self, element: usize) -> Units {
        let own = match self.numbers.element(element) {
            Element::Track(_) => self.half_of_track(element),
            Element::Point(_) => self.half_of_point(element),
            Element::Border(_) => self.half_of_border(element),
        };
        own + self
            .connector_room(element, false)
            .or_more(self.connector_room(element, true))
    }

    fn half_of_track(&self, element: usize) -> Units {
        let name = width(self.facts(element).label.name_letters);
        let section = width(self.section_letters(element));
        let above = name + BESIDE + self.signal_room(element, false);
        let below = section + BESIDE + self.signal_room(element, true);
        (LEAST.or_more(above).or_more(below) + Units(1)).half()
    }

    fn half_of_point(&self, element: usize) -> Units {
        let name = width(self.facts(element).label.name_letters);
        let text = name.or_more(width(self.section_letters(element)));
        let clear = self
            .clearance(element, false)
            .or_more(self.clearance(element, true));
        POINT.or_more((text + Units(8)).half()) + self.widest_signal(element) + clear
    }

    fn half_of_border(&self, element: usize) -> Units {
        let text = (width(self.facts(element).label.name_letters) + Units(8)).half();
        let place = Place {
            element,
            end: End::End,
        };
        let signal = match self.port(place).signal_letters {
            0 => Units(0),
            _ => Units(17),
        };
        BORDER.or_more(text) + signal
    }
}
