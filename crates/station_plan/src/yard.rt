//! What is known of elements and ports.

use crate::labels::{Label, UNWRITTEN, letters};
use crate::lists::{at, put};
use crate::sketch::Sketch;
use crate::units::Units;
use control_table::layout::{End, Joint, Signal};

/// A port of an element, which goes by its number.
#[derive(Clone, Copy, PartialEq)]
pub(crate) struct Place {
    /// The number of the element.
    pub(crate) element: usize,
    /// Which of its ports it is.
    pub(crate) end: End,
}

/// The ways from an element to a side of the plan.
#[derive(Clone, Copy)]
pub(crate) struct Ways {
    /// How many elements the longest one has, with this one.
    pub(crate) longest: usize,
    /// How many points one to a border passes at best.
    pub(crate) points: usize,
}

/// More points than any way has.
pub(crate) const FAR: usize = 1000;

/// What is known of an element.
#[derive(Clone, Copy)]
pub(crate) struct ElementFacts {
    /// Whether it lies the other way round: `a`, `tip` at its right, a border at the right of the plan.
    pub(crate) is_flipped: bool,
    /// The piece of the layout that it is part of, once it is found.
    pub(crate) piece: Option<usize>,
    /// What is written at it.
    pub(crate) label: Label,
    /// Whether the search for circles has come to it.
    pub(crate) is_visited: bool,
    /// Whether that search is still at what lies at its right.
    pub(crate) is_open: bool,
    /// How many of its ports that search has tried.
    pub(crate) tried: usize,
    /// The element from which that search came to it.
    pub(crate) before: Option<usize>,
    /// The ways to the left.
    pub(crate) left: Ways,
    /// The ways to the right.
    pub(crate) right: Ways,
    /// How many elements lie at most at its left. A border at the right has the greatest rank.
    pub(crate) rank: usize,
    /// The leg by which the row of a point goes on, once it is chosen.
    pub(crate) main: Option<End>,
    /// The chain that it is part of, once it is found.
    pub(crate) chain: Option<usize>,
    /// Half of the room that it takes on its row.
    pub(crate) half: Units,
    /// Where it lies on its row.
    pub(crate) x: Units,
    /// Its rightmost place there, as far as it is known.
    pub(crate) far: Units,
}

/// An element of which nothing is found yet.
pub(crate) const UNKNOWN: ElementFacts = ElementFacts {
    is_flipped: false,
    piece: None,
    label: UNWRITTEN,
    is_visited: false,
    is_open: false,
    tried: 0,
    before: None,
    left: Ways {
        longest: 1,
        points: FAR,
    },
    right: Ways {
        longest: 1,
        points: FAR,
    },
    rank: 0,
    main: None,
    chain: None,
    half: Units(0),
    x: Units(0),
    far: Units(0),
};

/// What is known of a port.
#[derive(Clone, Copy)]
pub(crate) struct PortFacts {
    /// The port that it is joined to.
    pub(crate) mate: Option<Place>,
    /// Whether the joint is left out of the rows, since it closes a circle.
    pub(crate) is_cut: bool,
    /// How many letters the name of the signal has that stands there, or 0.
    pub(crate) signal_letters: usize,
    /// The number by which the two ends of a joint know one another that isn't drawn as a line.
    pub(crate) connector: Option<usize>,
}

/// A port at which there is nothing.
pub(crate) const UNJOINED: PortFacts = PortFacts {
    mate: None,
    is_cut: false,
    signal_letters: 0,
    connector: None,
};

/// The place of a port within the list of all ports, of which each element has three there.
pub(crate) fn port_number(place: Place) -> usize {
    let end = match place.end {
        End::A | End::Tip | End::End => 0,
        End::B | End::Left => 1,
        End::Right => 2,
    };
    place.element.saturating_mul(3).saturating_add(end)
}

impl Sketch {
    /// What is known of an element.
    pub(crate) fn facts(&self, element: usize) -> ElementFacts {
        at(&self.elements, element, UNKNOWN)
    }

    /// What is known of a port.
    pub(crate) fn port(&self, place: Place) -> PortFacts {
        at(&self.ports, port_number(place), UNJOINED)
    }

    /// Keeps what is known of an element.
    pub(crate) fn keep(&mut self, element: usize, facts: ElementFacts) {
        put(&mut self.elements, element, facts);
    }

    /// Keeps what is known of a port.
    pub(crate) fn keep_port(&mut self, place: Place, facts: PortFacts) {
        put(&mut self.ports, port_number(place), facts);
    }

    /// Takes up joints.
    pub(crate) fn join(&mut self, joints: &[Joint]) {
        for joint in joints {
            let first = self.numbers.place(joint.first);
            let second = self.numbers.place(joint.second);
            self.set_mate(first, second);
            self.set_mate(second, first);
        }
    }

    fn set_mate(&mut self, place: Place, mate: Place) {
        let mate = Some(mate);
        self.keep_port(place, PortFacts { mate, ..UNJOINED });
    }

    /// Takes up signals.
    pub(crate) fn stand(&mut self, signals: &[Signal]) {
        for signal in signals {
            let place = self.numbers.place(signal.at);
            let mut port = self.port(place);
            port.signal_letters = letters(Some(signal.name));
            self.keep_port(place, port);
        }
    }
}
