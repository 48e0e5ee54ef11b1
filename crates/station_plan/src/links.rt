//! What joins chains: each leg that isn't the main one of its point, with the port that it is joined to.

use crate::placed::NO_PORT;
use crate::sketch::Sketch;
use crate::units::Units;
use crate::yard::Place;
use control_table::layout::End;
use std::alloc::AllocError;

/// A link from a leg to a port.
#[derive(Clone, Copy)]
pub(crate) struct Link {
    /// The leg.
    pub(crate) from: Place,
    /// The port that it is joined to.
    pub(crate) to: Place,
    /// Whether the other port is a leg, too, that isn't the main one of its point.
    pub(crate) is_crossover: bool,
    /// The row of its own of a link within one chain: a chain without elements.
    pub(crate) chain: Option<usize>,
    /// The row above its level part.
    pub(crate) above: usize,
    /// Its number among the links that pass there beside one another, if a part of it is level between rows.
    pub(crate) slot: Option<usize>,
    /// How far it reaches to the left.
    pub(crate) left: Units,
    /// How far it reaches to the right.
    pub(crate) right: Units,
    /// Whether it reaches farther to a side than up or down.
    pub(crate) is_flat: bool,
}

/// No link.
pub(crate) const NO_LINK: Link = Link {
    from: NO_PORT,
    to: NO_PORT,
    is_crossover: false,
    chain: None,
    above: 0,
    slot: None,
    left: Units(0),
    right: Units(0),
    is_flat: false,
};

impl Sketch {
    /// Finds the links of the layout. A link within one chain makes a chain without elements.
    pub(crate) fn lay_links(&mut self) -> Result<(), AllocError> {
        for element in self.numbers.point(0)..self.numbers.border(0) {
            let from = self.minor(element);
            if let Some(to) = self.next(from) {
                self.add_link(from, to)?;
            }
        }
        Ok(())
    }

    /// Adds a link, unless it was found before, from its other end.
    fn add_link(&mut self, from: Place, to: Place) -> Result<(), AllocError> {
        let is_crossover = !self.is_level(to);
        if is_crossover && to.element < from.element {
            return Ok(());
        }
        let mut chain = None;
        if is_crossover && self.facts(from.element).chain == self.facts(to.element).chain {
            chain = Some(self.chains);
            self.chains = self.chains.saturating_add(1);
        }
        self.links.push(Link {
            from,
            to,
            is_crossover,
            chain,
            ..NO_LINK
        })?;
        Ok(())
    }

    /// The link of a leg.
    pub(crate) fn link(&self, place: Place) -> Option<Link> {
        for link in &self.links {
            if link.from == place || link.to == place {
                return Some(*link);
            }
        }
        None
    }

    /// Whether a leg leads up by its hand: a left one at a point whose tip lies left, a right one at others.
    pub(crate) fn leads_up(&self, place: Place) -> bool {
        (place.end == End::Left) == self.is_right(place)
    }

    /// Whether the other leg of a point is drawn up: to what it is joined to, or as it leads.
    pub(crate) fn is_drawn_up(&self, element: usize) -> bool {
        let place = self.minor(element);
        let Some(link) = self.link(place) else {
            return self.leads_up(place);
        };
        let other = if link.from == place {
            link.to
        } else {
            link.from
        };
        let row = self.link_row(link).unwrap_or(self.row(other.element));
        let mine = self.row(element);
        if row == mine {
            self.leads_up(place)
        } else {
            row < mine
        }
    }
}
