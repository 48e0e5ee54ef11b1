//! The level parts of links that pass between two rows.

use crate::links::{Link, NO_LINK};
use crate::lists::{at, put};
use crate::sketch::Sketch;

impl Sketch {
    /// Finds how far each link reaches, and gives links that pass between two rows beside one another different slots.
    pub(crate) fn level_links(&mut self) {
        for number in 0..self.links.len() {
            let levelled = self.levelled(number);
            put(&mut self.links, number, levelled);
        }
    }

    /// A link with its level part: next to the row at which it begins, in the first slot that no earlier link takes beside
    /// it.
    fn levelled(&self, number: usize) -> Link {
        let mut link = self.measured(at(&self.links, number, NO_LINK));
        link.slot = None;
        if !link.is_crossover || link.chain.is_some() {
            return link;
        }
        for slot in 0..self.links.len() {
            if !self.is_taken(number, link, slot) {
                link.slot = Some(slot);
                return link;
            }
        }
        link
    }

    /// Whether a link that comes before takes a slot beside this one.
    fn is_taken(&self, number: usize, link: Link, slot: usize) -> bool {
        for earlier in 0..number {
            let other = at(&self.links, earlier, NO_LINK);
            let is_there = other.slot == Some(slot) && other.above == link.above;
            if is_there && meet(link, other) {
                return true;
            }
        }
        false
    }

    /// A link with how far it reaches, and the row above its level part.
    fn measured(&self, link: Link) -> Link {
        let from = link.from.element;
        let to = link.to.element;
        let one = self.x(from);
        let other = self.x(to);
        let row = self.row(from);
        let is_upward = self.row(to) < row;
        let mut measured = link;
        measured.above = if is_upward {
            row.saturating_sub(1)
        } else {
            row
        };
        measured.left = one.or_less(other);
        measured.right = one.or_more(other);
        measured.is_flat = self.y(from).distance(self.y(to)).0 < one.distance(other).0;
        measured
    }
}

/// Whether two links lie beside one another, and one of them is level somewhere.
fn meet(one: Link, other: Link) -> bool {
    let is_beside = one.left.0 < other.right.0 && other.left.0 < one.right.0;
    is_beside && (one.is_flat || other.is_flat)
}
