//! Where each row lies.

use crate::labels::{LINE, lines};
use crate::links::{Link, NO_LINK};
use crate::lists::{at, put};
use crate::sketch::Sketch;
use crate::units::{Units, count};
use control_table::layout::Element;

/// The least distance of rows.
const ROW: Units = Units(56);
/// The least distance of a row from one without elements.
const HALF_ROW: Units = Units(28);
/// The distance of level lines that pass between two rows.
const BETWEEN: Units = Units(14);
/// The least free room between the texts of two rows.
const FREE: Units = Units(8);

/// Where a row lies, and how far its texts reach.
#[derive(Clone, Copy)]
pub(crate) struct Room {
    /// Where it lies.
    pub(crate) y: Units,
    /// How far texts reach above it.
    above: Units,
    /// How far texts reach below it.
    below: Units,
    /// How many level lines pass below it, beside one another.
    slots: usize,
    /// Whether it has an element.
    is_occupied: bool,
}

/// A row of which nothing is known yet.
pub(crate) const EMPTY: Room = Room {
    y: Units(0),
    above: Units(0),
    below: Units(0),
    slots: 0,
    is_occupied: false,
};

/// What lies after the last row.
const BEHIND: Room = Room {
    y: Units(0),
    above: Units(0),
    below: Units(0),
    slots: 0,
    is_occupied: true,
};

impl Sketch {
    /// Finds the heights of all rows: makes room for the texts of elements and for level lines, and lays each row below the
    /// one before.
    pub(crate) fn lay_heights(&mut self) {
        self.rows.fill(EMPTY);
        for element in 0..self.elements.len() {
            self.write(element);
        }
        self.pass_links();
        self.set_down();
    }

    /// What is known of a row.
    pub(crate) fn room(&self, row: usize) -> Room {
        at(&self.rows, row, BEHIND)
    }

    /// Where the level line of a link lies between two rows.
    pub(crate) fn level_between(&self, link: Link, slot: usize) -> Units {
        let upper = self.room(link.above);
        let lower = self.room(link.above.saturating_add(1));
        let top = upper.y + upper.below;
        let bottom = lower.y - lower.above;
        let part = count(slot).saturating_mul(2).saturating_add(1);
        top + (bottom - top).part(part, count(upper.slots).saturating_mul(2))
    }

    /// Makes room above and below a row for the texts of an element.
    fn write(&mut self, element: usize) {
        let row = self.row(element);
        let (above, below) = self.texts(element);
        let left = self.signal_height(element, false, Units(26));
        let right = self.signal_height(element, true, Units(27));
        let mut room = self.room(row);
        room.above = room.above.or_more(above).or_more(left);
        room.below = room.below.or_more(below).or_more(right);
        room.is_occupied = true;
        put(&mut self.rows, row, room);
    }

    /// Makes room for the level lines of links below rows.
    fn pass_links(&mut self) {
        for number in 0..self.links.len() {
            let link = at(&self.links, number, NO_LINK);
            if let Some(slot) = link.slot {
                let mut room = self.room(link.above);
                room.slots = room.slots.max(slot.saturating_add(1));
                put(&mut self.rows, link.above, room);
            }
        }
    }

    /// Lays each row below the one before.
    fn set_down(&mut self) {
        let mut down = Units(0);
        for row in 0..self.rows.len() {
            let mut room = self.room(row);
            room.y = down;
            down = down + self.distance(row);
            put(&mut self.rows, row, room);
        }
    }

    /// The distance of a row from the next one.
    fn distance(&self, row: usize) -> Units {
        let upper = self.room(row);
        let lower = self.room(row.saturating_add(1));
        let is_low = !upper.is_occupied || !lower.is_occupied;
        let least = if is_low { HALF_ROW } else { ROW };
        let lines = BETWEEN.times(count(upper.slots.saturating_sub(1)));
        let texts = upper.below + lower.above;
        least.or_more(texts + FREE + lines)
    }

    /// How far the texts of an element reach above and below its row.
    fn texts(&self, element: usize) -> (Units, Units) {
        let name = lines(self.facts(element).label.name_letters);
        let section = lines(self.section_letters(element));
        match self.numbers.element(element) {
            Element::Track(_) => (Units(16) + more(name), Units(17) + more(section)),
            Element::Point(_) => {
                let all = more(name.saturating_add(section));
                if self.is_drawn_up(element) {
                    (Units(8), Units(18) + all)
                } else {
                    (Units(16) + all, Units(8))
                }
            }
            Element::Border(_) => (Units(16) + more(name), Units(8)),
        }
    }

    /// How far the name of the signal at a side of an element reaches, if one is there: so far with one line.
    fn signal_height(&self, element: usize, right: bool, one: Units) -> Units {
        let Some(place) = self.level_port(element, right) else {
            return Units(0);
        };
        match self.port(place).signal_letters {
            0 => Units(0),
            letters => one + more(lines(letters)),
        }
    }
}

/// The room of further lines.
fn more(lines: usize) -> Units {
    LINE.times(count(lines.saturating_sub(1)))
}
