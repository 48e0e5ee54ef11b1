//! What the contacts of a field object tell.

use sci_telegram::{Occupancy, Position};

/// The new state of a contact.
#[derive(Clone, Copy, Debug, PartialEq, Eq)]
pub enum Sense {
    /// Where the point lies now.
    Position(Position),
    /// Whether the section at this place of the detector's own list, counted from 0, is occupied now.
    Section(usize, Occupancy),
}
