//! What a controller tells of its objects.

use arrayvec::ArrayVec;
use sci_telegram::{Aspect, Occupancy, Position};

/// The state of an object, as its controller tells it.
#[derive(Clone, Copy, Debug)]
pub enum ObjectState {
    /// The aspect that a signal indicates.
    Aspect(Aspect),
    /// Where a point lies.
    Position(Position),
    /// A point didn't reach the commanded position in time.
    Timeout,
    /// Whether a section is occupied.
    Occupancy(Occupancy),
}

/// The state of one of a controller's objects.
#[derive(Clone, Copy, Debug)]
pub struct Indication {
    /// The object's place among those of the controller, counted from 0.
    pub place: usize,
    pub state: ObjectState,
}

impl Default for Indication {
    /// What stands where no indication is yet.
    fn default() -> Indication {
        Indication {
            place: 0,
            state: ObjectState::Timeout,
        }
    }
}

/// What the items of one datagram tell, oldest first.
pub type Indications = ArrayVec<Indication, 3>;
