//! What a round of a flow of time consists of.

use ixl_spec::Side;
use simulator_event::Event;

/// The side to which a point was found driven, and at the ends of how many rounds one after the other; 50 stands for
/// any greater number.
#[derive(Clone, Copy, Debug)]
pub struct FoundDriven {
    pub side: Side,
    pub rounds: u8,
}

/// An event of a round, and how many of the datagrams that were sent the flow has gone past with it.
#[derive(Debug, Drop)]
pub struct RoundEvent {
    pub event: Event,
    pub passed: usize,
}
