//! What happens to a station.

use crate::readings::{ClockSteps, RawDatagram};
use ixl_spec::{Command, Millis, NodeId, Occupancy, PointId, Position, SectionId};

/// What happens to a station and the network between its nodes.
#[derive(Debug)]
pub enum Event {
    /// The interlocking is commanded. The route may be one that its table lacks.
    Request(Command),
    /// A section is occupied or cleared.
    Occupy {
        section: SectionId,
        occupancy: Occupancy,
    },
    /// A node is called by its timer.
    Tick(NodeId),
    /// Time goes on: true time in microseconds, and each node's clock.
    Time {
        elapsed: u64,
        clocks: ClockSteps,
    },
    /// The network delivers bytes to a node: a copy of a datagram that was sent, or damaged ones.
    Deliver {
        node: NodeId,
        bytes: RawDatagram,
    },
    /// The network loses the oldest copy of a datagram.
    Lose(RawDatagram),
    /// A point that is driven comes to lie somewhere.
    Reach {
        point: PointId,
        position: Position,
    },
    /// A node is made anew, with a clock in milliseconds and the number of its first PDU.
    Restart {
        node: NodeId,
        clock: Millis,
        first_sequence_number: u32,
    },
}

// Written by hand, so that it is proved and compiled here alone.
impl Drop for Event {
    fn drop(self) {
        match self {
            Self::Request(_) => {}
            Self::Occupy {
                section: _,
                occupancy: _,
            } => {}
            Self::Tick(_) => {}
            Self::Time {
                elapsed: _,
                clocks: _,
            } => {}
            Self::Deliver { node: _, bytes: _ } => {}
            Self::Lose(_) => {}
            Self::Reach {
                point: _,
                position: _,
            } => {}
            Self::Restart {
                node: _,
                clock: _,
                first_sequence_number: _,
            } => {}
        }
    }
}
