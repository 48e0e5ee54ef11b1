//! What becomes of datagrams.

use replay::{NodeId, Refused};

/// What becomes of a datagram on the network of a station. The network may refuse to deliver or to lose it.
#[derive(Clone, Copy)]
pub enum Fate {
    /// A node sends it to another.
    Sent {
        sender: NodeId,
        receiver: NodeId,
    },
    /// It comes to a node, unless that is refused.
    Delivered {
        receiver: NodeId,
        refused: Option<Refused>,
    },
    /// It is lost, unless that is refused.
    Lost {
        refused: Option<Refused>,
    },
}
