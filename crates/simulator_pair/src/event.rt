//! What happens to a pair, and what it answers.

use rasta_core::{Millis, Reason, Role, SendFault};
use rasta_pdu::{Item, Received};

/// Bytes as the network may deliver them.
pub type Bytes = Received;

/// What happens to a pair of ends and the network between them.
#[derive(Debug, Drop)]
pub enum PairEvent {
    /// An item is given to an end to send.
    Give(Role, Item),
    /// An end is called by its timer: it sends a heartbeat that is due, and a client that is down opens.
    Tick(Role),
    /// Time goes on: true time and the clock of each end, in microseconds.
    Time {
        elapsed: u64,
        of_client: u64,
        of_server: u64,
    },
    /// The network delivers bytes to an end: a copy of a datagram that was sent, or damaged ones.
    Deliver(Role, Bytes),
    /// The network loses the oldest copy of a datagram.
    Lose(Bytes),
    /// The user of an end closes its link.
    Close(Role, Reason),
    /// An end is made anew, with a clock in milliseconds and the number of its first PDU.
    Restart {
        end: Role,
        clock: Millis,
        first_sequence_number: u32,
    },
}

/// What a pair tells of an event that it applied.
#[derive(Clone, Copy, Debug)]
pub struct PairReply {
    pub answer: PairAnswer,
    /// How many datagrams were sent. They are the last of `Pair::sent`, and of `Pair::bag`.
    pub added: usize,
}

/// The answer to an event.
#[derive(Clone, Copy, Debug)]
pub enum PairAnswer {
    Done,
    /// The answer of `Link::send` to an item.
    Given(Result<(), SendFault>),
}
