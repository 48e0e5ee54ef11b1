//! What a step is made for, and what it answers.

use ixl_state::{Command, Refusal, Verdict};

/// What a step is made for.
#[derive(Clone, Copy, Debug)]
pub enum Input<'a> {
    /// The clock goes on.
    Tick,
    /// Bytes have come over the network.
    Datagram(&'a [u8]),
    /// The operator wants something.
    Command(Command),
}

/// What a step answers.
#[derive(Clone, Copy, Debug)]
pub enum Reply {
    /// To a tick.
    Ticked,
    /// To a datagram: what the link of its sender says of it.
    Received(Verdict),
    /// To a command that is obeyed.
    Accepted,
    /// To a command that changes nothing.
    Refused(Refusal),
}
