//! A datagram as it is lent.

use simulator_spec::Role;

/// A datagram that was sent.
#[derive(Clone, Copy, Debug)]
pub struct SentOn<'a> {
    /// The link on which it was sent.
    pub link: usize,
    pub bytes: &'a [u8],
    /// The true time of its sending, in microseconds.
    pub at: u64,
    /// The end of the link that sent it, and the connection that this end was in.
    pub sender: Role,
    pub connection: usize,
    /// Whether the network has lost it.
    pub is_lost: bool,
}
