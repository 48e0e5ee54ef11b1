//! Who the two ends of a link are.

use crate::link::Millis;
use rasta_pdu::Key;

/// Which end opens: the client asks, the server answers.
#[derive(Clone, Copy, Debug)]
pub enum Role {
    Client,
    Server,
}

impl Role {
    ghost use Rattle.std.specs.Prelude.{◌≡◌};
    ghost use Rattle.rasta_core_link.specs.State.{is_client};

    pub(crate) fn is_client(self) -> bool
        ensures { result ≡ is_client self }
    {
        matches!(self, Role::Client)
    }
}

/// What an end is made with and keeps for good.
#[derive(Clone, Copy, Debug)]
pub struct Identity {
    pub role: Role,
    /// Its own identity, as receivers and senders are named in PDUs.
    pub own: u32,
    /// The identity of its partner.
    pub partner: u32,
    /// The key of the network.
    pub key: Key,
}

/// How an end begins.
#[derive(Clone, Copy, Debug)]
pub struct Start {
    /// The number of its first PDU.
    pub first_sequence_number: u32,
    /// The reading of its clock.
    pub now: Millis,
}
