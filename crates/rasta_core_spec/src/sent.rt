//! The datagrams of a run.

ghost use Rattle.std.specs.Prelude.{◌≡◌, false, true};

use rasta_core_link::Role;
use rasta_pdu::Datagram;
use std::marker::Model;

/// A datagram that was sent, with what the ends don't see of it.
#[derive(Debug, Drop)]
pub struct Sent {
    datagram: Datagram,
    at: u64,
    sender: Role,
    connection: usize,
    is_lost: bool,
}

impl Model for Sent {
    ghost use Rattle.rasta_core_spec.specs.Ends as spec;

    ghost Value = { spec.Sent };

    ghost view = { λ s. record { bytes = s.datagram.items; at = s.at; sender = s.sender; connection = s.connection; is_lost = s.is_lost } };
}

impl Sent {
    /// A datagram as it is sent: at a true time in microseconds, by an end, in a connection. A connection has
    /// the number of the request that began it: how many datagrams were sent before.
    pub fn new(datagram: Datagram, at: u64, sender: Role, connection: usize) -> Sent
        ensures { result ≡ record { bytes = datagram.items; at = at; sender = sender; connection = connection; is_lost = false } }
    {
        Sent {
            datagram,
            at,
            sender,
            connection,
            is_lost: false,
        }
    }

    /// Its bytes.
    pub fn bytes(&self) -> &[u8]
        ensures { result.now ≡ self.now.bytes }
    {
        self.datagram.as_slice()
    }

    /// The true time of its sending, in microseconds.
    pub fn at(&self) -> u64
        ensures { result ≡ self.now.at }
    {
        self.at
    }

    /// The end that sent it.
    pub fn sender(&self) -> Role
        ensures { result ≡ self.now.sender }
    {
        self.sender
    }

    /// The connection that its sender was in.
    pub fn connection(&self) -> usize
        ensures { result ≡ self.now.connection }
    {
        self.connection
    }

    /// Whether the network has lost it.
    pub fn is_lost(&self) -> bool
        ensures { result ≡ self.now.is_lost }
    {
        self.is_lost
    }

    /// The network loses it.
    pub fn lose(&mut self)
        ensures { self.new ≡ record self.old { is_lost = true } }
    {
        self.is_lost = true;
    }
}
