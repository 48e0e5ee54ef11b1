//! A datagram that came.

ghost use Rattle.std.specs.Prelude.{◌≡◌};

use crate::network::Network;
use rasta_pdu::Received;
use std::marker::Model;

/// A datagram, with the reading at which it came, the place of its sender, and the network over which it came. Clauses see it as a `Came`.
#[derive(Drop)]
pub struct Incoming {
    /// In milliseconds.
    at: u64,
    sender: usize,
    over: Network,
    bytes: Received,
}

impl Model for Incoming {
    ghost use Rattle.datagram_hold.specs.Came.{Came};

    ghost Value = { Came };

    ghost view = { λ i. record { at = i.at; sender = i.sender; over = i.over; bytes = i.bytes.items } };
}

impl Default for Incoming {
    ghost use Rattle.std.specs.Prelude.{[]};
    ghost use Rattle.datagram_hold.specs.declared.network.Network.TheVariants.{First};

    ghost is_default = { λ i. i ≡ record { at = 0; sender = 0; over = First; bytes = [] } };

    fn default() -> Incoming {
        Incoming {
            at: 0,
            sender: 0,
            over: Network::First,
            bytes: Received::new(),
        }
    }
}

impl Incoming {
    pub fn new(at: u64, sender: usize, over: Network, bytes: Received) -> Incoming
        ensures { result ≡ record { at = at; sender = sender; over = over; bytes = bytes.items } }
    {
        Incoming {
            at,
            sender,
            over,
            bytes,
        }
    }

    /// The reading at which it came, in milliseconds.
    pub fn at(&self) -> u64
        ensures { result ≡ self.now.at }
    {
        self.at
    }

    /// The place of its sender.
    pub fn sender(&self) -> usize
        ensures { result ≡ self.now.sender }
    {
        self.sender
    }

    /// The network over which it came.
    pub fn over(&self) -> Network
        ensures { result ≡ self.now.over }
    {
        self.over
    }

    pub fn bytes(&self) -> &[u8]
        ensures { result.now ≡ self.now.bytes }
    {
        self.bytes.as_slice()
    }

    pub fn into_bytes(self) -> Received
        ensures { result.items ≡ self.bytes }
    {
        self.bytes
    }
}
