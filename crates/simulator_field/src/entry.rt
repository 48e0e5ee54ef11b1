//! What is kept of a datagram beside its bytes.

ghost use Rattle.std.specs.Prelude.{◌≡◌, length};
ghost use Rattle.simulator_spec.specs.rasta_core.Bag as bag;
ghost use Rattle.simulator_field.specs.inside.Entries.{IsWithin, bytes_of, on_link};
ghost use Rattle.simulator_field.specs.Network.{lent};

use crate::sent_on::SentOn;
use simulator_spec::Role;

/// A datagram that was sent. Its bytes stand in one row with those of all others.
#[derive(Clone, Copy, Debug)]
pub(crate) struct Entry {
    /// Where its bytes begin in the row.
    pub(crate) start: usize,
    /// How many bytes it has: at most 256.
    pub(crate) length: u16,
    /// The true time of its sending, in microseconds.
    pub(crate) at: u64,
    pub(crate) connection: usize,
    /// The link on which it was sent.
    pub(crate) link: usize,
    pub(crate) sender: Role,
    pub(crate) is_lost: bool,
}

impl Entry {
    /// Its bytes, in the row of all.
    pub(crate) fn bytes<'a>(&self, row: &'a [u8]) -> &'a [u8]
        requires { IsWithin row.now self.now }
        ensures { result.now ≡ bytes_of row.now self.now }
    {
        let (_, from_start) = row.split_at(self.start);
        let (own, _) = from_start.split_at(usize::from(self.length));
        own
    }

    /// Whether it is a copy of these bytes that isn't lost.
    pub(crate) fn is_copy(&self, row: &[u8], bytes: &[u8]) -> bool
        requires { IsWithin row.now self.now }
        ensures { result ≡ bag.is_copy bytes.now (on_link row.now self.now).datagram }
    {
        !self.is_lost && self.bytes(row) == bytes
    }

    /// As it is lent to readers.
    pub(crate) fn lend<'a>(&self, row: &'a [u8]) -> SentOn<'a>
        requires { IsWithin row.now self.now }
        ensures { lent result ≡ on_link row.now self.now }
    {
        SentOn {
            link: self.link,
            bytes: self.bytes(row),
            at: self.at,
            sender: self.sender,
            connection: self.connection,
            is_lost: self.is_lost,
        }
    }
}
