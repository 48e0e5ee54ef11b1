//! How many datagrams each network may still bring in a round.

ghost use Rattle.std.specs.Prelude.{◌≡◌};
ghost use Rattle.node_network.specs.Shares.{ended, less_one, next_of, whole};

use datagram_hold::Network;

/// How many datagrams a network brings in a round at most: fewer than a process takes, so that it asks on until there is none.
const SHARE_OF_ONE: u8 = 62;

/// How many each of two brings, so that neither takes what is left to the other.
const SHARE_OF_TWO: u8 = 31;

/// How many datagrams each network may still bring in a round.
#[derive(Clone, Copy)]
pub struct Shares {
    first: u8,
    second: u8,
}

impl Shares {
    /// Those of a round that begins, with one network or with two.
    pub(crate) fn whole(has_two: bool) -> Shares
        ensures { result ≡ whole has_two }
    {
        if has_two {
            Shares {
                first: SHARE_OF_TWO,
                second: SHARE_OF_TWO,
            }
        } else {
            Shares {
                first: SHARE_OF_ONE,
                second: 0,
            }
        }
    }

    /// The network that is asked next, if one has something left: the one that has more.
    pub(crate) fn next(self) -> Option<Network>
        ensures { result ≡ next_of self }
    {
        if self.first == 0 && self.second == 0 {
            return None;
        }
        Some(if self.first < self.second {
            Network::Second
        } else {
            Network::First
        })
    }

    /// A network brought a datagram.
    pub(crate) fn use_one(&mut self, network: Network)
        ensures { self.new ≡ less_one network self.old }
    {
        match network {
            Network::First => self.first = self.first.saturating_sub(1),
            Network::Second => self.second = self.second.saturating_sub(1),
        }
    }

    /// A network isn't asked any more in this round.
    pub(crate) fn end(&mut self, network: Network)
        ensures { self.new ≡ ended network self.old }
    {
        match network {
            Network::First => self.first = 0,
            Network::Second => self.second = 0,
        }
    }
}
