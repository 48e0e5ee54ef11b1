//! The datagrams that the network still has.

ghost use Rattle.std.specs.Prelude.{◌≡◌};

use crate::network::Network;
use crate::sent_on::SentOn;

/// The datagrams that the network still has: those that were sent and aren't lost, oldest first.
#[derive(Debug, Drop)]
pub struct Bag<'a> {
    pub(crate) network: &'a Network,
    /// How many datagrams it has passed, lost ones too.
    pub(crate) place: usize,
}

impl<'a> Iterator for Bag<'a> {
    type Item = SentOn<'a>;

    ghost use Rattle.std.specs.Iterator.{YieldsFirstBy, item_count};
    ghost use Rattle.simulator_field.specs.Network.{lent};
    ghost use Rattle.simulator_field.specs.Bag.{in_bag};

    ghost next_gives = { YieldsFirstBy lent in_bag };

    ghost remaining = { item_count in_bag };

    fn next(&mut self) -> Option<SentOn<'a>> {
        while let Some(one) = self.network.get(self.place) {
            self.place += 1;
            if !one.is_lost {
                return Some(one);
            }
        }
        None
    }
}
