//! A world as a station that is played.

ghost use Rattle.std.specs.Prelude.{◌≡◌};
ghost use Rattle.simulator_spec.specs.Tried.{receiver};

use crate::world::World;
use simulator_spec::simulator_event::{Outgoing, Station};
use simulator_spec::{Checked, Event, NodeId, PointId, Refused, Reply, Role, Side};

/// The node at the other end of a link: the interlocking is 0, and the controller of a link stands after it at the link's place.
pub fn receiver(sender: Role, link: usize) -> NodeId
    ensures { result ≡ receiver sender link }
{
    match sender {
        Role::Client => NodeId(link.saturating_add(1)),
        Role::Server => NodeId(0),
    }
}

impl Station for World {
    ghost use Rattle.simulator_spec.specs.Tried.{Played, worlds};
    ghost use Rattle.simulator.specs.World.{played};

    ghost State = { Played };

    ghost state = { played };

    ghost does = { worlds };

    ghost site = { λ w. w.sited.site };

    fn apply(&mut self, event: &Event) -> Result<Reply, Refused> {
        self.apply(event)
    }

    fn table(&self) -> &Checked {
        self.table()
    }

    fn sent_count(&self) -> usize {
        self.network().len()
    }

    fn sent_at(&self, place: usize) -> Option<Outgoing<'_>> {
        let one = self.network().get(place)?;
        Some(Outgoing {
            to: receiver(one.sender, one.link),
            bytes: one.bytes,
        })
    }

    fn arrival(&self, place: usize) -> Option<Outgoing<'_>> {
        let one = self.network().get(place)?;
        if one.is_lost {
            return None;
        }
        Some(Outgoing {
            to: receiver(one.sender, one.link),
            bytes: one.bytes,
        })
    }

    fn driven(&self, point: PointId) -> Option<Side> {
        self.driven(point)
    }
}
