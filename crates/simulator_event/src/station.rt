//! A station that is played.

use crate::event::Event;
use crate::reply::Reply;
use ixl_spec::{Checked, NodeId, PointId, Side};
use simulator_refused::Refused;

/// A datagram that was sent, and the node to which it goes.
#[derive(Clone, Copy, Debug)]
pub struct Outgoing<'a> {
    pub to: NodeId,
    pub bytes: &'a [u8],
}

/// A station to which events happen, and the datagrams that its nodes send.
pub trait Station {
    ghost use Rattle.std.specs.Prelude.{◌≡◌, ◌<◌, length, slice_get};
    ghost use Rattle.std.specs.Option.{option_map};
    ghost use Rattle.ixl_spec.specs.layout.Entries.{Site};
    ghost use Rattle.simulator_event.specs.Station.{Applies, Behaviour};

    /// What answers depend on.
    ghost State: { Type 0 };

    /// How it is now.
    ghost state: { Self → State };

    /// How it behaves.
    ghost does: { Behaviour State };

    /// Its layout.
    ghost site: { Self → Site };

    /// Applies an event. Want of memory is answered instead where it is lacking, and nothing has happened then.
    fn apply(&mut self, event: &Event) -> Result<Reply, Refused>
        ensures applies { Applies does event.now (state self.old) result (state self.new) }
        ensures site { site self.new ≡ site self.old };

    /// Its control table, with its layout.
    fn table(&self) -> &Checked
        ensures { result.now ≡ site self.now };

    /// How many datagrams its nodes have sent so far.
    fn sent_count(&self) -> usize
        ensures { result ≡ length (does.sent (state self.now)) };

    /// The datagram at a place of those that were sent, oldest first, counted from 0.
    fn sent_at(&self, place: usize) -> Option<Outgoing<'_>>
        ensures { option_map (λ one. (one.to, one.bytes.now)) result ≡ slice_get (does.sent (state self.now)) place };

    /// The datagram at a place of those that were sent, unless it is lost.
    fn arrival(&self, place: usize) -> Option<Outgoing<'_>>
        ensures { option_map (λ one. (one.to, one.bytes.now)) result ≡ does.arrival (state self.now) place };

    /// The side to which a point is driven now, if it is.
    fn driven(&self, point: PointId) -> Option<Side>
        requires { point.0 < length (site self.now).points }
        ensures { result ≡ does.driven (state self.now) point.0 };
}
