//! What is known of a station, and what is asked of it after every event.

use crate::restarts::fault::Fault;
use crate::restarts::known::Known;
use crate::restarts::tally::{Tally, count};
use station_record::{Answer, Event, NodeId, Refusal, Refused};

/// For how many microseconds an interlocking that was made holds.
const HOLD: u64 = 6_000_000;

/// The interlocking.
pub(crate) const STATION: NodeId = NodeId(0);

/// The interlocking of a station and one of its nodes, whether any node was made anew, and what has happened.
#[derive(Clone, Copy)]
pub(crate) struct Watch {
    station: Known,
    pub(crate) node: Known,
    is_anew: bool,
    pub(crate) tally: Tally,
}

impl Watch {
    /// Over a node of a new station, after what happened before.
    pub(crate) fn new(node: NodeId, tally: Tally) -> Watch {
        Watch {
            station: Known::new(STATION),
            node: Known::new(node),
            is_anew: false,
            tally,
        }
    }

    /// An event happened on a safe station.
    pub(crate) fn pass(&mut self, event: &Event) {
        if let Event::Restart { .. } = event {
            self.is_anew = true;
        }
        self.station.pass(event);
        self.node.pass(event);
        count(&mut self.tally.events);
    }

    /// Since a node was made anew a datagram may be one that was never sent, and a point may not be driven so. A command is
    /// refused 2 in the hold, and at no other time.
    pub(crate) fn judge(&mut self, reply: Result<Answer, Refused>) -> Result<(), Fault> {
        let is_held = self.station.age < HOLD;
        match reply {
            Ok(Answer::Done) => {}
            Ok(Answer::Refused(Refusal::Holding)) if is_held => count(&mut self.tally.held_back),
            Ok(Answer::Refused(Refusal::Holding)) => return Err(Fault::Hold),
            Ok(_) if is_held => return Err(Fault::Hold),
            Ok(_) => {}
            Err(Refused::NeverSent) if self.is_anew => count(&mut self.tally.unsent),
            Err(Refused::NotDriven) if self.is_anew => count(&mut self.tally.undriven),
            Err(why) => return Err(Fault::Refused(why)),
        }
        Ok(())
    }
}
