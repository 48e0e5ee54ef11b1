//! Whether an event can happen.

ghost use Rattle.std.specs.Prelude.{◌≡◌};
ghost use Rattle.ixl_state.specs.sci_telegram.declared.message.Occupancy.{Occupancy};
ghost use Rattle.simulator_spec.specs.simulator_event.declared.event.Event.TheVariants as events;
ghost use Rattle.simulator_spec.specs.Refusals.{is_missing, may_reach};
ghost use Rattle.simulator.specs.inside.EventTest.{Tells};
ghost use Rattle.simulator.specs.inside.Parts.{IsWhole, site_of, seen};

use crate::found::Found;
use crate::parts::Parts;
use simulator_spec::ixl_spec::key_of;
use simulator_spec::{
    CLOCK_LIMIT, Event, MICROS, Millis, NodeId, PointId, Position, Refused, SectionId, Side,
};

/// Whether a point that is driven so can come to lie there: at no end position, or at the side to which it is driven.
fn may_reach(driven: Option<Side>, position: Position) -> bool
    ensures { result ≡ may_reach driven position }
{
    match (driven, position) {
        (None, _) => false,
        (Some(_), Position::NoEndPosition) => true,
        (Some(side), Position::Right) => side == Side::Right,
        (Some(side), Position::Left) => side == Side::Left,
    }
}

impl Parts {
    /// Whether there is no such node.
    fn is_missing(&self, node: NodeId) -> bool
        ensures { result ≡ is_missing node.0 (site_of self.now) }
    {
        node.0 > self.layout().links()
    }

    /// Whether a section can be occupied or cleared.
    #[tactic(auto, unfolding(crate::proofs::Below::refusal))]
    fn tested_section(&self, section: SectionId) -> Result<Found, Refused>
        ensures { (occupancy : Occupancy) → Tells (site_of self.now) (events.Occupy section occupancy) (seen self.now) result }
    {
        if section.0 >= self.layout().sections().len() {
            return Err(Refused::NoSuchNode);
        }
        Ok(Found::Nothing)
    }

    /// Whether a node can be called.
    #[tactic(auto, unfolding(crate::proofs::Below::refusal))]
    fn tested_tick(&self, node: NodeId) -> Result<Found, Refused>
        ensures { Tells (site_of self.now) (events.Tick node) (seen self.now) result }
    {
        if self.is_missing(node) {
            return Err(Refused::NoSuchNode);
        }
        Ok(Found::Nothing)
    }

    /// Whether time can go on so.
    #[tactic(auto, unfolding(crate::proofs::Below::refusal))]
    fn tested_time(&self, elapsed: u64, steps: &[u64]) -> Result<Found, Refused>
        requires { IsWhole self.now }
        ensures { Tells (site_of self.now) (events.Time elapsed steps.now) (seen self.now) result }
    {
        match self.refusal_of_time(elapsed, steps) {
            Some(why) => Err(why),
            None => Ok(Found::Nothing),
        }
    }

    /// The connection in which bytes were sent that can be delivered to a node.
    #[tactic(auto, unfolding(crate::proofs::Below::refusal, crate::proofs::Below::world_of))]
    fn tested_delivery(&self, node: NodeId, bytes: &[u8]) -> Result<Found, Refused>
        ensures { Tells (site_of self.now) (events.Deliver node bytes.now) (seen self.now) result }
    {
        if self.is_missing(node) {
            return Err(Refused::NoSuchNode);
        }
        let key = key_of(self.layout());
        match self.field.network.delivered(&key, bytes) {
            Some(connection) => Ok(Found::Connection(connection)),
            None => Err(Refused::NeverSent),
        }
    }

    /// The place of the oldest copy of bytes.
    #[tactic(auto, unfolding(crate::proofs::Below::refusal, crate::proofs::Below::world_of))]
    fn tested_loss(&self, bytes: &[u8]) -> Result<Found, Refused>
        ensures { Tells (site_of self.now) (events.Lose bytes.now) (seen self.now) result }
    {
        match self.field.network.oldest_copy(bytes) {
            Some(place) => Ok(Found::Place(place)),
            None => Err(Refused::NeverSent),
        }
    }

    /// Whether a point can come to lie somewhere.
    #[tactic(auto, unfolding(crate::proofs::Below::refusal, crate::proofs::Below::world_of))]
    fn tested_reach(&self, point: PointId, position: Position) -> Result<Found, Refused>
        requires { IsWhole self.now }
        ensures { Tells (site_of self.now) (events.Reach point position) (seen self.now) result }
    {
        if point.0 >= self.layout().points().len() {
            return Err(Refused::NoSuchNode);
        }
        if !may_reach(self.driven(point), position) {
            return Err(Refused::NotDriven);
        }
        Ok(Found::Nothing)
    }

    /// Whether a node can be made anew.
    #[tactic(auto, unfolding(crate::proofs::Below::refusal))]
    fn tested_restart(&self, node: NodeId, clock: Millis, first: u32) -> Result<Found, Refused>
        ensures { Tells (site_of self.now) (events.Restart node clock first) (seen self.now) result }
    {
        if self.is_missing(node) {
            return Err(Refused::NoSuchNode);
        }
        if clock > CLOCK_LIMIT / MICROS {
            return Err(Refused::ClockLimit);
        }
        Ok(Found::Nothing)
    }

    /// What an event needs that can happen, or why it can't.
    #[tactic(auto, unfolding(crate::proofs::Below::refusal, crate::proofs::Below::world_of))]
    pub(crate) fn tested(&self, event: &Event) -> Result<Found, Refused>
        requires { IsWhole self.now }
        ensures { Tells (site_of self.now) event.now (seen self.now) result }
    {
        match event {
            Event::Request(_) => Ok(Found::Nothing),
            Event::Occupy { section, .. } => self.tested_section(*section),
            Event::Tick(node) => self.tested_tick(*node),
            Event::Time { elapsed, clocks } => self.tested_time(*elapsed, clocks.as_slice()),
            Event::Deliver { node, bytes } => self.tested_delivery(*node, bytes.as_slice()),
            Event::Lose(bytes) => self.tested_loss(bytes.as_slice()),
            Event::Reach { point, position } => self.tested_reach(*point, *position),
            Event::Restart {
                node,
                clock,
                first_sequence_number,
            } => self.tested_restart(*node, *clock, *first_sequence_number),
        }
    }
}
