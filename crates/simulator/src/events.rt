//! What each event does.

ghost use Rattle.std.specs.Prelude.{◌≡◌, ◌≤◌, IfOk, IsTrue, None, OnErr, OnOk};
ghost use Rattle.ixl_state.specs.rasta_core.Links.{without_oldest_of_all};
ghost use Rattle.simulator_spec.specs.simulator_event.declared.event.Event.TheVariants as events;
ghost use Rattle.simulator_spec.specs.Happens.{answered, delivered_to, happens, is_restart, passed};
ghost use Rattle.simulator_spec.specs.Network.{connection_of, copy_of};
ghost use Rattle.simulator_spec.specs.Nodes.{node_at};
ghost use Rattle.simulator_spec.specs.Refusals.{refusal, refusal_of_time};
ghost use Rattle.simulator_spec.specs.State.{WorldState};
ghost use Rattle.simulator.specs.inside.EventTest.{Finds};
ghost use Rattle.simulator.specs.inside.Parts.{Goes, IsWhole, site_of, room_of, seen, table_of};

use crate::found::Found;
use crate::parts::Parts;
use simulator_spec::{Answer, Event, NodeId};
use std::alloc::AllocError;

impl Parts {
    /// True time and all clocks go on by their steps, in microseconds.
    fn pass(&mut self, elapsed: u64, steps: &[u64])
        requires whole { IsWhole self.old }
        requires allowed { refusal_of_time (site_of self.old) elapsed steps.now (seen self.old) ≡ None }
        ensures { Goes (passed elapsed steps.now) self.old self.new }
    {
        let (of_station, of_controllers) = steps.split_at(1);
        self.interlocking.pass(of_station[0]);
        self.field.pass(elapsed, of_controllers);
    }

    /// Bytes come to a node, of which their connection was found.
    fn deliver(&mut self, node: NodeId, bytes: &[u8], found: Found)
        requires whole { IsWhole self.old }
        requires room { 5120 ≤ room_of self.old }
        requires found { Finds found (events.Deliver node bytes.now) (seen self.old) }
        ensures { Goes (λ world. delivered_to (site_of self.old) (table_of self.old) bytes.now (connection_of (copy_of bytes.now world)) (node_at (site_of self.old) node.0) world) self.old self.new }
    {
        // Nothing else is found of a delivery.
        if let Found::Connection(connection) = found {
            self.deliver_in(node, bytes, connection);
        }
    }

    /// The network loses a datagram with these bytes, of which its place was found.
    #[tactic(auto, unfolding(crate::proofs::Below::world_of))]
    fn lose(&mut self, bytes: &[u8], found: Found)
        requires whole { IsWhole self.old }
        requires found { Finds found (events.Lose bytes.now) (seen self.old) }
        ensures { Goes (λ (world : WorldState). record world { sent = without_oldest_of_all bytes.now world.sent }) self.old self.new }
    {
        // Nothing else is found of a loss.
        if let Found::Place(place) = found {
            self.field.network.lose(place);
        }
    }

    /// An event that can happen does, with what its test found. Only a restart may lack memory.
    #[tactic(auto, unfolding(crate::proofs::Below::happens, crate::proofs::Below::answered, crate::proofs::Below::refusal, crate::proofs::Below::world_of))]
    pub(crate) fn happen(&mut self, event: &Event, found: Found) -> Result<Answer, AllocError>
        requires whole { IsWhole self.old }
        requires room { 5120 ≤ room_of self.old }
        requires allowed { refusal (site_of self.old) event.now (seen self.old) ≡ None }
        requires found { Finds found event.now (seen self.old) }
        ensures goes { OnOk result (Goes (happens (site_of self.old) (table_of self.old) event.now) self.old self.new) }
        ensures answer { IfOk result (λ answer. answer ≡ answered (site_of self.old) (table_of self.old) event.now (seen self.old)) }
        ensures same { OnErr result (self.new ≡ self.old) }
        ensures only_restarts { OnErr result (IsTrue (is_restart event.now)) }
    {
        match event {
            Event::Request(command) => return Ok(self.request(*command)),
            Event::Occupy { section, occupancy } => self.occupy(*section, *occupancy),
            Event::Tick(node) => self.tick(*node),
            Event::Time { elapsed, clocks } => self.pass(*elapsed, clocks.as_slice()),
            Event::Deliver { node, bytes } => self.deliver(*node, bytes.as_slice(), found),
            Event::Lose(bytes) => self.lose(bytes.as_slice(), found),
            Event::Reach { point, position } => self.reach(*point, *position),
            Event::Restart {
                node,
                clock,
                first_sequence_number,
            } => self.restart(*node, *clock, *first_sequence_number)?,
        }
        Ok(Answer::Done)
    }
}
