//! What happens at the controller of a detector, and what the network loses.

ghost use Rattle.std.specs.Prelude.{◌≡◌, ℕ, List, None, Some};
ghost use Rattle.simulator_link_laws.specs.sci_telegram.declared.message.Occupancy.{Occupancy};
ghost use Rattle.simulator_link_laws.specs.layout.declared.ids.SectionId.{SectionId};
ghost use Rattle.simulator_link_laws.specs.layout.Entries.{Site};
ghost use Rattle.simulator_link_laws.specs.layout.Once.{Once};
ghost use Rattle.simulator_link_laws.specs.layout.Station.{IsStation};
ghost use Rattle.simulator_link_laws.specs.ixl_spec.Table.{Table};
ghost use Rattle.simulator_link_laws.specs.simulator_event.declared.event.Event.TheVariants.{Deliver, Lose, Occupy, Restart, Tick};
ghost use Rattle.simulator_link_laws.specs.simulator_event.layout.declared.ids.NodeId.{NodeId};
ghost use Rattle.simulator_machine.specs.Machine.{Machine};
ghost use Rattle.simulator_safety.specs.Represents.{Represents, RepresentsAfter};
ghost use Rattle.simulator_link_laws.specs.simulator_spec.Happens.{happens};
ghost use Rattle.simulator_link_laws.specs.simulator_spec.Nodes.{Detector, node_at};
ghost use Rattle.simulator_link_laws.specs.simulator_spec.Refusals.{refusal};
ghost use Rattle.simulator_link_laws.specs.simulator_spec.State.{WorldState};

use crate::changes::changes_are_represented;
use crate::networks_follow_their_worlds;
use rasta_core::a_node_restarts;
use simulator_link_laws::simulator_move_laws::a_node_of_one_link_makes_a_step;

/// The machine sees nothing of what happens at the controller of a detector, and so it sees the world then: its tick, what
/// is delivered to it, a section that is occupied or cleared, and its being made anew.
pub fn events_at_detectors_are_represented()
    ensures tick { (site : Site) (table : Table) (node : NodeId) (place : ℕ) (world : WorldState) (machine : Machine) → IsStation site → Once site
        → node_at site node.0 ≡ Some (Detector place) → refusal site (Tick node) world ≡ None → Represents site table world machine
        → RepresentsAfter site table machine (happens site table (Tick node) world) }
    ensures delivery { (site : Site) (table : Table) (node : NodeId) (bytes : List ℕ) (place : ℕ) (world : WorldState) (machine : Machine) → IsStation site → Once site
        → node_at site node.0 ≡ Some (Detector place) → refusal site (Deliver node bytes) world ≡ None → Represents site table world machine
        → RepresentsAfter site table machine (happens site table (Deliver node bytes) world) }
    ensures contact { (site : Site) (table : Table) (section : SectionId) (occupancy : Occupancy) (world : WorldState) (machine : Machine) → IsStation site → Once site
        → refusal site (Occupy section occupancy) world ≡ None → Represents site table world machine
        → RepresentsAfter site table machine (happens site table (Occupy section occupancy) world) }
    ensures restart { (site : Site) (table : Table) (node : NodeId) (clock first place : ℕ) (world : WorldState) (machine : Machine) → IsStation site → Once site
        → node_at site node.0 ≡ Some (Detector place) → refusal site (Restart node clock first) world ≡ None → Represents site table world machine
        → RepresentsAfter site table machine (happens site table (Restart node clock first) world) }
{
    a_node_of_one_link_makes_a_step();
    a_node_restarts();
    changes_are_represented();
    networks_follow_their_worlds();
}

/// Nor does it see which datagrams are lost.
pub fn losses_are_represented()
    ensures { (site : Site) (table : Table) (bytes : List ℕ) (world : WorldState) (machine : Machine) → IsStation site → Once site
        → refusal site (Lose bytes) world ≡ None → Represents site table world machine → RepresentsAfter site table machine (happens site table (Lose bytes) world) }
{
    changes_are_represented();
    networks_follow_their_worlds();
}
