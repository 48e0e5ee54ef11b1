//! The steps of the interlocking.

ghost use Rattle.std.specs.Prelude.{◌≡◌, List, None, Some, ℕ};
ghost use Rattle.simulator_link_laws.specs.layout.Entries.{Site};
ghost use Rattle.simulator_link_laws.specs.layout.Once.{Once};
ghost use Rattle.simulator_link_laws.specs.layout.Station.{IsStation};
ghost use Rattle.simulator_link_laws.specs.ixl_spec.Table.{Table};
ghost use Rattle.simulator_link_laws.specs.ixl_spec.declared.command.Command.{Command};
ghost use Rattle.ixl_table.specs.Table.{IsTableOf};
ghost use Rattle.simulator_link_laws.specs.simulator_event.declared.event.Event.TheVariants.{Deliver, Request, Tick};
ghost use Rattle.simulator_link_laws.specs.simulator_event.layout.declared.ids.NodeId.{NodeId};
ghost use Rattle.simulator_machine.specs.Machine.{Machine};
ghost use Rattle.simulator_link_laws.specs.simulator_spec.Happens.{happens};
ghost use Rattle.simulator_link_laws.specs.simulator_spec.Nodes.{Interlocking, node_at};
ghost use Rattle.simulator_link_laws.specs.simulator_spec.Refusals.{refusal};
ghost use Rattle.simulator_link_laws.specs.simulator_spec.State.{WorldState};
ghost use Rattle.simulator_safety.specs.Represents.{Represents, RepresentsAfter};

use crate::{
    calls_give_and_take_at_the_ends, clients_are_seen_at_their_ends, far_ends_are_known,
    networks_follow_their_worlds, peers_with_names_are_read,
};
use rasta_core::a_node_makes_a_step;
use simulator_link_laws::simulator_move_laws::{
    a_client_of_many_makes_a_step, lawful_worlds_stay_lawful, points_stay_elsewhere,
    representations_tell_the_connection, signals_stay_elsewhere, steps_are_seen, tables_are_sound,
};
use simulator_link_laws::{
    deliveries_may_come, ends_are_those_of_the_nodes, events_are_those_of_the_links,
    interlockings_call_their_nodes, layouts_name_their_links,
};
use simulator_machine::invariant_is_kept;

/// A step of the interlocking, with a command, on a tick and with a datagram, is a list of moves of the machine, which sees
/// the world after it.
pub fn steps_of_interlockings_are_represented()
    ensures request { (site : Site) (table : Table) (command : Command) (world : WorldState) (machine : Machine) → Once site → IsStation site → IsTableOf site table
        → Represents site table world machine → RepresentsAfter site table machine (happens site table (Request command) world) }
    ensures tick { (site : Site) (table : Table) (node : NodeId) (world : WorldState) (machine : Machine) → Once site → IsStation site → IsTableOf site table
        → Represents site table world machine → refusal site (Tick node) world ≡ None → node_at site node.0 ≡ Some Interlocking
        → RepresentsAfter site table machine (happens site table (Tick node) world) }
    ensures delivery { (site : Site) (table : Table) (node : NodeId) (bytes : List ℕ) (world : WorldState) (machine : Machine) → Once site → IsStation site
        → IsTableOf site table → Represents site table world machine → refusal site (Deliver node bytes) world ≡ None → node_at site node.0 ≡ Some Interlocking
        → RepresentsAfter site table machine (happens site table (Deliver node bytes) world) }
{
    a_client_of_many_makes_a_step();
    a_node_makes_a_step();
    calls_give_and_take_at_the_ends();
    clients_are_seen_at_their_ends();
    deliveries_may_come();
    ends_are_those_of_the_nodes();
    events_are_those_of_the_links();
    far_ends_are_known();
    invariant_is_kept();
    lawful_worlds_stay_lawful();
    layouts_name_their_links();
    networks_follow_their_worlds();
    peers_with_names_are_read();
    representations_tell_the_connection();
    points_stay_elsewhere();
    signals_stay_elsewhere();
    interlockings_call_their_nodes();
    steps_are_seen();
    tables_are_sound();
}
