//! What happens at the controller of a point.

ghost use Rattle.std.specs.Prelude.{◌≡◌, ℕ, List, None, Some};
ghost use Rattle.simulator_link_laws.specs.sci_telegram.declared.message.Position.{Position};
ghost use Rattle.simulator_link_laws.specs.layout.declared.ids.PointId.{PointId};
ghost use Rattle.simulator_link_laws.specs.layout.Entries.{Site};
ghost use Rattle.simulator_link_laws.specs.layout.Once.{Once};
ghost use Rattle.simulator_link_laws.specs.layout.Station.{IsStation};
ghost use Rattle.simulator_link_laws.specs.ixl_spec.Table.{Table};
ghost use Rattle.simulator_link_laws.specs.simulator_event.declared.event.Event.TheVariants.{Deliver, Reach, Restart, Tick};
ghost use Rattle.simulator_link_laws.specs.simulator_event.layout.declared.ids.NodeId.{NodeId};
ghost use Rattle.simulator_machine.specs.Machine.{Machine};
ghost use Rattle.simulator_safety.specs.Represents.{Represents, RepresentsAfter};
ghost use Rattle.simulator_link_laws.specs.simulator_spec.Happens.{happens};
ghost use Rattle.simulator_link_laws.specs.simulator_spec.Nodes.{Point as PointAt, node_at};
ghost use Rattle.simulator_link_laws.specs.simulator_spec.Refusals.{refusal};
ghost use Rattle.simulator_link_laws.specs.simulator_spec.State.{WorldState};

use crate::changes::changes_are_represented;
use crate::networks_follow_their_worlds;
use object_host::{step_is_calls, steps_keep_a_host};
use rasta_core::a_node_restarts;
use simulator_link_laws::object_host_laws::point_makes_a_step;
use simulator_link_laws::simulator_move_laws::{
    a_node_of_one_link_makes_a_step, lawful_ends_are_fit, lawful_worlds_stay_lawful,
    points_pass_time_and_restart, restarts_of_links_are_moves, steps_of_points_are_moves,
};
use simulator_link_laws::{
    Point, deliveries_may_come, ends_are_those_of_the_nodes, hosts_say_items,
    layouts_name_their_links, links_are_named_by_their_controllers,
};
use simulator_machine::lists_of_moves_compose;

/// What happens at the controller of a point is a list of moves of the machine, which sees the world then: its tick, what
/// is delivered to it, a position that the driven point reaches, and its being made anew: the point stands where it stood.
pub fn events_at_points_are_represented()
    ensures tick { (site : Site) (table : Table) (node : NodeId) (place : ℕ) (world : WorldState) (machine : Machine) → IsStation site → Once site
        → node_at site node.0 ≡ Some (PointAt place) → refusal site (Tick node) world ≡ None → Represents site table world machine
        → RepresentsAfter site table machine (happens site table (Tick node) world) }
    ensures delivery { (site : Site) (table : Table) (node : NodeId) (bytes : List ℕ) (place : ℕ) (world : WorldState) (machine : Machine) → IsStation site → Once site
        → node_at site node.0 ≡ Some (PointAt place) → refusal site (Deliver node bytes) world ≡ None → Represents site table world machine
        → RepresentsAfter site table machine (happens site table (Deliver node bytes) world) }
    ensures reach { (site : Site) (table : Table) (point : PointId) (position : Position) (world : WorldState) (machine : Machine) → IsStation site → Once site
        → refusal site (Reach point position) world ≡ None → Represents site table world machine → RepresentsAfter site table machine (happens site table (Reach point position) world) }
    ensures restart { (site : Site) (table : Table) (node : NodeId) (clock first place : ℕ) (world : WorldState) (machine : Machine) → IsStation site → Once site
        → node_at site node.0 ≡ Some (PointAt place) → refusal site (Restart node clock first) world ≡ None → Represents site table world machine
        → RepresentsAfter site table machine (happens site table (Restart node clock first) world) }
{
    a_node_of_one_link_makes_a_step();
    a_node_restarts();
    changes_are_represented();
    deliveries_may_come();
    ends_are_those_of_the_nodes();
    hosts_say_items();
    lawful_ends_are_fit();
    lawful_worlds_stay_lawful();
    layouts_name_their_links();
    links_are_named_by_their_controllers();
    lists_of_moves_compose();
    networks_follow_their_worlds();
    point_makes_a_step();
    points_pass_time_and_restart();
    restarts_of_links_are_moves();
    step_is_calls::<Point>();
    steps_keep_a_host::<Point>();
    steps_of_points_are_moves();
}
