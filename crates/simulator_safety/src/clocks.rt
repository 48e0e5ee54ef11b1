//! Time, and an interlocking that is made anew.

ghost use Rattle.std.specs.Prelude.{◌≡◌, List, None, Some, ℕ};
ghost use Rattle.simulator_link_laws.specs.layout.Entries.{Site};
ghost use Rattle.simulator_link_laws.specs.layout.Once.{Once};
ghost use Rattle.simulator_link_laws.specs.layout.Station.{IsStation};
ghost use Rattle.simulator_link_laws.specs.ixl_spec.Table.{Table};
ghost use Rattle.ixl_table.specs.Table.{IsTableOf};
ghost use Rattle.simulator_link_laws.specs.simulator_event.declared.event.Event.TheVariants.{Restart, Time};
ghost use Rattle.simulator_link_laws.specs.simulator_event.layout.declared.ids.NodeId.{NodeId};
ghost use Rattle.simulator_machine.specs.Machine.{Machine, made_anew};
ghost use Rattle.simulator_link_laws.specs.simulator_spec.Happens.{happens};
ghost use Rattle.simulator_link_laws.specs.simulator_spec.Nodes.{Interlocking, node_at};
ghost use Rattle.simulator_link_laws.specs.simulator_spec.Refusals.{refusal};
ghost use Rattle.simulator_link_laws.specs.simulator_spec.State.{WorldState};
ghost use Rattle.simulator_link_laws.specs.simulator_spec.TrueClocks.{MayCome};
ghost use Rattle.simulator_link_laws.specs.TrueLinks.{AreTrueLinks};
ghost use Rattle.simulator_link_laws.specs.rasta_core.Links.{Links};
ghost use Rattle.simulator_safety.specs.Represents.{Represents, RepresentsAfter};

use crate::{
    calls_give_and_take_at_the_ends, clients_are_alone_after_quiet, clients_are_seen_at_their_ends,
    networks_follow_their_worlds, networks_pass_time, new_interlockings_are_just_made,
    represented_worlds_are_seen,
};
use rasta_core::a_node_restarts;
use simulator_link_laws::ends_are_those_of_the_nodes;
use simulator_link_laws::simulator_move_laws::{
    controllers_change_nothing_seen, lawful_ends_are_fit, lawful_worlds_stay_lawful,
    passing_time_is_moves, points_pass_time_and_restart, points_stay_elsewhere,
    representations_tell_the_connection, restarts_are_moves, restarts_of_links_are_moves,
    signals_pass_time_and_restart, signals_stay_elsewhere, tables_are_sound,
};
use simulator_machine::{invariant_is_kept, lists_of_moves_compose, moves_of_each_are_moves};

/// Time that passes is a list of moves of the machine: controllers leave their connections, then clients do, quiet times end,
/// and so does the hold. The machine sees the world after it.
pub fn time_keeps_representations()
    ensures { (site : Site) (table : Table) (elapsed : ℕ) (clocks : List ℕ) (world : WorldState) (machine : Machine) → Once site → IsStation site
        → Represents site table world machine → refusal site (Time elapsed clocks) world ≡ None
        → RepresentsAfter site table machine (happens site table (Time elapsed clocks) world) }
{
    calls_give_and_take_at_the_ends();
    clients_are_alone_after_quiet();
    clients_are_seen_at_their_ends();
    controllers_change_nothing_seen();
    ends_are_those_of_the_nodes();
    invariant_is_kept();
    lawful_ends_are_fit();
    lawful_worlds_stay_lawful();
    lists_of_moves_compose();
    moves_of_each_are_moves();
    networks_follow_their_worlds();
    passing_time_is_moves();
    representations_tell_the_connection();
    points_pass_time_and_restart();
    points_stay_elsewhere();
    signals_pass_time_and_restart();
    signals_stay_elsewhere();
    tables_are_sound();
}

/// So does time whose clocks are true, if some links of the world keep time then.
pub fn time_of_true_clocks_keeps_representations()
    ensures { (site : Site) (table : Table) (elapsed : ℕ) (clocks : List ℕ) (world : WorldState) (machine : Machine) (other : Links)
        → Represents site table world machine → MayCome site (Time elapsed clocks) world → AreTrueLinks site (happens site table (Time elapsed clocks) world) other
        → RepresentsAfter site table machine (happens site table (Time elapsed clocks) world) }
{
    calls_give_and_take_at_the_ends();
    clients_are_alone_after_quiet();
    clients_are_seen_at_their_ends();
    controllers_change_nothing_seen();
    ends_are_those_of_the_nodes();
    invariant_is_kept();
    lawful_ends_are_fit();
    lawful_worlds_stay_lawful();
    lists_of_moves_compose();
    moves_of_each_are_moves();
    networks_pass_time();
    passing_time_is_moves();
    representations_tell_the_connection();
    points_pass_time_and_restart();
    points_stay_elsewhere();
    signals_pass_time_and_restart();
    signals_stay_elsewhere();
    tables_are_sound();
}

/// An interlocking that is made anew is a move of the machine, which sees the world after it: its hold begins, and the
/// pairs that were held are frozen.
pub fn restarts_of_interlockings_are_represented()
    ensures { (site : Site) (table : Table) (node : NodeId) (clock first : ℕ) (world : WorldState) (machine : Machine) → Once site → IsStation site → IsTableOf site table
        → Represents site table world machine → refusal site (Restart node clock first) world ≡ None → node_at site node.0 ≡ Some Interlocking
        → (after : RepresentsAfter site table machine (happens site table (Restart node clock first) world)) × (after.machine ≡ made_anew machine) }
{
    a_node_restarts();
    calls_give_and_take_at_the_ends();
    clients_are_seen_at_their_ends();
    invariant_is_kept();
    restarts_of_links_are_moves();
    networks_follow_their_worlds();
    new_interlockings_are_just_made();
    represented_worlds_are_seen();
    representations_tell_the_connection();
    points_stay_elsewhere();
    restarts_are_moves();
    signals_stay_elsewhere();
    tables_are_sound();
}
