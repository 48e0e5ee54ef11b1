//! What the nodes of a station did, in one order, is safe.

ghost use Rattle.std.specs.Prelude.{◌≡◌, ◌++◌, List};
ghost use Rattle.node_kinds.specs.ixl_table.Table.{IsTableOf};
ghost use Rattle.node_kinds.specs.simulator_spec.First.{IsOutsetOf, Outset, world_at};
ghost use Rattle.node_kinds.specs.simulator_spec.TrueClocks.{KeepTime, MayAllCome};
ghost use Rattle.node_kinds.specs.simulator_spec.ixl_spec.Table.{Table};
ghost use Rattle.node_kinds.specs.simulator_spec.layout.Entries.{Site};
ghost use Rattle.node_kinds.specs.simulator_spec.layout.Once.{Once};
ghost use Rattle.node_kinds.specs.simulator_spec.layout.Station.{IsStation};
ghost use Rattle.node_kinds.specs.simulator_spec.simulator_event.Safe.{Safe};
ghost use Rattle.node_kinds.specs.simulator_spec.simulator_event.declared.event.Event.{Event};
ghost use Rattle.node_kinds.specs.simulator_spec.simulator_event.declared.snapshot.Snapshot.{Snapshot};
ghost use Rattle.node_safety.specs.Orders.{Entry, IsHistory, IsOnLines, events_of};
ghost use Rattle.node_safety.specs.Runs.{AreNodes};

use crate::laws::{controllers_are_those_of_a_world, orders_tell_all_until_the_next};
use simulator_node_laws::{
    a_point_drives_as_its_last_line, a_point_may_be_told_while_it_is_driven,
    contacts_of_sections_change_no_snapshot, what_is_delivered_left_a_node,
    what_nodes_of_true_clocks_show_is_safe, what_the_nodes_show_is_seen,
};

/// What the nodes of a station order is safe, whatever happened, where each lived as a process or in a program as its node does in a
/// list of events that can come, with the clocks of real machines. So it is where of each what came is counted up to the last step whose
/// order is in force: no datagram of a later step has left.
pub fn what_processes_and_programs_do_is_safe()
    ensures { (site : Site) (table : Table) (outset : Outset) → IsOutsetOf site outset → (events : List Event) → Once site → IsStation site → IsTableOf site table
        → MayAllCome site table events (world_at site table outset) → KeepTime site table events (world_at site table outset)
        → (are : AreNodes site table outset events) (seen : Snapshot) → IsOnLines site table outset events are seen → Safe site seen }
{
    a_point_drives_as_its_last_line();
    what_the_nodes_show_is_seen();
    what_nodes_of_true_clocks_show_is_safe();
    controllers_are_those_of_a_world();
    orders_tell_all_until_the_next();
}

/// Where there is one order of all that the nodes of a station did, as processes by their own records or in programs by their calls,
/// which keeps what a history has to keep, what stands on their lines, or is ordered by the programs, is safe after each part of it.
pub fn what_processes_and_programs_did_is_safe()
    ensures { (site : Site) (table : Table) (outset : Outset) → IsOutsetOf site outset → Once site → IsStation site → IsTableOf site table
        → (order : List Entry) (history : IsHistory site table outset order) (before behind : List Entry) (is : order ≡ before ++ behind) (seen : Snapshot)
        → IsOnLines site table outset (events_of before) (history.records before behind is) seen → Safe site seen }
{
    contacts_of_sections_change_no_snapshot();
    what_is_delivered_left_a_node();
    a_point_may_be_told_while_it_is_driven();
    a_point_drives_as_its_last_line();
    orders_tell_all_until_the_next();
    what_processes_and_programs_do_is_safe();
}
