//! Worlds to which a list of events has led.

ghost use Rattle.std.specs.Prelude.{◌≡◌, None};
ghost use Rattle.simulator_link_laws.specs.layout.Entries.{Site};
ghost use Rattle.simulator_link_laws.specs.layout.Once.{Once};
ghost use Rattle.simulator_link_laws.specs.layout.Station.{IsStation};
ghost use Rattle.simulator_link_laws.specs.ixl_spec.Table.{Table};
ghost use Rattle.ixl_table.specs.Table.{IsTableOf};
ghost use Rattle.simulator_link_laws.specs.simulator_event.declared.event.Event.{Event};
ghost use Rattle.simulator_link_laws.specs.simulator_spec.First.{IsOutsetOf, Outset, first_world, world_at};
ghost use Rattle.simulator_link_laws.specs.simulator_spec.Happens.{happens};
ghost use Rattle.simulator_link_laws.specs.simulator_spec.Refusals.{refusal};
ghost use Rattle.simulator_link_laws.specs.simulator_spec.Seen.{IsSnapshotOf};
ghost use Rattle.simulator_link_laws.specs.simulator_spec.State.{WorldState};
ghost use Rattle.simulator_link_laws.specs.simulator_event.Safe.{Safe};
ghost use Rattle.simulator_link_laws.specs.simulator_event.declared.snapshot.Snapshot.{Snapshot};
ghost use Rattle.simulator_safety.specs.Reached.{HasSafeLinks, IsReached, IsReachedSafely};

use crate::flight::{
    aspects_in_flight_are_of_held_routes, items_are_read_off_the_datagrams,
    points_of_held_routes_are_at_rest, what_is_taken_was_in_flight,
};
use crate::headline::{every_world_is_safe, lists_of_events_go_on};
use simulator_link_laws::simulator_spec::the_first_world_is_at_rest;
use simulator_link_laws::{each_link_of_a_station_is_safe, stations_have_links};

/// A station as it lies when it is started is reached by no event (*at*), and so is the first world (*first*). An event that
/// can happen to a world that is reached leads to one (*on*). Each of them is safe, and so is each of its links (*links*).
/// What is in flight in it is of held routes, and what was given is read off its datagrams (*reached*).
pub fn reached_worlds_are_safe()
    ensures at { (site : Site) (table : Table) (outset : Outset) → IsOutsetOf site outset → IsReached site table (world_at site table outset) }
    ensures first { (site : Site) (table : Table) → IsReached site table (first_world site table) }
    ensures on { (site : Site) (table : Table) (event : Event) (world : WorldState) → IsReached site table world → refusal site event world ≡ None
        → IsReached site table (happens site table event world) }
    ensures safe { (site : Site) (table : Table) (world : WorldState) (seen : Snapshot) → Once site → IsStation site → IsTableOf site table
        → IsReached site table world → IsSnapshotOf table world seen → Safe site seen }
    ensures links { (site : Site) (table : Table) (world : WorldState) → Once site → IsStation site → IsReached site table world → HasSafeLinks site world }
    ensures reached { (site : Site) (table : Table) (world : WorldState) → Once site → IsStation site → IsTableOf site table → IsReached site table world
        → IsReachedSafely site table world }
{
    aspects_in_flight_are_of_held_routes();
    each_link_of_a_station_is_safe();
    every_world_is_safe();
    items_are_read_off_the_datagrams();
    lists_of_events_go_on();
    points_of_held_routes_are_at_rest();
    stations_have_links();
    the_first_world_is_at_rest();
    what_is_taken_was_in_flight();
}
