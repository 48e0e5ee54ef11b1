//! Every event, and every list of events.

ghost use Rattle.std.specs.Prelude.{[], ◌++◌, ◌∷◌, ◌≡◌, List, None};
ghost use Rattle.simulator_link_laws.specs.layout.Entries.{Site};
ghost use Rattle.simulator_link_laws.specs.layout.Once.{Once};
ghost use Rattle.simulator_link_laws.specs.layout.Station.{IsStation};
ghost use Rattle.simulator_link_laws.specs.ixl_spec.Table.{Table};
ghost use Rattle.ixl_table.specs.Table.{IsTableOf};
ghost use Rattle.simulator_link_laws.specs.simulator_event.declared.event.Event.{Event};
ghost use Rattle.simulator_machine.specs.Machine.{Machine};
ghost use Rattle.simulator_machine.specs.Run.{first};
ghost use Rattle.simulator_link_laws.specs.simulator_spec.Run.{CanHappen, after_all};
ghost use Rattle.simulator_link_laws.specs.simulator_spec.First.{IsOutsetOf, Outset, world_at};
ghost use Rattle.simulator_link_laws.specs.simulator_spec.Happens.{happens};
ghost use Rattle.simulator_link_laws.specs.simulator_spec.Refusals.{refusal};
ghost use Rattle.simulator_link_laws.specs.simulator_spec.Seen.{IsSnapshotOf};
ghost use Rattle.simulator_link_laws.specs.simulator_spec.State.{WorldState};
ghost use Rattle.simulator_link_laws.specs.simulator_spec.TrueClocks.{KeepTime, MayAllCome, MayCome};
ghost use Rattle.simulator_link_laws.specs.TrueLinks.{KeepLinks};
ghost use Rattle.simulator_link_laws.specs.rasta_core.Links.{Links};
ghost use Rattle.simulator_link_laws.specs.simulator_event.Safe.{Safe};
ghost use Rattle.simulator_link_laws.specs.simulator_event.declared.snapshot.Snapshot.{Snapshot};
ghost use Rattle.simulator_safety.specs.Represents.{Represents, RepresentsAfter};
ghost use Rattle.simulator_safety.specs.Seen.{positions_at};

use crate::{
    controllers_events_are_represented, represented_worlds_are_safe,
    restarts_of_interlockings_are_represented, stations_begin_represented,
    steps_of_interlockings_are_represented, time_keeps_representations,
    time_of_true_clocks_keeps_representations,
};
use simulator_link_laws::true_clocks_keep_links;
use simulator_machine::lists_of_moves_compose;

/// Where the machine sees a world, each event that can happen is a list of moves of the machine: they lead it to a state in
/// which it sees the world after the event.
pub fn every_event_is_represented()
    ensures { (site : Site) (table : Table) (event : Event) (world : WorldState) (machine : Machine) → Once site → IsStation site → IsTableOf site table
        → Represents site table world machine → refusal site event world ≡ None → RepresentsAfter site table machine (happens site table event world) }
{
    controllers_events_are_represented();
    restarts_of_interlockings_are_represented();
    steps_of_interlockings_are_represented();
    time_keeps_representations();
}

/// So it is with every list of events that can happen to a world that the machine sees (*on*). From the machine's first state,
/// with each point where it stands, moves lead to one in which it sees what the events have made of the station (*first*).
pub fn every_world_is_reached_by_moves()
    ensures on { (site : Site) (table : Table) (events : List Event) (world : WorldState) (machine : Machine) → Once site → IsStation site → IsTableOf site table
        → Represents site table world machine → CanHappen site table events world → RepresentsAfter site table machine (after_all site table events world) }
    ensures first { (site : Site) (table : Table) (outset : Outset) (events : List Event) → Once site → IsStation site → IsTableOf site table → IsOutsetOf site outset
        → CanHappen site table events (world_at site table outset) → RepresentsAfter site table (first (positions_at outset)) (after_all site table events (world_at site table outset)) }
{
    every_event_is_represented();
    stations_begin_represented();
    lists_of_moves_compose();
}

/// After every list of requests, occupancies, steps of the clocks, ticks, deliveries, losses, movements of points and restarts
/// that can happen to a station, however it lies when it is started, the machine sees the station (*seen*), and it is safe: every snapshot
/// of it is (*safe*).
pub fn every_world_is_safe()
    ensures seen { (site : Site) (table : Table) (outset : Outset) (events : List Event) → Once site → IsStation site → IsTableOf site table → IsOutsetOf site outset
        → CanHappen site table events (world_at site table outset) → (machine : Machine) × Represents site table (after_all site table events (world_at site table outset)) machine }
    ensures safe { (site : Site) (table : Table) (outset : Outset) (events : List Event) (seen : Snapshot) → Once site → IsStation site → IsTableOf site table → IsOutsetOf site outset
        → CanHappen site table events (world_at site table outset) → IsSnapshotOf table (after_all site table events (world_at site table outset)) seen → Safe site seen }
{
    every_world_is_reached_by_moves();
    represented_worlds_are_safe();
}

/// A list of events that can happen goes on with one that can happen after it.
pub fn lists_of_events_go_on()
    ensures can { (site : Site) (table : Table) (events : List Event) (event : Event) (world : WorldState) → CanHappen site table events world
        → refusal site event (after_all site table events world) ≡ None → CanHappen site table (events ++ event ∷ []) world }
    ensures after { (site : Site) (table : Table) (events : List Event) (event : Event) (world : WorldState)
        → after_all site table (events ++ event ∷ []) world ≡ happens site table event (after_all site table events world) }
{}

/// The same of real machines, whose clocks are true to one part in a thousand between any two moments, give or take ten
/// microseconds, however short the events are. Each event of such a list keeps the machine's sight of the world (*event*). After
/// every list of them the machine sees the station (*reached*), and every snapshot of it is safe (*safe*).
pub fn every_world_of_true_clocks_is_safe()
    ensures event { (site : Site) (table : Table) (event : Event) (others : List Event) (world : WorldState) (machine : Machine) (network : Links) → Once site → IsStation site
        → IsTableOf site table → Represents site table world machine → KeepLinks site table (event ∷ others) world network → MayCome site event world
        → RepresentsAfter site table machine (happens site table event world) }
    ensures reached { (site : Site) (table : Table) (outset : Outset) (events : List Event) → Once site → IsStation site → IsTableOf site table → IsOutsetOf site outset
        → MayAllCome site table events (world_at site table outset) → KeepTime site table events (world_at site table outset)
        → RepresentsAfter site table (first (positions_at outset)) (after_all site table events (world_at site table outset)) }
    ensures safe { (site : Site) (table : Table) (outset : Outset) (events : List Event) (seen : Snapshot) → Once site → IsStation site → IsTableOf site table → IsOutsetOf site outset
        → MayAllCome site table events (world_at site table outset) → KeepTime site table events (world_at site table outset)
        → IsSnapshotOf table (after_all site table events (world_at site table outset)) seen → Safe site seen }
{
    every_event_is_represented();
    lists_of_moves_compose();
    represented_worlds_are_safe();
    stations_begin_represented();
    time_of_true_clocks_keeps_representations();
    true_clocks_keep_links();
}
