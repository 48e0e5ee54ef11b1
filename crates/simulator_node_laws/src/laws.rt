//! A station is its nodes.

ghost use Rattle.std.specs.Prelude.{◌≡◌, ◌<◌, ◌+◌, ◌++◌, [], ℕ, List, map, None, Some, slice_get, true};
ghost use Rattle.simulator_spec.specs.sci_telegram.declared.message.Occupancy.{Occupancy};
ghost use Rattle.simulator_spec.specs.sci_telegram.declared.message.Position.{Position};
ghost use Rattle.simulator_spec.specs.layout.Entries.{DetectorEntry, Site};
ghost use Rattle.simulator_spec.specs.layout.declared.entries.Point.{Point};
ghost use Rattle.simulator_spec.specs.layout.declared.entries.Signal.{Signal};
ghost use Rattle.simulator_spec.specs.rasta_core.Ends.{reading_of};
ghost use Rattle.simulator_spec.specs.object_host.Host.{HostState};
ghost use Rattle.simulator_spec.specs.object_host.declared.input.Input.{Input};
ghost use Rattle.simulator_spec.specs.signal_ctl.Lamp.{aspect_shown};
ghost use Rattle.simulator_spec.specs.point_ctl.Controlled.{point_behaviour};
ghost use Rattle.simulator_spec.specs.point_ctl.Drive.{PointState, drive_of, driven_by, drives};
ghost use Rattle.simulator_spec.specs.signal_ctl.Signal.{SignalState, signal_behaviour};
ghost use Rattle.simulator_spec.specs.ixl_spec.Table.{Table};
ghost use Rattle.simulator_spec.specs.rasta_pdu.SafetyCode.{intact};
ghost use Rattle.simulator_spec.specs.simulator_event.declared.event.Event.{Event};
ghost use Rattle.simulator_spec.specs.simulator_event.declared.event.Event.TheVariants as event;
ghost use Rattle.simulator_spec.specs.simulator_event.layout.declared.ids.NodeId.{NodeId};
ghost use Rattle.simulator_spec.specs.First.{IsOutsetOf, Outset, world_at};
ghost use Rattle.simulator_spec.specs.Happens.{happens};
ghost use Rattle.simulator_spec.specs.Nodes.{key_of, nodes};
ghost use Rattle.simulator_spec.specs.Refusals.{keeps_time, refusal};
ghost use Rattle.simulator_spec.specs.Seen.{IsSnapshotOf};
ghost use Rattle.simulator_spec.specs.State.{WorldState};
ghost use Rattle.simulator_spec.specs.simulator_event.declared.snapshot.Snapshot.{Snapshot};
ghost use Rattle.ixl_table.specs.Table.{IsTableOf};
ghost use Rattle.simulator_spec.specs.layout.Once.{Once};
ghost use Rattle.simulator_spec.specs.layout.Station.{IsStation};
ghost use Rattle.simulator_spec.specs.simulator_event.Safe.{Safe};
ghost use Rattle.simulator_spec.specs.Run.{CanHappen, after_all};
ghost use Rattle.simulator_spec.specs.TrueClocks.{KeepTime, MayAllCome};
ghost use Rattle.simulator_node_laws.specs.Lives.{LivesAsDetector, LivesAsInterlocking, LivesAsPoint, LivesAsSignal, detector_at, first_life, host_after, life_in, point_at, position_in, sections_in, signal_at, the_interlocking};
ghost use Rattle.simulator_node_laws.specs.Readings.{Rises};
ghost use Rattle.simulator_node_laws.specs.Said.{Departure, LeftInTime, NoneLost, departures_in, lamp_line, last_line, lines_after, said_in, said_to};
ghost use Rattle.simulator_node_laws.specs.Shown.{IsOfNodes};
ghost use Rattle.simulator_node_laws.specs.Split.{around, bytes_of, connection_in, handed_out_by, sent_at, stepped};
ghost use Rattle.simulator_node_laws.specs.Told.{Told, told};

use simulator_safety::{every_world_is_safe, every_world_of_true_clocks_is_safe};

/// An event changes what is around the nodes, and then at most one node makes a step, with what it is told (*split*). The
/// bytes that were sent grow by those that this step hands out, and by no others (*network*).
pub fn every_event_is_one_nodes()
    ensures split { (site : Site) (table : Table) (event : Event) (world : WorldState)
        → happens site table event world ≡ stepped site table (connection_in event world) (told site table event) (around site table event world) }
    ensures network { (site : Site) (table : Table) (event : Event) (world : WorldState)
        → bytes_of (happens site table event world).sent ≡ bytes_of world.sent ++ handed_out_by site table (told site table event) world }
{}

/// After every list of events each node is what came of its first state, since it was last made, by what came to it alone, each
/// with the reading of its clock. So is what it knows of its contacts: a detector was told how its own sections are, and of
/// no others.
pub fn a_station_is_its_nodes()
    ensures station { (site : Site) (table : Table) (outset : Outset) → IsOutsetOf site outset → (events : List Event)
        → LivesAsInterlocking site table (after_all site table events (world_at site table outset)) (life_in site table the_interlocking events (first_life tt)) }
    ensures signals { (site : Site) (table : Table) (outset : Outset) → IsOutsetOf site outset → (events : List Event) (place : ℕ) (entry : Signal) → slice_get site.signals place ≡ Some entry
        → LivesAsSignal site entry (after_all site table events (world_at site table outset)) place (life_in site table (signal_at place) events (first_life tt)) }
    ensures points { (site : Site) (table : Table) (outset : Outset) → IsOutsetOf site outset → (events : List Event) (place : ℕ) (entry : Point) → slice_get site.points place ≡ Some entry
        → LivesAsPoint site entry (after_all site table events (world_at site table outset)) place (life_in site table (point_at site place) events (first_life (position_in outset place))) }
    ensures detectors { (site : Site) (table : Table) (outset : Outset) → IsOutsetOf site outset → IsStation site → IsTableOf site table → (events : List Event) (place : ℕ) (entry : DetectorEntry) → slice_get site.detectors place ≡ Some entry
        → LivesAsDetector site entry (after_all site table events (world_at site table outset)) place (life_in site table (detector_at site place) events (first_life (sections_in site outset place))) }
{}

/// What the nodes show, drive and hold by their lives alone, with where the points stand, is a snapshot of the station (*seen*).
/// After every list of events there is one (*some*).
pub fn what_the_nodes_show_is_seen()
    ensures seen { (site : Site) (table : Table) (outset : Outset) → IsOutsetOf site outset → (events : List Event) (seen : Snapshot) → IsOfNodes site table outset events seen
        → IsSnapshotOf table (after_all site table events (world_at site table outset)) seen }
    ensures some { (site : Site) (table : Table) (outset : Outset) (events : List Event) → (seen : Snapshot) × IsOfNodes site table outset events seen }
{}

/// So what the nodes show, drive and hold by their lives alone is safe, after every list of events that can happen.
pub fn what_the_nodes_show_is_safe()
    ensures { (site : Site) (table : Table) (outset : Outset) → IsOutsetOf site outset → (events : List Event) (seen : Snapshot) → Once site → IsStation site → IsTableOf site table
        → CanHappen site table events (world_at site table outset) → IsOfNodes site table outset events seen → Safe site seen }
{
    every_world_is_safe();
    what_the_nodes_show_is_seen();
}

/// It is safe with the clocks of real machines, too: true to one part in a thousand between any two moments, give or take ten
/// microseconds, however short the events are.
pub fn what_nodes_of_true_clocks_show_is_safe()
    ensures { (site : Site) (table : Table) (outset : Outset) → IsOutsetOf site outset → (events : List Event) (seen : Snapshot) → Once site → IsStation site → IsTableOf site table
        → MayAllCome site table events (world_at site table outset) → KeepTime site table events (world_at site table outset)
        → IsOfNodes site table outset events seen → Safe site seen }
{
    every_world_of_true_clocks_is_safe();
    what_the_nodes_show_is_seen();
}

/// All bytes that were sent are those that the nodes handed out by their lives, in the order of the events: those of the step of
/// one node (*steps*), one event after another (*all*). Each was sent at the true time at which it left its node by the events
/// alone (*times*), and what left are these bytes (*bytes*).
pub fn what_is_sent_is_what_nodes_say()
    ensures steps { (site : Site) (table : Table) (outset : Outset) → IsOutsetOf site outset → IsStation site → IsTableOf site table → (events : List Event) (what : Told)
        → handed_out_by site table what (after_all site table events (world_at site table outset)) ≡ said_to site table outset events what }
    ensures all { (site : Site) (table : Table) (outset : Outset) → IsOutsetOf site outset → IsStation site → IsTableOf site table → (events : List Event)
        → bytes_of (after_all site table events (world_at site table outset)).sent ≡ said_in site table outset [] events }
    ensures times { (site : Site) (table : Table) (outset : Outset) → IsOutsetOf site outset → IsStation site → IsTableOf site table → (events : List Event)
        → sent_at (after_all site table events (world_at site table outset)).sent ≡ map (λ (one : Departure). (one.bytes, one.time)) (departures_in site table outset [] events) }
    ensures bytes { (site : Site) (table : Table) (outset : Outset) (events : List Event)
        → map (λ (one : Departure). one.bytes) (departures_in site table outset [] events) ≡ said_in site table outset [] events }
{}

/// No datagram older than 2000 ms is taken: intact bytes can be delivered only where they left a node by its life at most 2000 ms
/// of true time ago (*left*). Where they did, and nothing is lost, they can be delivered to every node (*comes*).
pub fn what_is_delivered_left_a_node()
    ensures left { (site : Site) (table : Table) (outset : Outset) → IsOutsetOf site outset → IsStation site → IsTableOf site table → (events : List Event) (node : NodeId) (bytes : List ℕ)
        → refusal site (event.Deliver node bytes) (after_all site table events (world_at site table outset)) ≡ None → intact (key_of site) bytes ≡ true
        → LeftInTime site table outset events bytes }
    ensures comes { (site : Site) (table : Table) (outset : Outset) → IsOutsetOf site outset → IsStation site → IsTableOf site table → (events : List Event) (node : NodeId) (bytes : List ℕ)
        → node.0 < nodes site → NoneLost events → LeftInTime site table outset events bytes
        → refusal site (event.Deliver node bytes) (after_all site table events (world_at site table outset)) ≡ None }
{}

/// The readings at which something came to a node begin at the first reading of its life, and don't fall; its clock has
/// reached the last of them.
pub fn the_readings_of_a_life_rise()
    ensures station { (site : Site) (table : Table) (events : List Event) → Rises (life_in site table the_interlocking events (first_life tt)) }
    ensures signals { (site : Site) (table : Table) (events : List Event) (place : ℕ) → Rises (life_in site table (signal_at place) events (first_life tt)) }
    ensures points { (site : Site) (table : Table) (events : List Event) (place : ℕ) (stands : Position) → Rises (life_in site table (point_at site place) events (first_life stands)) }
    ensures detectors { (site : Site) (table : Table) (events : List Event) (place : ℕ) (occupied : List Occupancy) → Rises (life_in site table (detector_at site place) events (first_life occupied)) }
{}

/// What a signal shows at any reading of its clock is what its last line says there: its aspect before the moment that the
/// line names, and stop from then on. A line is told after each step, and none when time runs out.
#[tactic(auto, using(crate::proofs::Said::shown_by_lines))]
pub fn a_signal_shows_its_last_line()
    ensures { (came : List (ℕ × Input)) (host : HostState SignalState) (now : ℕ)
        → aspect_shown (host_after signal_behaviour came host).object.lamp now ≡ aspect_shown (last_line (lamp_line host.object) (lines_after signal_behaviour lamp_line came host)) now }
{}

/// So it is with a point: it is driven to the side of its last line before the moment that the line names, which is the
/// earlier of the limit of the drive and the end of the link, and from then on not at all.
pub fn a_point_drives_as_its_last_line()
    ensures { (came : List (ℕ × Input)) (host : HostState PointState) (now : ℕ)
        → drives now (host_after point_behaviour came host).object ≡ driven_by (last_line (drive_of host.object) (lines_after point_behaviour drive_of came host)) now }
{}

/// In less than 1000 microseconds of true time no clock drifts by any, since its numbers are whole (*short*). In more than 1000
/// the reading of every clock goes on (*long*).
pub fn drift_turns_every_reading()
    ensures short { (elapsed of_clock : ℕ) → elapsed < 1000 → keeps_time elapsed of_clock ≡ true → of_clock ≡ elapsed }
    ensures long { (elapsed of_clock clock : ℕ) → 1000 < elapsed → keeps_time elapsed of_clock ≡ true → reading_of clock < reading_of (clock + of_clock) }
{}
