//! Controllers in a program's own loop.

ghost use Rattle.std.specs.Prelude.{◌≡◌, ◌++◌, ◌∷◌, ℕ, List, false, map, Some};
ghost use Rattle.std.specs.List.{zip};
ghost use Rattle.node_kinds.specs.simulator_spec.First.{Outset, new_point, new_signal};
ghost use Rattle.node_kinds.specs.simulator_spec.Nodes.{key_of};
ghost use Rattle.node_kinds.specs.simulator_spec.control_table.Table.{telegram_version};
ghost use Rattle.node_kinds.specs.simulator_spec.ixl_spec.Table.{Table};
ghost use Rattle.node_kinds.specs.simulator_spec.layout.Entries.{DetectorEntry, Site};
ghost use Rattle.node_kinds.specs.simulator_spec.layout.declared.entries.Point.{Point as PointEntry};
ghost use Rattle.node_kinds.specs.simulator_spec.layout.declared.entries.Signal.{Signal as SignalEntry};
ghost use Rattle.node_kinds.specs.simulator_spec.object_host.Host.{HostState};
ghost use Rattle.node_kinds.specs.simulator_spec.object_host.Hosted.{new_host};
ghost use Rattle.node_kinds.specs.simulator_spec.object_host.declared.input.Input.{Input};
ghost use Rattle.node_kinds.specs.simulator_spec.point_ctl.Controlled.{point_behaviour};
ghost use Rattle.node_kinds.specs.simulator_spec.point_ctl.Drive.{PointState, drives, made};
ghost use Rattle.node_kinds.specs.simulator_spec.rasta_core.identity.Role.TheVariants.{Server};
ghost use Rattle.node_kinds.specs.simulator_spec.sci_telegram.declared.message.Occupancy.{Occupancy};
ghost use Rattle.node_kinds.specs.simulator_spec.sci_telegram.declared.message.Position.{Position};
ghost use Rattle.node_kinds.specs.simulator_spec.signal_ctl.Lamp.{aspect_shown, new_lamp};
ghost use Rattle.node_kinds.specs.simulator_spec.signal_ctl.Signal.{SignalState, signal_behaviour};
ghost use Rattle.node_kinds.specs.simulator_spec.simulator_event.declared.event.Event.{Event};
ghost use Rattle.node_kinds.specs.simulator_spec.tds_ctl.Controlled.{detection_behaviour};
ghost use Rattle.node_kinds.specs.simulator_spec.tds_ctl.Sections as sections;
ghost use Rattle.node_kinds.specs.simulator_spec.tds_ctl.declared.section.Section.{Section};
ghost use Rattle.embedded_host.specs.Calls.{Call, Takes, after_calls, leaves_by};
ghost use Rattle.embedded_host.specs.Embedded.{started};
ghost use Rattle.embedded_host.specs.Leaving.{IsHandedOutBy};
ghost use Rattle.embedded_host.specs.Orders.{followed_after, up_to_done};
ghost use Rattle.simulator_node_laws.specs.Lives.{detector_sensing, own_names};
ghost use Rattle.simulator_node_laws.specs.Said.{detector_life};
ghost use Rattle.simulator_node_laws.specs.Shown.{host_now, point_life, signal_life};
ghost use Rattle.node_safety.specs.Processes.{driven_by, shown_by};
ghost use Rattle.node_safety.specs.Runs.{IsOfCalls, IsWhole, order_by, point_order, signal_order};

use crate::laws::orders_tell_all_until_the_next;
use embedded_host::{calls_are_inputs, the_equipment_follows_what_counts, what_leaves_counts};
use node_kinds::simulator_spec::point_ctl::Point;
use node_kinds::simulator_spec::signal_ctl::Signal;
use node_kinds::simulator_spec::tds_ctl::Detection;
use simulator_node_laws::a_point_drives_as_its_last_line;

/// A program that starts a controller by the names, the identities, the key and the version of a layout starts a new node of it.
pub fn programs_start_new_nodes()
    ensures signals { (site : Site) (entry : SignalEntry) (first now : ℕ)
        → new_host signal_behaviour (record { role = Server; own = entry.id; partner = site.station.id; key = key_of site }) entry.name site.station.name first now (record { lamp = new_lamp; owes = false }) (telegram_version site)
        ≡ new_signal site (record { clock = now; first = first }) entry }
    ensures points { (site : Site) (entry : PointEntry) (position : Position) (first now : ℕ)
        → new_host point_behaviour (record { role = Server; own = entry.id; partner = site.station.id; key = key_of site }) entry.name site.station.name first now (made position) (telegram_version site)
        ≡ new_point site (record { clock = now; first = first }) position entry }
    ensures detectors { (site : Site) (entry : DetectorEntry) (sensed : List Occupancy) (first now : ℕ)
        → new_host detection_behaviour (record { role = Server; own = entry.id; partner = site.station.id; key = key_of site }) entry.name site.station.name first now (map sections.made (zip (own_names site entry.sections) sensed)) (telegram_version site)
        ≡ detector_sensing site (record { clock = now; first = first }) sensed entry }
{}

/// A program's controller is that of the world in whose events it lived, once its calls up to the last `done` are told.
pub fn programs_are_the_nodes_of_a_world()
    ensures signals { (site : Site) (table : Table) (events : List Event) (place : ℕ) (entry : SignalEntry) →
        let life = signal_life site table events place in let host = new_signal site life.begins entry in
        (is : IsOfCalls signal_behaviour host life.begins.clock life.came) → IsWhole is
        → (after_calls signal_behaviour (up_to_done is.calls) (started host life.begins.clock)).hosted.host ≡ host_now signal_behaviour (λ begins sensed. new_signal site begins entry) life }
    ensures points { (site : Site) (table : Table) (outset : Outset) (events : List Event) (place : ℕ) (entry : PointEntry) →
        let life = point_life site table outset events place in let host = new_point site life.begins life.sensed entry in
        (is : IsOfCalls point_behaviour host life.begins.clock life.came) → IsWhole is
        → (after_calls point_behaviour (up_to_done is.calls) (started host life.begins.clock)).hosted.host ≡ host_now point_behaviour (λ begins position. new_point site begins position entry) life }
    ensures detectors { (site : Site) (table : Table) (outset : Outset) (events : List Event) (place : ℕ) (entry : DetectorEntry) →
        let life = detector_life site table outset events place in let host = detector_sensing site life.begins life.sensed entry in
        (is : IsOfCalls detection_behaviour host life.begins.clock life.came) → IsWhole is
        → (after_calls detection_behaviour (up_to_done is.calls) (started host life.begins.clock)).hosted.host ≡ host_now detection_behaviour (λ begins sensed. detector_sensing site begins sensed entry) life }
{
    calls_are_inputs::<Signal>();
    calls_are_inputs::<Point>();
    calls_are_inputs::<Detection>();
}

/// Equipment that does from each `done` on what its controller ordered then shows, and drives, what the last order of the node says, at
/// every reading.
pub fn equipment_follows_its_program()
    ensures lamps { (host : HostState SignalState) (begun : ℕ) (came : List (ℕ × Input)) (is : IsOfCalls signal_behaviour host begun came) → IsWhole is → (now : ℕ)
        → aspect_shown (followed_after signal_behaviour is.calls (started host begun) host.object).lamp now ≡ shown_by (order_by signal_order is) now }
    ensures motors { (host : HostState PointState) (begun : ℕ) (came : List (ℕ × Input)) (is : IsOfCalls point_behaviour host begun came) → IsWhole is → (now : ℕ)
        → drives now (followed_after point_behaviour is.calls (started host begun) host.object) ≡ driven_by (order_by point_order is) now }
{
    the_equipment_follows_what_counts::<Signal>();
    the_equipment_follows_what_counts::<Point>();
    orders_tell_all_until_the_next();
    a_point_drives_as_its_last_line();
}

/// Each datagram that left a program, by whichever of its calls, was handed out as something came to its node that counts, less than
/// 500 ms before.
pub fn what_programs_send_counts()
    ensures signals { (host : HostState SignalState) (begun : ℕ) (came : List (ℕ × Input)) (is : IsOfCalls signal_behaviour host begun came) → IsWhole is
        → (before behind : List Call) (now : ℕ) (datagram : List ℕ) → is.calls ≡ before ++ Takes now ∷ behind → leaves_by (Takes now) (after_calls signal_behaviour before (started host begun)) ≡ Some datagram
        → IsHandedOutBy signal_behaviour came host now datagram }
    ensures points { (host : HostState PointState) (begun : ℕ) (came : List (ℕ × Input)) (is : IsOfCalls point_behaviour host begun came) → IsWhole is
        → (before behind : List Call) (now : ℕ) (datagram : List ℕ) → is.calls ≡ before ++ Takes now ∷ behind → leaves_by (Takes now) (after_calls point_behaviour before (started host begun)) ≡ Some datagram
        → IsHandedOutBy point_behaviour came host now datagram }
    ensures detectors { (host : HostState (List Section)) (begun : ℕ) (came : List (ℕ × Input)) (is : IsOfCalls detection_behaviour host begun came) → IsWhole is
        → (before behind : List Call) (now : ℕ) (datagram : List ℕ) → is.calls ≡ before ++ Takes now ∷ behind → leaves_by (Takes now) (after_calls detection_behaviour before (started host begun)) ≡ Some datagram
        → IsHandedOutBy detection_behaviour came host now datagram }
{
    what_leaves_counts::<Signal>();
    what_leaves_counts::<Point>();
    what_leaves_counts::<Detection>();
}
