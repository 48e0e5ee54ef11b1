//! What the processes of a station's nodes do is safe.

ghost use Rattle.std.specs.Prelude.{◌≡◌, ℕ, List, Some, slice_get};
ghost use Rattle.node_kinds.specs.simulator_spec.First.{IsOutsetOf, Outset, new_point, new_signal, world_at};
ghost use Rattle.node_kinds.specs.simulator_spec.Run.{CanHappen};
ghost use Rattle.node_kinds.specs.simulator_spec.TrueClocks.{KeepTime, MayAllCome};
ghost use Rattle.node_kinds.specs.simulator_spec.ixl_spec.Table.{Table};
ghost use Rattle.node_kinds.specs.simulator_spec.layout.Entries.{DetectorEntry, Site};
ghost use Rattle.node_kinds.specs.simulator_spec.layout.Once.{Once};
ghost use Rattle.node_kinds.specs.simulator_spec.layout.Station.{IsStation};
ghost use Rattle.node_kinds.specs.simulator_spec.layout.declared.entries.Point.{Point as PointEntry};
ghost use Rattle.node_kinds.specs.simulator_spec.layout.declared.entries.Signal.{Signal as SignalEntry};
ghost use Rattle.node_kinds.specs.simulator_spec.point_ctl.Controlled.{point_behaviour};
ghost use Rattle.node_kinds.specs.simulator_spec.signal_ctl.Signal.{signal_behaviour};
ghost use Rattle.node_kinds.specs.simulator_spec.tds_ctl.Controlled.{detection_behaviour};
ghost use Rattle.node_kinds.specs.simulator_spec.simulator_event.declared.event.Event.{Event};
ghost use Rattle.node_kinds.specs.simulator_spec.simulator_event.Safe.{Safe};
ghost use Rattle.node_kinds.specs.simulator_spec.simulator_event.declared.snapshot.Snapshot.{Snapshot};
ghost use Rattle.node_kinds.specs.ixl_table.Table.{IsTableOf};
ghost use Rattle.node_kinds.specs.Controllers.{detector_kind, point_kind, signal_kind};
ghost use Rattle.node_kinds.specs.Interlockings.{interlocking_kind};
ghost use Rattle.simulator_node_laws.specs.Lives.{detector_sensing};
ghost use Rattle.simulator_node_laws.specs.Said.{detector_life};
ghost use Rattle.simulator_node_laws.specs.Shown.{host_now, interlocking_life, interlocking_now, point_life, signal_life};
ghost use Rattle.node_safety.specs.Processes.{AreOf, IsOfProcesses, Processes, now_stands};

use crate::kinds::{Detectors, Interlockings, Points, Signals};
use crate::laws::{
    controllers_are_those_of_a_world, interlockings_are_those_of_a_world,
    orders_tell_all_until_the_next,
};
use node_kinds::node_drive::{a_node_is_what_came_to_it, the_last_order_stands};
use simulator_node_laws::{
    a_point_drives_as_its_last_line, what_nodes_of_true_clocks_show_is_safe,
    what_the_nodes_show_is_safe,
};

/// Each process's node, a detector's too, is that of the world in whose events it lived: so what it does next is what the node of
/// the world does.
pub fn processes_are_the_nodes_of_a_world()
    ensures station { (site : Site) (table : Table) (outset : Outset) (events : List Event) (processes : Processes) → AreOf site table outset events processes
        → (now_stands interlocking_kind processes.station).state.ixl ≡ (interlocking_now site table (interlocking_life site table events)).ixl }
    ensures signals { (site : Site) (table : Table) (outset : Outset) (events : List Event) (processes : Processes) → AreOf site table outset events processes → (place : ℕ) (entry : SignalEntry) → slice_get site.signals place ≡ Some entry
        → (now_stands signal_kind (processes.signal place)).state.host ≡ host_now signal_behaviour (λ begins sensed. new_signal site begins entry) (signal_life site table events place) }
    ensures points { (site : Site) (table : Table) (outset : Outset) (events : List Event) (processes : Processes) → AreOf site table outset events processes → (place : ℕ) (entry : PointEntry) → slice_get site.points place ≡ Some entry
        → (now_stands point_kind (processes.point place)).state.host ≡ host_now point_behaviour (λ begins position. new_point site begins position entry) (point_life site table outset events place) }
    ensures detectors { (site : Site) (table : Table) (outset : Outset) (events : List Event) (processes : Processes) → AreOf site table outset events processes → (place : ℕ) (entry : DetectorEntry) → slice_get site.detectors place ≡ Some entry
        → (now_stands detector_kind (processes.detector place)).state.host ≡ host_now detection_behaviour (λ begins sensed. detector_sensing site begins sensed entry) (detector_life site table outset events place) }
{
    a_node_is_what_came_to_it::<Signals>();
    a_node_is_what_came_to_it::<Points>();
    a_node_is_what_came_to_it::<Detectors>();
    a_node_is_what_came_to_it::<Interlockings>();
    controllers_are_those_of_a_world();
    interlockings_are_those_of_a_world();
}

/// What the equipment of a station's processes shows and drives by the last orders that it was told is safe, whatever happened,
/// where each process lived as its node does in a list of events that can happen. So it is where of each process what came is
/// counted up to the last step whose order is in force: no datagram of a later step has left.
pub fn what_processes_do_is_safe()
    ensures { (site : Site) (table : Table) (outset : Outset) → IsOutsetOf site outset → (events : List Event) (processes : Processes) (seen : Snapshot) → Once site → IsStation site → IsTableOf site table
        → CanHappen site table events (world_at site table outset) → AreOf site table outset events processes → IsOfProcesses site table outset events processes seen → Safe site seen }
{
    what_the_nodes_show_is_safe();
    a_point_drives_as_its_last_line();
    a_node_is_what_came_to_it::<Signals>();
    a_node_is_what_came_to_it::<Points>();
    a_node_is_what_came_to_it::<Interlockings>();
    the_last_order_stands::<Signals>();
    the_last_order_stands::<Points>();
    controllers_are_those_of_a_world();
    interlockings_are_those_of_a_world();
    orders_tell_all_until_the_next();
}

/// It is safe with the clocks of real machines, too: true to one part in a thousand between any two moments, give or take ten
/// microseconds, however short the events are.
pub fn what_processes_of_true_clocks_do_is_safe()
    ensures { (site : Site) (table : Table) (outset : Outset) → IsOutsetOf site outset → (events : List Event) (processes : Processes) (seen : Snapshot) → Once site → IsStation site → IsTableOf site table
        → MayAllCome site table events (world_at site table outset) → KeepTime site table events (world_at site table outset)
        → AreOf site table outset events processes → IsOfProcesses site table outset events processes seen → Safe site seen }
{
    what_nodes_of_true_clocks_show_is_safe();
    a_point_drives_as_its_last_line();
    a_node_is_what_came_to_it::<Signals>();
    a_node_is_what_came_to_it::<Points>();
    a_node_is_what_came_to_it::<Interlockings>();
    the_last_order_stands::<Signals>();
    the_last_order_stands::<Points>();
    controllers_are_those_of_a_world();
    interlockings_are_those_of_a_world();
    orders_tell_all_until_the_next();
}
