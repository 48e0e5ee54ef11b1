//! What a process records of its node.

ghost use Rattle.std.specs.Prelude.{◌≡◌, ℕ, false, Some, slice_get, true};
ghost use Rattle.node_kinds.specs.Controllers.{detector_kind, point_kind, signal_kind};
ghost use Rattle.node_kinds.specs.Interlockings.{interlocking_kind};
ghost use Rattle.node_kinds.specs.Processes.{NodeCut, NodeRuns, detector_made, interlocking_made, point_made, signal_made};
ghost use Rattle.node_kinds.specs.declared.keeping.Keeping.{Keeping};
ghost use Rattle.node_kinds.specs.simulator_spec.ixl_spec.closings.declared.auxiliary.AuxiliaryCounts.{AuxiliaryCounts};
ghost use Rattle.node_kinds.specs.node_drive.Calls.{Told};
ghost use Rattle.node_kinds.specs.node_drive.Rounds.{CourseState};
ghost use Rattle.node_kinds.specs.simulator_spec.Nodes.{Detector, Interlocking, Point, Signal};
ghost use Rattle.node_kinds.specs.simulator_spec.layout.Entries.{DetectorEntry, Site};
ghost use Rattle.node_kinds.specs.simulator_spec.layout.declared.entries.Point.{Point as PointEntry};
ghost use Rattle.node_kinds.specs.simulator_spec.layout.declared.entries.Signal.{Signal as SignalEntry};
ghost use Rattle.node_safety.specs.Records.{Records, WritesItsOrders, made_before, made_in, station_before};

use crate::kinds::{Detectors, Interlockings, Openings, Points, Signals};
use node_kinds::node_drive::what_is_sent_is_sent_in_time;

/// What a process did by the contract of `station_node::run_node` is the record of a node: where it made one, and where it was
/// made, all that came to it from then on is there, in whose rounds all was called. Each datagram that was sent is one that a step
/// of this node handed out less than 500 ms before the last reading in front of it.
pub fn a_process_records_its_node()
    ensures station { (site : Site) (keeping : Keeping) (counts : AuxiliaryCounts) (first for_ms begins : ℕ) (after : CourseState) (old new : Told) (runs : NodeRuns site keeping counts first for_ms begins after old new (Some Interlocking))
        → Records interlocking_kind (interlocking_made site first keeping counts) true (Some (runs.table, runs.lives.now)) old new }
    ensures signals { (site : Site) (keeping : Keeping) (counts : AuxiliaryCounts) (first for_ms begins place : ℕ) (after : CourseState) (old new : Told) (runs : NodeRuns site keeping counts first for_ms begins after old new (Some (Signal place))) (entry : SignalEntry) (there : slice_get site.signals place ≡ Some entry)
        → Records signal_kind (signal_made site first entry) true (made_in (runs entry there)) old new }
    ensures points { (site : Site) (keeping : Keeping) (counts : AuxiliaryCounts) (first for_ms begins place : ℕ) (after : CourseState) (old new : Told) (runs : NodeRuns site keeping counts first for_ms begins after old new (Some (Point place))) (entry : PointEntry) (there : slice_get site.points place ≡ Some entry)
        → Records point_kind (point_made site first entry) true (made_in (runs entry there)) old new }
    ensures detectors { (site : Site) (keeping : Keeping) (counts : AuxiliaryCounts) (first for_ms begins place : ℕ) (after : CourseState) (old new : Told) (runs : NodeRuns site keeping counts first for_ms begins after old new (Some (Detector place))) (entry : DetectorEntry) (there : slice_get site.detectors place ≡ Some entry)
        → Records detector_kind (detector_made site first entry) true (made_in (runs entry there)) old new }
{
    what_is_sent_is_sent_in_time::<Openings>();
    what_is_sent_is_sent_in_time::<Interlockings>();
    what_is_sent_is_sent_in_time::<Signals>();
    what_is_sent_is_sent_in_time::<Points>();
    what_is_sent_is_sent_in_time::<Detectors>();
}

/// So it is where the process was cut off: what was called is a beginning of what the rounds call.
pub fn a_process_that_is_cut_off_records_its_node()
    ensures station { (site : Site) (keeping : Keeping) (counts : AuxiliaryCounts) (first for_ms begins : ℕ) (old new : Told) (stopped : NodeCut site keeping counts first for_ms begins old new (Some Interlocking))
        → Records interlocking_kind (interlocking_made site first keeping counts) false (station_before stopped) old new }
    ensures signals { (site : Site) (keeping : Keeping) (counts : AuxiliaryCounts) (first for_ms begins place : ℕ) (old new : Told) (stopped : NodeCut site keeping counts first for_ms begins old new (Some (Signal place))) (entry : SignalEntry) (there : slice_get site.signals place ≡ Some entry)
        → Records signal_kind (signal_made site first entry) false (made_before (stopped entry there)) old new }
    ensures points { (site : Site) (keeping : Keeping) (counts : AuxiliaryCounts) (first for_ms begins place : ℕ) (old new : Told) (stopped : NodeCut site keeping counts first for_ms begins old new (Some (Point place))) (entry : PointEntry) (there : slice_get site.points place ≡ Some entry)
        → Records point_kind (point_made site first entry) false (made_before (stopped entry there)) old new }
    ensures detectors { (site : Site) (keeping : Keeping) (counts : AuxiliaryCounts) (first for_ms begins place : ℕ) (old new : Told) (stopped : NodeCut site keeping counts first for_ms begins old new (Some (Detector place))) (entry : DetectorEntry) (there : slice_get site.detectors place ≡ Some entry)
        → Records detector_kind (detector_made site first entry) false (made_before (stopped entry there)) old new }
{
    what_is_sent_is_sent_in_time::<Openings>();
    what_is_sent_is_sent_in_time::<Interlockings>();
    what_is_sent_is_sent_in_time::<Signals>();
    what_is_sent_is_sent_in_time::<Points>();
    what_is_sent_is_sent_in_time::<Detectors>();
}

/// What a controller writes, whatever comes to its process, are the orders of its node after each step, and nothing else.
pub fn controllers_write_their_orders()
    ensures signals { WritesItsOrders signal_kind }
    ensures points { WritesItsOrders point_kind }
    ensures detectors { WritesItsOrders detector_kind }
{}
