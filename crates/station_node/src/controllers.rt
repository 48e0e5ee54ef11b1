//! The processes of controllers: their equipment tells how it is, and then the node is made, and lives.

ghost use Rattle.std.specs.Prelude.{◌≡◌, ◌<◌, length, slice_get, OnErr, OnOk, Some};
ghost use Rattle.node_kinds.specs.Controllers.{detector_kind, point_kind, signal_kind};
ghost use Rattle.node_kinds.specs.Openings.{Lamp, Motor, Sections};
ghost use Rattle.node_kinds.specs.node_drive.Beginning.{first_course};
ghost use Rattle.node_kinds.specs.simulator_spec.layout.Entries.{DetectorEntry};
ghost use Rattle.node_kinds.specs.simulator_spec.layout.declared.entries.Point.{Point as PointEntry};
ghost use Rattle.node_kinds.specs.simulator_spec.layout.declared.entries.Signal.{Signal as SignalEntry};
ghost use Rattle.station_node.specs.Processes.{Controls, ControlsCut, detector_made, point_made, signal_made, told_nothing, told_position, told_sections};

use crate::lives::{Told, live, open};
use node_kinds::node_drive::{Course, NodeFault, Outside};
use node_kinds::simulator_spec::{DetectorId, PointId, SignalId};
use node_kinds::{DetectorNode, Equipment, PointNode, SignalNode};
use std::alloc::Global;

/// The process of a signal.
pub(crate) fn run_signal<O: Outside>(
    alloc: Global,
    told: Told<'_>,
    signal: SignalId,
    course: &mut Course,
    outside: &mut O,
) -> Result<(), NodeFault>
    requires place { signal.0 < length told.table.now.signals }
    requires first { course.old ≡ first_course }
    ensures done { OnOk result ((entry : SignalEntry) → slice_get told.entry.table.now.signals signal.0 ≡ Some entry → Controls signal_kind told.entry.table.now Lamp told_nothing (signal_made told.entry.table.now told.entry.life.first entry) told.entry.life.for_ms told.entry.life.begins course.new (O.told outside.old) (O.told outside.new)) }
    ensures stopped { OnErr result ((entry : SignalEntry) → slice_get told.entry.table.now.signals signal.0 ≡ Some entry → ControlsCut signal_kind told.entry.table.now Lamp told_nothing (signal_made told.entry.table.now told.entry.life.first entry) told.entry.life.for_ms told.entry.life.begins (O.told outside.old) (O.told outside.new)) }
{
    let opening = open(alloc, told, Equipment::Lamp, course, outside)?;
    drop(opening);
    let now = outside.read_clock();
    let node = SignalNode::new(alloc, told.table, signal, now, told.life.first)?;
    live(alloc, node, course, outside, now, told.life)
}

/// The process of a point.
pub(crate) fn run_point<O: Outside>(
    alloc: Global,
    told: Told<'_>,
    point: PointId,
    course: &mut Course,
    outside: &mut O,
) -> Result<(), NodeFault>
    requires place { point.0 < length told.table.now.points }
    requires first { course.old ≡ first_course }
    ensures done { OnOk result ((entry : PointEntry) → slice_get told.entry.table.now.points point.0 ≡ Some entry → Controls point_kind told.entry.table.now Motor told_position (point_made told.entry.table.now told.entry.life.first entry) told.entry.life.for_ms told.entry.life.begins course.new (O.told outside.old) (O.told outside.new)) }
    ensures stopped { OnErr result ((entry : PointEntry) → slice_get told.entry.table.now.points point.0 ≡ Some entry → ControlsCut point_kind told.entry.table.now Motor told_position (point_made told.entry.table.now told.entry.life.first entry) told.entry.life.for_ms told.entry.life.begins (O.told outside.old) (O.told outside.new)) }
{
    let opening = open(alloc, told, Equipment::Motor, course, outside)?;
    let position = opening.position();
    drop(opening);
    let Some(lies) = position else {
        return Ok(());
    };
    let now = outside.read_clock();
    let node = PointNode::new(alloc, told.table, point, lies, now, told.life.first)?;
    live(alloc, node, course, outside, now, told.life)
}

/// The process of a detector.
pub(crate) fn run_detector<O: Outside>(
    alloc: Global,
    told: Told<'_>,
    detector: DetectorId,
    course: &mut Course,
    outside: &mut O,
) -> Result<(), NodeFault>
    requires place { detector.0 < length told.table.now.detectors }
    requires first { course.old ≡ first_course }
    ensures done { OnOk result ((entry : DetectorEntry) → slice_get told.entry.table.now.detectors detector.0 ≡ Some entry → Controls detector_kind told.entry.table.now (Sections entry.sections) told_sections (detector_made told.entry.table.now told.entry.life.first entry) told.entry.life.for_ms told.entry.life.begins course.new (O.told outside.old) (O.told outside.new)) }
    ensures stopped { OnErr result ((entry : DetectorEntry) → slice_get told.entry.table.now.detectors detector.0 ≡ Some entry → ControlsCut detector_kind told.entry.table.now (Sections entry.sections) told_sections (detector_made told.entry.table.now told.entry.life.first entry) told.entry.life.for_ms told.entry.life.begins (O.told outside.old) (O.told outside.new)) }
{
    let own = told.table.layout().detectors()[detector.0].sections();
    let opening = open(alloc, told, Equipment::Sections(own), course, outside)?;
    let occupancies = opening.occupancies(alloc);
    drop(opening);
    let Some(sensed) = occupancies? else {
        return Ok(());
    };
    let now = outside.read_clock();
    let node = DetectorNode::new(alloc, told.table, detector, &sensed, now, told.life.first)?;
    live(alloc, node, course, outside, now, told.life)
}
