//! How a process waits for its field equipment, and how long its node may live.

ghost use Rattle.std.specs.Prelude.{◌≡◌, ◌≤◌, ℕ, IfOk, OnErr, OnOk};
ghost use Rattle.node_kinds.specs.Made.{equipment_of};
ghost use Rattle.node_kinds.specs.inside.ControllerNodes.{opening_now};
ghost use Rattle.node_kinds.specs.node_drive.Inside.{standing_of};
ghost use Rattle.node_kinds.specs.node_drive.Beginning.{first_course};
ghost use Rattle.node_kinds.specs.node_drive.Drives.{CutOff, Ran};
ghost use Rattle.node_kinds.specs.Openings.{opening_kind, untold};
ghost use Rattle.station_node.specs.Processes.{Opens, left_of, standing};

use node_kinds::node_drive::node_lines::AuxiliaryCounts;
use node_kinds::node_drive::{Course, NodeFault, NodeMachine, Outside, drive};
use node_kinds::simulator_spec::Checked;
use node_kinds::{Equipment, Keeping, OpeningNode};
use std::alloc::Global;

/// The life of a process: the number of its first PDU, when it began by the reading of its clock, for how many milliseconds it runs,
/// and, of an interlocking, what it keeps in a file, and how many auxiliary commands were counted before.
#[derive(Clone, Copy)]
pub(crate) struct Life {
    pub(crate) first: u32,
    pub(crate) begins: u64,
    pub(crate) for_ms: u64,
    pub(crate) keeping: Keeping,
    pub(crate) counts: AuxiliaryCounts,
}

/// What a process is told of itself: the station, and its life.
#[derive(Clone, Copy)]
pub(crate) struct Told<'a> {
    pub(crate) table: &'a Checked,
    pub(crate) life: Life,
}

/// Waits until the first line is in force and each contact has told how it is, or until the process is over.
pub(crate) fn open<'a, O: Outside>(
    alloc: Global,
    told: Told<'a>,
    equipment: Equipment<'a>,
    course: &mut Course,
    outside: &mut O,
) -> Result<OpeningNode<'a>, NodeFault>
    requires { course.old ≡ first_course }
    ensures done { IfOk result (λ opening. Opens told.entry.table.now (equipment_of equipment.entry) told.entry.life.for_ms told.entry.life.begins (opening_now opening).state course.new (O.told outside.old) (O.told outside.new)) }
    ensures stopped { OnErr result (CutOff opening_kind told.entry.life.for_ms told.entry.life.begins (standing (untold told.entry.table.now (equipment_of equipment.entry)) first_course) (O.told outside.old) (O.told outside.new)) }
{
    let mut opening = OpeningNode::new(alloc, told.table, equipment)?;
    match drive(
        alloc,
        &mut opening,
        course,
        outside,
        told.life.begins,
        told.life.for_ms,
    ) {
        Ok(_) => Ok(opening),
        Err(fault) => {
            drop(opening);
            Err(fault)
        }
    }
}

/// The node lives, from the reading at which it was made, until its process has gone on for so many milliseconds after its beginning.
/// Then it is gone.
pub(crate) fn live<N: NodeMachine + Drop, O: Outside>(
    alloc: Global,
    node: N,
    course: &mut Course,
    outside: &mut O,
    now: u64,
    life: Life,
) -> Result<(), NodeFault>
    requires { (N.node node).reached ≤ (O.told outside.old).latest }
    ensures done { OnOk result ((ticks : ℕ) × (state : N.State) × Ran N.does (left_of life.for_ms life.begins now) now ticks (standing_of (N.node node) course.old) (standing state course.new) (O.told outside.old) (O.told outside.new)) }
    ensures stopped { OnErr result (CutOff N.does (left_of life.for_ms life.begins now) now (standing_of (N.node node) course.old) (O.told outside.old) (O.told outside.new)) }
{
    let mut node = node;
    let left = life.for_ms.saturating_sub(now.saturating_sub(life.begins));
    drive(alloc, &mut node, course, outside, now, left)?;
    Ok(())
}
