//! The whole process of a node.

ghost use Rattle.std.specs.Prelude.{◌≡◌, OnErr, OnOk};
ghost use Rattle.node_kinds.specs.simulator_spec.Nodes.{node_at};
ghost use Rattle.node_kinds.specs.node_drive.Beginning.{first_course};
ghost use Rattle.station_node.specs.Processes.{NodeCut, NodeRuns, Process, ProcessCut, StationCut, StationRuns, rest_of};

use crate::controllers::{run_detector, run_point, run_signal};
use crate::lives::{Life, Told, live};
use node_kinds::node_drive::node_lines::AuxiliaryCounts;
use node_kinds::node_drive::{Course, NodeFault, Outside, finish};
use node_kinds::simulator_spec::{Checked, Layout, Node, NodeId};
use node_kinds::{InterlockingNode, Keeping, Order};
use std::alloc::Global;

/// How a node is to run: the number of its first PDU, for how many milliseconds, and, of an interlocking, what its process keeps of
/// it in a file, and how many auxiliary commands were counted before.
#[derive(Clone, Copy)]
pub struct NodeRun {
    pub first: u32,
    pub for_ms: u64,
    pub keeping: Keeping,
    pub counts: AuxiliaryCounts,
}

/// Runs a node of a station as a process of its own, for so many milliseconds. Its PDUs are numbered from `first` on. A controller
/// waits until its equipment rests, and until each contact has told how it is. At its end the equipment is told to rest, also where
/// it ends before its time, unless a line couldn't be written. A number that is no node's does nothing.
pub fn run_node<O: Outside>(
    alloc: Global,
    checked: Checked,
    node: NodeId,
    asked: NodeRun,
    outside: &mut O,
) -> Result<(), NodeFault>
    ensures done { OnOk result (Process checked (node_at checked node.0) asked.keeping asked.counts asked.first asked.for_ms (O.told outside.old) (O.told outside.new)) }
    ensures stopped { OnErr result (ProcessCut checked (node_at checked node.0) asked.keeping asked.counts asked.first asked.for_ms (O.told outside.old) (O.told outside.new)) }
{
    let begins = outside.read_clock();
    let rest = rest_of(checked.layout(), node);
    let mut course = Course::new(alloc);
    let life = Life {
        first: asked.first,
        begins,
        for_ms: asked.for_ms,
        keeping: asked.keeping,
        counts: asked.counts,
    };
    let ran = run(alloc, checked, node, life, &mut course, outside);
    if matches!(ran, Err(NodeFault::WriteFailed)) {
        return ran;
    }
    let rested = finish(alloc, &course, outside, rest);
    drop(course);
    rested?;
    ran
}

/// Runs a node from a reading on.
fn run<O: Outside>(
    alloc: Global,
    checked: Checked,
    node: NodeId,
    life: Life,
    course: &mut Course,
    outside: &mut O,
) -> Result<(), NodeFault>
    requires { course.old ≡ first_course }
    ensures done { OnOk result (NodeRuns checked life.keeping life.counts life.first life.for_ms life.begins course.new (O.told outside.old) (O.told outside.new) (node_at checked node.0)) }
    ensures stopped { OnErr result (NodeCut checked life.keeping life.counts life.first life.for_ms life.begins (O.told outside.old) (O.told outside.new) (node_at checked node.0)) }
{
    let told = Told {
        table: &checked,
        life,
    };
    match checked.layout().node(node) {
        Some(Node::Interlocking) => run_interlocking(alloc, checked, life, course, outside),
        Some(Node::Signal(signal)) => run_signal(alloc, told, signal, course, outside),
        Some(Node::Point(point)) => run_point(alloc, told, point, course, outside),
        Some(Node::Detector(detector)) => run_detector(alloc, told, detector, course, outside),
        None => Ok(()),
    }
}

/// Runs the interlocking.
fn run_interlocking<O: Outside>(
    alloc: Global,
    checked: Checked,
    life: Life,
    course: &mut Course,
    outside: &mut O,
) -> Result<(), NodeFault>
    requires { course.old ≡ first_course }
    ensures done { OnOk result (StationRuns checked life.keeping life.counts life.first life.for_ms life.begins course.new (O.told outside.old) (O.told outside.new)) }
    ensures stopped { OnErr result (StationCut checked life.keeping life.counts life.first life.for_ms life.begins (O.told outside.old) (O.told outside.new)) }
{
    let now = outside.read_clock();
    let mut station = InterlockingNode::new(alloc, checked, now, life.first, life.keeping)?;
    station.count_on(life.counts);
    live(alloc, station, course, outside, now, life)
}

/// By which order the equipment of a node rests.
fn rest_of(layout: &Layout, node: NodeId) -> Option<Order>
    ensures { result ≡ rest_of (node_at layout.now node.0) }
{
    match layout.node(node) {
        Some(Node::Signal(_)) => Some(Order::ShowStop),
        Some(Node::Point(_)) => Some(Order::DriveNone),
        _ => None,
    }
}
