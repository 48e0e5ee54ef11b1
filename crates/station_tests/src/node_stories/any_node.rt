//! A node of any kind.

use crate::node_stories::driven::Driven;
use crate::node_stories::gear::Gear;
use crate::node_stories::station::{D1, INTERLOCKING, P1, S1, Station};
use control_table::{DetectorId, Occupancy, PointId, SignalId};
use node_kinds::node_drive::{Course, NodeFault};
use node_kinds::{DetectorNode, InterlockingNode, Keeping, PointNode, SignalNode};
use station_node::node_network::{MemoryOutside, NodeSocket};
use std::alloc::Global;

/// A node of any kind, or none where its process is played elsewhere.
#[derive(Drop)]
pub(crate) enum AnyNode<'a> {
    Elsewhere,
    Interlocking(Driven<InterlockingNode>),
    Signal(Driven<SignalNode<'a>>),
    Point(Driven<PointNode<'a>>),
    Detector(Driven<DetectorNode<'a>>),
}

/// How a process begins.
#[derive(Clone, Copy)]
pub(crate) struct Beginning {
    pub(crate) number: usize,
    /// Whether it has a node, and a socket.
    pub(crate) runs: bool,
    pub(crate) has_socket: bool,
    /// What its clock reads, and by how much that grows in a round.
    pub(crate) now: u64,
    pub(crate) step: u64,
    /// From which number on it numbers its PDUs.
    pub(crate) first: u32,
    /// The equipment at which it begins.
    pub(crate) gear: Gear,
}

impl<'a> AnyNode<'a> {
    /// The node of a process that begins, unless memory is lacking. Each section is clear.
    pub(crate) fn made(station: Station<'a>, begins: Beginning) -> Option<AnyNode<'a>> {
        if !begins.runs {
            return Some(AnyNode::Elsewhere);
        }
        match begins.number {
            INTERLOCKING => interlocking(station, begins),
            P1 => point(station, begins),
            D1 => detector(station, begins),
            _ => signal(station, begins),
        }
    }

    /// A round, if there is a node.
    pub(crate) fn round(
        &mut self,
        alloc: Global,
        course: &mut Course,
        memory: &mut MemoryOutside,
        wire: &mut Option<NodeSocket>,
    ) -> Result<(), NodeFault> {
        match self {
            AnyNode::Elsewhere => Ok(()),
            AnyNode::Interlocking(driven) => driven.round(alloc, course, memory, wire),
            AnyNode::Signal(driven) => driven.round(alloc, course, memory, wire),
            AnyNode::Point(driven) => driven.round(alloc, course, memory, wire),
            AnyNode::Detector(driven) => driven.round(alloc, course, memory, wire),
        }
    }
}

fn interlocking<'a>(station: Station<'a>, begins: Beginning) -> Option<AnyNode<'a>> {
    let (alloc, now) = (station.alloc, begins.now);
    let table = station.table.copy(alloc).ok()?;
    let node = InterlockingNode::new(alloc, table, now, begins.first, Keeping::Nothing).ok()?;
    Some(AnyNode::Interlocking(Driven::begun(node, now)))
}

fn signal<'a>(station: Station<'a>, begins: Beginning) -> Option<AnyNode<'a>> {
    let (alloc, now) = (station.alloc, begins.now);
    let place = begins.number.saturating_sub(S1);
    if place >= station.table.layout().signals().len() {
        return None;
    }
    let node = SignalNode::new(alloc, station.table, SignalId(place), now, begins.first).ok()?;
    Some(AnyNode::Signal(Driven::begun(node, now)))
}

fn point<'a>(station: Station<'a>, begins: Beginning) -> Option<AnyNode<'a>> {
    let (alloc, now) = (station.alloc, begins.now);
    if station.table.layout().points().is_empty() {
        return None;
    }
    let lies = begins.gear.lies;
    let node = PointNode::new(alloc, station.table, PointId(0), lies, now, begins.first).ok()?;
    Some(AnyNode::Point(Driven::begun(node, now)))
}

fn detector<'a>(station: Station<'a>, begins: Beginning) -> Option<AnyNode<'a>> {
    let (alloc, now) = (station.alloc, begins.now);
    if station.table.layout().detectors().is_empty() {
        return None;
    }
    let clear = [Occupancy::Clear; 4];
    let node = DetectorNode::new(
        alloc,
        station.table,
        DetectorId(0),
        &clear,
        now,
        begins.first,
    )
    .ok()?;
    Some(AnyNode::Detector(Driven::begun(node, now)))
}
