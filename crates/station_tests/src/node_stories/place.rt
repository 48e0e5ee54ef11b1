//! A node with what it has outside, and its equipment.

use crate::node_stories::any_node::{AnyNode, Beginning};
use crate::node_stories::changes::Seen;
use crate::node_stories::desk::opened;
use crate::node_stories::driven::put;
use crate::node_stories::gear::Gear;
use crate::node_stories::station::{D1, INTERLOCKING, P1, Station, name};
use control_table::Position;
use node_kinds::node_drive::{Course, NodeId};
use node_kinds::read_order;
use station_node::node_network::{MemoryOutside, NodeSocket};
use std::alloc::Global;

/// The process of a node with what it has outside, and its equipment or its operator.
#[derive(Drop)]
pub(crate) struct Place<'a> {
    number: usize,
    node: AnyNode<'a>,
    course: Course,
    pub(crate) memory: MemoryOutside,
    /// Its socket, if it has one.
    wire: Option<NodeSocket>,
    pub(crate) gear: Gear,
    /// For how many rounds it isn't called.
    pub(crate) stopped: u64,
    /// How many datagrams come to it in each round beside those of its partners.
    pub(crate) flooded: usize,
    /// How many milliseconds two rounds are apart.
    step: u64,
    /// Whether it is still to be told that it didn't hear a datagram which may have been too old.
    pub(crate) tells_late: bool,
}

impl<'a> Place<'a> {
    /// A process that begins, unless memory or a socket is lacking. What its contacts tell comes to it.
    pub(crate) fn begun(
        station: Station<'a>,
        begins: Beginning,
        seen: &mut Seen,
    ) -> Option<Place<'a>> {
        let alloc = station.alloc;
        let wire = if begins.has_socket {
            Some(opened(station, begins.number)?)
        } else {
            None
        };
        let node = AnyNode::made(station, begins)?;
        let mut place = Place {
            number: begins.number,
            node,
            course: Course::new(alloc),
            memory: fresh_memory(alloc, begins.now, begins.step),
            wire,
            gear: begins.gear,
            stopped: 0,
            flooded: 0,
            step: begins.step,
            tells_late: false,
        };
        place.tell_contacts(seen);
        Some(place)
    }

    /// The process ends, and a new one begins at the same equipment.
    pub(crate) fn make_anew(&mut self, station: Station<'a>, begins: Beginning, seen: &mut Seen) {
        // What the first one had open is closed before the second opens it.
        put(&mut self.wire, None);
        let gear = self.gear.ended();
        match Place::begun(station, Beginning { gear, ..begins }, seen) {
            Some(begun) => put(self, begun),
            None => seen.fail(),
        }
        seen.note(name(begins.number), "anew");
    }

    /// A line comes to the node.
    pub(crate) fn bring_line(&mut self, line: &str, seen: &mut Seen) {
        seen.expect(self.memory.bring_line(line));
    }

    /// The equipment tells how its contacts stand.
    fn tell_contacts(&mut self, seen: &mut Seen) {
        for line in contacts(self.number, self.gear.lies) {
            self.bring_line(*line, seen);
        }
    }

    /// Lets the node run for a round. Of the next calls of its network the one of the number `failing` fails; it answers the number
    /// after the round.
    pub(crate) fn run(&mut self, alloc: Global, failing: u64, seen: &mut Seen) -> u64 {
        self.flood(seen);
        if self.stopped > 0 {
            self.stopped -= 1;
            self.memory.pass(self.step);
            return failing;
        }
        self.memory.fail_after(failing);
        let ran = self
            .node
            .round(alloc, &mut self.course, &mut self.memory, &mut self.wire);
        if ran.is_err() {
            seen.note(name(self.number), "ended");
        }
        if self.tells_late && self.course.too_old() > 0 {
            self.tells_late = false;
            seen.note(name(self.number), "late");
        }
        self.memory.fail_after(0)
    }

    /// Datagrams come that are no PDUs.
    fn flood(&mut self, seen: &mut Seen) {
        for _ in 0..self.flooded {
            seen.expect(self.memory.bring(Some(NodeId(INTERLOCKING)), &[7]));
        }
    }

    /// The equipment hears what the node wrote, and goes on.
    pub(crate) fn equip(&mut self, alloc: Global, now: u64, seen: &mut Seen) {
        self.hear_all(alloc, seen);
        if let Some(change) = self.gear.go_on(now) {
            seen.note(name(self.number), change);
            self.tell_contacts(seen);
        }
    }

    /// All that the node wrote is heard.
    fn hear_all(&mut self, alloc: Global, seen: &mut Seen) {
        for _ in 0..u64::MAX {
            let Some(line) = self.memory.take_written() else {
                return;
            };
            self.hear(alloc, line.as_str(), seen);
        }
    }

    /// A line of the node is heard: by its equipment, which says when an order is in force, or by the operator.
    fn hear(&mut self, alloc: Global, line: &str, seen: &mut Seen) {
        let Ok(order) = read_order(line) else {
            seen.listen(line);
            return;
        };
        self.gear.take(order.order);
        if !self.gear.answers {
            return;
        }
        let number = order.number;
        match format!(in alloc; "done {number}") {
            Ok(line) => self.bring_line(line.as_str(), seen),
            Err(_) => seen.fail(),
        }
    }
}

/// A clock with this reading, which goes on by a step in each round. What is called isn't kept.
pub(crate) fn fresh_memory(alloc: Global, now: u64, step: u64) -> MemoryOutside {
    let mut memory = MemoryOutside::new(alloc, now, step);
    memory.forget();
    memory
}

/// What the contacts of a node tell: how its point lies, or that the sections of the detector are clear.
fn contacts(number: usize, lies: Position) -> &'static [&'static str] {
    match (number, lies) {
        (P1, Position::Left) => &["reach left"],
        (P1, Position::Right) => &["reach right"],
        (P1, Position::NoEndPosition) => &["reach none"],
        (D1, _) => &["clear GA", "clear GP", "clear G1", "clear G2"],
        _ => &[],
    }
}
