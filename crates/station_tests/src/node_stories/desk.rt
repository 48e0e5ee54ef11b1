//! What a node has outside: a clock and lines over memory, and a network over memory or over a socket of its own.

ghost use Rattle.std.specs.Prelude.{◌≡◌};

use crate::node_stories::station::Station;
use node_kinds::Fault;
use node_kinds::node_drive::{
    BrokenOff, NextDatagram, NextLine, NodeId, Outside, ThrownAway, ToKeep,
};
use station_node::node_network::{MemoryOutside, NodeSocket};
use std::alloc::{AllocError, Global};

/// For how many milliseconds a datagram waits for those before it.
const HOLD: u64 = 60;

/// Opens the socket of a node, at the node's own address in each network.
pub(crate) fn opened(station: Station<'_>, number: usize) -> Option<NodeSocket> {
    let first = station.addresses;
    let second = if station.second.is_empty() {
        None
    } else {
        Some(station.second)
    };
    NodeSocket::open(
        station.rt,
        station.alloc,
        first,
        second,
        NodeId(number),
        HOLD,
    )
    .ok()
}

/// Who has a round while a process rests.
pub(crate) trait Others {
    /// They have their round, beside a process that has this outside.
    fn go_on_beside(&mut self, memory: &mut MemoryOutside);
}

/// Nobody, where each process is driven for a round at a time.
#[derive(Drop)]
pub(crate) struct Nobody;

impl Others for Nobody {
    fn go_on_beside(&mut self, _memory: &mut MemoryOutside) {}
}

/// What a node has outside.
#[derive(Drop)]
pub(crate) struct Desk<'d, O> {
    /// What its clock read last.
    pub(crate) latest: u64,
    pub(crate) memory: &'d mut MemoryOutside,
    /// Its socket, if it has one.
    pub(crate) wire: &'d mut Option<NodeSocket>,
    pub(crate) others: &'d mut O,
}

impl<'d, O: Others> Outside for Desk<'d, O> {
    ghost use Rattle.std.specs.Prelude.{None};

    ghost told = { λ desk. record { calls = None; latest = desk.latest } };

    fn rest(&mut self) {
        self.others.go_on_beside(self.memory);
        self.memory.rest();
        begin_round(self.wire);
    }

    fn read_clock(&mut self) -> u64 {
        self.latest = self.latest.max(self.memory.read_clock());
        note_reading(self.wire, self.latest);
        self.latest
    }

    fn has_listener(&mut self) -> bool {
        self.memory.has_listener()
    }

    fn next_line(&mut self, alloc: Global) -> Result<NextLine, AllocError> {
        self.memory.next_line(alloc)
    }

    fn next_datagram(&mut self) -> NextDatagram {
        next_datagram(self.wire, self.memory)
    }

    fn throw_away(&mut self) -> ThrownAway {
        throw_away(self.wire, self.memory)
    }

    fn write_line(&mut self, text: &str) -> Result<(), BrokenOff> {
        self.memory.write_line(text)
    }

    fn send(&mut self, to: NodeId, bytes: &[u8]) {
        send(self.wire, self.memory, to, bytes);
    }

    fn complain(&mut self, line: u64, fault: Fault) {
        self.memory.complain(line, fault);
    }

    fn keep(&mut self, all: ToKeep) -> bool {
        self.memory.keep(all)
    }
}

/// A round begins at a socket, if there is one.
fn begin_round(wire: &mut Option<NodeSocket>) {
    match wire {
        Some(wire) => wire.begin_round(),
        None => (),
    }
}

/// The clock was read, which a socket is told, if there is one.
fn note_reading(wire: &mut Option<NodeSocket>, reading: u64) {
    match wire {
        Some(wire) => wire.note_reading(reading),
        None => (),
    }
}

/// The next datagram on a socket, or over memory where there is none.
fn next_datagram(wire: &mut Option<NodeSocket>, memory: &mut MemoryOutside) -> NextDatagram {
    match wire {
        Some(wire) => wire.next_datagram(),
        None => memory.next_datagram(),
    }
}

fn throw_away(wire: &mut Option<NodeSocket>, memory: &mut MemoryOutside) -> ThrownAway {
    match wire {
        Some(wire) => wire.throw_away(),
        None => memory.throw_away(),
    }
}

fn send(wire: &mut Option<NodeSocket>, memory: &mut MemoryOutside, to: NodeId, bytes: &[u8]) {
    match wire {
        Some(wire) => wire.send(to, bytes),
        None => memory.send(to, bytes),
    }
}
