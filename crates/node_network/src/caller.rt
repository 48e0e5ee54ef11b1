//! What the operator of a node has outside on a machine.

ghost use Rattle.std.specs.Prelude.{◌≡◌};

use crate::calling_lines::CallingLines;
use crate::node_clock::NodeClock;
use crate::other_end::{next_line, write_line_to};
use node_drive::{BrokenOff, Fault, NextDatagram, NextLine, NodeId, Outside, ThrownAway, ToKeep};
use std::alloc::{AllocError, Global};
use std::net::{Net, SocketAddr};
use std::time::Clock as Timer;

/// What the operator of a node has outside on a machine: its clock, and lines over a connection to the node. It has no socket for
/// datagrams. It tells no calls.
#[derive(Drop)]
pub struct Caller<'a, R: Net> {
    alloc: Global,
    clock: NodeClock<'a, R>,
    lines: CallingLines<'a, R>,
}

impl<'a, R: Net + Timer> Caller<'a, R> {
    /// An operator of the node that is served at an address.
    pub fn new(
        alloc: Global,
        clock: NodeClock<'a, R>,
        net: &'a R,
        address: SocketAddr,
    ) -> Caller<'a, R>
        ensures { result.clock.latest ≡ clock.entry.latest }
    {
        let lines = CallingLines {
            net,
            address,
            node: None,
            left: 0,
        };
        Caller {
            alloc,
            clock,
            lines,
        }
    }
}

impl<'a, R: Net + Timer> Outside for Caller<'a, R> {
    ghost use Rattle.std.specs.Prelude.{None};

    ghost told = { λ caller. record { calls = None; latest = caller.clock.latest } };

    fn rest(&mut self) {
        self.clock.rest();
    }

    fn read_clock(&mut self) -> u64 {
        self.clock.read()
    }

    fn has_listener(&mut self) -> bool {
        self.lines.has_listener()
    }

    fn next_line(&mut self, alloc: Global) -> Result<NextLine, AllocError> {
        next_line(&mut self.lines.node, alloc)
    }

    fn next_datagram(&mut self) -> NextDatagram {
        NextDatagram::Empty
    }

    fn throw_away(&mut self) -> ThrownAway {
        ThrownAway {
            count: 0,
            found_empty: true,
        }
    }

    fn write_line(&mut self, text: &str) -> Result<(), BrokenOff> {
        write_line_to(&mut self.lines.node, self.alloc, text)
    }

    fn send(&mut self, _to: NodeId, _bytes: &[u8]) {}

    fn complain(&mut self, _line: u64, _fault: Fault) {}

    /// It has no file.
    fn keep(&mut self, _all: ToKeep) -> bool {
        false
    }
}
