//! What a panel of a node has outside, until a file ends it.

ghost use Rattle.std.specs.Prelude.{◌≡◌, ◌≤◌};

use node_drive::{BrokenOff, Fault, NextDatagram, NextLine, NodeId, Outside, ThrownAway, ToKeep};
use run_files::StopFile;
use std::alloc::{AllocError, Global};
use std::fs::Files;

/// What a panel has outside, whose clock comes to its last moment at once where a file is there. It tells no calls.
#[derive(Drop)]
pub(crate) struct Stoppable<'a, O, R> {
    outside: O,
    stop: StopFile<'a, R>,
    /// The last moment of the panel, in milliseconds.
    until: u64,
    /// What the clock read last.
    latest: u64,
}

impl<'a, O: Outside, R: Files> Stoppable<'a, O, R> {
    pub(crate) fn new(outside: O, stop: StopFile<'a, R>, until: u64) -> Stoppable<'a, O, R>
        ensures { result.latest ≡ 0 }
    {
        Stoppable {
            outside,
            stop,
            until,
            latest: 0,
        }
    }
}

/// The later of two moments.
fn later(one: u64, other: u64) -> u64
    ensures { one ≤ result }
{
    if one < other { other } else { one }
}

impl<'a, O: Outside, R: Files> Outside for Stoppable<'a, O, R> {
    ghost use Rattle.std.specs.Prelude.{None};

    ghost told = { λ stoppable. record { calls = None; latest = stoppable.latest } };

    fn rest(&mut self) {
        self.outside.rest();
    }

    fn read_clock(&mut self) -> u64 {
        let reading = self.outside.read_clock();
        let now = if self.stop.is_there() {
            self.until
        } else {
            reading
        };
        self.latest = later(self.latest, now);
        self.latest
    }

    fn has_listener(&mut self) -> bool {
        self.outside.has_listener()
    }

    fn next_line(&mut self, alloc: Global) -> Result<NextLine, AllocError> {
        self.outside.next_line(alloc)
    }

    fn next_datagram(&mut self) -> NextDatagram {
        self.outside.next_datagram()
    }

    fn throw_away(&mut self) -> ThrownAway {
        self.outside.throw_away()
    }

    fn write_line(&mut self, text: &str) -> Result<(), BrokenOff> {
        self.outside.write_line(text)
    }

    fn send(&mut self, to: NodeId, bytes: &[u8]) {
        self.outside.send(to, bytes);
    }

    fn complain(&mut self, line: u64, fault: Fault) {
        self.outside.complain(line, fault);
    }

    fn keep(&mut self, all: ToKeep) -> bool {
        self.outside.keep(all)
    }
}
