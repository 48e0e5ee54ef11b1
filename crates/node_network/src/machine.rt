//! What a node's process has outside on a machine.

ghost use Rattle.std.specs.Prelude.{◌≡◌, ◌∷◌, [], ◌++◌, OnOk};
ghost use Rattle.std.specs.Io.KnownBytes.{Appends};
ghost use Rattle.node_network.specs.Complaints.{complaint};

use crate::line_output::write_line;
use crate::lines::Lines;
use crate::networks_seen::NetworksSeen;
use crate::node_clock::NodeClock;
use crate::node_socket::NodeSocket;
use network_watch::Telling;
use node_drive::{BrokenOff, Fault, NextDatagram, NextLine, NodeId, Outside, ThrownAway, ToKeep};
use std::alloc::{AllocError, Global};
use std::io::{Read, Write};
use std::net::Net;
use std::time::Clock as Timer;

/// What a node's process has outside on a machine. It tells no calls. Where the node has two networks, it is told at the end of each
/// round which of them was lost or came back: to the operator by a line, and of a controller on standard error.
pub struct Machine<'a, R: Net, I, O, E> {
    alloc: Global,
    clock: NodeClock<'a, R>,
    socket: NodeSocket,
    lines: Lines<R, I, O>,
    /// Where faulty lines are told.
    complaints: E,
    /// What is seen of the networks, where there are two.
    networks: Option<NetworksSeen<'a>>,
    /// What was to be told of them wasn't written whole: no line comes after it.
    is_broken: bool,
}

// Written by hand, so that it is proved and compiled here alone.
impl<R: Net, I: Drop, O: Drop, E: Drop> Drop for Machine<'_, R, I, O, E> {
    fn drop(self) {
        let Self {
            alloc: _,
            clock: _,
            socket: _,
            lines: _,
            complaints: _,
            networks: _,
            is_broken: _,
        } = self;
    }
}

impl<'a, R: Net + Timer, I: Read, O: Write, E: Write> Machine<'a, R, I, O, E> {
    pub fn new(
        alloc: Global,
        clock: NodeClock<'a, R>,
        socket: NodeSocket,
        lines: Lines<R, I, O>,
        complaints: E,
        networks: Option<NetworksSeen<'a>>,
    ) -> Machine<'a, R, I, O, E>
        ensures clock { result.clock.latest ≡ clock.entry.latest }
        ensures socket { result.socket ≡ socket }
        ensures lines { result.lines ≡ lines }
        ensures complaints { result.complaints ≡ complaints }
        ensures networks { result.networks ≡ networks.entry }
    {
        Machine {
            alloc,
            clock,
            socket,
            lines,
            complaints,
            networks,
            is_broken: false,
        }
    }

    /// A round ends.
    fn end_round(&mut self)
        ensures { self.new.clock ≡ self.old.clock }
    {
        let reading = self.clock.latest();
        if let Some(networks) = &mut self.networks {
            networks.end_round(reading);
        }
        self.tell(Telling::Changes);
    }

    /// Tells of the networks, where there are two. An operator whose line isn't written whole is told nothing more.
    fn tell(&mut self, telling: Telling)
        ensures { self.new.clock ≡ self.old.clock }
    {
        let Some(networks) = &self.networks else {
            return;
        };
        let told = match networks.text(self.alloc, telling) {
            Ok(text) => tell(
                self.alloc,
                &mut self.lines,
                &mut self.complaints,
                text.as_str(),
            ),
            Err(_) => Err(BrokenOff),
        };
        if told.is_err() && !self.lines.are_of_field() {
            self.is_broken = true;
        }
    }
}

impl<'a, R: Net + Timer, I: Read, O: Write, E: Write> Outside for Machine<'a, R, I, O, E> {
    ghost use Rattle.std.specs.Prelude.{None};

    ghost told = { λ machine. record { calls = None; latest = machine.clock.latest } };

    fn rest(&mut self) {
        self.end_round();
        self.clock.rest();
        self.socket.begin_round();
    }

    fn read_clock(&mut self) -> u64 {
        let reading = self.clock.read();
        self.socket.note_reading(reading);
        reading
    }

    fn has_listener(&mut self) -> bool {
        let began = self.lines.has_listener();
        if began {
            self.tell(Telling::Standing);
        }
        began
    }

    fn next_line(&mut self, alloc: Global) -> Result<NextLine, AllocError> {
        self.lines.next_line(alloc)
    }

    fn next_datagram(&mut self) -> NextDatagram {
        let next = self.socket.next_datagram();
        if let Some(networks) = &mut self.networks {
            networks.note_next(&next);
        }
        next
    }

    fn throw_away(&mut self) -> ThrownAway {
        self.socket.throw_away()
    }

    fn write_line(&mut self, text: &str) -> Result<(), BrokenOff> {
        if self.is_broken {
            return Err(BrokenOff);
        }
        self.lines.write_line(self.alloc, text)
    }

    fn send(&mut self, to: NodeId, bytes: &[u8]) {
        self.socket.send(to, bytes);
        if let Some(networks) = &mut self.networks {
            networks.note_sent(to);
        }
    }

    fn complain(&mut self, line: u64, fault: Fault) {
        // Where this fails the fault isn't told.
        let _ = write_complaint(self.alloc, &mut self.complaints, line, fault);
    }

    /// It has no file.
    fn keep(&mut self, _all: ToKeep) -> bool {
        false
    }
}

/// Tells lines of the networks, each with its line feed: to an operator, and of a controller where its complaints go.
fn tell<R: Net, I: Read, O: Write, E: Write>(
    alloc: Global,
    lines: &mut Lines<R, I, O>,
    complaints: &mut E,
    text: &str,
) -> Result<(), BrokenOff> {
    let Some(all) = text.strip_suffix('\n') else {
        return Ok(());
    };
    if lines.are_of_field() {
        write_line(alloc, complaints, all)
    } else {
        lines.write_line(alloc, all)
    }
}

/// Tells the fault of a line.
fn write_complaint<E: Write>(
    alloc: Global,
    complaints: &mut E,
    line: u64,
    fault: Fault,
) -> Result<(), BrokenOff>
    ensures { OnOk result (Appends (E.contents complaints.old) (E.contents complaints.new) (complaint line fault ++ 10 ∷ [])) }
{
    let number = fault.number();
    let Ok(text) = format!(in alloc; "line {line}: fault {number}") else {
        return Err(BrokenOff);
    };
    write_line(alloc, complaints, text.as_str())
}
