//! Sockets of the machine, and its clock.

use crate::memory::receives;
use station_panel::station_drive::{Clock, Datagrams, NetFault, RoundClock, Sockets};
use station_run::NodeId;
use std::alloc::Global;
use std::cell::Cell;
use std::io;
use std::net::Net;
use std::process::Abort;
use std::time::{Clock as Timer, Duration};

/// The sockets of so many nodes.
fn open<R: Net + Abort>(rt: &R, alloc: Global, nodes: usize) -> Sockets {
    Sockets::open(rt, alloc, nodes).expect(rt, "sockets")
}

/// Whether bytes are sent to a node.
fn sends(sockets: &mut Sockets, node: usize, bytes: &[u8]) -> bool {
    sockets.send(NodeId(node), bytes).is_ok()
}

/// Whether these bytes come to a node, for which it may have to ask again for a while.
fn comes(sockets: &mut Sockets, node: usize, wanted: &[u8]) -> bool {
    for _ in 0..100_000 {
        match sockets.receive(NodeId(node)) {
            Ok(Some(bytes)) => return bytes.as_slice() == wanted,
            Ok(None) => {}
            Err(_) => return false,
        }
    }
    false
}

#[test]
fn what_is_sent_to_a_node_comes_there_once(rt: HostRuntime) {
    let mut sockets = open(&rt, rt.alloc(), 3);
    assert!(rt; sends(&mut sockets, 2, b"late"));
    assert!(rt; sends(&mut sockets, 0, b"early"));
    assert!(rt; comes(&mut sockets, 0, b"early"));
    assert!(rt; comes(&mut sockets, 2, b"late"));
    for node in 0..3 {
        assert!(rt; receives(&mut sockets, node, None));
    }
    assert!(rt; sockets.faults() == 0);
}

#[test]
fn an_empty_datagram_is_one_and_a_long_one_is_cut(rt: HostRuntime) {
    let mut sockets = open(&rt, rt.alloc(), 1);
    assert!(rt; sends(&mut sockets, 0, b""));
    assert!(rt; comes(&mut sockets, 0, b""));
    assert!(rt; sends(&mut sockets, 0, &[7; 600]));
    assert!(rt; comes(&mut sockets, 0, &[7; 512]));
    assert!(rt; receives(&mut sockets, 0, None));
}

#[test]
fn two_stations_do_not_hear_each_other(rt: HostRuntime) {
    let mut one = open(&rt, rt.alloc(), 2);
    let mut other = open(&rt, rt.alloc(), 2);
    assert!(rt; sends(&mut one, 1, b"one"));
    assert!(rt; sends(&mut other, 1, b"other"));
    assert!(rt; comes(&mut other, 1, b"other"));
    assert!(rt; comes(&mut one, 1, b"one"));
    assert!(rt; receives(&mut one, 1, None));
    assert!(rt; receives(&mut other, 1, None));
}

/// Whether no datagram of so many bytes is sent to a node.
fn is_too_long(alloc: Global, sockets: &mut Sockets, bytes: usize) -> bool {
    match vec![in alloc; 0u8; bytes] {
        Ok(long) => sockets.send(NodeId(1), &long) == Err(NetFault::Failed),
        Err(_) => false,
    }
}

// No datagram of UDP is so long, and there is no third node.
#[test]
fn failed_calls_are_counted(rt: HostRuntime) {
    let mut sockets = open(&rt, rt.alloc(), 2);
    assert!(rt; is_too_long(rt.alloc(), &mut sockets, 70_000));
    assert!(rt; receives(&mut sockets, 1, None));
    assert!(rt; sockets.send(NodeId(2), b"a") == Err(NetFault::Failed));
    assert!(rt; sockets.receive(NodeId(2)) == Err(NetFault::Failed));
    assert!(rt; sockets.faults() == 3);
}

/// A clock that reads what it is set to, in microseconds, and goes on by what it is told to sleep.
#[derive(Drop)]
struct Watch {
    micros: Cell<u64>,
    slept: Cell<u64>,
}

impl Timer for Watch {
    fn monotonic(&self) -> io::Result<Duration> {
        match self.micros.get() {
            u64::MAX => Err(io::Error::from(io::ErrorKind::Other)),
            micros => Ok(Duration::from_micros(micros)),
        }
    }

    fn since_1970(&self) -> io::Result<Duration> {
        self.monotonic()
    }

    fn sleep(&self, duration: Duration) {
        let micros = u64::try_from(duration.as_micros()).unwrap_or(0);
        self.slept.set(micros);
        self.micros.set(self.micros.get().saturating_add(micros));
    }
}

/// What the machine's clock is set to, what is read then, and how long that waits. The second round took 4 ms, the third one 15 ms.
const ROUNDS: [(u64, u64, u64); 3] = [
    (5_000_300, 300, 0),
    (5_004_300, 10_300, 6_000),
    (5_025_300, 25_300, 0),
];

/// Whether this is read where the machine's clock is set to a time, and waits so long.
fn reads<C: Clock>(
    watch: &Watch,
    clock: &mut C,
    (micros, reading, slept): (u64, u64, u64),
) -> bool {
    watch.slept.set(0);
    watch.micros.set(micros);
    clock.read() == reading && watch.slept.get() == slept
}

#[test]
fn a_round_is_due_every_10_ms(rt: HostRuntime) {
    let watch = Watch {
        micros: Cell::new(5_000_000),
        slept: Cell::new(0),
    };
    let mut clock = RoundClock::start(&watch).expect(&rt, "a clock");
    for round in &ROUNDS {
        assert!(rt; reads(&watch, &mut clock, *round), "at {}", round.0);
    }
    // The machine's clock goes back, and can't be read.
    watch.micros.set(5_000_000);
    assert!(rt; clock.read() == 25_300);
    watch.micros.set(u64::MAX);
    assert!(rt; clock.read() == 25_300);
}

#[test]
fn the_clock_of_the_machine_goes_on(rt: HostRuntime) {
    let mut clock = RoundClock::start(&rt).expect(&rt, "a clock");
    let mut last = clock.read();
    for _ in 0..5 {
        let next = clock.read();
        assert!(rt; next.saturating_sub(last) >= 10_000);
        last = next;
    }
}
