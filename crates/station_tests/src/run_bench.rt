//! Stations that are driven over memory and over sockets, and what comes of it.

use station_panel::station_drive::{Clock, Datagrams, MemoryNetwork, NetCall};
use station_run::{RunOptions, prepare, replay_text, run};
use std::alloc::Global;
use std::io;
use std::io::Write;
use std::process::Abort;

/// One point, with a route over each of its legs from the same signal, and one back over its left leg.
pub(crate) const SMALL: &str = r#"section = ["GA", "GP", "G1", "G2"]
border = ["W", "E1", "E2"]
joint = [["W.end","A1.a"], ["A1.b","P1.tip"], ["P1.left","T1.a"], ["P1.right","T2.a"], ["T1.b","E1.end"], ["T2.b","E2.end"]]
track = [{name="A1",section="GA"}, {name="T1",section="G1"}, {name="T2",section="G2"}]
point = [{name="P1",id=10,section="GP"}]
signal = [{name="S1",id=2,at="A1.b"}, {name="S3",id=3,at="T1.a"}, {name="S4",id=4,at="T2.a"}]
detector = [{name="D1",id=20,sections=["GA","GP","G1","G2"]}]
route = [{name="R1",entry="S1",exit="E2",path=["P1.right","T2.b"],points={P1="right"},approach=["GA"]}, {name="R2",entry="S1",exit="E1",path=["P1.left","T1.b"],points={P1="left"},approach=["GA"]}, {name="R3",entry="S3",exit="W",path=["P1.tip","A1.a"],points={P1="left"},approach=["G1"]}]
[station]
name = "IXL1"
id = 1
"#;

/// A disk that is full after so many bytes.
#[derive(Drop)]
struct Disk {
    kept: Vec<u8>,
    left: usize,
}

impl Write for Disk {
    fn write(&mut self, buf: &[u8]) -> io::Result<usize> {
        let taken = buf.len().min(self.left);
        let (front, _) = buf.split_at(taken);
        self.kept.extend_from_slice(front)?;
        self.left -= taken;
        Ok(taken)
    }

    fn flush(&mut self) -> io::Result<()> {
        Ok(())
    }
}

/// A clock that reads 0, then the time of the first round, and then goes on by 10 ms at each reading.
#[derive(Drop)]
struct HastyClock {
    latest: u64,
    /// By how much it goes on at the next reading, and at the one after that, in microseconds.
    steps: (u64, u64),
    /// From which reading on it tells that the run is to end.
    stops: u64,
}

impl Clock for HastyClock {
    ghost latest = { λ clock. clock.latest };

    fn read(&mut self) -> u64 {
        self.latest = self.latest.saturating_add(self.steps.0);
        self.steps = (self.steps.1, 10_000);
        self.latest
    }

    fn is_stopped(&self) -> bool {
        self.latest >= self.stops
    }
}

/// How a station is driven over memory.
#[derive(Clone, Copy)]
pub(crate) struct Drive<'a> {
    pub(crate) layout: &'a str,
    pub(crate) script: &'a str,
    /// When its first round is, in microseconds. The others are 10 ms apart.
    pub(crate) begins: u64,
    pub(crate) for_ms: u64,
    /// At which reading of its clock it is stopped, in microseconds.
    pub(crate) stops: u64,
    /// For how many bytes of its record there is room.
    pub(crate) room: usize,
    /// Which call of its network fails, counted from 1; none at 0.
    pub(crate) failing: u64,
}

/// What a run left.
#[derive(Drop)]
pub(crate) struct Left {
    pub(crate) status: u8,
    pub(crate) record: Vec<u8>,
    pub(crate) out: Vec<u8>,
    pub(crate) err: Vec<u8>,
    /// How many calls of its network failed.
    pub(crate) faults: u64,
    /// Which call of its network was the first that sent, counted from 1.
    pub(crate) first_sent: u64,
}

/// Which call of a network was the first that sent, counted from 1. Where none did, the one after the last.
fn first_sent(net: &MemoryNetwork) -> u64 {
    let mut number: u64 = 1;
    for call in net.calls() {
        if matches!(call, NetCall::Sent(..)) {
            break;
        }
        number = number.saturating_add(1);
    }
    number
}

/// Runs a station over memory.
pub(crate) fn run_over_memory(rt: &impl Abort, alloc: Global, drive: Drive<'_>) -> Left {
    let prepared = prepare(alloc, drive.layout, drive.script).expect(
        rt,
        "a station and its script",
    );
    let net = MemoryNetwork::new(alloc, drive.failing);
    let mut clock = HastyClock {
        latest: 0,
        steps: (0, drive.begins),
        stops: drive.stops,
    };
    let disk = Disk {
        kept: Vec::new(alloc),
        left: drive.room,
    };
    let (mut out, mut err) = (Vec::new(alloc), Vec::new(alloc));
    let mut station = prepared.over(alloc, net, disk);
    let status = station.run(&mut clock, drive.for_ms, &mut out, &mut err);
    let (net, disk) = station.into_outside();
    Left {
        status,
        record: disk.kept,
        out,
        err,
        faults: net.faults(),
        first_sent: first_sent(&net),
    }
}

/// What a run of the small station told.
#[derive(Drop)]
pub(crate) struct Told {
    pub(crate) status: u8,
    pub(crate) out: Vec<u8>,
    pub(crate) err: Vec<u8>,
}

/// Runs a station over sockets.
pub(crate) fn run_over_sockets(rt: &HostRuntime, asked: &RunOptions<'_>) -> Told {
    let (mut out, mut err) = (Vec::new(rt.alloc()), Vec::new(rt.alloc()));
    let status = run(rt, asked, &mut out, &mut err, false);
    Told { status, out, err }
}

/// Whether the record of the small station answers the same again.
pub(crate) fn is_same(alloc: Global, record: &[u8]) -> bool {
    replays(alloc, SMALL, str::from_utf8(record).unwrap_or("="))
}

/// Whether a record answers the same again on a station of a layout.
fn replays(alloc: Global, layout: &str, record: &str) -> bool {
    let (mut out, mut err) = (Vec::new(alloc), Vec::new(alloc));
    let status = replay_text(alloc, layout, record, &mut out, &mut err);
    status == 0 && out.as_slice() == b"same\n".as_slice()
}

/// The whole lines of a record that may end within one.
pub(crate) fn whole_lines(record: &[u8]) -> &[u8] {
    match record.iter().rposition(|byte| *byte == b'\n') {
        Some(place) => record.get(..=place).unwrap_or(&[]),
        None => &[],
    }
}

/// Whether a record is the same as another one up to a line of that one, which delivers a datagram.
pub(crate) fn lacks_delivery(record: &[u8], other: &[u8]) -> bool {
    let mut same: usize = 0;
    for (one, two) in record.iter().zip(other) {
        if *one != *two {
            break;
        }
        same = same.saturating_add(1);
    }
    let (front, _) = other.split_at(same.min(other.len()));
    let (_, line) = other.split_at(whole_lines(front).len().min(other.len()));
    line.starts_with(b"deliver ")
}
