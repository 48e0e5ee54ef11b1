//! The process of an interlocking with the file of what is closed: the file fails, the process is killed, and the next one finds what
//! was accepted.

use crate::node_stories::desk::{Desk, Nobody};
use crate::node_stories::place::fresh_memory;
use crate::node_stories::plant::{BEGINS, Plant, Played, STEP};
use crate::node_stories::script::LATE;
use crate::node_stories::station::{INTERLOCKING, Station};
use crate::run_bench::SMALL;
use node_kinds::Keeping;
use node_kinds::node_drive::Outside;
use node_kinds::simulator_spec::NodeId;
use station_node::closings_file::Place;
use station_node::node_network::{MemoryOutside, Recorded};
use station_node::whole_file::MemoryPlace;
use station_node::{NodeRun, WithFile, layout_digest, replay_node_text, run_node};
use std::io;

/// What is asked of a process, and the things that it names.
const ASKED: [&str; 7] = [
    "close G1",
    "close P1 left",
    "open G1",
    "close S1",
    "close G2",
    "open P1 left",
    "close R3",
];

const THINGS: [&str; 5] = ["G1", "P1 left", "S1", "G2", "R3"];

/// How many calls its keeps make.
const CALLS: u32 = 28;

/// How long a process runs, in milliseconds.
const FOR_MS: u64 = 50;

const FIRST: u32 = 5;

/// More lines than a process tells here.
const LINES: usize = 2000;

/// A disk of which a process makes so many calls, and is killed then: none is made any more.
struct Disk<'m> {
    memory: &'m mut MemoryPlace,
    left: u32,
}

impl Drop for Disk<'_> {
    fn drop(self) {
        let Self { memory: _, left: _ } = self;
    }
}

impl Disk<'_> {
    /// Whether the next call is made.
    fn lives(&mut self) -> io::Result<()> {
        match self.left.checked_sub(1) {
            Some(left) => {
                self.left = left;
                Ok(())
            }
            None => Err(io::Error::from(io::ErrorKind::Other)),
        }
    }
}

impl Place for Disk<'_> {
    ghost use Rattle.std.specs.Prelude.{None};

    ghost calls = { λ _. None };

    fn write_new(&mut self, bytes: &[u8]) -> io::Result<()> {
        self.lives()?;
        self.memory.write_new(bytes)
    }

    fn sync_new(&mut self) -> io::Result<()> {
        self.lives()?;
        self.memory.sync_new()
    }

    fn replace(&mut self) -> io::Result<()> {
        self.lives()?;
        self.memory.replace()
    }

    fn sync_folder(&mut self) -> io::Result<()> {
        self.lives()?;
        self.memory.sync_folder()
    }

    fn read(&self) -> io::Result<Option<Vec<u8>>> {
        self.memory.read()
    }
}

/// A file of the small station, on disk, in which nothing was counted, and these lines stand then, each with its line feed.
fn small_file(station: Station<'_>, lines: &str) -> Option<MemoryPlace> {
    let alloc = station.alloc;
    let digest = layout_digest(alloc, SMALL).ok()?;
    let head = format!(in alloc; "layout {digest}\ncounted release 0\ncounted open 0\n").ok()?;
    let text = format!(in alloc; "{head}{lines}").ok()?;
    let mut place = MemoryPlace::new(alloc);
    place.write_new(text.as_bytes()).ok()?;
    place.sync_new().ok()?;
    place.replace().ok()?;
    place.sync_folder().ok()?;
    Some(place)
}

/// How a process of the interlocking runs.
#[derive(Clone, Copy)]
struct Life {
    keeping: Keeping,
    for_ms: u64,
    /// After how many calls of the disk it is killed.
    killed: u32,
}

/// It is never killed.
const WHOLE: Life = Life {
    keeping: Keeping::Closings,
    for_ms: FOR_MS,
    killed: u32::MAX,
};

/// Runs a process with a file over what it has outside. It tells whether it ran to its end.
fn runs<O: Outside + Drop, P: Place + Drop>(
    station: Station<'_>,
    life: Life,
    disk: P,
    outside: O,
    record: &mut Vec<u8>,
) -> bool {
    let (rt, alloc) = (station.rt, station.alloc);
    let layout = station.table.layout();
    let Ok(digest) = layout_digest(alloc, SMALL) else {
        return false;
    };
    let Ok(with) = WithFile::begin(alloc, layout, digest.as_str(), outside, disk, rt) else {
        return false;
    };
    let asked = NodeRun {
        first: FIRST,
        for_ms: life.for_ms,
        keeping: life.keeping,
        counts: with.counts(),
    };
    let mut recorded = Recorded::new(alloc, layout, with, Some(record), rt);
    match station.table.copy(alloc) {
        Ok(copy) => run_node(alloc, copy, NodeId(INTERLOCKING), asked, &mut recorded).is_ok(),
        Err(_) => false,
    }
}

/// What a process tells an operator who listens from the beginning on and asks this.
fn told(
    station: Station<'_>,
    life: Life,
    place: &mut MemoryPlace,
    asked: &[&str],
    record: &mut Vec<u8>,
) -> Option<Vec<String>> {
    let mut memory = fresh_memory(station.alloc, 0, 10);
    memory.listen();
    for line in asked {
        memory.bring_line(line).ok()?;
    }
    let mut no_wire = None;
    let mut nobody = Nobody;
    let desk = Desk {
        latest: 0,
        memory: &mut memory,
        wire: &mut no_wire,
        others: &mut nobody,
    };
    let disk = Disk {
        memory: place,
        left: life.killed,
    };
    if !runs(station, life, disk, desk, record) {
        return None;
    }
    all_written(station, &mut memory)
}

/// All lines that were written.
fn all_written(station: Station<'_>, memory: &mut MemoryOutside) -> Option<Vec<String>> {
    let mut lines = Vec::new(station.alloc);
    for _ in 0..LINES {
        let Some(line) = memory.take_written() else {
            break;
        };
        lines.push(line).ok()?;
    }
    Some(lines)
}

/// At which place a line is told first.
fn place_of(lines: &[String], wanted: &str) -> Option<usize> {
    lines.iter().position(|line| line.as_str() == wanted)
}

/// Whether a line is told, and before another.
fn is_told_before(lines: &[String], one: &str, other: &str) -> bool {
    match (place_of(lines, one), place_of(lines, other)) {
        (Some(one), Some(other)) => one < other,
        _ => false,
    }
}

/// Whether a thing is told as closed before it is told that no command is taken yet.
fn is_told_closed(station: Station<'_>, lines: &[String], thing: &str) -> bool {
    let alloc = station.alloc;
    match format!(in alloc; "closed {thing}") {
        Ok(closed) => is_told_before(lines, closed.as_str(), "holding"),
        Err(_) => false,
    }
}

/// Whether a line answers a command.
fn is_answer(line: &str) -> bool {
    line == "accepted" || line.starts_with("not kept ") || line.starts_with("refused ")
}

/// The answers among these lines, in their order: whether each is `accepted`.
fn answers(station: Station<'_>, lines: &[String]) -> Option<Vec<bool>> {
    let mut answers = Vec::new(station.alloc);
    for line in lines {
        if is_answer(line.as_str()) {
            answers.push(line.as_str() == "accepted").ok()?;
        }
    }
    Some(answers)
}

/// Whether a thing has to be closed by these answers: its close was accepted, and no open of it was asked for later.
fn has_to_be_closed(thing: &str, answers: &[bool]) -> bool {
    let mut closed = false;
    for (place, line) in ASKED.iter().enumerate() {
        if line.strip_prefix("close ") == Some(thing) {
            closed = answers.get(place).copied().unwrap_or(false);
        }
        if line.strip_prefix("open ") == Some(thing) {
            closed = false;
        }
    }
    closed
}

/// Whether a new process closes all that has to be closed by these answers.
fn is_found(station: Station<'_>, place: &mut MemoryPlace, answers: &[bool]) -> bool {
    let mut record = Vec::new(station.alloc);
    let Some(lines) = told(station, WHOLE, place, &[], &mut record) else {
        return false;
    };
    for thing in THINGS {
        if has_to_be_closed(thing, answers) && !is_told_closed(station, &lines, thing) {
            return false;
        }
    }
    // What the process was told by its file isn't told as an answer.
    place_of(&lines, "accepted").is_none()
}

/// A process is killed between any two calls of its disk, and where `power` is cut too what wasn't synced is lost.
fn is_found_when_killed(station: Station<'_>, killed: u32, power: bool) -> bool {
    let Some(mut place) = small_file(station, "end\n") else {
        return false;
    };
    let mut record = Vec::new(station.alloc);
    let life = Life { killed, ..WHOLE };
    let Some(lines) = told(station, life, &mut place, &ASKED, &mut record) else {
        return false;
    };
    let Some(answers) = answers(station, &lines) else {
        return false;
    };
    if power && place.cut_power(b"layout").is_err() {
        return false;
    }
    answers.len() == ASKED.len() && is_found(station, &mut place, &answers)
}

/// A call of the disk fails, and those after it are done. Just its command isn't told as accepted, and the next one is kept again.
fn is_found_when_a_call_fails(station: Station<'_>, count: u32, happens: bool) -> bool {
    let Some(mut place) = small_file(station, "end\n") else {
        return false;
    };
    place.fail_after(count, happens);
    let mut record = Vec::new(station.alloc);
    let Some(lines) = told(station, WHOLE, &mut place, &ASKED, &mut record) else {
        return false;
    };
    let Some(answers) = answers(station, &lines) else {
        return false;
    };
    let accepted = answers.iter().filter(|accepted| **accepted).count();
    accepted == ASKED.len() - 1
        && is_same_again(station, WHOLE.keeping, &record)
        && is_found(station, &mut place, &answers)
}

/// Whether the record of a process is the same once more.
fn is_same_again(station: Station<'_>, keeping: Keeping, lines: &[u8]) -> bool {
    let alloc = station.alloc;
    let kept = match keeping {
        Keeping::Nothing => "",
        Keeping::Closings => " keeps closings releases 0 opens 0",
        Keeping::Locks => " keeps locks releases 0 opens 0",
    };
    let Ok(lines) = str::from_utf8(lines) else {
        return false;
    };
    let Ok(record) = format!(in alloc; "node IXL1 first {FIRST} for {FOR_MS}{kept}\n{lines}") else {
        return false;
    };
    let (mut out, mut err) = (Vec::new(alloc), Vec::new(alloc));
    replay_node_text(alloc, SMALL, "IXL1", record.as_str(), &mut out, &mut err) == 0
}

/// Wherever the process is killed what was accepted is found.
pub(crate) fn killed_processes_leave_what_they_accepted(station: Station<'_>) -> bool {
    for killed in 0..CALLS + 1 {
        if !is_found_when_killed(station, killed, false)
            || !is_found_when_killed(station, killed, true)
        {
            return false;
        }
    }
    true
}

/// Whichever call of the disk fails what was accepted is found.
pub(crate) fn failing_disks_leave_what_was_accepted(station: Station<'_>) -> bool {
    for count in 0..CALLS {
        if !is_found_when_a_call_fails(station, count, false)
            || !is_found_when_a_call_fails(station, count, true)
        {
            return false;
        }
    }
    true
}

/// What a file has that was closed before, and the things that it names.
const BEFORE: &str = "closed G1\nclosed P1 left\nclosed R3\nend\n";

const CLOSED_BEFORE: [&str; 3] = ["G1", "P1 left", "R3"];

/// How many calls a process makes as it takes over: it writes its file once.
const CALLS_TO_TAKE_OVER: u32 = 4;

/// Whether each of these things is told as closed before it is told that no command is taken yet.
fn are_told_closed(station: Station<'_>, lines: &[String], things: &[&str]) -> bool {
    things
        .iter()
        .all(|thing| is_told_closed(station, lines, *thing))
}

/// A process is killed between any two calls that it makes as it takes over what its file has.
fn is_taken_over_when_killed(station: Station<'_>, killed: u32, power: bool) -> bool {
    let Some(mut place) = small_file(station, BEFORE) else {
        return false;
    };
    let mut record = Vec::new(station.alloc);
    let life = Life { killed, ..WHOLE };
    if told(station, life, &mut place, &[], &mut record).is_none() {
        return false;
    }
    if power && place.cut_power(b"layout").is_err() {
        return false;
    }
    match told(station, WHOLE, &mut place, &[], &mut record) {
        Some(lines) => are_told_closed(station, &lines, &CLOSED_BEFORE),
        None => false,
    }
}

/// Wherever a process is killed that closes what its file has, the next one finds all of it.
pub(crate) fn killed_processes_leave_what_they_take_over(station: Station<'_>) -> bool {
    for killed in 0..CALLS_TO_TAKE_OVER + 1 {
        if !is_taken_over_when_killed(station, killed, false)
            || !is_taken_over_when_killed(station, killed, true)
        {
            return false;
        }
    }
    true
}

/// For how many milliseconds the process runs in which a route is set, and then isn't cancelled yet.
const WHILE_SET: u64 = STEP * 640;

/// What a route over the point locks, and what it leaves alone.
const LOCKED: [&str; 4] = ["GP", "G2", "P1 left", "P1 right"];

const UNLOCKED: [&str; 3] = ["GA", "G1", "R1"];

/// Runs a process with this file while the others are played, until a route is set.
fn runs_until_a_route_is_set(
    station: Station<'_>,
    keeping: Keeping,
    place: &mut MemoryPlace,
) -> bool {
    let played = Played {
        guest: Some(INTERLOCKING),
        ..Played::new(LATE)
    };
    let mut plant = Plant::new(station, played);
    plant.begin();
    let mut memory = fresh_memory(station.alloc, BEGINS, STEP);
    plant.exchange(&mut memory);
    let mut no_wire = None;
    let desk = Desk {
        latest: 0,
        memory: &mut memory,
        wire: &mut no_wire,
        others: &mut plant,
    };
    let life = Life {
        keeping,
        for_ms: WHILE_SET,
        ..WHOLE
    };
    let disk = Disk {
        memory: place,
        left: life.killed,
    };
    let mut record = Vec::new(station.alloc);
    let has_ended = runs(station, life, disk, desk, &mut record);
    has_ended && plant.seen.is_whole()
}

/// What a set route locks is closed in the next process, where locks are kept, and only there.
pub(crate) fn locks_are_closed_in_the_next_process(station: Station<'_>) -> bool {
    is_closed_then(station, Keeping::Locks, &LOCKED, &UNLOCKED)
        && is_closed_then(station, Keeping::Closings, &[], &LOCKED)
}

/// After a process in which a route was set these things are closed, and those are not.
fn is_closed_then(station: Station<'_>, keeping: Keeping, closed: &[&str], open: &[&str]) -> bool {
    let Some(mut place) = small_file(station, "end\n") else {
        return false;
    };
    if !runs_until_a_route_is_set(station, keeping, &mut place) {
        return false;
    }
    let mut record = Vec::new(station.alloc);
    let Some(lines) = told(station, WHOLE, &mut place, &[], &mut record) else {
        return false;
    };
    let are_closed = closed
        .iter()
        .all(|thing| is_told_closed(station, &lines, *thing));
    let are_open = open
        .iter()
        .all(|thing| !is_told_closed(station, &lines, *thing));
    are_closed && are_open
}
