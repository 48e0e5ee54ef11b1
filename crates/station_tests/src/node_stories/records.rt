//! The record of a node's whole process, and whether it is the same once more.

use crate::node_stories::desk::Desk;
use crate::node_stories::place::fresh_memory;
use crate::node_stories::plant::{BEGINS, Plant, Played, STEP};
use crate::node_stories::script::{LATE, LATE_ROUNDS};
use crate::node_stories::station::{NAMES, Station, name};
use crate::run_bench::SMALL;
use node_kinds::Keeping;
use node_kinds::node_drive::Outside;
use node_kinds::node_drive::node_lines::AuxiliaryCounts;
use node_kinds::simulator_spec::NodeId;
use station_node::node_network::Recorded;
use station_node::{NodeRun, replay_node_text, run_node};

/// From which number on the node numbers its PDUs, and another one.
const FIRST: u32 = 77;

const OTHER_FIRST: u32 = 78;

/// For how many milliseconds the node runs.
const FOR_MS: u64 = STEP * LATE_ROUNDS;

/// Whether the record of each node is the same once more, and so is a half of it, and differs where the PDUs are numbered otherwise.
pub(crate) fn records_are_same(station: Station<'_>) -> bool {
    for number in 0..NAMES.len() {
        if !is_same(station, number) {
            return false;
        }
    }
    true
}

/// The same of one node.
fn is_same(station: Station<'_>, number: usize) -> bool {
    let mut record = Vec::new(station.alloc);
    let is_recorded = record_node(station, number, &mut record);
    let (front, _) = record.split_at(record.len() / 2);
    is_recorded
        && replayed(station, number, FIRST, &record) == 0
        && replayed(station, number, FIRST, front) == 0
        && replayed(station, number, OTHER_FIRST, &record) == 3
}

/// With which status a record is replayed that begins with this number: 0 where it is the same, and 3 where it differs.
fn replayed(station: Station<'_>, number: usize, first: u32, lines: &[u8]) -> u8 {
    let alloc = station.alloc;
    let Ok(lines) = str::from_utf8(lines) else {
        return 1;
    };
    let name = name(number);
    let Ok(record) = format!(in alloc; "node {name} first {first} for {FOR_MS}\n{lines}") else {
        return 1;
    };
    let (mut out, mut err) = (Vec::new(alloc), Vec::new(alloc));
    let status = replay_node_text(alloc, SMALL, name, record.as_str(), &mut out, &mut err);
    let is_same = out.as_slice() == b"same\n".as_slice();
    if is_same == (status == 0) { status } else { 1 }
}

/// Runs the process of a node while the others are played, and records it: the lines of its record after the first one. It tells
/// whether all went well, and the process ran to its end.
fn record_node(station: Station<'_>, number: usize, record: &mut Vec<u8>) -> bool {
    // The process of this node is played elsewhere.
    let played = Played {
        guest: Some(number),
        ..Played::new(LATE)
    };
    let mut plant = Plant::new(station, played);
    plant.begin();
    let mut memory = fresh_memory(station.alloc, BEGINS, STEP);
    // What its contacts have told comes to it.
    plant.exchange(&mut memory);
    let mut no_wire = None;
    let desk = Desk {
        latest: 0,
        memory: &mut memory,
        wire: &mut no_wire,
        others: &mut plant,
    };
    let has_ended = record_whole(station, number, desk, record);
    has_ended && plant.seen.is_whole()
}

/// Records a whole process that has this outside. It tells whether it ran to its end.
fn record_whole<O: Outside + Drop>(
    station: Station<'_>,
    number: usize,
    outside: O,
    record: &mut Vec<u8>,
) -> bool {
    let (rt, alloc, table) = (station.rt, station.alloc, station.table);
    let mut recorded = Recorded::new(alloc, table.layout(), outside, Some(record), rt);
    match table.copy(alloc) {
        Ok(copy) => {
            let node = NodeId(number);
            let asked = NodeRun {
                first: FIRST,
                for_ms: FOR_MS,
                keeping: Keeping::Nothing,
                counts: AuxiliaryCounts::none(),
            };
            run_node(alloc, copy, node, asked, &mut recorded).is_ok()
        }
        Err(_) => false,
    }
}
