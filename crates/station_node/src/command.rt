//! What `station node` does.

ghost use Rattle.std.specs.Prelude.{◌≡◌, ◌≤◌, IfOk, OnOk, string_bytes};
ghost use Rattle.station_node.specs.Closings.{CountsOn, keeps_words};

use crate::digest::layout_digest;
use crate::failure::NodeFailure;
use crate::numbered::Numbered;
use crate::process::{NodeRun, run_node};
use crate::stoppable::Stoppable;
use crate::with_file::WithFile;
use node_kinds::node_drive::node_lines::AuxiliaryCounts;
use node_kinds::node_drive::{NodeFault, Outside};
use node_kinds::simulator_spec::{Checked, Layout, NodeId};
use node_kinds::{Keeping, node_named};
use node_network::{
    LONGEST_HOLD, Lines, Machine, NetworkWatch, NetworksSeen, NodeClock, NodeSocket, OpenFault,
    Recorded,
};
use run_files::{RecordFile, RunFiles, StopFile, record_file};
use station_check::{Networks, read_networks, table_of, tell};
use std::alloc::{AllocError, Global};
use std::fs::Files;
use std::io::{self, Eprint, Read, Write};
use std::net::{Net, SocketAddr};
use std::random::RandomSource;
use std::time::Clock as Timer;
use whole_file::DiskPlace;

/// What `station node` is asked.
#[derive(Clone, Copy)]
pub struct NodeOptions<'a> {
    /// The text of the layout.
    pub layout: &'a str,
    /// The name of the node.
    pub name: &'a str,
    /// The text of the addresses file.
    pub addresses: &'a str,
    /// The address at which the interlocking's operator is served, if not over the lines of the process.
    pub operator: Option<&'a str>,
    /// The path of the record, if there is to be one.
    pub record: Option<&'a str>,
    /// The path of the file in which the closings of the interlocking are kept, if they are.
    pub closings: Option<&'a str>,
    /// Whether what set routes lock is kept there too.
    pub keep_locks: bool,
    /// What is asked of the record's parts, and of the file that ends the process.
    pub files: RunFiles<'a>,
    /// For how many milliseconds a datagram that came ahead of its turn waits for those before it, 80 at most.
    pub hold: u64,
    /// The first reading of the clock, in milliseconds.
    pub clock: u64,
    /// For how many milliseconds it runs, if not for ever.
    pub for_ms: Option<u64>,
}

/// Runs a node of a station as a process of its own. Its lines go over `input` and `output`, those about faulty ones to `complaints`.
/// The texts are judged before the socket is bound. On standard error the digest of the layout is told as the node begins, and why it
/// ended before its time. The status is 0 where it ran to its end, or until the file that ends it was there, and otherwise 1.
pub fn run<
    R: Files + Net + Timer + RandomSource + Eprint + AllocGlobal,
    I: Read + Drop,
    O: Write + Drop,
    E: Write + Drop,
>(rt: &R, asked: &NodeOptions<'_>, input: I, output: O, complaints: E, err: &mut E) -> u8
    ensures { result ≤ 1 }
{
    let table = match table_of(rt.alloc(), asked.layout) {
        Ok(table) => table,
        Err(failure) => return tell(&failure, err),
    };
    match begin(rt, asked, &table, input, output, complaints) {
        Ok(()) => 0,
        Err(failure) => {
            // Where this can't be written, the status has to do.
            let _ = eprintln!(rt; "{failure}");
            1
        }
    }
}

/// Judges the name and the addresses, opens the lines, and runs the process.
fn begin<
    R: Files + Net + Timer + RandomSource + Eprint + AllocGlobal,
    I: Read + Drop,
    O: Write + Drop,
    E: Write + Drop,
>(
    rt: &R,
    asked: &NodeOptions<'_>,
    table: &Checked,
    input: I,
    output: O,
    complaints: E,
) -> Result<(), NodeFailure> {
    let own = own_of(rt, table.layout(), asked)?;
    may_keep(asked, own.node)?;
    let lines = lines_of(rt, asked.operator, own.node, input, output)?;
    run_own(rt, asked, table, &own, lines, complaints)
}

/// Whether a process may keep what it is to keep.
fn may_keep(asked: &NodeOptions<'_>, node: NodeId) -> Result<(), NodeFailure> {
    if asked.closings.is_some() && node.0 != 0 {
        return Err(NodeFailure::Closings);
    }
    if asked.keep_locks && asked.closings.is_none() {
        return Err(NodeFailure::Locks);
    }
    Ok(())
}

/// What is kept of the interlocking.
fn keeping_of(asked: &NodeOptions<'_>) -> Keeping {
    match asked.closings {
        None => Keeping::Nothing,
        Some(_) if asked.keep_locks => Keeping::Locks,
        Some(_) => Keeping::Closings,
    }
}

/// What a process is of its own: which node it is, where all nodes are in each network, and the number of its first PDU.
#[derive(Drop)]
struct Own {
    node: NodeId,
    networks: Networks,
    first: u32,
}

/// Judges the name and the addresses, and draws the number of the first PDU.
fn own_of<R: RandomSource + AllocGlobal>(
    rt: &R,
    layout: &Layout,
    asked: &NodeOptions<'_>,
) -> Result<Own, NodeFailure> {
    let Ok(node) = node_named(layout, asked.name) else {
        return Err(NodeFailure::NoNode);
    };
    let networks = match read_networks(rt.alloc(), layout, asked.addresses) {
        Ok(networks) => networks,
        Err(fault) => return Err(NodeFailure::Addresses(fault)),
    };
    let mut bytes = [0u8; 4];
    if rt.fill_bytes(&mut bytes).is_err() {
        return Err(NodeFailure::NoRandom);
    }
    Ok(Own {
        node,
        networks,
        first: u32::from_le_bytes(bytes),
    })
}

/// Opens the socket and the clock of a process, and runs it over these lines.
fn run_own<
    R: Files + Net + Timer + Eprint + AllocGlobal,
    I: Read + Drop,
    O: Write + Drop,
    E: Write + Drop,
>(
    rt: &R,
    asked: &NodeOptions<'_>,
    table: &Checked,
    own: &Own,
    lines: Lines<R, I, O>,
    complaints: E,
) -> Result<(), NodeFailure> {
    match open_socket(rt, asked, own) {
        Ok((socket, clock)) => {
            let networks = networks_seen(rt, table.layout(), own)?;
            let machine = Machine::new(rt.alloc(), clock, socket, lines, complaints, networks);
            run_on(rt, asked, table, own, machine)
        }
        Err(fault) => Err(NodeFailure::Open(fault)),
    }
}

/// What is seen of the networks of a node, where there are two.
fn networks_seen<'a, R: AllocGlobal>(
    rt: &R,
    layout: &'a Layout,
    own: &Own,
) -> Result<Option<NetworksSeen<'a>>, NodeFailure> {
    if own.networks.second().is_none() {
        return Ok(None);
    }
    match NetworkWatch::new(rt.alloc(), own.networks.first().len()) {
        Ok(watch) => Ok(Some(NetworksSeen::new(layout, watch))),
        Err(_) => Err(NodeFailure::Open(OpenFault::OutOfMemory)),
    }
}

/// Opens the socket of a node, and starts its clock.
fn open_socket<'a, R: Net + Timer + Eprint + AllocGlobal>(
    rt: &'a R,
    asked: &NodeOptions<'_>,
    own: &Own,
) -> Result<(NodeSocket, NodeClock<'a, R>), OpenFault> {
    let (first, second) = (own.networks.first(), own.networks.second());
    let hold = asked.hold.min(LONGEST_HOLD);
    let socket = NodeSocket::open(rt, rt.alloc(), first, second, own.node, hold)?;
    let clock = start_clock(rt, asked)?;
    Ok((socket, clock))
}

/// Starts the clock of a node, and tells the digest of the layout on standard error: all nodes have to have the same one.
fn start_clock<'a, R: Timer + Eprint + AllocGlobal>(
    rt: &'a R,
    asked: &NodeOptions<'_>,
) -> Result<NodeClock<'a, R>, OpenFault> {
    let clock = NodeClock::start(rt, asked.clock)?;
    let Ok(digest) = layout_digest(rt.alloc(), asked.layout) else {
        return Err(OpenFault::OutOfMemory);
    };
    // Where this can't be written, the node begins all the same.
    let _ = eprintln!(rt; "layout {digest}");
    Ok(clock)
}

/// What a process has outside as it begins, and how many auxiliary commands were counted before.
struct Begun<O> {
    outside: O,
    counts: AuxiliaryCounts,
}

/// Runs a node over what it has outside. What that of the interlocking has is counted, and told to an operator who asks for it; and
/// what is closed is kept in a file, if that is asked for.
fn run_on<R: Files + Eprint + AllocGlobal, O: Outside + Drop>(
    rt: &R,
    asked: &NodeOptions<'_>,
    table: &Checked,
    own: &Own,
    outside: O,
) -> Result<(), NodeFailure> {
    let counts = AuxiliaryCounts::none();
    if own.node.0 != 0 {
        return run_over(rt, asked, table, own, Begun { outside, counts });
    }
    let Ok(outside) = Numbered::new(rt, outside) else {
        return Err(NodeFailure::Ended(NodeFault::OutOfMemory));
    };
    let Some(path) = asked.closings else {
        return run_over(rt, asked, table, own, Begun { outside, counts });
    };
    match with_file(rt, asked.layout, table.layout(), outside, path) {
        Ok(begun) => run_over(rt, asked, table, own, begun),
        Err(_) => Err(NodeFailure::Ended(NodeFault::OutOfMemory)),
    }
}

/// What a process has outside, with the file of this path for a layout of this text. It counts on from what the file told.
fn with_file<'a, R: Files + Eprint + AllocGlobal, O: Outside + Drop>(
    rt: &'a R,
    text: &str,
    layout: &'a Layout,
    outside: O,
    path: &str,
) -> Result<Begun<WithFile<'a, O, DiskPlace<'a, R>, R>>, AllocError>
    ensures { IfOk result (λ begun. begun.counts ≡ begun.outside.takeover.found.counts) }
{
    let digest = layout_digest(rt.alloc(), text)?;
    let place = DiskPlace::new(rt, path)?;
    let outside = WithFile::begin(rt.alloc(), layout, digest.as_str(), outside, place, rt)?;
    let counts = outside.counts();
    Ok(Begun { outside, counts })
}

/// Runs a node over what it has outside, for so many milliseconds, or for ever, or until a file ends it, and records what comes to it and
/// what it does, if that is asked for. It counts auxiliary commands on from what was counted before.
fn run_over<R: Files + Eprint + AllocGlobal, O: Outside + Drop>(
    rt: &R,
    asked: &NodeOptions<'_>,
    table: &Checked,
    own: &Own,
    begun: Begun<O>,
) -> Result<(), NodeFailure>
    ensures { OnOk result (CountsOn table.now begun.counts) }
{
    let Begun { outside, counts } = begun;
    let recorder = recorder_for(rt, asked, own.first, counts)?;
    let alloc = rt.alloc();
    let Ok(copy) = table.copy(alloc) else {
        return Err(NodeFailure::Ended(NodeFault::OutOfMemory));
    };
    let stop = StopFile::new(rt, asked.files.stop_file);
    let stoppable = Stoppable::new(outside, StopFile::new(rt, asked.files.stop_file));
    let mut recorded = Recorded::new(alloc, table.layout(), stoppable, recorder, rt);
    let asked = NodeRun {
        first: own.first,
        for_ms: asked.for_ms.unwrap_or(u64::MAX),
        keeping: keeping_of(asked),
        counts,
    };
    match run_node(alloc, copy, own.node, asked, &mut recorded) {
        Ok(()) => Ok(()),
        Err(NodeFault::LinesEnded) if stop.is_there() => Ok(()),
        Err(fault) => Err(NodeFailure::Ended(fault)),
    }
}

/// The record that is asked for, if one is, with its first line.
fn recorder_for<'a, R: Files + AllocGlobal>(
    rt: &'a R,
    asked: &NodeOptions<'_>,
    first: u32,
    counts: AuxiliaryCounts,
) -> Result<Option<RecordFile<'a, R>>, NodeFailure> {
    let Some(path) = asked.record else {
        return Ok(None);
    };
    let Ok(mut recorder) = record_file(rt, path, asked.files.record_size) else {
        return Err(NodeFailure::NoRecord);
    };
    let Ok(keeps) = keeps_text(rt.alloc(), keeping_of(asked), counts) else {
        return Err(NodeFailure::NoRecord);
    };
    match write_head(asked, first, keeps.as_str(), &mut recorder) {
        Ok(()) => Ok(Some(recorder)),
        Err(_) => Err(NodeFailure::NoRecord),
    }
}

/// What the first line of a record says of what is kept, and of how many auxiliary commands were counted before: nothing where nothing
/// is kept.
fn keeps_text(
    alloc: Global,
    keeping: Keeping,
    counts: AuxiliaryCounts,
) -> Result<String, AllocError>
    ensures { IfOk result (λ text. string_bytes text ≡ keeps_words keeping counts) }
{
    let AuxiliaryCounts { releases, opens } = counts;
    match keeping {
        Keeping::Nothing => String::from_str(alloc, ""),
        Keeping::Closings => {
            format!(in alloc; " keeps closings releases {releases} opens {opens}")
        }
        Keeping::Locks => format!(in alloc; " keeps locks releases {releases} opens {opens}"),
    }
}

/// Writes the first line of a record.
fn write_head<W: Write>(
    asked: &NodeOptions<'_>,
    first: u32,
    keeps: &str,
    recorder: &mut W,
) -> io::Result<()> {
    let name = asked.name;
    match asked.for_ms {
        Some(for_ms) => recorder.writeln(format_args!(
            "node {name} first {first} for {for_ms}{keeps}"
        )),
        None => recorder.writeln(format_args!("node {name} first {first}{keeps}")),
    }
}

/// The lines of a node: those of its field equipment, or of the operator, who may come and go over a connection.
fn lines_of<R: Net, I: Read + Drop, O: Write + Drop>(
    rt: &R,
    operator: Option<&str>,
    node: NodeId,
    input: I,
    output: O,
) -> Result<Lines<R, I, O>, NodeFailure> {
    match operator {
        Some(text) => served_at(rt, text, node),
        None if node.0 == 0 => Ok(Lines::of_operator(input, output)),
        None => Ok(Lines::of_field(input, output)),
    }
}

/// The lines of the operator of the interlocking, who is served at an address of the loopback interface.
fn served_at<R: Net, I: Read + Drop, O: Write + Drop>(
    rt: &R,
    text: &str,
    node: NodeId,
) -> Result<Lines<R, I, O>, NodeFailure> {
    match text.parse::<SocketAddr>() {
        Ok(address) if node.0 == 0 && address.ip().is_loopback() => {
            match Lines::over_connection(rt, address) {
                Ok(lines) => Ok(lines),
                Err(fault) => Err(NodeFailure::Open(fault)),
            }
        }
        _ => Err(NodeFailure::Operator),
    }
}
