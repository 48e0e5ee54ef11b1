//! The program `station`. `station check FILE` tells whether the layout or the railway in FILE is sound, `station routes FILE` prints the
//! routes that its table lacks, `station plan FILE` draws its track plan, and `station table FILE` prints its control table; `station sim FILE EVENTS` applies lines of events to a
//! station of it, `station run FILE --script S --record R --for MS` runs one over sockets, `station panel FILE` has one operated
//! from a browser, `station draw FILE` has one drawn there, `station replay FILE RECORD` applies a recorded session, and `station chart FILE RECORD` draws it; `station decode --hex HEX` puts a datagram into
//! words, and `station decode FILE RECORD` those of a session, which `station capture FILE RECORD OUT` writes to a file for
//! Wireshark; with `--node NAME` they do so with the record of a node. `station node FILE NAME --addresses ADDRESSES` runs a node of it as a process of its own; `station line begin RAILWAY LINE` writes the
//! files with which a line between two stations begins. The status is 0 where this was done, 1 at a fault, 2 where the command line is wrong, and 3 where a session
//! answers otherwise than it was recorded.
#![tactic(auto)]

mod draw_command;
mod drawn_file;
mod line_command;
mod railway_command;
mod text_judge;

use draw_command::draw_file;
use line_begin::is_railway;
use line_command::begin_line;
use node_panel::{NodePanelOptions, panel_of_node};
use node_record::{
    Cut as NodeCut, FoundEnds, NodeCaptureOptions, NodeRecord, capture_node_to_file,
    chart_node_text, decode_node_text, ends_text,
};
use railway_command::check_railway;
use station_command::{
    Approach, CaptureArguments, ChartArguments, CheckArguments, DatagramArguments, DrawArguments,
    Error, Failure, NodeArguments, PanelArguments, PlanArguments, Request, RoutesArguments,
    RunArguments, RunFiles, SessionArguments, SimArguments, TableArguments, files_of, input_once,
    is_memory, lines_of, read_words, record_texts_of, text_of, texts_of, words,
};
use station_layout::{Form, explain_text, plan_text, table_text};
use station_node::node_network::WaitedStream;
use station_node::whole_file::{DiskPlace, keep};
use station_node::{self, NodeOptions, layout_digest, replay_node_text};
use station_run::station_record::{
    CaptureOptions, Cut, capture_to_file, chart_text, decode_session_text,
};
use station_run::{
    self, Limits, PageAsked, PanelOptions, RunOptions, check_text, decode_text, replay_text,
    sim_text,
};
use std::io::{BufWriter, IsTerminal, Write};
use std::process::ExitCode;
use table_review::{
    ApproachRule, Asked, Completed, ReviewFault, completed_text, lacking_text, review_text,
};

fn main(rt: HostRuntime) -> ExitCode {
    let status = match answer(&rt) {
        Ok(status) => status,
        Err(failure) => {
            // Where this can't be written, the status has to do.
            let _ = eprintln!(rt; "{failure}");
            failure.status()
        }
    };
    ExitCode::from(status)
}

/// Does what the command line asks for, and answers the status.
fn answer(rt: &HostRuntime) -> Result<u8, Failure> {
    let words = words(rt, rt.alloc())?;
    match read_words(rt.alloc(), words.as_slice()) {
        Ok(request) => match BufWriter::new(rt.alloc(), rt.stdout()) {
            Ok(mut out) => carry_out(rt, request, &mut out),
            Err(_) => Err(Failure::OutOfMemory),
        },
        Err(error) => refuse(rt, &error),
    }
}

/// Prints the help that was asked for, or what is wrong with the command line.
fn refuse(rt: &HostRuntime, error: &Error) -> Result<u8, Failure> {
    if is_memory(error) {
        return Err(Failure::OutOfMemory);
    }
    match error.print(rt) {
        Ok(()) => Ok(error.exit_code() as u8),
        Err(_) => Ok(1),
    }
}

/// Does what is asked for. What it writes at once goes to `out`, which is standard output.
fn carry_out<W: Write>(rt: &HostRuntime, request: Request<'_>, out: &mut W) -> Result<u8, Failure> {
    match request {
        Request::Check(arguments) => check(rt, arguments, out),
        Request::Routes(arguments) => routes(rt, arguments, out),
        Request::Draw(arguments) => Ok(draw(rt, arguments)),
        Request::Plan(arguments) => plan(rt, arguments, out),
        Request::Table(arguments) => table(rt, arguments, out),
        Request::Sim(arguments) => sim(rt, arguments, out),
        Request::Run(arguments) => run(rt, arguments, out),
        Request::Panel(arguments) => panel(rt, arguments),
        Request::Replay(arguments) => replay(rt, arguments, out),
        Request::Chart(arguments) => chart(rt, arguments, out),
        Request::Decode(arguments) => decode(rt, arguments, out),
        Request::DecodeSession(arguments) => decode_session(rt, arguments, out),
        Request::Capture(arguments) => capture(rt, arguments),
        Request::Node(arguments) => node(rt, arguments),
        Request::BeginLine(arguments) => begin_line(rt, arguments, out),
    }
}

/// `check FILE [--explain] [--complete] [--digest]`. The file has a layout or a railway.
fn check<W: Write>(
    rt: &HostRuntime,
    arguments: CheckArguments<'_>,
    out: &mut W,
) -> Result<u8, Failure> {
    let text = text_of(rt, arguments.layout)?;
    match is_railway(rt.alloc(), text.as_str()) {
        Ok(true) => check_railway(rt, arguments, text.as_str(), out),
        Ok(false) => check_layout(rt, arguments, text.as_str(), out),
        Err(_) => Err(Failure::OutOfMemory),
    }
}

/// The same for the text of a layout.
fn check_layout<W: Write>(
    rt: &HostRuntime,
    arguments: CheckArguments<'_>,
    text: &str,
    out: &mut W,
) -> Result<u8, Failure> {
    let mut status = if arguments.explained {
        explain_text(rt.alloc(), text, out, &mut rt.stderr())
    } else {
        check_text(rt.alloc(), text, out, &mut rt.stderr())
    };
    if status == 0 && arguments.complete {
        status = tell_found(rt, review_text(rt.alloc(), text), out);
    }
    if status == 0 && arguments.digest {
        return tell_digest(rt, text);
    }
    Ok(status)
}

/// Writes what was found of a table, or why nothing was.
fn tell_found<W: Write>(rt: &HostRuntime, found: Result<Vec<u8>, ReviewFault>, out: &mut W) -> u8 {
    match found {
        Ok(text) => match out.write_all(&text).and_then(|()| out.flush()) {
            Ok(()) => 0,
            Err(_) => 1,
        },
        Err(fault) => tell_fault(rt, &fault),
    }
}

/// Tells why nothing is said of a table.
fn tell_fault(rt: &HostRuntime, fault: &ReviewFault) -> u8 {
    // Where this can't be written, the status has to do.
    let _ = eprintln!(rt; "{fault}");
    1
}

/// The rule of approach that is asked for.
fn approach_rule(asked: Option<Approach>) -> ApproachRule {
    match asked {
        Some(Approach::Berth) => ApproachRule::Berth,
        _ => ApproachRule::Signal,
    }
}

/// `routes FILE [--from SIGNALS] [--approach RULE] [--write]`.
fn routes<W: Write>(
    rt: &HostRuntime,
    arguments: RoutesArguments<'_>,
    out: &mut W,
) -> Result<u8, Failure> {
    let text = text_of(rt, arguments.layout)?;
    let asked = Asked {
        text: text.as_str(),
        from: arguments.from,
        rule: approach_rule(arguments.approach),
    };
    if !arguments.write {
        return Ok(tell_found(rt, lacking_text(rt.alloc(), &asked), out));
    }
    match completed_text(rt.alloc(), &asked) {
        Ok(Some(completed)) => write_routes(rt, arguments.layout, &completed),
        Ok(None) => Ok(0),
        Err(fault) => Ok(tell_fault(rt, &fault)),
    }
}

/// The word for standard input, which can't be written.
const INPUT: &str = "-";

/// Puts a text with routes in the place of a layout, whole.
fn write_routes(rt: &HostRuntime, file: &str, completed: &Completed) -> Result<u8, Failure> {
    let Ok(mut place) = DiskPlace::new(rt, file) else {
        return Err(Failure::OutOfMemory);
    };
    if file == INPUT || keep(&mut place, &completed.text).is_err() {
        let _ = eprintln!(rt; "can't write {file}");
        return Ok(1);
    }
    let routes = completed.routes;
    match println!(rt; "{routes} routes written") {
        Ok(()) => Ok(0),
        Err(_) => Ok(1),
    }
}

/// `draw FILE [--port P]`. What is drawn is written, so it is no standard input.
fn draw(rt: &HostRuntime, arguments: DrawArguments<'_>) -> u8 {
    let DrawArguments { layout, port } = arguments;
    if layout == INPUT {
        let _ = eprintln!(rt; "can't write {layout}");
        return 1;
    }
    draw_file(rt, layout, port_of(port))
}

/// Prints the digest of a layout.
fn tell_digest(rt: &HostRuntime, text: &str) -> Result<u8, Failure> {
    let Ok(digest) = layout_digest(rt.alloc(), text) else {
        return Err(Failure::OutOfMemory);
    };
    match println!(rt; "sha256 {digest}") {
        Ok(()) => Ok(0),
        Err(_) => Ok(1),
    }
}

/// `plan FILE [--route R] [--picture PICTURE]`.
fn plan<W: Write>(
    rt: &HostRuntime,
    arguments: PlanArguments<'_>,
    out: &mut W,
) -> Result<u8, Failure> {
    input_once(&[arguments.layout, arguments.picture.unwrap_or("")])?;
    let layout = text_of(rt, arguments.layout)?;
    let picture = match arguments.picture {
        Some(picture) => Some(lines_of(rt, picture)?),
        None => None,
    };
    Ok(plan_text(
        rt.alloc(),
        layout.as_str(),
        arguments.route,
        picture.as_deref(),
        out,
        &mut rt.stderr(),
    ))
}

/// `table FILE [--csv]`.
fn table<W: Write>(
    rt: &HostRuntime,
    arguments: TableArguments<'_>,
    out: &mut W,
) -> Result<u8, Failure> {
    let form = if arguments.csv {
        Form::Csv
    } else {
        Form::Markdown
    };
    let text = text_of(rt, arguments.layout)?;
    Ok(table_text(rt.alloc(), text.as_str(), form, out, &mut rt.stderr()))
}

/// `sim FILE EVENTS`.
fn sim<W: Write>(
    rt: &HostRuntime,
    arguments: SimArguments<'_>,
    out: &mut W,
) -> Result<u8, Failure> {
    let (layout, events) = texts_of(rt, arguments.layout, arguments.events)?;
    Ok(sim_text(
        rt.alloc(),
        layout.as_str(),
        events.as_str(),
        out,
        &mut rt.stderr(),
    ))
}

/// `run FILE --script S --record R [--record-size N] --for MS [--stop-file F]`. How far it has come is shown where standard error
/// is a terminal.
fn run<W: Write>(
    rt: &HostRuntime,
    arguments: RunArguments<'_>,
    out: &mut W,
) -> Result<u8, Failure> {
    let (layout, script) = texts_of(rt, arguments.layout, arguments.script)?;
    let files = RunFiles {
        record_size: arguments.record_size,
        stop_file: arguments.stop_file,
    };
    let asked = RunOptions {
        layout: layout.as_str(),
        script: script.as_str(),
        record: arguments.record,
        for_ms: arguments.for_ms,
        files: files_of(rt, Some(arguments.record), files)?,
    };
    let progress = rt.stderr().is_terminal();
    Ok(station_run::run(rt, &asked, out, &mut rt.stderr(), progress))
}

/// The version of the program.
pub(crate) const VERSION: &str = "1.0.0";

/// The port of a page, where the words say none.
const PORT: u16 = 8080;

/// The port of a page: the one that is given, which has 16 bits.
fn port_of(given: Option<u64>) -> u16 {
    match given {
        Some(port) => u16::try_from(port).unwrap_or(PORT),
        None => PORT,
    }
}

/// The record of a panel, where the words name none.
pub(crate) const RECORD: &str = "panel.session";

/// Up to how many bytes of datagrams a panel stands: 1 GiB.
pub(crate) const MEMORY: u64 = 1 << 30;

/// `panel FILE [--port P] [--record R] [--record-size N] [--for MS] [--stop-file F] [--node ADDRESS]`. The track plan is drawn first.
fn panel(rt: &HostRuntime, arguments: PanelArguments<'_>) -> Result<u8, Failure> {
    let text = text_of(rt, arguments.layout)?;
    let layout = text.as_str();
    let mut plan = Vec::new(rt.alloc());
    let status = plan_text(rt.alloc(), layout, None, None, &mut plan, &mut rt.stderr());
    if status != 0 {
        return Ok(status);
    }
    let files = RunFiles {
        record_size: arguments.record_size,
        stop_file: arguments.stop_file,
    };
    let files = files_of(rt, arguments.record, files)?;
    let page = PageAsked {
        layout,
        plan: str::from_utf8(&plan).unwrap_or(""),
        page: panel_page::page(),
        version: VERSION,
        port: port_of(arguments.port),
        kind: "world",
        record: arguments.record.unwrap_or(RECORD),
    };
    Ok(match arguments.node {
        Some(node) => panel_node(rt, page, node, arguments),
        None => panel_station(rt, page, arguments.for_ms, files),
    })
}

/// Has a station operated from a browser.
fn panel_station(
    rt: &HostRuntime,
    page: PageAsked<'_>,
    for_ms: Option<u64>,
    files: RunFiles<'_>,
) -> u8 {
    let limits = Limits {
        for_ms: for_ms.unwrap_or(u64::MAX),
        memory: MEMORY,
    };
    let asked = PanelOptions { page, limits };
    station_run::panel(rt, &asked, files, &mut rt.stdout(), &mut rt.stderr())
}

/// Has the node of an interlocking operated from a browser.
fn panel_node(
    rt: &HostRuntime,
    page: PageAsked<'_>,
    node: &str,
    arguments: PanelArguments<'_>,
) -> u8 {
    let asked = NodePanelOptions {
        page: PageAsked {
            kind: "node",
            record: "",
            ..page
        },
        record: arguments.record,
        node,
        for_ms: arguments.for_ms,
        stop_file: arguments.stop_file,
    };
    panel_of_node(rt, &asked, &mut rt.stdout(), &mut rt.stderr())
}

/// `replay FILE RECORD [--node NAME]`.
fn replay<W: Write>(
    rt: &HostRuntime,
    arguments: SessionArguments<'_>,
    out: &mut W,
) -> Result<u8, Failure> {
    let (layout, recording) = record_texts_of(rt, arguments.layout, arguments.recording)?;
    let (layout, recording) = (layout.as_str(), recording.as_str());
    Ok(match arguments.node {
        Some(name) => {
            replay_node_text(rt.alloc(), layout, name, recording, out, &mut rt.stderr())
        }
        None => replay_text(rt.alloc(), layout, recording, out, &mut rt.stderr()),
    })
}

/// `chart FILE RECORD [--node NAME] [--from MS] [--to MS]`.
fn chart<W: Write>(
    rt: &HostRuntime,
    arguments: ChartArguments<'_>,
    out: &mut W,
) -> Result<u8, Failure> {
    let (layout, recording) = record_texts_of(rt, arguments.layout, arguments.recording)?;
    let (layout, recording) = (layout.as_str(), recording.as_str());
    let ChartArguments { from, to, .. } = arguments;
    Ok(match arguments.node {
        Some(name) => {
            let recorded = NodeRecord {
                layout,
                name,
                recording,
            };
            let cut = NodeCut { from, to };
            chart_node_text(rt.alloc(), recorded, cut, out, &mut rt.stderr())
        }
        None => {
            let cut = Cut { from, to };
            chart_text(rt.alloc(), layout, recording, cut, out, &mut rt.stderr())
        }
    })
}

/// `decode --hex HEX [--layout FILE]`.
fn decode<W: Write>(
    rt: &HostRuntime,
    arguments: DatagramArguments<'_>,
    out: &mut W,
) -> Result<u8, Failure> {
    let layout = match arguments.layout {
        Some(file) => Some(text_of(rt, file)?),
        None => None,
    };
    Ok(decode_text(
        rt.alloc(),
        layout.as_deref(),
        arguments.hex,
        out,
        &mut rt.stderr(),
    ))
}

/// `decode FILE RECORD [--node NAME]`.
fn decode_session<W: Write>(
    rt: &HostRuntime,
    arguments: SessionArguments<'_>,
    out: &mut W,
) -> Result<u8, Failure> {
    let (layout, recording) = record_texts_of(rt, arguments.layout, arguments.recording)?;
    let (layout, recording) = (layout.as_str(), recording.as_str());
    Ok(match arguments.node {
        Some(name) => {
            decode_node_text(rt.alloc(), layout, name, recording, out, &mut rt.stderr())
        }
        None => decode_session_text(rt.alloc(), layout, recording, out, &mut rt.stderr()),
    })
}

/// `capture FILE RECORD OUT [--addresses ADDRESSES] [--node NAME] [--force]`.
fn capture(rt: &HostRuntime, arguments: CaptureArguments<'_>) -> Result<u8, Failure> {
    let addresses = arguments.addresses.unwrap_or("");
    input_once(&[arguments.layout, arguments.recording, addresses])?;
    let (layout, recording) = record_texts_of(rt, arguments.layout, arguments.recording)?;
    let Some(ends) = ends_of(rt, layout.as_str(), arguments.addresses)? else {
        return Ok(1);
    };
    let asked = CaptureOptions {
        layout: layout.as_str(),
        recording: recording.as_str(),
        endpoints: &ends.first,
        out: arguments.out,
        force: arguments.force,
    };
    Ok(match arguments.node {
        Some(name) => capture_node(rt, &asked, name, &ends),
        None => capture_to_file(rt, &asked, &mut rt.stderr()),
    })
}

/// Where the nodes are found, by the file with their addresses, if there is one. Where that file is faulty, it was told.
fn ends_of(
    rt: &HostRuntime,
    layout: &str,
    addresses: Option<&str>,
) -> Result<Option<FoundEnds>, Failure> {
    match addresses {
        Some(file) => {
            let text = lines_of(rt, file)?;
            Ok(ends_text(rt.alloc(), layout, text.as_str(), &mut rt.stderr()))
        }
        None => Ok(Some(FoundEnds::none(rt.alloc()))),
    }
}

/// Writes the capture of the record of a node.
fn capture_node(rt: &HostRuntime, asked: &CaptureOptions<'_>, name: &str, ends: &FoundEnds) -> u8 {
    let asked = NodeCaptureOptions {
        layout: asked.layout,
        name,
        recording: asked.recording,
        ends: ends.as_ends(),
        out: asked.out,
        force: asked.force,
    };
    capture_node_to_file(rt, &asked, &mut rt.stderr())
}

/// How many milliseconds a line may wait until it can be written.
const PATIENCE: u16 = 50;

/// `node FILE NAME --addresses ADDRESSES [--operator ADDRESS] [--record R] [--record-size N] [--closings FILE [--keep-locks]]
/// [--clock MS] [--hold MS] [--for MS] [--stop-file F]`. The lines of the node go over standard input and output.
fn node(rt: &HostRuntime, arguments: NodeArguments<'_>) -> Result<u8, Failure> {
    let (layout, addresses) = texts_of(rt, arguments.layout, arguments.addresses)?;
    let files = RunFiles {
        record_size: arguments.record_size,
        stop_file: arguments.stop_file,
    };
    let asked = NodeOptions {
        layout: layout.as_str(),
        name: arguments.name,
        addresses: addresses.as_str(),
        operator: arguments.operator,
        record: arguments.record,
        closings: arguments.closings,
        keep_locks: arguments.keep_locks,
        files: files_of(rt, arguments.record, files)?,
        hold: arguments.longest_wait(),
        clock: arguments.first_reading(),
        for_ms: arguments.for_ms,
    };
    let input = WaitedStream::new(rt.stdin(), 0);
    let output = WaitedStream::new(rt.stdout(), PATIENCE);
    Ok(station_node::run(rt, &asked, input, output, rt.stderr(), &mut rt.stderr()))
}
