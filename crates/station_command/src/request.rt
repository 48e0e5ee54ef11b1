//! What a command line of `station` asks for, with the options of each command.

ghost use Rattle.std.specs.Prelude.{◌≡◌};
ghost use Rattle.std.specs.Option.{unwrap_or};

/// What a command line asks for.
#[derive(Clone, Copy)]
pub enum Request<'a> {
    /// `check FILE [--explain] [--complete] [--digest]`: whether the layout or the railway in a file is sound.
    Check(CheckArguments<'a>),
    /// `routes FILE [--from SIGNALS] [--approach RULE] [--write]`: the routes that the layout in a file lacks.
    Routes(RoutesArguments<'a>),
    /// `draw FILE [--port P]`: a page on which the layout in a file is drawn.
    Draw(DrawArguments<'a>),
    /// `plan FILE [--route R] [--picture PICTURE]`: the track plan of the layout in a file.
    Plan(PlanArguments<'a>),
    /// `table FILE [--csv]`: the control table of the layout in a file.
    Table(TableArguments<'a>),
    /// `sim FILE EVENTS`: what the lines of a file of events do to a station of the layout in another.
    Sim(SimArguments<'a>),
    /// `run FILE --script S --record R [--record-size N] --for MS [--stop-file F]`: a station of the layout in a file over
    /// sockets.
    Run(RunArguments<'a>),
    /// `panel FILE [--port P] [--record R] [--record-size N] [--for MS] [--stop-file F] [--node ADDRESS]`: a panel of a station of
    /// the layout in a file.
    Panel(PanelArguments<'a>),
    /// `replay FILE RECORD [--node NAME]`: whether a recorded session answers the same again.
    Replay(SessionArguments<'a>),
    /// `chart FILE RECORD [--node NAME] [--from MS] [--to MS]`: a recorded session as a chart.
    Chart(ChartArguments<'a>),
    /// `decode --hex HEX [--layout FILE]`: a datagram in words.
    Decode(DatagramArguments<'a>),
    /// `decode FILE RECORD [--node NAME]`: the datagrams of a recorded session, in words.
    DecodeSession(SessionArguments<'a>),
    /// `capture FILE RECORD OUT [--addresses ADDRESSES] [--node NAME] [--force]`: the same datagrams as a capture in a third file.
    Capture(CaptureArguments<'a>),
    /// `node FILE NAME --addresses ADDRESSES [--operator ADDRESS] [--record R] [--record-size N] [--closings FILE [--keep-locks]]
    /// [--clock MS] [--hold MS] [--for MS] [--stop-file F]`: one node of a station of the layout in a file, as a process of its own.
    Node(NodeArguments<'a>),
    /// `line begin FILE NAME [--again]`: the files with which a line of the railway in a file begins.
    BeginLine(BeginLineArguments<'a>),
}

/// The file of a layout, whether what is wrong is told in words, whether what its table lacks is told, and whether a digest of
/// its text is told.
#[derive(Clone, Copy)]
pub struct CheckArguments<'a> {
    pub layout: &'a str,
    pub explained: bool,
    pub complete: bool,
    pub digest: bool,
}

/// By which rule the approach of a derived route is found: back to the signal before its own, or over the tracks behind its
/// signal alone.
#[derive(Clone, Copy)]
pub enum Approach {
    Signal,
    Berth,
}

/// The file of a layout, the names of the signals at which routes begin, with commas between, where it isn't all, the rule of
/// approach, and whether the routes are written into the file.
#[derive(Clone, Copy)]
pub struct RoutesArguments<'a> {
    pub layout: &'a str,
    pub from: Option<&'a str>,
    pub approach: Option<Approach>,
    pub write: bool,
}

/// The file of a layout, which may not be there yet, and the port of the page.
#[derive(Clone, Copy)]
pub struct DrawArguments<'a> {
    pub layout: &'a str,
    pub port: Option<u64>,
}

/// The file of a layout, the route that is drawn thick, and the file with what is seen.
#[derive(Clone, Copy)]
pub struct PlanArguments<'a> {
    pub layout: &'a str,
    pub route: Option<&'a str>,
    pub picture: Option<&'a str>,
}

/// The file of a layout, and whether its table is printed as CSV, or as Markdown.
#[derive(Clone, Copy)]
pub struct TableArguments<'a> {
    pub layout: &'a str,
    pub csv: bool,
}

/// The files of a layout and of lines of events.
#[derive(Clone, Copy)]
pub struct SimArguments<'a> {
    pub layout: &'a str,
    pub events: &'a str,
}

/// The files of a layout, of a script and of the record, how many bytes a part of the record has, where it stands in parts, how many
/// milliseconds the station runs, and the file that ends it before.
#[derive(Clone, Copy)]
pub struct RunArguments<'a> {
    pub layout: &'a str,
    pub script: &'a str,
    pub record: &'a str,
    pub record_size: Option<u64>,
    pub for_ms: u64,
    pub stop_file: Option<&'a str>,
}

/// The file of a layout, the port of the page, the file of the record, how many bytes a part of it has, where it stands in parts, for
/// how many milliseconds the panel stands, the file that ends it before, and the address of the node of an interlocking to which it is
/// joined, if it is.
#[derive(Clone, Copy)]
pub struct PanelArguments<'a> {
    pub layout: &'a str,
    pub port: Option<u64>,
    pub record: Option<&'a str>,
    pub record_size: Option<u64>,
    pub for_ms: Option<u64>,
    pub stop_file: Option<&'a str>,
    pub node: Option<&'a str>,
}

/// The files of a layout and of a recorded session, or of the record of the node of a name.
#[derive(Clone, Copy)]
pub struct SessionArguments<'a> {
    pub layout: &'a str,
    pub recording: &'a str,
    pub node: Option<&'a str>,
}

/// The same, with the moments at which the chart begins and ends, in milliseconds.
#[derive(Clone, Copy)]
pub struct ChartArguments<'a> {
    pub layout: &'a str,
    pub recording: &'a str,
    pub node: Option<&'a str>,
    pub from: Option<u64>,
    pub to: Option<u64>,
}

/// The bytes of a datagram in hexadecimal digits, and the file of the layout whose words are used, if there is one.
#[derive(Clone, Copy)]
pub struct DatagramArguments<'a> {
    pub hex: &'a str,
    pub layout: Option<&'a str>,
}

/// The files of a session, as above, the file of the capture, the file with the addresses of the nodes, where these aren't made
/// of the nodes' places, and whether a file that is there is written over.
#[derive(Clone, Copy)]
pub struct CaptureArguments<'a> {
    pub layout: &'a str,
    pub recording: &'a str,
    pub out: &'a str,
    pub addresses: Option<&'a str>,
    pub node: Option<&'a str>,
    pub force: bool,
}

/// The file of a layout, the name of the node, the file with the addresses of the nodes, the address for the operator, where it
/// isn't standard input and output, the file to which what came and what was done is written, how many bytes a part of it has, where
/// it stands in parts, the file in which what is closed is kept, and whether what routes lock is kept there too, where the clock begins, how long a datagram waits for those before it, for how many milliseconds the node runs,
/// where it isn't until it is ended, and the file that ends it.
#[derive(Clone, Copy)]
pub struct NodeArguments<'a> {
    pub layout: &'a str,
    pub name: &'a str,
    pub addresses: &'a str,
    pub operator: Option<&'a str>,
    pub record: Option<&'a str>,
    pub record_size: Option<u64>,
    pub closings: Option<&'a str>,
    pub keep_locks: bool,
    pub clock: Option<u64>,
    pub hold: Option<u64>,
    pub for_ms: Option<u64>,
    pub stop_file: Option<&'a str>,
}

/// The file of a railway, the name of a line of it, and whether the line begins again though its files are there.
#[derive(Clone, Copy)]
pub struct BeginLineArguments<'a> {
    pub railway: &'a str,
    pub line: &'a str,
    pub again: bool,
}

/// How many milliseconds a datagram waits for those before it, where the words say nothing.
pub const USUAL_HOLD: u64 = 60;

impl NodeArguments<'_> {
    /// The first reading of the node's clock, in milliseconds: 0 where the words say none.
    pub fn first_reading(&self) -> u64
        ensures { result ≡ unwrap_or self.now.clock 0 }
    {
        self.clock.unwrap_or(0)
    }

    /// How many milliseconds a datagram waits for those before it.
    pub fn longest_wait(&self) -> u64
        ensures { result ≡ unwrap_or self.now.hold USUAL_HOLD }
    {
        self.hold.unwrap_or(USUAL_HOLD)
    }
}
