//! The texts of the help.

pub(crate) const ABOUT: &str = "The interlocking of a railway station";

/// The help of a command.
#[derive(Clone, Copy)]
pub(crate) enum CommandHelp {
    Check,
    Routes,
    Draw,
    Plan,
    Table,
    Sim,
    Run,
    Panel,
    Replay,
    Chart,
    Decode,
    Capture,
    Node,
    Line,
}

impl CommandHelp {
    /// In one line.
    pub(crate) fn about(self) -> &'static str {
        match self {
            CommandHelp::Check => CHECK,
            CommandHelp::Routes => ROUTES,
            CommandHelp::Draw => DRAW,
            CommandHelp::Plan => PLAN,
            CommandHelp::Table => TABLE,
            CommandHelp::Sim => SIM,
            CommandHelp::Run => RUN,
            CommandHelp::Panel => PANEL,
            CommandHelp::Replay => REPLAY,
            CommandHelp::Chart => CHART,
            CommandHelp::Decode => DECODE,
            CommandHelp::Capture => CAPTURE,
            CommandHelp::Node => NODE,
            CommandHelp::Line => LINE,
        }
    }

    /// At length.
    pub(crate) fn details(self) -> &'static str {
        match self {
            CommandHelp::Check => CHECK_DETAILS,
            CommandHelp::Routes => ROUTES_DETAILS,
            CommandHelp::Draw => DRAW_DETAILS,
            CommandHelp::Plan => PLAN_DETAILS,
            CommandHelp::Table => TABLE_DETAILS,
            CommandHelp::Sim => SIM_DETAILS,
            CommandHelp::Run => RUN_DETAILS,
            CommandHelp::Panel => PANEL_DETAILS,
            CommandHelp::Replay => REPLAY_DETAILS,
            CommandHelp::Chart => CHART_DETAILS,
            CommandHelp::Decode => DECODE_DETAILS,
            CommandHelp::Capture => CAPTURE_DETAILS,
            CommandHelp::Node => NODE_DETAILS,
            CommandHelp::Line => LINE_DETAILS,
        }
    }
}

/// The help of an argument.
#[derive(Clone, Copy)]
pub(crate) enum Help {
    File,
    Explain,
    Complete,
    Digest,
    FromSignals,
    Approach,
    Write,
    FileChecked,
    FileDrawn,
    Route,
    Picture,
    Csv,
    Events,
    Script,
    RecordOfRun,
    RecordSize,
    StopFile,
    For,
    Port,
    RecordOfPanel,
    ForOfPanel,
    NodeOfPanel,
    Record,
    RecordedNode,
    From,
    To,
    Hex,
    Layout,
    Out,
    AddressesOfCapture,
    Force,
    Name,
    Addresses,
    Operator,
    RecordOfNode,
    Closings,
    KeepLocks,
    Clock,
    Hold,
    ForOfNode,
    Begin,
    Railway,
    NameOfLine,
    Again,
}

impl Help {
    pub(crate) fn words(self) -> &'static str {
        match self {
            Help::File => FILE,
            Help::Explain => EXPLAIN,
            Help::Complete => COMPLETE,
            Help::Digest => DIGEST,
            Help::FromSignals => FROM_SIGNALS,
            Help::Approach => APPROACH,
            Help::Write => WRITE,
            Help::FileChecked => FILE_CHECKED,
            Help::FileDrawn => FILE_DRAWN,
            Help::Route => ROUTE,
            Help::Picture => PICTURE,
            Help::Csv => CSV,
            Help::Events => EVENTS,
            Help::Script => SCRIPT,
            Help::RecordOfRun => RECORD_OF_RUN,
            Help::RecordSize => RECORD_SIZE,
            Help::StopFile => STOP_FILE,
            Help::For => FOR,
            Help::Port => PORT,
            Help::RecordOfPanel => RECORD_OF_PANEL,
            Help::ForOfPanel => FOR_OF_PANEL,
            Help::NodeOfPanel => NODE_OF_PANEL,
            Help::Record => RECORD,
            Help::RecordedNode => RECORDED_NODE,
            Help::From => FROM,
            Help::To => TO,
            Help::Hex => HEX,
            Help::Layout => LAYOUT,
            Help::Out => OUT,
            Help::AddressesOfCapture => ADDRESSES_OF_CAPTURE,
            Help::Force => FORCE,
            Help::Name => NAME,
            Help::Addresses => ADDRESSES,
            Help::Operator => OPERATOR,
            Help::RecordOfNode => RECORD_OF_NODE,
            Help::Closings => CLOSINGS,
            Help::KeepLocks => KEEP_LOCKS,
            Help::Clock => CLOCK,
            Help::Hold => HOLD,
            Help::ForOfNode => FOR_OF_NODE,
            Help::Begin => BEGIN,
            Help::Railway => RAILWAY,
            Help::NameOfLine => NAME_OF_LINE,
            Help::Again => AGAIN,
        }
    }
}

const FILE: &str = "The layout, a TOML file (- for a file that is read is standard input)";

const EXPLAIN: &str = "Tells a fault in a second line, in words";

const COMPLETE: &str = "Tells what the table of routes lacks";

const DIGEST: &str = "Prints a SHA-256 of the layout's text in one line more";

const FROM_SIGNALS: &str =
    "The signals at which the routes begin, with commas between their names, else all";

const APPROACH: &str =
    "How far the approach of a route leads back: signal, to the signal before, or berth, over the tracks behind its signal; else signal";

const WRITE: &str = "Writes the routes into the file in place of printing them";

const FILE_CHECKED: &str =
    "The layout or the railway, a TOML file (- for a file that is read is standard input)";

const FILE_DRAWN: &str = "The layout that is drawn, a TOML file, which may not be there yet";

const ROUTE: &str = "The route that is drawn thick, with its flank points and approach";

const PICTURE: &str = "What is seen of the station, as sim prints it";

const CSV: &str = "Prints it as CSV, with the heads in the first line";

const EVENTS: &str = "The lines of events";

const SCRIPT: &str = "The lines that are applied, each at its time";

const RECORD_OF_RUN: &str = "The file to which the session is written";

const RECORD_SIZE: &str =
    "How many bytes a part of the record has, from 4096 to 4294967296, else it stands in one file";

const STOP_FILE: &str = "A file that isn't there yet, and ends the run as soon as it is";

const FOR: &str = "How long the station runs, from 1000 to 600000 milliseconds";

const RECORD: &str = "The recorded session";

const HEX: &str = "The bytes of the datagram in hexadecimal digits, a hyphen for none";

const LAYOUT: &str = "The layout whose key and names are used, a TOML file";

const CHECK: &str = "Checks the layout of a station and its table of routes";

const CHECK_DETAILS: &str = "Checks the layout of a station and its table of routes.

A layout is a TOML file that says what lies where (tracks, points, signals, detection sections) and
which routes there are. It is sound where each route has an unbroken path, names exactly the points
that it needs on its path and at its flanks, and has its signals at the right places.

For a sound layout it prints how many signals, points, sections and routes the station has, and each
pair of routes that can't be set at the same time. Otherwise it prints the first fault, and ends with
status 1. With --explain a second line says what is wrong, in words. With --complete further lines tell
of a sound layout which routes its table lacks, which ways can't be routes and why, at which signals and
borders no route begins or ends, and which sections the approach lists lack. With --digest one line more
has a SHA-256 of the layout's text, which is the same on two machines where the text is.
docs/INTERLOCKING.md has the keys of the file and all faults, examples/ has stations.

FILE may be a railway: stations, each with the file of its layout, and the lines between them. Then each
layout is checked, and after that what is wrong with the railway is told, or each line with its ends.
--complete and --digest are for one layout. docs/LINES.md has the keys and faults of a railway.

Examples: station check examples/junction.toml
          station check examples/railway/railway.toml";

const ROUTES: &str = "Prints the routes that the table of a layout lacks";

const ROUTES_DETAILS: &str =
    "Prints the routes that the table of a layout lacks, as [[route]] blocks.

Which routes there are follows from tracks, points, joints and signals: each way from a signal to the
next signal or to a border that needs no point at both sides, and whose unused legs are all guarded.
The layout may have no routes yet. Nothing is printed where its table lacks none. Where there are more
than 64 routes, --from tells at which signals they begin: it stands once, with all their names.

A route is slow where it leads over a leg that the key slow of its point names (left, right or both).
Its approach has the sections by which a train comes to its signal. Its name is made of its signal and
its exit.

With --write the routes are written into the file, behind those that stand there, and nothing else of
it changes. The file is written only where the new text is a sound layout, as for check.

Example: station routes examples/small.toml --from S1,S2";

const DRAW: &str = "Opens a page in a browser on which a station is drawn";

const DRAW_DETAILS: &str = "Opens a page in a browser on which a station is drawn.

The address of a page is printed, for a browser on this machine. There rails are drawn, with joints,
signals and borders: points, sections and the table of routes follow. Each text is checked as by check
with --explain and --complete, and the page tells what that says.

FILE may not be there yet. What is saved is written whole, and never over a file that something else
changed meanwhile, unless the person at the page wants that. Run it starts a panel of what was checked
last, as panel does, at an address of its own, until it is stopped there. Its session is recorded in
panel.session. draw itself runs until it is stopped.

Example: station draw mine.toml";

const PLAN: &str = "Draws the track plan of a layout";

const PLAN_DETAILS: &str = "Draws the track plan of a layout, as an SVG picture on standard output.

It shows the tracks, the points with their two legs, the borders, the signals on the side of the
direction that they rule, the joints where sections differ, and each section with its detector. With
a route its path is drawn thick. With a picture, as `picture` in the lines of sim prints it, aspects,
positions, occupancies and set routes are shown. The layout has to be sound, as for check.

Example: station plan examples/junction.toml > junction.svg";

const TABLE: &str = "Prints the control table of a layout";

const TABLE_DETAILS: &str = "Prints the control table of a layout, in Markdown.

Each route has a row: its name, its entry signal and its exit, the aspect, the points on its path that
have to lie right and left, the flank points, its sections in order, the points that it holds, each
with the sections at which it is let go, the approach sections, and the routes that conflict with it,
each with the reasons (entry, section, point, extra). The layout has to be sound, as for check.

Example: station table examples/junction.toml";

const SIM: &str = "Applies lines of events to a station of a layout";

const SIM_DETAILS: &str = "Applies lines of events to a station of a layout.

The station runs in this process: the interlocking, a controller for each signal, point and detector,
a clock for each, and the network between them. Each line is an event, or asks for something:

  set R, cancel R, resume     a command to the interlocking
  release R                   the same: a cancelled route is freed 120 s later
  move P left|right           the same: a point is moved
  close X, close P left       the same: a section, point, signal or route is closed to routes and moves
  open X, open P left         the same: that is ended
  occupy S, clear S           a section is occupied, or clear
  tick NODE                   the timer of a node calls it
  time D NODE=E ..            D microseconds pass, and E on the clock of a node that is named
  deliver NODE HEX            the network delivers bytes to a node (a hyphen for none)
  lose HEX                    the network loses the oldest copy of a datagram
  reach P left|right|none     a point that is driven comes to lie somewhere
  restart NODE CLOCK SN       a node is made anew
  flow MS                     so much time flows in rounds of 10 ms, and all datagrams are delivered
  picture                     what is seen of the station

Before all these, lines may say how the station lies when it is started, one for each point that
doesn't stand left, and for each section that isn't clear:

  begins P left|right|none    a point stands so
  begins S clear|occupied     a section is so

All lines are judged before the first event. Each is then answered on a line of its own: `ok`,
`accepted`, `refused N` by the interlocking, or `no N` for an event that can't happen.

Example: station sim examples/small.toml examples/proceed.events";

const RUN: &str = "Runs a station of a layout over loopback sockets";

const RUN_DETAILS: &str = "Runs a station of a layout over loopback sockets.

Each node has a UDP socket of its own. About every 10 ms time passes, each datagram that has come is
delivered, the lines of the script that are due are applied, and every node ticks. Each line of a
script is `at MS EVENT`, with the events set, cancel, resume, release, move, close, open, occupy, clear
and restart, in rising order of MS.

Each event is recorded with what it answered; the record of a run that was stopped is good as far as
it goes. At the end it prints what is seen of the station.

With --stop-file it ends where that file is there, as it does after --for. With --record-size the record
stands in parts, R, R.2, R.3 and so on: a part ends with the first line at whose end it has N bytes. None
of them may be there already. replay, chart, decode and capture take R, and find the others.

Example: station run examples/small.toml --script examples/proceed.script --record run.session --for 12000";

const PORT: &str = "The port of the page, from 1 to 65535, else 8080";

const RECORD_OF_PANEL: &str = "The file to which the session is written, else panel.session";

const FOR_OF_PANEL: &str =
    "How long the panel stands, from 1000 to 600000 milliseconds, else until it is stopped";

const NODE_OF_PANEL: &str =
    "The address at which the interlocking's node serves its operator: the panel is joined to it";

const PANEL: &str = "Opens a signaller's panel of a station in a browser";

const PANEL_DETAILS: &str = "Opens a signaller's panel of a station in a browser.

The station runs as by run, and each event is recorded with what it answered. It begins with each point
at left and each section clear. The address of a page is printed, for a browser on this machine. The
page shows the track plan as the station stands. On it a person sets and cancels routes, drives trains,
and disturbs the station: cuts links, loses and delays datagrams, makes nodes anew, jams points.

It runs until it is stopped, or until the datagrams that were sent take 1 GiB. --stop-file is as for run,
and so is --record-size, with which --record has to stand.

With --node the station isn't run here: its interlocking runs as node runs one with --operator, and the
panel is joined to it as its operator. The page then shows what the interlocking knows, and sets and
cancels routes. The node writes the record, so --record isn't taken with --node.

Example: station panel examples/junction.toml";

const RECORDED_NODE: &str =
    "The name of the node whose record it is, as node writes one with --record";

const REPLAY: &str = "Applies a recorded session to a station of a layout again";

const REPLAY_DETAILS: &str = "Applies a recorded session to a station of a layout again.

The station begins with each point at left and each section clear. Each line of a session is an event
and what it answered, as EVENT = ANSWER. Where each event answers the same, it prints `same`. Otherwise
it prints the first line that differs, and ends with status 3.

Where a session stands in parts, RECORD is the first: RECORD.2, RECORD.3 and so on are read behind it.

With --node the record is that of one node, as node writes it with --record. It is applied to a node of
this name that is made anew.

Example: station replay examples/small.toml examples/commands.session";

const FROM: &str = "The moment at which the chart begins, in milliseconds";

const TO: &str = "The moment at which the chart ends, in milliseconds";

const CHART: &str = "Draws a session, or what a node recorded, as a chart";

const CHART_DETAILS: &str =
    "Draws a session as a chart over true time, as an SVG picture on standard output.

The session is applied again, as by replay. The chart has a lane for each signal (its aspect, its
authority), point (its position, its drive), section, route, link and node, and a mark for each
command with its answer. --from and --to cut it.

With --node the record is that of one node, as node writes it with --record. It is drawn over the
clock of this node: what its lines tell of its signal, its point or its sections, or of all that an
interlocking knows, with its commands and answers.

Example: station chart examples/small.toml examples/commands.session > commands.svg";

const DECODE: &str = "Puts a datagram, or those of a session, into words";

const DECODE_DETAILS: &str = "Puts a datagram, or those of a session, into words, each in one line.

With --hex it is one datagram. Its line tells the sender and the receiver, the type, the sequence
number and the confirmed one (SN, CS), the time stamp and the confirmed one (TS, CTS), and behind a
colon what the datagram carries. With a layout its key is used and its nodes are called by name,
otherwise the standard key and numbers. Where the bytes are no PDU, it tells the fault, and ends
with status 0 all the same.

With a layout and a session, the session is applied again, as by replay. A line for each datagram
that is sent, delivered or lost tells true time in milliseconds, what becomes of it, and its words.

With --node the record is that of one node, as node writes it with --record. A line for each datagram
that came or was sent tells the reading of the node's clock, what became of it, and its words.

Examples: station decode examples/small.toml examples/traffic.session
          station decode --hex 32003818020000000100000000000000000000007017000000000000303330331400000000000000000023e6b5e69928e086 --layout examples/small.toml";

const OUT: &str = "The capture, a file that Wireshark reads";

const FORCE: &str = "Writes over the capture, if it is there already";

const ADDRESSES_OF_CAPTURE: &str =
    "The addresses of the nodes, a TOML file as for node, else made of their places";

const CAPTURE: &str = "Writes the datagrams of a session as a capture";

const CAPTURE_DETAILS: &str =
    "Writes the datagrams of a session as a capture, a file that Wireshark reads.

The session is applied again, as by replay. Each datagram that is sent stands in the capture at its
true time, with the addresses of its two nodes: those of --addresses, else such as are made of the
places of the nodes in the layout. One that is lost has the comment lost. The file is written when the
session has been applied to its end. A file that is there already stays as it is, unless --force stands.

With --node the record is that of one node, as node writes it with --record. Each datagram that came
or was sent stands in the capture at the reading of the node's clock. One that came and wasn't
delivered to the node has a comment that says why.
docs/WIRE.md tells how a capture is looked at.

Example: station capture examples/small.toml examples/traffic.session traffic.pcapng";

const NAME: &str = "The name of the node, as the layout has it";

const ADDRESSES: &str = "The addresses of the nodes, a TOML file";

const OPERATOR: &str =
    "The loopback address of the operator, in place of standard input and output";

const RECORD_OF_NODE: &str = "The file to which what came and what was done is written";

const CLOSINGS: &str = "The file in which what is closed outlives the interlocking's process";

const KEEP_LOCKS: &str =
    "What set routes lock is kept in the file too, and closed in the next process";

const CLOCK: &str =
    "Where the node's clock begins, from 0 to 9000000000000 milliseconds, else at 0";

const HOLD: &str =
    "How long a datagram waits for those that were sent before it, from 0 to 80 milliseconds, else 60";

const FOR_OF_NODE: &str =
    "How long the node runs, from 1000 to 600000 milliseconds, else without end";

const NODE: &str = "Runs one node of a station as a process of its own";

const NODE_DETAILS: &str = "Runs one node of a station as a process of its own.

NAME is the station's name, for its interlocking, or that of a signal, a point or a detector, for its
controller. The nodes send each other UDP datagrams. ADDRESSES is a TOML file with a line for each
node, its IP address and its port, as `S1 = \"10.0.0.2:5001\"`. All moments in the lines below are
readings of the node's own clock, in milliseconds.

The controller of a signal or a point tells its field equipment what to do, in lines on standard
output. Each has a number, and the moment at which it was written:

  7 at 12000 show proceed until 13640     the signal shows proceed (or slow); from 13640 on it
                                          falls to stop by itself
  8 at 12310 show stop                    the signal shows stop
  9 at 500 drive left until 2280          the point is driven to the left (or right); from 2280
                                          on the drive stops by itself
  10 at 900 drive none                    the point isn't driven

It is told by the field equipment, in lines on standard input:

  done 7                      the line of this number is in force
  occupy S, clear S           what the contact of a section tells a detector
  reach left|right|none       where the point lies, with none for neither

A controller waits until its first line is done and each contact has told its state.

The interlocking serves an operator, in lines on standard input and output, or at --operator:

  resume                      it takes `set`, `cancel`, `release` and `move` from now on
  set R, cancel R             sets a route, or lets it go
  cancel all                  lets each route go
  release R                   frees a route that is cancelled, 120 s later
  move P left|right           moves a point
  close X, close P left       keeps routes and moves off a section, point, signal or route
  open X, open P left         ends that

It answers `accepted`, or `refused N` with the cause, and tells what it knows whenever that changes:

  link NODE ready|lost                    the link to a controller
  section S clear|occupied|unknown        what is reported of a section
  point P left|right|unknown              what is reported of a point
  signal S ASPECT R, signal S stop -      what a signal may show, and the route into which it leads
  indicates S ASPECT                      what a signal is reported to show
  route R set|free                        whether a route is set
  route R released                        it is set, and was released: it is free 120 s after that
  closed X, open X                        whether something is closed; a point with its side
  counted release N, counted open N       how many of these were accepted
  closings lost: CAUSE                    the file of closings says less, so all track is closed
  closings not kept                       that file lacks what was closed or opened last
  holding                                 it was made anew, and takes no command but `close` and `open` yet
  waiting for resume                      it takes no command but these and `resume`

With --closings what is closed is in FILE before `accepted` is told, and the next process closes it
before it hears anything. It answers `not kept X` where FILE can't be written. Where FILE can't be read
whole, or is of another layout, every section and every point is closed, and `closings lost` tells why.

With --stop-file it ends where that file is there, as it does after --for: what it drives is told to rest.
With --record-size its record stands in parts, as for run.

docs/DEPLOYMENT.md tells how a station is put on machines.

Example: station node examples/halden.toml A --addresses examples/machines/halden.addresses";

const BEGIN: &str = "The word begin";

const RAILWAY: &str = "The railway, a TOML file (- for a file that is read is standard input)";

const NAME_OF_LINE: &str = "The name of the line, as the railway has it";

const AGAIN: &str = "Begins a line anew whose files are there, after a text was typed";

const LINE: &str = "Writes the files with which a line between two stations begins";

const LINE_DETAILS: &str = "Writes the files with which a line between two stations begins.

Each end of a line keeps in a file whether the line's one token is at it, and where its lock lies; without
that file it doesn't start. A new line begins with its token at the first end, and with both locks at the
left. For a line L between A and B these files are L.A.end and L.B.end, beside the file of the railway.

Nothing is written where something is wrong with the railway, as check tells it, or where one of the files
is there already. The file of the second end, which has no token, is written first: so wherever the command
is cut off, not both files have one.

Where a file was lost or is an older copy, the line begins again, with --again. Before that no route onto or
from the line may be set, their lamps have to be dark, and both ends stopped. A line that says so is asked
for on standard input, and nothing is written unless exactly that is typed.
docs/LINES.md tells more of lines.

Example: station line begin examples/railway/railway.toml L";
