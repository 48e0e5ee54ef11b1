//! The table of the commands of `station`, each with its files, options and switches.

use crate::texts::{CommandHelp, Help};
use rasta_core_link::LATEST_CLOCK;

/// The commands by their words.
pub(crate) const CHECK: &str = "check";

pub(crate) const PLAN: &str = "plan";

pub(crate) const TABLE: &str = "table";

pub(crate) const SIM: &str = "sim";

pub(crate) const RUN: &str = "run";

pub(crate) const PANEL: &str = "panel";

pub(crate) const REPLAY: &str = "replay";

pub(crate) const CHART: &str = "chart";

pub(crate) const DECODE: &str = "decode";

pub(crate) const CAPTURE: &str = "capture";

/// This is also the word of an option for records.
pub(crate) const NODE: &str = "node";

pub(crate) const ROUTES: &str = "routes";

pub(crate) const DRAW: &str = "draw";

pub(crate) const LINE: &str = "line";

/// The file of the layout, and the one that is applied to it.
pub(crate) const FILE: &str = "FILE";

pub(crate) const SECOND: &str = "SECOND";

/// The options of a plan.
pub(crate) const ROUTE: &str = "route";

pub(crate) const PICTURE: &str = "picture";

/// The switches of a check.
pub(crate) const EXPLAIN: &str = "explain";

pub(crate) const COMPLETE: &str = "complete";

pub(crate) const DIGEST: &str = "digest";

/// The option and the switch of derived routes, beside `from`.
pub(crate) const APPROACH: &str = "approach";

pub(crate) const WRITE: &str = "write";

/// The switch of a table.
pub(crate) const CSV: &str = "csv";

/// The options of a run.
pub(crate) const SCRIPT: &str = "script";

pub(crate) const RECORD: &str = "record";

pub(crate) const FOR: &str = "for";

/// The options of each long run: how long a part of its record is, and the file that ends it.
pub(crate) const RECORD_SIZE: &str = "record-size";

pub(crate) const STOP_FILE: &str = "stop-file";

/// The options of a datagram.
pub(crate) const HEX: &str = "hex";

pub(crate) const LAYOUT: &str = "layout";

/// The options of a chart. The first is also one of derived routes.
pub(crate) const FROM: &str = "from";

pub(crate) const TO: &str = "to";

/// The file and the switch of a capture.
pub(crate) const OUT: &str = "OUT";

pub(crate) const FORCE: &str = "force";

/// The name of a node, where nodes and an operator are reached, the first reading of a clock, and how long a datagram waits.
pub(crate) const NAME: &str = "NAME";

pub(crate) const ADDRESSES: &str = "addresses";

pub(crate) const OPERATOR: &str = "operator";

/// The file of what is closed, and the switch by which it has what is locked too.
pub(crate) const CLOSINGS: &str = "closings";

pub(crate) const KEEP_LOCKS: &str = "keep-locks";

pub(crate) const CLOCK: &str = "clock";

pub(crate) const HOLD: &str = "hold";

/// What is done with a line, which has a name, and the switch by which it is done again.
pub(crate) const ACTION: &str = "ACTION";

pub(crate) const AGAIN: &str = "again";

/// The port of a page, the lowest and the highest.
pub(crate) const PORT: &str = "port";

const LOWEST: u64 = 1;

const HIGHEST: u64 = 65_535;

/// The shortest and the longest run, in milliseconds.
const SHORTEST: u64 = 1000;

const LONGEST: u64 = 600_000;

/// The shortest and the longest part of a record, in bytes: a file of more isn't read.
const SMALLEST: u64 = 4096;

const LARGEST: u64 = 4_294_967_296;

/// The last moment of a chart, in milliseconds.
const LATEST: u64 = 18_446_744_073_709_551;

/// The longest time for which a datagram waits for those before it, in milliseconds.
const LONGEST_HOLD: u64 = 80;

/// How an argument is given, and what the help calls its value.
#[derive(Clone, Copy)]
pub(crate) enum Kind {
    /// A file, by its place.
    File(&'static str),
    /// An option with a word.
    Word(&'static str),
    /// An option with a number, from the lowest to the highest.
    Number(&'static str, u64, u64),
    Switch,
}

/// An argument: its name, how it is given, whether it is needed, and its help.
#[derive(Clone, Copy)]
pub(crate) struct Argument(
    pub(crate) &'static str,
    pub(crate) Kind,
    pub(crate) bool,
    pub(crate) Help,
);

const NEEDED: bool = true;

const OPTIONAL: bool = false;

/// A command with its arguments in their order.
#[derive(Clone, Copy)]
pub(crate) struct Entry {
    pub(crate) word: &'static str,
    pub(crate) help: CommandHelp,
    pub(crate) arguments: &'static [Argument],
}

/// The commands, in the order in which the help has them.
pub(crate) const COMMANDS: &[Entry] = &[
    // `check FILE [--explain] [--complete] [--digest]`
    Entry {
        word: CHECK,
        help: CommandHelp::Check,
        arguments: &[
            Argument(FILE, Kind::File("FILE"), NEEDED, Help::FileChecked),
            Argument(EXPLAIN, Kind::Switch, OPTIONAL, Help::Explain),
            Argument(COMPLETE, Kind::Switch, OPTIONAL, Help::Complete),
            Argument(DIGEST, Kind::Switch, OPTIONAL, Help::Digest),
        ],
    },
    // `routes FILE [--from SIGNALS] [--approach RULE] [--write]`
    Entry {
        word: ROUTES,
        help: CommandHelp::Routes,
        arguments: &[
            Argument(FILE, Kind::File("FILE"), NEEDED, Help::File),
            Argument(FROM, Kind::Word("SIGNALS"), OPTIONAL, Help::FromSignals),
            Argument(APPROACH, Kind::Word("RULE"), OPTIONAL, Help::Approach),
            Argument(WRITE, Kind::Switch, OPTIONAL, Help::Write),
        ],
    },
    // `draw FILE [--port P]`
    Entry {
        word: DRAW,
        help: CommandHelp::Draw,
        arguments: &[
            Argument(FILE, Kind::File("FILE"), NEEDED, Help::FileDrawn),
            Argument(
                PORT,
                Kind::Number("P", LOWEST, HIGHEST),
                OPTIONAL,
                Help::Port,
            ),
        ],
    },
    // `plan FILE [--route R] [--picture PICTURE]`
    Entry {
        word: PLAN,
        help: CommandHelp::Plan,
        arguments: &[
            Argument(FILE, Kind::File("FILE"), NEEDED, Help::File),
            Argument(ROUTE, Kind::Word("R"), OPTIONAL, Help::Route),
            Argument(PICTURE, Kind::Word("PICTURE"), OPTIONAL, Help::Picture),
        ],
    },
    // `table FILE [--csv]`
    Entry {
        word: TABLE,
        help: CommandHelp::Table,
        arguments: &[
            Argument(FILE, Kind::File("FILE"), NEEDED, Help::File),
            Argument(CSV, Kind::Switch, OPTIONAL, Help::Csv),
        ],
    },
    // `sim FILE EVENTS`
    Entry {
        word: SIM,
        help: CommandHelp::Sim,
        arguments: &[
            Argument(FILE, Kind::File("FILE"), NEEDED, Help::File),
            Argument(SECOND, Kind::File("EVENTS"), NEEDED, Help::Events),
        ],
    },
    // `run FILE --script S --record R [--record-size N] --for MS [--stop-file F]`
    Entry {
        word: RUN,
        help: CommandHelp::Run,
        arguments: &[
            Argument(FILE, Kind::File("FILE"), NEEDED, Help::File),
            Argument(SCRIPT, Kind::Word("S"), NEEDED, Help::Script),
            Argument(RECORD, Kind::Word("R"), NEEDED, Help::RecordOfRun),
            Argument(
                RECORD_SIZE,
                Kind::Number("N", SMALLEST, LARGEST),
                OPTIONAL,
                Help::RecordSize,
            ),
            Argument(
                FOR,
                Kind::Number("MS", SHORTEST, LONGEST),
                NEEDED,
                Help::For,
            ),
            Argument(STOP_FILE, Kind::Word("F"), OPTIONAL, Help::StopFile),
        ],
    },
    // `panel FILE [--port P] [--record R] [--record-size N] [--for MS] [--stop-file F] [--node ADDRESS]`
    Entry {
        word: PANEL,
        help: CommandHelp::Panel,
        arguments: &[
            Argument(FILE, Kind::File("FILE"), NEEDED, Help::File),
            Argument(
                PORT,
                Kind::Number("P", LOWEST, HIGHEST),
                OPTIONAL,
                Help::Port,
            ),
            Argument(RECORD, Kind::Word("R"), OPTIONAL, Help::RecordOfPanel),
            Argument(
                RECORD_SIZE,
                Kind::Number("N", SMALLEST, LARGEST),
                OPTIONAL,
                Help::RecordSize,
            ),
            Argument(
                FOR,
                Kind::Number("MS", SHORTEST, LONGEST),
                OPTIONAL,
                Help::ForOfPanel,
            ),
            Argument(STOP_FILE, Kind::Word("F"), OPTIONAL, Help::StopFile),
            Argument(NODE, Kind::Word("ADDRESS"), OPTIONAL, Help::NodeOfPanel),
        ],
    },
    // `replay FILE RECORD [--node NAME]`
    Entry {
        word: REPLAY,
        help: CommandHelp::Replay,
        arguments: &[
            Argument(FILE, Kind::File("FILE"), NEEDED, Help::File),
            Argument(SECOND, Kind::File("RECORD"), NEEDED, Help::Record),
            Argument(NODE, Kind::Word("NAME"), OPTIONAL, Help::RecordedNode),
        ],
    },
    // `chart FILE RECORD [--node NAME] [--from MS] [--to MS]`
    Entry {
        word: CHART,
        help: CommandHelp::Chart,
        arguments: &[
            Argument(FILE, Kind::File("FILE"), NEEDED, Help::File),
            Argument(SECOND, Kind::File("RECORD"), NEEDED, Help::Record),
            Argument(NODE, Kind::Word("NAME"), OPTIONAL, Help::RecordedNode),
            Argument(FROM, Kind::Number("MS", 0, LATEST), OPTIONAL, Help::From),
            Argument(TO, Kind::Number("MS", 0, LATEST), OPTIONAL, Help::To),
        ],
    },
    // `decode --hex HEX [--layout FILE]`, or `decode FILE RECORD [--node NAME]`
    Entry {
        word: DECODE,
        help: CommandHelp::Decode,
        arguments: &[
            Argument(HEX, Kind::Word("HEX"), OPTIONAL, Help::Hex),
            Argument(LAYOUT, Kind::Word("FILE"), OPTIONAL, Help::Layout),
            Argument(FILE, Kind::File("FILE"), OPTIONAL, Help::File),
            Argument(SECOND, Kind::File("RECORD"), OPTIONAL, Help::Record),
            Argument(NODE, Kind::Word("NAME"), OPTIONAL, Help::RecordedNode),
        ],
    },
    // `capture FILE RECORD OUT [--addresses ADDRESSES] [--node NAME] [--force]`
    Entry {
        word: CAPTURE,
        help: CommandHelp::Capture,
        arguments: &[
            Argument(FILE, Kind::File("FILE"), NEEDED, Help::File),
            Argument(SECOND, Kind::File("RECORD"), NEEDED, Help::Record),
            Argument(OUT, Kind::File("OUT"), NEEDED, Help::Out),
            Argument(
                ADDRESSES,
                Kind::Word("ADDRESSES"),
                OPTIONAL,
                Help::AddressesOfCapture,
            ),
            Argument(NODE, Kind::Word("NAME"), OPTIONAL, Help::RecordedNode),
            Argument(FORCE, Kind::Switch, OPTIONAL, Help::Force),
        ],
    },
    // `node FILE NAME --addresses ADDRESSES [--operator ADDRESS] [--record R] [--record-size N] [--closings FILE [--keep-locks]]
    // [--clock MS] [--hold MS] [--for MS] [--stop-file F]`
    Entry {
        word: NODE,
        help: CommandHelp::Node,
        arguments: &[
            Argument(FILE, Kind::File("FILE"), NEEDED, Help::File),
            Argument(NAME, Kind::File("NAME"), NEEDED, Help::Name),
            Argument(ADDRESSES, Kind::Word("ADDRESSES"), NEEDED, Help::Addresses),
            Argument(OPERATOR, Kind::Word("ADDRESS"), OPTIONAL, Help::Operator),
            Argument(RECORD, Kind::Word("R"), OPTIONAL, Help::RecordOfNode),
            Argument(
                RECORD_SIZE,
                Kind::Number("N", SMALLEST, LARGEST),
                OPTIONAL,
                Help::RecordSize,
            ),
            Argument(CLOSINGS, Kind::Word("FILE"), OPTIONAL, Help::Closings),
            Argument(KEEP_LOCKS, Kind::Switch, OPTIONAL, Help::KeepLocks),
            Argument(
                CLOCK,
                Kind::Number("MS", 0, LATEST_CLOCK),
                OPTIONAL,
                Help::Clock,
            ),
            Argument(
                HOLD,
                Kind::Number("MS", 0, LONGEST_HOLD),
                OPTIONAL,
                Help::Hold,
            ),
            Argument(
                FOR,
                Kind::Number("MS", SHORTEST, LONGEST),
                OPTIONAL,
                Help::ForOfNode,
            ),
            Argument(STOP_FILE, Kind::Word("F"), OPTIONAL, Help::StopFile),
        ],
    },
    // `line begin FILE NAME [--again]`
    Entry {
        word: LINE,
        help: CommandHelp::Line,
        arguments: &[
            Argument(ACTION, Kind::File("begin"), NEEDED, Help::Begin),
            Argument(FILE, Kind::File("RAILWAY"), NEEDED, Help::Railway),
            Argument(NAME, Kind::File("LINE"), NEEDED, Help::NameOfLine),
            Argument(AGAIN, Kind::Switch, OPTIONAL, Help::Again),
        ],
    },
];
