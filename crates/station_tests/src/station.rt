//! The texts for command lines, which no contract says. What takes memory is done again where it is lacking, so that
//! the answers also hold with any one allocation refused.

use crate::command_bench::expect_printed;
use arrayvec::ArrayVec;
use station_command::{is_memory, read_words};
use std::alloc::Global;
use std::process::Abort;

const HELP: &str = "The interlocking of a railway station

Usage: station <COMMAND>

Commands:
  check    Checks the layout of a station and its table of routes
  routes   Prints the routes that the table of a layout lacks
  draw     Opens a page in a browser on which a station is drawn
  plan     Draws the track plan of a layout
  table    Prints the control table of a layout
  sim      Applies lines of events to a station of a layout
  run      Runs a station of a layout over loopback sockets
  panel    Opens a signaller's panel of a station in a browser
  replay   Applies a recorded session to a station of a layout again
  chart    Draws a session, or what a node recorded, as a chart
  decode   Puts a datagram, or those of a session, into words
  capture  Writes the datagrams of a session as a capture
  node     Runs one node of a station as a process of its own
  line     Writes the files with which a line between two stations begins
  help     Print this message or the help of the given subcommand(s)

Options:
  -h, --help     Print help
  -V, --version  Print version
";

const CHECK_HELP: &str = "Checks the layout of a station and its table of routes.

A layout is a TOML file that says what lies where (tracks, points, signals, detection sections) and
which routes there are. It is sound where each route has an unbroken path, names exactly the points
that it needs on its path and at its flanks, and has its signals at the right places.

For a sound layout it prints how many signals, points, sections and routes the station has, and each
pair of routes that can't be set at the same time. Otherwise it prints the first fault, and ends with
status 1. With --explain a second line says what is wrong, in words. With --complete further lines tell
of a sound layout which routes its table lacks, which ways can't be routes and why, at which signals and
borders no route begins or ends, and which sections the approach lists lack. With --digest one line more
has a SHA-256 of the layout's text, which is the same on two machines where the text is.
docs/INTERLOCKING.md has the keys of the file and all faults, examples/ has stations.

FILE may be a railway: stations, each with the file of its layout, and the lines between them. Then each
layout is checked, and after that what is wrong with the railway is told, or each line with its ends.
--complete and --digest are for one layout. docs/LINES.md has the keys and faults of a railway.

Examples: station check examples/junction.toml
          station check examples/railway/railway.toml

Usage: station check [OPTIONS] <FILE>

Arguments:
  <FILE>
          The layout or the railway, a TOML file (- for a file that is read is standard input)

Options:
      --explain
          Tells a fault in a second line, in words

      --complete
          Tells what the table of routes lacks

      --digest
          Prints a SHA-256 of the layout's text in one line more

  -h, --help
          Print help (see a summary with '-h')
";

const SHORT_CHECK_HELP: &str = "Checks the layout of a station and its table of routes

Usage: station check [OPTIONS] <FILE>

Arguments:
  <FILE>  The layout or the railway, a TOML file (- for a file that is read is standard input)

Options:
      --explain   Tells a fault in a second line, in words
      --complete  Tells what the table of routes lacks
      --digest    Prints a SHA-256 of the layout's text in one line more
  -h, --help      Print help (see more with '--help')
";

const SHORT_ROUTES_HELP: &str = "Prints the routes that the table of a layout lacks

Usage: station routes [OPTIONS] <FILE>

Arguments:
  <FILE>  The layout, a TOML file (- for a file that is read is standard input)

Options:
      --from <SIGNALS>   The signals at which the routes begin, with commas between their names, else all
      --approach <RULE>  How far the approach of a route leads back: signal, to the signal before, or berth, over the tracks behind its signal; else signal
      --write            Writes the routes into the file in place of printing them
  -h, --help             Print help (see more with '--help')
";

const PLAN_HELP: &str = "Draws the track plan of a layout, as an SVG picture on standard output.

It shows the tracks, the points with their two legs, the borders, the signals on the side of the
direction that they rule, the joints where sections differ, and each section with its detector. With
a route its path is drawn thick. With a picture, as `picture` in the lines of sim prints it, aspects,
positions, occupancies and set routes are shown. The layout has to be sound, as for check.

Example: station plan examples/junction.toml > junction.svg

Usage: station plan [OPTIONS] <FILE>

Arguments:
  <FILE>
          The layout, a TOML file (- for a file that is read is standard input)

Options:
      --route <R>
          The route that is drawn thick, with its flank points and approach

      --picture <PICTURE>
          What is seen of the station, as sim prints it

  -h, --help
          Print help (see a summary with '-h')
";

const SIM_HELP: &str = "Applies lines of events to a station of a layout.

The station runs in this process: the interlocking, a controller for each signal, point and detector,
a clock for each, and the network between them. Each line is an event, or asks for something:

  set R, cancel R, resume     a command to the interlocking
  release R                   the same: a cancelled route is freed 120 s later
  move P left|right           the same: a point is moved
  close X, close P left       the same: a section, point, signal or route is closed to routes and moves
  open X, open P left         the same: that is ended
  occupy S, clear S           a section is occupied, or clear
  tick NODE                   the timer of a node calls it
  time D NODE=E ..            D microseconds pass, and E on the clock of a node that is named
  deliver NODE HEX            the network delivers bytes to a node (a hyphen for none)
  lose HEX                    the network loses the oldest copy of a datagram
  reach P left|right|none     a point that is driven comes to lie somewhere
  restart NODE CLOCK SN       a node is made anew
  flow MS                     so much time flows in rounds of 10 ms, and all datagrams are delivered
  picture                     what is seen of the station

Before all these, lines may say how the station lies when it is started, one for each point that
doesn't stand left, and for each section that isn't clear:

  begins P left|right|none    a point stands so
  begins S clear|occupied     a section is so

All lines are judged before the first event. Each is then answered on a line of its own: `ok`,
`accepted`, `refused N` by the interlocking, or `no N` for an event that can't happen.

Example: station sim examples/small.toml examples/proceed.events

Usage: station sim <FILE> <EVENTS>

Arguments:
  <FILE>
          The layout, a TOML file (- for a file that is read is standard input)

  <EVENTS>
          The lines of events

Options:
  -h, --help
          Print help (see a summary with '-h')
";

const REPLAY_HELP: &str = "Applies a recorded session to a station of a layout again.

The station begins with each point at left and each section clear. Each line of a session is an event
and what it answered, as EVENT = ANSWER. Where each event answers the same, it prints `same`. Otherwise
it prints the first line that differs, and ends with status 3.

Where a session stands in parts, RECORD is the first: RECORD.2, RECORD.3 and so on are read behind it.

With --node the record is that of one node, as node writes it with --record. It is applied to a node of
this name that is made anew.

Example: station replay examples/small.toml examples/commands.session

Usage: station replay [OPTIONS] <FILE> <RECORD>

Arguments:
  <FILE>
          The layout, a TOML file (- for a file that is read is standard input)

  <RECORD>
          The recorded session

Options:
      --node <NAME>
          The name of the node whose record it is, as node writes one with --record

  -h, --help
          Print help (see a summary with '-h')
";

const RUN_HELP: &str = "Runs a station of a layout over loopback sockets.

Each node has a UDP socket of its own. About every 10 ms time passes, each datagram that has come is
delivered, the lines of the script that are due are applied, and every node ticks. Each line of a
script is `at MS EVENT`, with the events set, cancel, resume, release, move, close, open, occupy, clear
and restart, in rising order of MS.

Each event is recorded with what it answered; the record of a run that was stopped is good as far as
it goes. At the end it prints what is seen of the station.

With --stop-file it ends where that file is there, as it does after --for. With --record-size the record
stands in parts, R, R.2, R.3 and so on: a part ends with the first line at whose end it has N bytes. None
of them may be there already. replay, chart, decode and capture take R, and find the others.

Example: station run examples/small.toml --script examples/proceed.script --record run.session --for 12000

Usage: station run [OPTIONS] --script <S> --record <R> --for <MS> <FILE>

Arguments:
  <FILE>
          The layout, a TOML file (- for a file that is read is standard input)

Options:
      --script <S>
          The lines that are applied, each at its time

      --record <R>
          The file to which the session is written

      --record-size <N>
          How many bytes a part of the record has, from 4096 to 4294967296, else it stands in one file

      --for <MS>
          How long the station runs, from 1000 to 600000 milliseconds

      --stop-file <F>
          A file that isn't there yet, and ends the run as soon as it is

  -h, --help
          Print help (see a summary with '-h')
";

const PANEL_HELP: &str = "Opens a signaller's panel of a station in a browser.

The station runs as by run, and each event is recorded with what it answered. It begins with each point
at left and each section clear. The address of a page is printed, for a browser on this machine. The
page shows the track plan as the station stands. On it a person sets and cancels routes, drives trains,
and disturbs the station: cuts links, loses and delays datagrams, makes nodes anew, jams points.

It runs until it is stopped, or until the datagrams that were sent take 1 GiB. --stop-file is as for run,
and so is --record-size, with which --record has to stand.

With --node the station isn't run here: its interlocking runs as node runs one with --operator, and the
panel is joined to it as its operator. The page then shows what the interlocking knows, and sets and
cancels routes. The node writes the record, so --record isn't taken with --node.

Example: station panel examples/junction.toml

Usage: station panel [OPTIONS] <FILE>

Arguments:
  <FILE>
          The layout, a TOML file (- for a file that is read is standard input)

Options:
      --port <P>
          The port of the page, from 1 to 65535, else 8080

      --record <R>
          The file to which the session is written, else panel.session

      --record-size <N>
          How many bytes a part of the record has, from 4096 to 4294967296, else it stands in one file

      --for <MS>
          How long the panel stands, from 1000 to 600000 milliseconds, else until it is stopped

      --stop-file <F>
          A file that isn't there yet, and ends the run as soon as it is

      --node <ADDRESS>
          The address at which the interlocking's node serves its operator: the panel is joined to it

  -h, --help
          Print help (see a summary with '-h')
";

const TABLE_HELP: &str = "Prints the control table of a layout, in Markdown.

Each route has a row: its name, its entry signal and its exit, the aspect, the points on its path that
have to lie right and left, the flank points, its sections in order, the points that it holds, each
with the sections at which it is let go, the approach sections, and the routes that conflict with it,
each with the reasons (entry, section, point, extra). The layout has to be sound, as for check.

Example: station table examples/junction.toml

Usage: station table [OPTIONS] <FILE>

Arguments:
  <FILE>
          The layout, a TOML file (- for a file that is read is standard input)

Options:
      --csv
          Prints it as CSV, with the heads in the first line

  -h, --help
          Print help (see a summary with '-h')
";

const CHART_HELP: &str =
    "Draws a session as a chart over true time, as an SVG picture on standard output.

The session is applied again, as by replay. The chart has a lane for each signal (its aspect, its
authority), point (its position, its drive), section, route, link and node, and a mark for each
command with its answer. --from and --to cut it.

With --node the record is that of one node, as node writes it with --record. It is drawn over the
clock of this node: what its lines tell of its signal, its point or its sections, or of all that an
interlocking knows, with its commands and answers.

Example: station chart examples/small.toml examples/commands.session > commands.svg

Usage: station chart [OPTIONS] <FILE> <RECORD>

Arguments:
  <FILE>
          The layout, a TOML file (- for a file that is read is standard input)

  <RECORD>
          The recorded session

Options:
      --node <NAME>
          The name of the node whose record it is, as node writes one with --record

      --from <MS>
          The moment at which the chart begins, in milliseconds

      --to <MS>
          The moment at which the chart ends, in milliseconds

  -h, --help
          Print help (see a summary with '-h')
";

const SHORT_DECODE_HELP: &str = "Puts a datagram, or those of a session, into words

Usage: station decode [OPTIONS] [FILE] [RECORD]

Arguments:
  [FILE]    The layout, a TOML file (- for a file that is read is standard input)
  [RECORD]  The recorded session

Options:
      --hex <HEX>      The bytes of the datagram in hexadecimal digits, a hyphen for none
      --layout <FILE>  The layout whose key and names are used, a TOML file
      --node <NAME>    The name of the node whose record it is, as node writes one with --record
  -h, --help           Print help (see more with '--help')
";

const CAPTURE_HELP: &str =
    "Writes the datagrams of a session as a capture, a file that Wireshark reads.

The session is applied again, as by replay. Each datagram that is sent stands in the capture at its
true time, with the addresses of its two nodes: those of --addresses, else such as are made of the
places of the nodes in the layout. One that is lost has the comment lost. The file is written when the
session has been applied to its end. A file that is there already stays as it is, unless --force stands.

With --node the record is that of one node, as node writes it with --record. Each datagram that came
or was sent stands in the capture at the reading of the node's clock. One that came and wasn't
delivered to the node has a comment that says why.
docs/WIRE.md tells how a capture is looked at.

Example: station capture examples/small.toml examples/traffic.session traffic.pcapng

Usage: station capture [OPTIONS] <FILE> <RECORD> <OUT>

Arguments:
  <FILE>
          The layout, a TOML file (- for a file that is read is standard input)

  <RECORD>
          The recorded session

  <OUT>
          The capture, a file that Wireshark reads

Options:
      --addresses <ADDRESSES>
          The addresses of the nodes, a TOML file as for node, else made of their places

      --node <NAME>
          The name of the node whose record it is, as node writes one with --record

      --force
          Writes over the capture, if it is there already

  -h, --help
          Print help (see a summary with '-h')
";

const SHORT_NODE_HELP: &str = "Runs one node of a station as a process of its own

Usage: station node [OPTIONS] --addresses <ADDRESSES> <FILE> <NAME>

Arguments:
  <FILE>  The layout, a TOML file (- for a file that is read is standard input)
  <NAME>  The name of the node, as the layout has it

Options:
      --addresses <ADDRESSES>  The addresses of the nodes, a TOML file
      --operator <ADDRESS>     The loopback address of the operator, in place of standard input and output
      --record <R>             The file to which what came and what was done is written
      --record-size <N>        How many bytes a part of the record has, from 4096 to 4294967296, else it stands in one file
      --closings <FILE>        The file in which what is closed outlives the interlocking's process
      --keep-locks             What set routes lock is kept in the file too, and closed in the next process
      --clock <MS>             Where the node's clock begins, from 0 to 9000000000000 milliseconds, else at 0
      --hold <MS>              How long a datagram waits for those that were sent before it, from 0 to 80 milliseconds, else 60
      --for <MS>               How long the node runs, from 1000 to 600000 milliseconds, else without end
      --stop-file <F>          A file that isn't there yet, and ends the run as soon as it is
  -h, --help                   Print help (see more with '--help')
";

const NO_FILE: &str = "error: the following required arguments were not provided:
  <FILE>

Usage: station check <FILE>

For more information, try '--help'.
";

const NO_SUCH_COMMAND: &str = "error: unrecognized subcommand 'frobnicate'

Usage: station <COMMAND>

For more information, try '--help'.
";

const A_WORD_TOO_MANY: &str = "error: unexpected argument 'b.toml' found

Usage: station check [OPTIONS] <FILE>

For more information, try '--help'.
";

const NO_EVENTS: &str = "error: the following required arguments were not provided:
  <EVENTS>

Usage: station sim <FILE> <EVENTS>

For more information, try '--help'.
";

const NO_OUT: &str = "error: the following required arguments were not provided:
  <OUT>

Usage: station capture <FILE> <RECORD> <OUT>

For more information, try '--help'.
";

const A_RECORD_TOO_MANY: &str = "error: unexpected argument 'c' found

Usage: station replay [OPTIONS] <FILE> <RECORD>

For more information, try '--help'.
";

const NO_RECORD_AND_NO_TIME: &str = "error: the following required arguments were not provided:
  --record <R>
  --for <MS>

Usage: station run --script <S> --record <R> --for <MS> <FILE>

For more information, try '--help'.
";

const TOO_SHORT: &str = "error: invalid value '999' for '--for <MS>': 999 is not in 1000..=600000

For more information, try '--help'.
";

const TOO_LONG: &str =
    "error: invalid value '600001' for '--for <MS>': 600001 is not in 1000..=600000

For more information, try '--help'.
";

const TOO_LATE: &str =
    "error: invalid value '9000000000001' for '--clock <MS>': 9000000000001 is not in 0..=9000000000000

For more information, try '--help'.
";

const NO_ADDRESSES: &str = "error: the following required arguments were not provided:
  --addresses <ADDRESSES>

Usage: station node --addresses <ADDRESSES> <FILE> <NAME>

For more information, try '--help'.
";

const NO_TIME: &str = "error: invalid value '1s' for '--for <MS>': invalid digit found in string

For more information, try '--help'.
";

const NO_MOMENT: &str = "error: invalid value '-1' for '--to <MS>': invalid digit found in string

For more information, try '--help'.
";

const A_SECOND_SCRIPT: &str = "error: the argument '--script <S>' cannot be used multiple times

Usage: station run [OPTIONS] --script <S> --record <R> --for <MS> <FILE>

For more information, try '--help'.
";

const A_VALUE_OF_A_SWITCH: &str =
    "error: unexpected value 'yes' for '--csv' found; no more were expected

Usage: station table --csv <FILE>

For more information, try '--help'.
";

const A_SECOND_SWITCH: &str = "error: the argument '--csv' cannot be used multiple times

Usage: station table [OPTIONS] <FILE>

For more information, try '--help'.
";

const TOO_LONG_A_HOLD: &str = "error: invalid value '81' for '--hold <MS>': 81 is not in 0..=80

For more information, try '--help'.
";

const TOO_SHORT_A_PART: &str =
    "error: invalid value '4095' for '--record-size <N>': 4095 is not in 4096..=4294967296

For more information, try '--help'.
";

const NO_RULE: &str = "error: routes takes --approach signal or --approach berth

Usage: station <COMMAND>

For more information, try '--help'.
";

const NOTHING_TO_DECODE: &str =
    "error: decode takes either --hex HEX, with or without --layout FILE, or FILE and RECORD, with or without --node NAME

Usage: station <COMMAND>

For more information, try '--help'.
";

const SHORT_DRAW_HELP: &str = "Opens a page in a browser on which a station is drawn

Usage: station draw [OPTIONS] <FILE>

Arguments:
  <FILE>  The layout that is drawn, a TOML file, which may not be there yet

Options:
      --port <P>  The port of the page, from 1 to 65535, else 8080
  -h, --help      Print help (see more with '--help')
";

const SHORT_LINE_HELP: &str = "Writes the files with which a line between two stations begins

Usage: station line [OPTIONS] <begin> <RAILWAY> <LINE>

Arguments:
  <begin>    The word begin
  <RAILWAY>  The railway, a TOML file (- for a file that is read is standard input)
  <LINE>     The name of the line, as the railway has it

Options:
      --again  Begins a line anew whose files are there, after a text was typed
  -h, --help   Print help (see more with '--help')
";

const NOTHING_TO_BEGIN: &str = "error: line takes begin RAILWAY LINE, with or without --again

Usage: station <COMMAND>

For more information, try '--help'.
";

/// No command line here has more words.
const MOST_WORDS: usize = 8;

/// A command line, its status, and what is printed.
type Printed = (&'static str, i32, &'static str);

/// Command lines that ask for help or for the version.
const HELPED: &[Printed] = &[
    ("station --help", 0, HELP),
    ("station help", 0, HELP),
    ("station check --help", 0, CHECK_HELP),
    ("station check -h", 0, SHORT_CHECK_HELP),
    ("station routes -h", 0, SHORT_ROUTES_HELP),
    ("station draw -h", 0, SHORT_DRAW_HELP),
    ("station plan --help", 0, PLAN_HELP),
    ("station table --help", 0, TABLE_HELP),
    ("station sim --help", 0, SIM_HELP),
    ("station help replay", 0, REPLAY_HELP),
    ("station run --help", 0, RUN_HELP),
    ("station panel --help", 0, PANEL_HELP),
    ("station chart --help", 0, CHART_HELP),
    ("station decode -h", 0, SHORT_DECODE_HELP),
    ("station capture --help", 0, CAPTURE_HELP),
    ("station node -h", 0, SHORT_NODE_HELP),
    ("station line -h", 0, SHORT_LINE_HELP),
    ("station --version", 0, "station 1.0.0\n"),
    ("station -V", 0, "station 1.0.0\n"),
];

/// Command lines that are wrong.
const REFUSED: &[Printed] = &[
    ("station chart a b --to=-1", 2, NO_MOMENT),
    ("station capture a b", 2, NO_OUT),
    ("station", 2, HELP),
    ("station check", 2, NO_FILE),
    ("station frobnicate", 2, NO_SUCH_COMMAND),
    ("station check a.toml b.toml", 2, A_WORD_TOO_MANY),
    ("station sim a.toml", 2, NO_EVENTS),
    ("station replay a b c", 2, A_RECORD_TOO_MANY),
    ("station run f --script s", 2, NO_RECORD_AND_NO_TIME),
    ("station run f --script s --for 999", 2, TOO_SHORT),
    ("station run --for=600001", 2, TOO_LONG),
    ("station run --for=1s", 2, NO_TIME),
    ("station run --script=a --script=b", 2, A_SECOND_SCRIPT),
    ("station table f --csv=yes", 2, A_VALUE_OF_A_SWITCH),
    ("station table --csv --csv", 2, A_SECOND_SWITCH),
    ("station node f S1", 2, NO_ADDRESSES),
    ("station node f S1 --clock=9000000000001", 2, TOO_LATE),
    ("station node f S1 --hold=81", 2, TOO_LONG_A_HOLD),
    ("station run --record-size=4095", 2, TOO_SHORT_A_PART),
    ("station routes f --approach far", 2, NO_RULE),
    ("station decode --layout f", 2, NOTHING_TO_DECODE),
    ("station decode f", 2, NOTHING_TO_DECODE),
    ("station decode --hex - f r", 2, NOTHING_TO_DECODE),
    ("station decode --hex - --node S1", 2, NOTHING_TO_DECODE),
    ("station line stop r L", 2, NOTHING_TO_BEGIN),
];

/// The words of a command line, which spaces part.
fn words_of<'a>(rt: &impl Abort, line: &'a str) -> ArrayVec<&'a str, MOST_WORDS> {
    let mut words = ArrayVec::new();
    for word in line.split(' ') {
        assert!(rt; words.try_push(word).is_ok(), "{line}");
    }
    words
}

/// Expects that a command line prints this text and ends with this status. Where memory is lacking it is read once more.
fn expect_text(rt: &impl Abort, alloc: Global, words: &[&str], status: i32, text: &str) {
    let mut answer = read_words(alloc, words);
    if matches!(&answer, Err(error) if is_memory(error)) {
        answer = read_words(alloc, words);
    }
    let error = answer.err().expect(rt, "nothing is asked");
    assert!(rt; error.exit_code() == status);
    expect_printed(rt, alloc, &error, status == 2, text);
}

/// Expects that each command line prints its text and ends with its status.
fn expect_texts(rt: &impl Abort, alloc: Global, printed: &[Printed]) {
    for (line, status, text) in printed {
        let words = words_of(rt, *line);
        expect_text(rt, alloc, &words, *status, *text);
    }
}

#[test]
fn help_and_the_version_are_printed(rt: HostRuntime) {
    expect_texts(&rt, rt.alloc(), HELPED);
}

#[test]
fn what_is_wrong_is_printed(rt: HostRuntime) {
    expect_texts(&rt, rt.alloc(), REFUSED);
}
