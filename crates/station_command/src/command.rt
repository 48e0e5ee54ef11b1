//! What the words of a command line ask for.

ghost use Rattle.std.specs.Prelude.{◌≡◌, ◌↔◌, ◌⊎◌, ◌||◌, IsTrue, IfOk, IfErr, None, Some, codes, if◌then◌else◌, map, option_and_then, option_copied};
ghost use Rattle.std.specs.Option.{option_map};
ghost use Rattle.std.specs.Str.{bytes_eq};
ghost use Rattle.clap.specs.Words.{FailsBy, app_of, kind_of, subcommand_rows_of};
ghost use Rattle.station_command.specs.CommandWords.{Asks, asked_by, asked_in, faults_in, is_on, number_of};
ghost use Rattle.station_command.specs.Line.{station_line};
ghost use Rattle.station_command.specs.Requests.{says, word_of};
ghost use Rattle.station_command.specs.inside.Answers.{Answers, AnswersWords};
ghost use Rattle.station_command.specs.inside.Matches.{asked_of_rows, value_in};
ghost use Rattle.clap.specs.declared.error.kind.ErrorKind.TheVariants as kind;

use crate::command_table::{
    ACTION, ADDRESSES, AGAIN, APPROACH, CAPTURE, CHART, CHECK, CLOCK, CLOSINGS, COMPLETE, CSV,
    DECODE, DIGEST, DRAW, EXPLAIN, FILE, FOR, FORCE, FROM, HEX, HOLD, KEEP_LOCKS, LAYOUT, LINE,
    NAME, NODE, OPERATOR, OUT, PANEL, PICTURE, PLAN, PORT, RECORD, RECORD_SIZE, REPLAY, ROUTE,
    ROUTES, RUN, SCRIPT, SECOND, SIM, STOP_FILE, TABLE, TO, WRITE,
};
use crate::line::station;
use crate::request::{
    Approach, BeginLineArguments, CaptureArguments, ChartArguments, CheckArguments,
    DatagramArguments, DrawArguments, NodeArguments, PanelArguments, PlanArguments, Request,
    RoutesArguments, RunArguments, SessionArguments, SimArguments, TableArguments,
};
use clap::error::ErrorKind;
use clap::{ArgMatches, Command, Error};
use std::alloc::Global;
use std::convert::AsStr;

/// What is told of words that are read and ask for nothing, by the command.
const NOTHING_TO_DECODE: &str =
    "decode takes either --hex HEX, with or without --layout FILE, or FILE and RECORD, with or without --node NAME";

const NO_RULE: &str = "routes takes --approach signal or --approach berth";

const NO_ACTION: &str = "line takes begin RAILWAY LINE, with or without --again";

/// The words of the two rules of approach.
const SIGNAL: &str = "signal";

const BERTH: &str = "berth";

/// The word of what is done with a line.
const BEGIN: &str = "begin";

/// The value of a switch that is on.
const ON: &str = "true";

/// The word that an argument was given, if it was given one.
#[tactic(auto, using(crate::proofs::Found::value_found))]
fn word<'a>(matches: &ArgMatches<'a>, name: &str) -> Option<&'a str>
    ensures { option_copied result ≡ value_in matches.now name.now }
{
    matches.get_str(name)
}

/// Whether a switch is on.
#[tactic(auto, using(crate::proofs::Found::on_found, crate::proofs::Found::off_found))]
fn is_on(matches: &ArgMatches<'_>, switch: &str) -> bool
    ensures { result ≡ is_on (value_in matches.now switch.now) }
{
    match word(matches, switch) {
        Some(value) => value == ON,
        None => false,
    }
}

/// The number that a text writes, if it writes one.
#[tactic(auto, using(crate::proofs::Numbers::number_read))]
fn number(text: &str) -> Option<u64>
    ensures { result ≡ number_of text.now }
{
    text.parse::<u64>().ok()
}

/// The number that an option was given, if it was given one.
#[tactic(auto, using(crate::proofs::Found::number_found, crate::proofs::Found::number_missing))]
fn number_given(matches: &ArgMatches<'_>, name: &str) -> Option<u64>
    ensures { result ≡ option_and_then number_of (value_in matches.now name.now) }
{
    match word(matches, name) {
        Some(text) => number(text),
        None => None,
    }
}

/// The check that is asked for.
fn check<'a>(matches: &ArgMatches<'a>) -> Option<Request<'a>>
    ensures { option_map says result ≡ asked_by (value_in matches.now) (codes "check") }
{
    Some(Request::Check(CheckArguments {
        layout: word(matches, FILE)?,
        explained: is_on(matches, EXPLAIN),
        complete: is_on(matches, COMPLETE),
        digest: is_on(matches, DIGEST),
    }))
}

/// The rule of approach of a word, if it is the word of one.
fn approach_of(word: &str) -> Option<Approach>
    ensures { option_map word_of result ≡ (if bytes_eq word.now (codes "signal") || bytes_eq word.now (codes "berth") then Some word.now else None) }
{
    match word {
        SIGNAL => Some(Approach::Signal),
        BERTH => Some(Approach::Berth),
        _ => None,
    }
}

/// The routes that are asked for.
fn routes<'a>(matches: &ArgMatches<'a>) -> Option<Request<'a>>
    ensures { option_map says result ≡ asked_by (value_in matches.now) (codes "routes") }
{
    let layout = word(matches, FILE)?;
    let from = word(matches, FROM);
    let write = is_on(matches, WRITE);
    let approach = match word(matches, APPROACH) {
        Some(rule) => Some(approach_of(rule)?),
        None => None,
    };
    Some(Request::Routes(RoutesArguments {
        layout,
        from,
        approach,
        write,
    }))
}

/// The drawing that is asked for.
fn draw<'a>(matches: &ArgMatches<'a>) -> Option<Request<'a>>
    ensures { option_map says result ≡ asked_by (value_in matches.now) (codes "draw") }
{
    Some(Request::Draw(DrawArguments {
        layout: word(matches, FILE)?,
        port: number_given(matches, PORT),
    }))
}

/// The plan that is asked for.
fn plan<'a>(matches: &ArgMatches<'a>) -> Option<Request<'a>>
    ensures { option_map says result ≡ asked_by (value_in matches.now) (codes "plan") }
{
    Some(Request::Plan(PlanArguments {
        layout: word(matches, FILE)?,
        route: word(matches, ROUTE),
        picture: word(matches, PICTURE),
    }))
}

/// The table that is asked for.
fn table<'a>(matches: &ArgMatches<'a>) -> Option<Request<'a>>
    ensures { option_map says result ≡ asked_by (value_in matches.now) (codes "table") }
{
    Some(Request::Table(TableArguments {
        layout: word(matches, FILE)?,
        csv: is_on(matches, CSV),
    }))
}

/// The simulation that is asked for.
fn sim<'a>(matches: &ArgMatches<'a>) -> Option<Request<'a>>
    ensures { option_map says result ≡ asked_by (value_in matches.now) (codes "sim") }
{
    Some(Request::Sim(SimArguments {
        layout: word(matches, FILE)?,
        events: word(matches, SECOND)?,
    }))
}

/// The run that is asked for.
fn run<'a>(matches: &ArgMatches<'a>) -> Option<Request<'a>>
    ensures { option_map says result ≡ asked_by (value_in matches.now) (codes "run") }
{
    Some(Request::Run(RunArguments {
        layout: word(matches, FILE)?,
        script: word(matches, SCRIPT)?,
        record: word(matches, RECORD)?,
        record_size: number_given(matches, RECORD_SIZE),
        for_ms: number_given(matches, FOR)?,
        stop_file: word(matches, STOP_FILE),
    }))
}

/// The panel that is asked for.
fn panel<'a>(matches: &ArgMatches<'a>) -> Option<Request<'a>>
    ensures { option_map says result ≡ asked_by (value_in matches.now) (codes "panel") }
{
    Some(Request::Panel(PanelArguments {
        layout: word(matches, FILE)?,
        port: number_given(matches, PORT),
        record: word(matches, RECORD),
        record_size: number_given(matches, RECORD_SIZE),
        for_ms: number_given(matches, FOR),
        stop_file: word(matches, STOP_FILE),
        node: word(matches, NODE),
    }))
}

/// The chart that is asked for.
fn chart<'a>(matches: &ArgMatches<'a>) -> Option<Request<'a>>
    ensures { option_map says result ≡ asked_by (value_in matches.now) (codes "chart") }
{
    Some(Request::Chart(ChartArguments {
        layout: word(matches, FILE)?,
        recording: word(matches, SECOND)?,
        node: word(matches, NODE),
        from: number_given(matches, FROM),
        to: number_given(matches, TO),
    }))
}

/// The replay that is asked for.
fn replay<'a>(matches: &ArgMatches<'a>) -> Option<Request<'a>>
    ensures { option_map says result ≡ asked_by (value_in matches.now) (codes "replay") }
{
    Some(Request::Replay(SessionArguments {
        layout: word(matches, FILE)?,
        recording: word(matches, SECOND)?,
        node: word(matches, NODE),
    }))
}

/// What is to be put into words: a datagram, or a session.
fn decode<'a>(matches: &ArgMatches<'a>) -> Option<Request<'a>>
    ensures { option_map says result ≡ asked_by (value_in matches.now) (codes "decode") }
{
    let hex = word(matches, HEX);
    let layout = word(matches, LAYOUT);
    let file = word(matches, FILE);
    let record = word(matches, SECOND);
    let node = word(matches, NODE);
    match (hex, layout, file, record, node) {
        (Some(hex), layout, None, None, None) => {
            Some(Request::Decode(DatagramArguments { hex, layout }))
        }
        (None, None, Some(layout), Some(recording), node) => {
            Some(Request::DecodeSession(SessionArguments {
                layout,
                recording,
                node,
            }))
        }
        _ => None,
    }
}

/// The capture that is asked for.
fn capture<'a>(matches: &ArgMatches<'a>) -> Option<Request<'a>>
    ensures { option_map says result ≡ asked_by (value_in matches.now) (codes "capture") }
{
    Some(Request::Capture(CaptureArguments {
        layout: word(matches, FILE)?,
        recording: word(matches, SECOND)?,
        out: word(matches, OUT)?,
        addresses: word(matches, ADDRESSES),
        node: word(matches, NODE),
        force: is_on(matches, FORCE),
    }))
}

/// The node that is asked for.
fn node<'a>(matches: &ArgMatches<'a>) -> Option<Request<'a>>
    ensures { option_map says result ≡ asked_by (value_in matches.now) (codes "node") }
{
    Some(Request::Node(NodeArguments {
        layout: word(matches, FILE)?,
        name: word(matches, NAME)?,
        addresses: word(matches, ADDRESSES)?,
        operator: word(matches, OPERATOR),
        record: word(matches, RECORD),
        record_size: number_given(matches, RECORD_SIZE),
        closings: word(matches, CLOSINGS),
        keep_locks: is_on(matches, KEEP_LOCKS),
        clock: number_given(matches, CLOCK),
        hold: number_given(matches, HOLD),
        for_ms: number_given(matches, FOR),
        stop_file: word(matches, STOP_FILE),
    }))
}

/// The beginning of a line that is asked for.
fn line<'a>(matches: &ArgMatches<'a>) -> Option<Request<'a>>
    ensures { option_map says result ≡ asked_by (value_in matches.now) (codes "line") }
{
    match word(matches, ACTION)? {
        BEGIN => Some(Request::BeginLine(BeginLineArguments {
            railway: word(matches, FILE)?,
            line: word(matches, NAME)?,
            again: is_on(matches, AGAIN),
        })),
        _ => None,
    }
}

/// What the command of a word asks for by its matches, if for anything.
fn request_by<'a>(name: &str, matches: &ArgMatches<'a>) -> Option<Request<'a>>
    ensures { option_map says result ≡ asked_by (value_in matches.now) name.now }
{
    match name {
        CHECK => check(matches),
        ROUTES => routes(matches),
        DRAW => draw(matches),
        PLAN => plan(matches),
        TABLE => table(matches),
        SIM => sim(matches),
        RUN => run(matches),
        PANEL => panel(matches),
        REPLAY => replay(matches),
        CHART => chart(matches),
        DECODE => decode(matches),
        CAPTURE => capture(matches),
        NODE => node(matches),
        LINE => line(matches),
        _ => None,
    }
}

/// What was found on a command line asks for, if for anything.
fn request_in<'a>(matches: &ArgMatches<'a>) -> Option<Request<'a>>
    ensures { option_map says result ≡ asked_of_rows (subcommand_rows_of matches.now) }
{
    let (name, matches) = matches.subcommand()?;
    request_by(name, matches)
}

/// What is told where a command was found that asks for nothing.
fn told_of_nothing(matches: &ArgMatches<'_>) -> &'static str {
    match matches.subcommand() {
        Some((ROUTES, _)) => NO_RULE,
        Some((LINE, _)) => NO_ACTION,
        _ => NOTHING_TO_DECODE,
    }
}

/// What was found on a command line asks for. Where it asks for nothing, the command tells what it takes.
fn answer<'a>(command: &mut Command<'a>, matches: &ArgMatches<'a>) -> Result<Request<'a>, Error>
    ensures { Answers (asked_of_rows (subcommand_rows_of matches.now)) result }
{
    match request_in(matches) {
        Some(request) => Ok(request),
        None => {
            let told = told_of_nothing(matches);
            Err(command.error(ErrorKind::MissingRequiredArgument, told)?)
        }
    }
}

/// What the words of a command line ask for, read by a command.
fn answer_to<'a, S: AsStr>(command: &mut Command<'a>, words: &'a [S]) -> Result<Request<'a>, Error>
    ensures { app_of command.old ≡ station_line → AnswersWords (map S.text words.entry.now) result }
{
    let matches = command.try_get_matches_from_mut(words)?;
    answer(command, &matches)
}

/// What the words of a command line ask for, the first of which is the program's name.
///
/// An `Err` has the text to print (help, the version, or what is wrong), and the status to end with.
pub fn read_words<'a, S: AsStr>(alloc: Global, words: &'a [S]) -> Result<Request<'a>, Error>
    ensures asked { IfOk result (Asks (map S.text words.entry.now)) }
    ensures refused { IfErr result (λ error. (kind_of error ≡ kind.OutOfMemory) ⊎ (asked_in (map S.text words.entry.now) ≡ None)) }
    ensures kinds { FailsBy (faults_in (map S.text words.entry.now)) result }
{
    let mut command = station(alloc)?;
    answer_to(&mut command, words)
}

/// Whether memory ran out as the words were read.
pub fn is_memory(error: &Error) -> bool
    ensures { IsTrue result ↔ (kind_of error.now ≡ kind.OutOfMemory) }
{
    matches!(error.kind(), ErrorKind::OutOfMemory)
}
