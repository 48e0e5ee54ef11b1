//! What a line of an interlocking's node tells.

ghost use Rattle.std.specs.Prelude.{◌≡◌};
ghost use Rattle.panel_desk.specs.node_lines.replay_words.Cut.{words};
ghost use Rattle.node_panel.specs.Lines.{closings_told, is_answer, lost_said, network_named, network_told, told_known, told_number, told_said};

use crate::known_read::read_known;
use panel_desk::node_lines::Known;
use panel_desk::run_numbers::{Row, read_number};
use panel_desk::{Fault, Layout, NodeId, PanelNetwork, Words, node_named};

/// What the process of an interlocking tells of the file in which it keeps what is closed.
#[derive(Clone, Copy)]
pub enum ClosingsTold {
    /// The file couldn't be taken at its word, so all track is closed.
    Lost,
    /// The file lacks what was closed or opened last.
    NotKept,
}

/// What a line of an interlocking's node tells its operator.
#[derive(Clone, Copy)]
pub enum Told {
    /// The answer to the oldest command that isn't answered yet.
    Answer,
    /// What the interlocking knows of one thing.
    Tells(Known),
    /// That a network is lost at a node, or back.
    Network {
        network: PanelNetwork,
        node: NodeId,
        is_lost: bool,
    },
    /// A number of the node or of its process.
    Counts(Row, u64),
    /// What its process tells of the file of closings.
    Process(ClosingsTold),
}

/// What a line tells, or the lowest fault of its words.
pub fn read_told(layout: &Layout, line: &str) -> Result<Told, Fault>
    ensures { result ≡ told_said layout.now (words line.now) }
{
    let mut words = Words::of(line);
    match words.next() {
        Some(first) if is_answer(first) => Ok(Told::Answer),
        Some("network") => network_told(layout, words),
        Some("number") => told_number(read_number(line)),
        Some("closings") => closings_told(words),
        Some(_) => told_known(read_known(layout, Words::of(line))),
        None => Err(Fault::Words),
    }
}

/// Whether a word begins an answer.
fn is_answer(word: &str) -> bool
    ensures { result ≡ is_answer word.now }
{
    word == "accepted" || word == "refused" || word == "not"
}

fn told_number(said: Result<(Row, u64), Fault>) -> Result<Told, Fault>
    ensures { result ≡ told_number said }
{
    let (row, value) = said?;
    Ok(Told::Counts(row, value))
}

fn told_known(said: Result<Known, Fault>) -> Result<Told, Fault>
    ensures { result ≡ told_known said }
{
    Ok(Told::Tells(said?))
}

/// What a line of the process tells of the file of closings, after its first word. The cause of a loss is told in its own words.
fn closings_told(mut words: Words<'_>) -> Result<Told, Fault>
    ensures { result ≡ closings_told words.entry }
{
    match (words.next(), words.next(), words.next()) {
        (Some("lost:"), Some(_), _) => Ok(Told::Process(ClosingsTold::Lost)),
        (Some("not"), Some("kept"), None) => Ok(Told::Process(ClosingsTold::NotKept)),
        _ => Err(Fault::Words),
    }
}

/// What a line tells of a network, after its first word.
fn network_told(layout: &Layout, mut words: Words<'_>) -> Result<Told, Fault>
    ensures { result ≡ network_told layout.now words.entry }
{
    let (Some(letter), Some(word), Some(name), None) = (
        words.next(),
        words.next(),
        words.next(),
        words.next(),
    ) else {
        return Err(Fault::Words);
    };
    let network = network_named(letter)?;
    let is_lost = lost_said(word)?;
    let node = node_named(layout, name)?;
    Ok(Told::Network {
        network,
        node,
        is_lost,
    })
}

fn network_named(word: &str) -> Result<PanelNetwork, Fault>
    ensures { result ≡ network_named word.now }
{
    match word {
        "A" => Ok(PanelNetwork::A),
        "B" => Ok(PanelNetwork::B),
        _ => Err(Fault::Words),
    }
}

fn lost_said(word: &str) -> Result<bool, Fault>
    ensures { result ≡ lost_said word.now }
{
    match word {
        "lost" => Ok(true),
        "back" => Ok(false),
        _ => Err(Fault::Words),
    }
}
