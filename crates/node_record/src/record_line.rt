//! What the lines of a node's record tell of datagrams.

ghost use Rattle.std.specs.Prelude.{◌≡◌, ◌∷◌, [], Ok};
ghost use Rattle.replay_lines.specs.Given.{Gives};
ghost use Rattle.replay_words.specs.Cut.{words};
ghost use Rattle.node_record.specs.RecordLines.{comes, comes_over, complains, line_said, network_said, sender_said, sends, throws_away, told};
ghost use Rattle.node_record.specs.inside.FormsSaid.{other_said};

use crate::word_table::told_by;
use control_table::Layout;
use replay_lines::node_named;
use replay_words::{Fault, Words, decimal, hexadecimal_or_none};
use station_check::Network;
use std::alloc::Global;

/// What a line of a record tells of datagrams. Nodes are told by their places.
#[derive(Drop)]
pub(crate) enum RecordLine {
    /// The clock was read.
    Reads(u64),
    /// A datagram came from the address of a node, or from another, over a network.
    Comes {
        from: Option<usize>,
        over: Network,
        bytes: Vec<u8>,
    },
    /// What waited was thrown away.
    ThrowsAway,
    /// A datagram was sent to a node.
    Sends {
        to: usize,
        bytes: Vec<u8>,
    },
    /// It tells of none.
    Other,
}

/// What a line is, by its first word.
#[derive(Clone, Copy)]
enum Form {
    Reads,
    Comes,
    ThrowsAway,
    Sends,
    Fails,
    /// Nothing stands after its first word.
    Alone,
    /// A text stands after it.
    Followed,
    BreaksOff,
    Complains,
}

const FORMS: &[(&str, Form)] = &[
    ("at", Form::Reads),
    ("from", Form::Comes),
    ("sends", Form::Sends),
    ("throws", Form::ThrowsAway),
    ("listens", Form::Alone),
    ("closed", Form::Alone),
    ("fails", Form::Fails),
    ("hears", Form::Followed),
    ("writes", Form::Followed),
    ("breaks", Form::BreaksOff),
    ("complains", Form::Complains),
    ("keeps", Form::Followed),
];

/// What a line of a record tells, or the first fault of its words.
pub(crate) fn read_line(alloc: Global, layout: &Layout, line: &str) -> Result<RecordLine, Fault>
    ensures { Gives told (line_said layout.now (words line.now)) result }
{
    let mut words = Words::of(line);
    let Some(first) = words.next() else {
        return Err(Fault::Words);
    };
    let Some(form) = told_by(FORMS, first) else {
        return Err(Fault::Words);
    };
    match form {
        Form::Comes => comes(alloc, layout, words),
        Form::Sends => sends(alloc, layout, words),
        Form::ThrowsAway => throws_away(words),
        _ => other(form, words),
    }
}

/// What a line of another form tells, after its first word.
fn other(form: Form, mut words: Words<'_>) -> Result<RecordLine, Fault>
    ensures { Gives told (other_said form words.entry) result }
{
    let (word, next) = (words.next(), words.next());
    match form {
        Form::Reads => match (word, next) {
            (Some(reading), None) => Ok(RecordLine::Reads(decimal(reading)?)),
            _ => Err(Fault::Words),
        },
        Form::Fails => match (word, next, words.next()) {
            (Some("to"), Some("receive"), None) => Ok(RecordLine::Other),
            (Some("to"), Some("keep"), Some(_)) => Ok(RecordLine::Other),
            _ => Err(Fault::Words),
        },
        Form::Alone => match word {
            None => Ok(RecordLine::Other),
            Some(_) => Err(Fault::Words),
        },
        Form::Followed => match word {
            Some(_) => Ok(RecordLine::Other),
            None => Err(Fault::Words),
        },
        Form::BreaksOff => match (word, next) {
            (Some("off"), Some(_)) => Ok(RecordLine::Other),
            _ => Err(Fault::Words),
        },
        Form::Complains => match (word, next, words.next()) {
            (Some(line), Some(fault), None) => complains(line, fault),
            _ => Err(Fault::Words),
        },
        _ => Err(Fault::Words),
    }
}

/// What a line tells of what was thrown away, after its first word.
fn throws_away(mut words: Words<'_>) -> Result<RecordLine, Fault>
    ensures { Gives told (throws_away words.entry) result }
{
    let (Some("away"), Some(word)) = (words.next(), words.next()) else {
        return Err(Fault::Words);
    };
    let count = match (word, words.next(), words.next()) {
        ("all", Some(count), None) => count,
        (count, None, _) => count,
        _ => return Err(Fault::Words),
    };
    decimal(count)?;
    Ok(RecordLine::ThrowsAway)
}

/// What a line tells of a datagram that came, after its first word.
fn comes(alloc: Global, layout: &Layout, mut words: Words<'_>) -> Result<RecordLine, Fault>
    ensures { Gives told (comes layout.now words.entry) result }
{
    let (Some(word), Some(second)) = (words.next(), words.next()) else {
        return Err(Fault::Words);
    };
    match (words.next(), words.next(), words.next()) {
        (None, _, _) => comes_over(alloc, layout, Network::Alone, word, second),
        (Some(number), Some(digits), None) if second == "over" => {
            let over = network_said(number)?;
            comes_over(alloc, layout, over, word, digits)
        }
        _ => Err(Fault::Words),
    }
}

/// What a line tells of a datagram that came over a network, by the words for its sender and its bytes.
fn comes_over(
    alloc: Global,
    layout: &Layout,
    over: Network,
    word: &str,
    digits: &str,
) -> Result<RecordLine, Fault>
    ensures { Gives told (comes_over layout.now (Ok over) word.now digits.now) result }
{
    let from = sender_said(layout, word)?;
    let digits = hexadecimal_or_none(digits)?;
    let bytes = Vec::from_slice(alloc, &digits)?;
    Ok(RecordLine::Comes { from, over, bytes })
}

/// The network of a number.
fn network_said(word: &str) -> Result<Network, Fault>
    ensures { result ≡ network_said word.now }
{
    match word {
        "1" => Ok(Network::First),
        "2" => Ok(Network::Second),
        _ => Err(Fault::Words),
    }
}

/// From which node's address a datagram came. A hyphen that is no node's name stands for an address that is no node's.
fn sender_said(layout: &Layout, word: &str) -> Result<Option<usize>, Fault>
    ensures { result ≡ sender_said layout.now word.now }
{
    match node_named(layout, word) {
        Ok(node) => Ok(Some(node.0)),
        Err(_) if word == "-" => Ok(None),
        Err(fault) => Err(fault),
    }
}

/// What a line tells of a datagram that was sent, after its first word.
fn sends(alloc: Global, layout: &Layout, mut words: Words<'_>) -> Result<RecordLine, Fault>
    ensures { Gives told (sends layout.now words.entry) result }
{
    let (Some(word), Some(digits), None) = (words.next(), words.next(), words.next()) else {
        return Err(Fault::Words);
    };
    let to = node_named(layout, word)?.0;
    let digits = hexadecimal_or_none(digits)?;
    let bytes = Vec::from_slice(alloc, &digits)?;
    Ok(RecordLine::Sends { to, bytes })
}

/// A line of two numbers.
fn complains(line: &str, fault: &str) -> Result<RecordLine, Fault>
    ensures { Gives told (complains (line.now ∷ fault.now ∷ [])) result }
{
    decimal(line)?;
    decimal(fault)?;
    Ok(RecordLine::Other)
}
