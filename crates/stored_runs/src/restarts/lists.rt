//! A line of the list of runs that asks for restarts.

use crate::failure::Failure;
use crate::files::{read, table_in};
use crate::restarts::trials::{List, events_of};
use control_table::Checked;
use replay_words::{Words, decimal};
use station_record::replay::{SimLine, node_named, read_lines};
use std::io::Write;

/// A line: a list has a name, a layout, lines, what follows after them, a number, and nodes.
#[derive(Clone, Copy)]
struct RestartsLine<'a> {
    name: &'a str,
    layout: &'a str,
    events: &'a str,
    rounds: &'a str,
    step: usize,
    nodes: &'a str,
}

/// Makes each node anew that a line names, in all runs of its list, and writes what happened. It fails where a station isn't
/// safe, or refuses what it may not refuse.
pub(crate) fn carry_out<W: Write>(
    rt: &HostRuntime,
    words: &str,
    out: &mut W,
) -> Result<(), Failure> {
    let Some(line) = line_of(words) else {
        return Err(Failure::Words);
    };
    let layout = read(rt, line.layout)?;
    let table = table_in(rt.alloc(), layout.as_str())?;
    try_list(rt, &table, line, out)
}

/// A line, as it is read.
fn line_of(words: &str) -> Option<RestartsLine<'_>> {
    let (files, nodes) = words.split_once(": ")?;
    let mut words = Words::of(files);
    Some(RestartsLine {
        name: words.next()?,
        layout: words.next()?,
        events: words.next()?,
        rounds: words.next()?,
        step: decimal(words.next()?).ok()? as usize,
        nodes,
    })
}

/// The same over its table.
fn try_list<W: Write>(
    rt: &HostRuntime,
    table: &Checked,
    line: RestartsLine<'_>,
    out: &mut W,
) -> Result<(), Failure> {
    let lines = lines_in(rt, table, line.events)?;
    let events = events_of(rt.alloc(), table, lines)?;
    let rounds = lines_in(rt, table, line.rounds)?;
    let list = List {
        name: line.name,
        table,
        events: &events,
        rounds: &rounds,
        step: line.step,
    };
    try_words(rt, &list, line.nodes, out)
}

/// Makes the nodes of names anew, and writes what happened.
fn try_words<W: Write>(
    rt: &HostRuntime,
    list: &List<'_>,
    nodes: &str,
    out: &mut W,
) -> Result<(), Failure> {
    let (name, events) = (list.name, list.events.len());
    writeln!(out, "{name}: {events} events")?;
    for word in Words::of(nodes) {
        try_word(rt, list, word, out)?;
    }
    Ok(())
}

/// Makes the node of a name anew, and writes what happened.
fn try_word<W: Write>(
    rt: &HostRuntime,
    list: &List<'_>,
    word: &str,
    out: &mut W,
) -> Result<(), Failure> {
    let Ok(node) = node_named(list.table.layout(), word) else {
        return Err(Failure::Words);
    };
    let tally = list.try_node(rt, node)?;
    let name = list.name;
    writeln!(out, "{name} {word}: {tally}")?;
    Ok(())
}

/// The lines of a file.
fn lines_in(rt: &HostRuntime, table: &Checked, file: &str) -> Result<Vec<SimLine>, Failure> {
    let text = read(rt, file)?;
    match read_lines(rt.alloc(), table, text.as_str()) {
        Ok(lines) => Ok(lines),
        Err(_) => Err(Failure::Words),
    }
}
