//! A record of a node's process, applied to a fresh node again.

ghost use Rattle.std.specs.Prelude.{◌≡◌, ◌⊎◌, IfErr};
ghost use Rattle.station_check.specs.Failures.{status_of};

use crate::process::{NodeRun, run_node};
use node_kinds::node_drive::NodeFault;
use node_kinds::node_drive::node_lines::AuxiliaryCounts;
use node_kinds::simulator_spec::{Checked, Layout, NodeId};
use node_kinds::{Fault, Keeping, Lines, SessionFault, Words, decimal, node_named};
use node_network::Replayed;
use station_check::{Failure, table_of, tell};
use std::alloc::Global;
use std::io::Write;

/// What the first line of a record says: the node, and how it was to run.
#[derive(Clone, Copy)]
struct Head {
    node: NodeId,
    run: NodeRun,
}

/// Applies the record of a node's process to a fresh node of this name again, and writes to `out` whether it does the same: `same`, or
/// `differs at line N`. The record of a process that was killed is the beginning of one, and is the same. Where a text is faulty `out`
/// stays as it is. The status is 0 where the node does the same, 3 where it doesn't, and 1 where anything failed; `err` is then told why.
pub fn replay_node_text<W: Write, E: Write>(
    alloc: Global,
    layout: &str,
    name: &str,
    record: &str,
    out: &mut W,
    err: &mut E,
) -> u8
    ensures status { (result ≡ 0) ⊎ ((result ≡ 1) ⊎ (result ≡ 3)) }
    ensures silent { (result ≡ 1 → ⊥) → err.new ≡ err.old }
{
    match verdict(alloc, layout, name, record, out) {
        Ok(None) => 0,
        Ok(Some(_)) => 3,
        Err(failure) => tell(&failure, err),
    }
}

/// Judges the texts, the layout first, applies the record, and writes the verdict. It answers the number of the first line that
/// differs, if one does.
fn verdict<W: Write>(
    alloc: Global,
    layout: &str,
    name: &str,
    record: &str,
    out: &mut W,
) -> Result<Option<u64>, Failure>
    ensures { IfErr result (λ failure. status_of failure ≡ 1) }
{
    let table = table_of(alloc, layout)?;
    let differs = difference(alloc, &table, name, record)?;
    let written = match differs {
        Some(line) => out.writeln(format_args!("differs at line {line}")),
        None => out.writeln("same"),
    };
    written?;
    out.flush()?;
    Ok(differs)
}

/// Applies the record of a node of this station.
fn difference(
    alloc: Global,
    table: &Checked,
    name: &str,
    record: &str,
) -> Result<Option<u64>, Failure>
    ensures { IfErr result (λ failure. status_of failure ≡ 1) }
{
    let mut lines = Lines::of(whole_lines(record));
    let (_, first) = lines.next().unwrap_or((1, ""));
    let head = match head_said(table.layout(), name, first) {
        Ok(head) => head,
        Err(fault) => {
            let number = fault.number();
            return Err(Failure::Line(SessionFault { line: 1, number }));
        }
    };
    let copy = table.copy(alloc)?;
    let mut replayed = Replayed::new(alloc, table.layout(), lines);
    let ran = run_node(alloc, copy, head.node, head.run, &mut replayed);
    // A process that ends early otherwise does so since its record ends: what is told is whether it did the same to there.
    if matches!(ran, Err(NodeFault::OutOfMemory)) || !replayed.is_whole() {
        return Err(Failure::OutOfMemory);
    }
    Ok(replayed.difference())
}

/// A record up to its last line feed: a line that isn't whole is none.
fn whole_lines(record: &str) -> &str {
    match record.rsplit_once('\n') {
        Some((whole, _)) => whole,
        None => "",
    }
}

/// What the first line of a record says, where it names the node of this name.
fn head_said(layout: &Layout, name: &str, line: &str) -> Result<Head, Fault> {
    let node = node_named(layout, name)?;
    let mut words = Words::of(line);
    let (kind, said, place) = (word(&mut words), word(&mut words), word(&mut words));
    let Some(first) = words.next() else {
        return Err(Fault::Words);
    };
    if kind != "node" || place != "first" {
        return Err(Fault::Words);
    }
    if said != name {
        return Err(Fault::Name);
    }
    let Ok(first) = u32::try_from(decimal(first)?) else {
        return Err(Fault::Number);
    };
    let run = rest_said(first, words)?;
    Ok(Head { node, run })
}

/// The next word of a line, or nothing where there is none.
fn word<'a>(words: &mut Words<'a>) -> &'a str {
    words.next().unwrap_or("")
}

/// What stands after the number of the first PDU: for how many milliseconds the process was to run, or for ever, what it was to keep, if
/// anything, and how many auxiliary commands were counted before then.
fn rest_said(first: u32, mut words: Words<'_>) -> Result<NodeRun, Fault> {
    let word = words.next();
    let (for_ms, word) = match word {
        Some("for") => (decimal(words.next().ok_or(Fault::Words)?)?, words.next()),
        _ => (u64::MAX, word),
    };
    let (keeping, counts) = match word {
        None => (Keeping::Nothing, AuxiliaryCounts::none()),
        Some("keeps") => (keeping_said(&mut words)?, counts_said(words)?),
        Some(_) => return Err(Fault::Words),
    };
    Ok(NodeRun {
        first,
        for_ms,
        keeping,
        counts,
    })
}

/// What a process was to keep, by the next word.
fn keeping_said(words: &mut Words<'_>) -> Result<Keeping, Fault> {
    match words.next() {
        Some("closings") => Ok(Keeping::Closings),
        Some("locks") => Ok(Keeping::Locks),
        _ => Err(Fault::Words),
    }
}

/// How many auxiliary commands were counted, by the last words.
fn counts_said(mut words: Words<'_>) -> Result<AuxiliaryCounts, Fault> {
    let releases = number_behind("releases", &mut words)?;
    let opens = number_behind("opens", &mut words)?;
    if words.next().is_some() {
        return Err(Fault::Words);
    }
    Ok(AuxiliaryCounts { releases, opens })
}

/// The number behind a word.
fn number_behind(label: &str, words: &mut Words<'_>) -> Result<u64, Fault> {
    if word(words) != label {
        return Err(Fault::Words);
    }
    decimal(words.next().ok_or(Fault::Words)?)
}
