//! The first line of a node's record.

ghost use Rattle.std.specs.Prelude.{◌≡◌};
ghost use Rattle.replay_words.specs.Cut.{words};
ghost use Rattle.node_record.specs.Records.{are_counts, head_said, is_kept, time_if_kept, time_in, time_said};

use control_table::Layout;
use replay_lines::node_named;
use replay_words::{Fault, Words, decimal};

/// What the first line of a record tells: the place of the node, the number of its first PDU, and for how many milliseconds it
/// was to run, if not for ever.
#[derive(Clone, Copy)]
pub(crate) struct Head {
    pub(crate) node: usize,
    pub(crate) first: u32,
    pub(crate) for_ms: Option<u64>,
}

/// What the first line of the record of the node of this name tells, or the first fault.
pub(crate) fn read_head(layout: &Layout, name: &str, line: &str) -> Result<Head, Fault>
    ensures { result ≡ head_said layout.now name.now (words line.now) }
{
    let node = node_named(layout, name)?.0;
    let mut words = Words::of(line);
    let (Some("node"), Some(word)) = (words.next(), words.next()) else {
        return Err(Fault::Words);
    };
    let (Some("first"), Some(number)) = (words.next(), words.next()) else {
        return Err(Fault::Words);
    };
    if word != name {
        return Err(Fault::Name);
    }
    let first = decimal(number)?;
    if first > u64::from(u32::MAX) {
        return Err(Fault::Number);
    }
    let for_ms = time_said(words)?;
    Ok(Head {
        node,
        first: first as u32,
        for_ms,
    })
}

/// For how many milliseconds a node was to run, if that is told.
fn time_said(mut words: Words<'_>) -> Result<Option<u64>, Fault>
    ensures { result ≡ time_said words.entry }
{
    match words.next() {
        None => Ok(None),
        Some("for") => time_in(words),
        Some(keeps) => time_if_kept(None, keeps, words),
    }
}

/// For how many milliseconds a node was to run, where that is told.
fn time_in(mut words: Words<'_>) -> Result<Option<u64>, Fault>
    ensures { result ≡ time_in words.entry }
{
    let Some(number) = words.next() else {
        return Err(Fault::Words);
    };
    let time = Some(decimal(number)?);
    match words.next() {
        None => Ok(time),
        Some(keeps) => time_if_kept(time, keeps, words),
    }
}

/// For how many milliseconds a node was to run, where it is told behind that what was kept of it, and how many auxiliary commands were
/// counted before.
fn time_if_kept(time: Option<u64>, keeps: &str, mut words: Words<'_>) -> Result<Option<u64>, Fault>
    ensures { result ≡ time_if_kept time keeps.now words.entry }
{
    let (Some(what), Some(releases), Some(released)) = (words.next(), words.next(), words.next())
    else {
        return Err(Fault::Words);
    };
    let (Some(opens), Some(opened), None) = (words.next(), words.next(), words.next()) else {
        return Err(Fault::Words);
    };
    if !is_kept(keeps, what) || !are_counts(releases, opens) {
        return Err(Fault::Words);
    }
    decimal(released)?;
    decimal(opened)?;
    Ok(time)
}

/// Whether these words stand before the counts of auxiliary commands.
fn are_counts(releases: &str, opens: &str) -> bool
    ensures { result ≡ are_counts releases.now opens.now }
{
    releases == "releases" && opens == "opens"
}

/// Whether these words tell what a process kept in a file.
fn is_kept(keeps: &str, what: &str) -> bool
    ensures { result ≡ is_kept keeps.now what.now }
{
    keeps == "keeps" && (what == "closings" || what == "locks")
}
