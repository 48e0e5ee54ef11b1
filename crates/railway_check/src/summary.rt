//! What is told of a railway with which nothing is wrong.

ghost use Rattle.std.specs.Prelude.{◌≡◌, ◌++◌, IfOk, OnOk, Some, string_bytes};
ghost use Rattle.railway_check.specs.Summary.{count_line, end_words, line_line, line_lines, summary};
ghost use Rattle.railway_check.specs.Verdicts.{told_if};

use crate::fault_lines::add_line;
use railway_layout::{WrittenEnd, WrittenLine, WrittenRailway};
use std::alloc::{AllocError, Global};
use std::fmt;

/// How many stations and lines there are, in a line.
fn count_line(alloc: Global, railway: &WrittenRailway) -> Result<String, AllocError>
    ensures { IfOk result (λ line. string_bytes line ≡ count_line railway.now) }
{
    let stations = railway.stations.len();
    let lines = railway.lines.len();
    format!(in alloc; "ok: {stations} stations, {lines} lines\n")
}

/// The words for an end of a line: its station, and the border of this.
#[derive(Clone, Copy)]
struct EndWords<'a>(&'a WrittenEnd);

impl<'a> fmt::Display for EndWords<'a> {
    ghost output = { λ words. Some (end_words words.0.now) };

    fn fmt<W: fmt::Write>(&self, f: &mut fmt::Formatter<W>) -> fmt::Result {
        let end = self.0;
        let station = end.station.as_str();
        let border = end.border.as_str();
        write!(f, "{station} at {border}")
    }
}

/// A line with its ends.
fn line_line(alloc: Global, line: &WrittenLine) -> Result<String, AllocError>
    ensures { IfOk result (λ text. string_bytes text ≡ line_line line.now) }
{
    let name = line.name.as_str();
    let first = EndWords(&line.first);
    let second = EndWords(&line.second);
    format!(in alloc; "line {name}: {first}, {second}\n")
}

/// Adds a line with its ends.
fn add_one(alloc: Global, text: &mut Vec<u8>, line: &WrittenLine) -> Result<(), AllocError>
    ensures { OnOk result (text.new.items ≡ text.old.items ++ line_line line.now) }
{
    let line = line_line(alloc, line)?;
    add_line(text, line.as_str())
}

/// Adds the lines, each with its ends.
fn add_lines(alloc: Global, text: &mut Vec<u8>, lines: &[WrittenLine]) -> Result<(), AllocError>
    ensures { OnOk result (text.new.items ≡ text.old.items ++ line_lines lines.now) }
{
    for line in lines {
        add_one(alloc, text, line)?;
    }
    Ok(())
}

/// Adds how many stations and lines there are, and each line with its ends.
#[tactic(auto, using(crate::proofs::Added::two_added))]
fn add_all(alloc: Global, text: &mut Vec<u8>, railway: &WrittenRailway) -> Result<(), AllocError>
    ensures { OnOk result (text.new.items ≡ text.old.items ++ summary railway.now) }
{
    let count = count_line(alloc, railway)?;
    add_line(text, count.as_str())?;
    add_lines(alloc, text, &railway.lines)
}

/// Adds this where nothing is wrong.
pub(crate) fn add_summary(
    alloc: Global,
    text: &mut Vec<u8>,
    railway: &WrittenRailway,
    sound: bool,
) -> Result<(), AllocError>
    ensures { OnOk result (text.new.items ≡ text.old.items ++ told_if sound (summary railway.now)) }
{
    if !sound {
        return Ok(());
    }
    add_all(alloc, text, railway)
}
