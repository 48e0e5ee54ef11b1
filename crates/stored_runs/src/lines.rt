//! Texts of which each line is looked at by itself, and scripts.

use crate::asked::Asked;
use crate::failure::Failure;
use crate::files::{parts, table_in};
use crate::kind::Kind;
use control_table::Checked;
use station_record::replay::read_script;
use std::alloc::{AllocError, Global};
use std::io::Write;

/// What stands in a frame in place of a line.
const MARK: &str = "LINE";

/// Shows what comes of each line of a text alone, after the line if that is text.
pub(crate) fn show_each<W: Write>(
    alloc: Global,
    asked: Asked<'_>,
    out: &mut W,
) -> Result<(), Failure> {
    for text in asked.text.lines() {
        if !matches!(asked.kind, Kind::Decode | Kind::PlainDecode) {
            out.writeln(text)?;
        }
        Asked { text, ..asked }.show(alloc, out)?;
    }
    Ok(())
}

/// Runs a frame with each line of a text, after this line.
pub(crate) fn show_framed<W: Write>(
    alloc: Global,
    asked: Asked<'_>,
    out: &mut W,
) -> Result<(), Failure> {
    let (before, behind) = parts(asked.layout, MARK)?;
    for line in asked.text.trim_end().split("\n") {
        out.writeln(line)?;
        let text = format!(in alloc; "{before}{line}{behind}")?;
        let layout = text.as_str();
        Asked { layout, ..asked }.show(alloc, out)?;
    }
    Ok(())
}

/// Judges a script, and writes how many events it has, or its fault.
pub(crate) fn judge<W: Write>(alloc: Global, asked: Asked<'_>, out: &mut W) -> Result<(), Failure> {
    let table = table_in(alloc, asked.layout)?;
    let verdict = verdict(alloc, &table, asked.text)?;
    out.writeln(verdict.as_str())?;
    Ok(())
}

/// How many events a script has, or its fault.
fn verdict(alloc: Global, table: &Checked, script: &str) -> Result<String, AllocError> {
    match read_script(alloc, table, script) {
        Ok(events) => format!(in alloc; "events {}", events.len()),
        Err(fault) => format!(in alloc; "{fault}"),
    }
}
