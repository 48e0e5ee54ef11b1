//! What is told of the text of a railway and of the texts of its layouts.

use railway_check::railway_layout::{Line, LineEnd, Railway, RailwayFault, Refused, read_text};
use std::alloc::Global;

/// Some pieces, one behind the other.
fn joined(alloc: Global, pieces: &[&str]) -> Option<String> {
    let mut text = String::new(alloc);
    for piece in pieces {
        text.push_str(piece).ok()?;
    }
    Some(text)
}

/// The faults, a line each.
fn faults_told(alloc: Global, faults: &[RailwayFault]) -> Option<String> {
    let mut text = String::new(alloc);
    for fault in faults {
        let line = format!(in alloc; "{fault}\n").ok()?;
        text.push_str(line.as_str()).ok()?;
    }
    Some(text)
}

/// The places of what an end names, its identity, and the places of its part.
fn end_told(alloc: Global, end: &LineEnd) -> Option<String> {
    let station = end.station().0;
    let border = end.border().0;
    let lock = end.lock().0;
    let clear = end.clear().0;
    let id = end.id();
    let mut text = format!(in alloc;
        "station {station} border {border} lock {lock} clear {clear} id {id} part"
    ).ok()?;
    for section in end.part() {
        let place = section.0;
        let word = format!(in alloc; " {place}").ok()?;
        text.push_str(word.as_str()).ok()?;
    }
    Some(text)
}

/// A line and its ends, a line each.
fn line_told(alloc: Global, line: &Line) -> Option<String> {
    let name = line.name().as_str();
    let first = end_told(alloc, line.first())?;
    let second = end_told(alloc, line.second())?;
    format!(in alloc; "{name}\n{first}\n{second}\n").ok()
}

/// The lines, each with its ends.
fn lines_told(alloc: Global, lines: &[Line]) -> Option<String> {
    let mut text = String::new(alloc);
    for line in lines {
        let words = line_told(alloc, line)?;
        text.push_str(words.as_str()).ok()?;
    }
    Some(text)
}

/// The texts of layouts, each given by its pieces.
pub(crate) fn texts(alloc: Global, layouts: &[&[&str]]) -> Option<Vec<String>> {
    let mut texts = Vec::new(alloc);
    for pieces in layouts {
        texts.push(joined(alloc, pieces)?).ok()?;
    }
    Some(texts)
}

/// The lines of a railway, or all that is wrong with it, where each layout is given by its pieces. None where memory is lacking.
pub(crate) fn told(alloc: Global, railway: &str, layouts: &[&[&str]]) -> Option<String> {
    let written = match read_text(alloc, railway) {
        Ok(written) => written,
        Err(fault) => return format!(in alloc; "{fault}\n").ok(),
    };
    let texts = texts(alloc, layouts)?;
    if texts.len() != written.stations.len() {
        return None;
    }
    match Railway::read(alloc, &written, &texts) {
        Ok(railway) => lines_told(alloc, railway.lines()),
        Err(Refused::Faults(faults)) => faults_told(alloc, &faults),
        Err(Refused::OutOfMemory) => None,
    }
}
