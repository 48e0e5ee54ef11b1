//! The list of runs.

use crate::asked::Asked;
use crate::failure::Failure;
use crate::files::{NOTHING, parts, read};
use crate::kind::{Kind, kind_of};
use crate::restarts::lists;
use crate::{captures, cases, lines};
use std::io::{BufWriter, Write};

/// The file that names what is run.
const RUNS: &str = "runs";

/// Carries out each line of the list after the line itself.
pub(crate) fn carry_out_all(rt: &HostRuntime) -> Result<(), Failure> {
    let runs = read(rt, RUNS)?;
    let mut out = BufWriter::new(rt.alloc(), rt.stdout())?;
    for run in runs.as_str().lines() {
        out.writeln(run)?;
        carry_out(rt, run, &mut out)?;
    }
    out.flush()?;
    Ok(())
}

/// Does what a line asks for, and writes what comes of it.
fn carry_out<W: Write>(rt: &HostRuntime, run: &str, out: &mut W) -> Result<(), Failure> {
    let (word, words) = parts(run, " ")?;
    let kind = kind_of(word)?;
    match kind {
        Kind::Report
        | Kind::Commented
        | Kind::Explain
        | Kind::Routes
        | Kind::Complete
        | Kind::Completed
        | Kind::Contents => cases::carry_out(rt, kind, words, out),
        Kind::Restarts => lists::carry_out(rt, words, out),
        _ => with_texts(rt, kind, words, out),
    }
}

/// Up to four words of a line, and a hyphen in place of each that isn't there.
fn four_words(words: &str) -> [&str; 4] {
    let mut four = [NOTHING; 4];
    for (place, word) in words.split(' ').enumerate() {
        if place < four.len() {
            four[place] = word;
        }
    }
    four
}

/// Does what a line asks for with the texts of one or two files.
fn with_texts<W: Write>(
    rt: &HostRuntime,
    kind: Kind,
    words: &str,
    out: &mut W,
) -> Result<(), Failure> {
    let [layout, second, third, last] = four_words(words);
    let (word, text) = match kind {
        Kind::Plan | Kind::ChartNode | Kind::DecodeNode | Kind::CaptureNode => (second, third),
        Kind::PlainDecode => (NOTHING, layout),
        _ => (third, second),
    };
    let layout = read(rt, layout)?;
    let text = read(rt, text)?;
    let asked = Asked {
        kind,
        layout: layout.as_str(),
        text: text.as_str(),
        word,
        last,
    };
    show(rt, asked, out)
}

/// Shows what comes of it.
fn show<W: Write>(rt: &HostRuntime, asked: Asked<'_>, out: &mut W) -> Result<(), Failure> {
    match asked.kind {
        Kind::EachSim | Kind::EachReplay | Kind::Decode | Kind::PlainDecode => {
            lines::show_each(rt.alloc(), asked, out)
        }
        Kind::EachPair => lines::show_framed(rt.alloc(), asked, out),
        Kind::Script => lines::judge(rt.alloc(), asked, out),
        Kind::Capture => Ok(captures::show_session(rt.alloc(), asked, out)?),
        Kind::CaptureNode => Ok(captures::show_node(rt.alloc(), asked, out)?),
        _ => asked.show(rt.alloc(), out),
    }
}
