//! What is asked of texts, and what comes of it.

use crate::failure::Failure;
use crate::files::NOTHING;
use crate::kind::Kind;
use node_record::{Cut as NodeCut, NodeRecord, chart_node_text, decode_node_text};
use simulator_pair_text::pair_text;
use station_layout::{Form, explain_text, plan_text, table_text};
use station_record::{
    Cut, chart_text, check_text, decode_session_text, decode_text, replay_text, sim_text,
};
use std::alloc::Global;
use std::io::Write;
use table_review::{
    ApproachRule, Asked as AskedRoutes, ReviewFault, completed_text, lacking_text, review_text,
};

/// What is asked of texts: of a layout and another text, where there is one, with the other words of a line.
#[derive(Clone, Copy)]
pub(crate) struct Asked<'a> {
    pub(crate) kind: Kind,
    /// The text of a layout, or of a pair.
    pub(crate) layout: &'a str,
    pub(crate) text: &'a str,
    /// A route or a node, or from when on a session is drawn.
    pub(crate) word: &'a str,
    /// Up to when a session is drawn.
    pub(crate) last: &'a str,
}

impl<'a> Asked<'a> {
    /// Does it, and writes what comes of it: what was told of a fault or a difference after the rest, and the status.
    pub(crate) fn show<W: Write>(self, alloc: Global, out: &mut W) -> Result<(), Failure> {
        let mut told = Vec::new(alloc);
        let status = match self.kind {
            Kind::Routes => tell_found(self.lacking(alloc), out, &mut told),
            Kind::Complete => tell_found(review_text(alloc, self.layout), out, &mut told),
            Kind::Completed => tell_found(self.completed(alloc), out, &mut told),
            Kind::Report | Kind::Explain | Kind::Table | Kind::Csv | Kind::Plan => {
                self.tell_layout(alloc, out, &mut told)
            }
            Kind::ChartNode | Kind::DecodeNode => self.tell_node(alloc, out, &mut told),
            Kind::Chart => {
                let cut = self.cut()?;
                chart_text(alloc, self.layout, self.text, cut, out, &mut told)
            }
            _ => self.tell_session(alloc, out, &mut told),
        };
        out.write_all(&told)?;
        writeln!(out, "status {status}")?;
        Ok(())
    }

    /// Tells what is asked of a layout, and answers the status.
    fn tell_layout<W: Write>(self, alloc: Global, out: &mut W, told: &mut Vec<u8>) -> u8 {
        let layout = self.layout;
        match self.kind {
            Kind::Explain => explain_text(alloc, layout, out, told),
            Kind::Table => table_text(alloc, layout, Form::Markdown, out, told),
            Kind::Csv => table_text(alloc, layout, Form::Csv, out, told),
            Kind::Plan => {
                let picture = if self.text.is_empty() {
                    None
                } else {
                    Some(self.text)
                };
                plan_text(alloc, layout, wanted(self.word), picture, out, told)
            }
            _ => check_text(alloc, layout, out, told),
        }
    }

    /// What is asked of the routes of a layout.
    fn routes(self) -> AskedRoutes<'a> {
        AskedRoutes {
            text: self.layout,
            from: None,
            rule: ApproachRule::Signal,
        }
    }

    /// The routes that a layout lacks.
    fn lacking(self, alloc: Global) -> Result<Vec<u8>, ReviewFault> {
        lacking_text(alloc, &self.routes())
    }

    /// A layout with the routes that it lacks; nothing where it lacks none.
    fn completed(self, alloc: Global) -> Result<Vec<u8>, ReviewFault> {
        match completed_text(alloc, &self.routes())? {
            Some(completed) => Ok(completed.text),
            None => Ok(Vec::new(alloc)),
        }
    }

    /// Tells what is asked of the record of a node, and answers the status.
    fn tell_node<W: Write>(self, alloc: Global, out: &mut W, told: &mut Vec<u8>) -> u8 {
        let (layout, record) = (self.layout, self.text);
        let cut = NodeCut {
            from: None,
            to: None,
        };
        match self.kind {
            Kind::ChartNode => {
                let recorded = NodeRecord {
                    layout,
                    name: self.word,
                    recording: record,
                };
                chart_node_text(alloc, recorded, cut, out, told)
            }
            _ => decode_node_text(alloc, layout, self.word, record, out, told),
        }
    }

    /// Tells what is asked of events, a session, a datagram or a pair, and answers the status.
    fn tell_session<W: Write>(self, alloc: Global, out: &mut W, told: &mut Vec<u8>) -> u8 {
        let (layout, text) = (self.layout, self.text);
        match self.kind {
            Kind::Replay | Kind::EachReplay => replay_text(alloc, layout, text, out, told),
            Kind::DecodeSession => decode_session_text(alloc, layout, text, out, told),
            Kind::Decode => decode_text(alloc, Some(layout), text, out, told),
            Kind::PlainDecode => decode_text(alloc, None, text, out, told),
            Kind::Pair | Kind::EachPair => pair_text(alloc, layout, out, told),
            _ => sim_text(alloc, layout, text, out, told),
        }
    }

    /// Which part of a session is drawn.
    fn cut(self) -> Result<Cut, Failure> {
        let from = millis(self.word)?;
        let to = millis(self.last)?;
        Ok(Cut { from, to })
    }
}

/// Tells what was found of a table, or why nothing is told, and answers the status.
fn tell_found<W: Write>(
    found: Result<Vec<u8>, ReviewFault>,
    out: &mut W,
    told: &mut Vec<u8>,
) -> u8 {
    match found {
        Ok(text) => match out.write_all(&text) {
            Ok(()) => 0,
            Err(_) => 1,
        },
        Err(fault) => {
            // What isn't told for want of memory leaves the status.
            let _ = told.writeln(format_args!("{fault}"));
            1
        }
    }
}

/// What a word asks for.
fn wanted(word: &str) -> Option<&str> {
    if word == NOTHING { None } else { Some(word) }
}

/// A time in milliseconds, if a word asks for one.
fn millis(word: &str) -> Result<Option<u64>, Failure> {
    match wanted(word) {
        Some(word) => match word.parse::<u64>() {
            Ok(millis) => Ok(Some(millis)),
            Err(_) => Err(Failure::Words),
        },
        None => Ok(None),
    }
}
