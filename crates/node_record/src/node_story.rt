//! What changes by a node's record, and what is marked in its chart.

ghost use Rattle.std.specs.Prelude.{◌≡◌, ◌++◌, IfOk, OnOk, map};
ghost use Rattle.std.specs.Option.{option_map, option_to_list};
ghost use Rattle.node_record.specs.NodeChanges.{TellsLines, begin_of, change_by, is_marked, mark_by, seen_mark};
ghost use Rattle.node_record.specs.inside.Marking.{marked};
ghost use Rattle.control_table.specs.layout.Nodes.{meant_node};

use crate::capture::stamp;
use crate::course::{Course, FIRST_COURSE, Step, parted, step_of};
use crate::told::Told;
use crate::whole_lines::WholeLines;
use control_table::{Layout, Node};
use lane_chart::{Change, Happening};
use replay_words::decimal;
use std::alloc::{AllocError, Global};

/// What happens by a node's record.
#[derive(Drop)]
pub(crate) struct NodeStory {
    /// What its lanes show, from each line on that tells something of one.
    pub(crate) changes: Vec<Change>,
    /// Its begin, and the commands and answers of an interlocking.
    pub(crate) happenings: Vec<Happening>,
    /// Its first reading, in microseconds.
    pub(crate) begin: u64,
    /// Its last one.
    pub(crate) end: u64,
}

/// What is marked in the chart: by which line, when, the node whose record begins, and in which words.
#[derive(Clone, Copy)]
struct Mark<'a> {
    line: usize,
    time: u64,
    node: Option<usize>,
    words: &'a str,
}

/// Adds what was told of a lane at a reading, if something was.
fn add_change(changes: &mut Vec<Change>, line: usize, step: Step) -> Result<(), AllocError>
    ensures { OnOk result (changes.new.items ≡ changes.old.items ++ change_by line step.time step.told) }
{
    let Some(Told { lane, seen }) = step.told else {
        return Ok(());
    };
    changes.push(Change {
        line,
        time: stamp(step.time),
        lane,
        seen,
    })?;
    Ok(())
}

/// The first words of the lines that tell answers, or that no request is taken yet.
const ANSWERS: &[&str] = &["accepted", "refused", "holding", "waiting"];

/// Whether a line of an interlocking is marked: a command, an answer, or that it takes no request yet.
fn is_marked(kind: &str, text: &str) -> bool
    ensures { result ≡ is_marked kind.now text.now }
{
    if kind != "writes" {
        return kind == "hears";
    }
    let (word, _) = parted(text);
    ANSWERS.contains(&word)
}

/// The mark of a line, if it has one, by its first word and the text after it. At its first reading a node begins; then the
/// lines of an interlocking are marked that tell commands and answers.
fn mark_by<'a>(
    whose: Node,
    node: usize,
    course: Course,
    line: usize,
    kind: &str,
    text: &'a str,
) -> Option<Mark<'a>>
    ensures { option_to_list (option_map marked result) ≡ mark_by (meant_node whose) node course line kind.now text.now }
{
    if kind == "at" {
        return match (course.first, decimal(text)) {
            (None, Ok(reading)) => Some(Mark {
                line,
                time: stamp(reading),
                node: Some(node),
                words: "begins",
            }),
            _ => None,
        };
    }
    match whose {
        Node::Interlocking if is_marked(kind, text) => Some(Mark {
            line,
            time: stamp(course.reading),
            node: None,
            words: text,
        }),
        _ => None,
    }
}

/// Adds a mark, if there is one.
fn add_mark(
    alloc: Global,
    happenings: &mut Vec<Happening>,
    mark: Option<Mark<'_>>,
) -> Result<(), AllocError>
    ensures { OnOk result (map seen_mark happenings.new.items ≡ map seen_mark happenings.old.items ++ option_to_list (option_map marked mark.entry)) }
{
    let Some(mark) = mark else {
        return Ok(());
    };
    let words = String::from_str(alloc, mark.words)?;
    happenings.push(Happening {
        line: mark.line,
        time: mark.time,
        node: mark.node,
        words,
    })?;
    Ok(())
}

fn begin_of(first: Option<u64>) -> u64
    ensures { result ≡ begin_of first }
{
    match first {
        Some(first) => stamp(first),
        None => 0,
    }
}

/// What happens by these lines of the record of a node.
pub(crate) fn story_of(
    alloc: Global,
    layout: &Layout,
    whose: Node,
    node: usize,
    lines: WholeLines<'_>,
) -> Result<NodeStory, AllocError>
    ensures { IfOk result (TellsLines layout.now (meant_node whose) node lines.entry) }
{
    let mut changes = Vec::new(alloc);
    let mut happenings = Vec::new(alloc);
    let mut course = FIRST_COURSE;
    for (number, line) in lines {
        let place = number as usize;
        let (kind, text) = parted(line);
        let mark = mark_by(whose, node, course, place, kind, text);
        add_mark(alloc, &mut happenings, mark)?;
        let this = step_of(layout, whose, course, kind, text);
        add_change(&mut changes, place, this)?;
        course = this.course;
    }
    Ok(NodeStory {
        changes,
        happenings,
        begin: begin_of(course.first),
        end: stamp(course.reading),
    })
}
