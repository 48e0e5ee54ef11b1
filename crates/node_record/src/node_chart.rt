//! A node's record, drawn over the readings of its clock.

ghost use Rattle.std.specs.Prelude.{◌≡◌, ◌≤◌, IsErr, IfErr, IfOk, OnOk};
ghost use Rattle.station_check.specs.Failures.{Explained, IsLate, Leaves};
ghost use Rattle.node_record.specs.ChartedRecord.{IsChartBy, IsCharted, IsTextOf, window_of};
ghost use Rattle.node_record.specs.DecodedRecord.{CanRead, ExplainsRecord};
ghost use Rattle.control_table.specs.layout.Nodes.{meant_node};
ghost use Rattle.node_record.specs.NodesOfRecords.{node_of};

use crate::capture::stamp;
use crate::node_rows::node_rows;
use crate::node_story::{NodeStory, story_of};
use crate::texts::read_texts;
use crate::whole_lines::WholeLines;
use control_table::{Layout, Node, NodeId};
use drawing::svg;
use lane_chart::{Window, chart};
use station_check::{Failure, tell};
use std::alloc::{AllocError, Global};
use std::io::Write;

/// Which part of a record is drawn, in milliseconds of the node's clock. Without them it begins with its first reading, and it
/// ends with its last one at the latest.
#[derive(Clone, Copy)]
pub struct Cut {
    /// Where it begins.
    pub from: Option<u64>,
    /// Where it ends.
    pub to: Option<u64>,
}

/// What a node recorded, with the layout of its station and its name.
#[derive(Clone, Copy)]
pub struct NodeRecord<'a> {
    pub layout: &'a str,
    pub name: &'a str,
    pub recording: &'a str,
}

/// Writes the chart of a node's record to `out`, as SVG: what each line tells of a signal, a point, a section, a route or a link
/// from its reading on. Both texts are judged before, the layout first. The status is 0, or 1 where anything failed. Where no
/// chart was begun `out` stays as it is; `err` is then told why.
pub fn chart_node_text<W: Write, E: Write>(
    alloc: Global,
    recorded: NodeRecord<'_>,
    cut: Cut,
    out: &mut W,
    err: &mut E,
) -> u8
    ensures status { result ≤ 1 }
    ensures done { result ≡ 0 → IsCharted recorded.entry.layout.now recorded.entry.name.now recorded.entry.recording.now cut (W.contents out.old) (W.contents out.new) }
    ensures faulty { (CanRead recorded.entry.layout.now recorded.entry.name.now recorded.entry.recording.now → ⊥) → (result ≡ 1) × (out.new ≡ out.old) }
    ensures silent { result ≡ 0 → err.new ≡ err.old }
    // Only a beginning of the line was told where a write to `err` failed.
    ensures explains { result ≡ 1 → Explained (ExplainsRecord recorded.entry.layout.now recorded.entry.name.now recorded.entry.recording.now) result out.old out.new (E.contents err.old) (E.contents err.new) }
{
    let NodeRecord {
        layout,
        name,
        recording,
    } = recorded;
    match write_chart(alloc, layout, name, recording, cut, out) {
        Ok(()) => 0,
        Err(failure) => tell(&failure, err),
    }
}

/// Judges the texts, and writes the chart of what happens by the record at once.
fn write_chart<W: Write>(
    alloc: Global,
    layout: &str,
    name: &str,
    recording: &str,
    cut: Cut,
    out: &mut W,
) -> Result<(), Failure>
    ensures done { OnOk result (IsCharted layout.now name.now recording.now cut (W.contents out.old) (W.contents out.new)) }
    ensures faulty { (CanRead layout.now name.now recording.now → ⊥) → IsErr result × (out.new ≡ out.old) }
    ensures explains { IfErr result (λ failure. ExplainsRecord layout.now name.now recording.now failure × Leaves failure out.old out.new) }
{
    let texts = read_texts(alloc, layout, name, recording)?;
    let layout = texts.table.layout();
    let drawn = chart_of(alloc, layout, texts.read.head.node, recording, cut);
    drop(texts);
    let chart = drawn?;
    out.write_all(&chart)?;
    out.flush()?;
    Ok(())
}

/// The node of a number; one that is no node's stands for the interlocking.
fn node_of(layout: &Layout, number: usize) -> Node
    ensures { meant_node result ≡ node_of layout.now number }
{
    match layout.node(NodeId(number)) {
        Some(node) => node,
        None => Node::Interlocking,
    }
}

/// The chart of the record of the node of this number.
fn chart_of(
    alloc: Global,
    layout: &Layout,
    node: usize,
    recording: &str,
    cut: Cut,
) -> Result<Vec<u8>, Failure>
    ensures drawn { IfOk result (λ text. IsChartBy layout.now node recording.now cut text.items) }
    ensures failed { IfErr result IsLate }
{
    let whose = node_of(layout, node);
    let story = story_of(alloc, layout, whose, node, WholeLines::of(recording))?;
    let text = text_of(alloc, layout, whose, cut, &story);
    drop(story);
    Ok(text?)
}

/// The part of a record that is drawn, in microseconds: no time after its end.
fn window_of(cut: Cut, begin: u64, end: u64) -> Window
    ensures { result ≡ window_of cut begin end }
{
    let from = match cut.from {
        Some(from) => stamp(from),
        None => begin,
    };
    let to = match cut.to {
        Some(to) => stamp(to),
        None => end,
    };
    Window {
        from,
        to: to.min(end),
    }
}

/// The chart of a story, as SVG.
fn text_of(
    alloc: Global,
    layout: &Layout,
    whose: Node,
    cut: Cut,
    story: &NodeStory,
) -> Result<Vec<u8>, AllocError>
    ensures { IfOk result (λ text. IsTextOf layout.now (meant_node whose) cut story.now text.items) }
{
    let window = window_of(cut, story.begin, story.end);
    let rows = node_rows(alloc, layout, whose, window, &story.changes)?;
    let picture = chart(alloc, layout, window, &rows, &story.happenings)?;
    svg(alloc, &picture)
}
