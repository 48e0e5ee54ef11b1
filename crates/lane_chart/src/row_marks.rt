//! How a row is drawn: its name, a band for each of its lanes, and when its node was made anew.

ghost use Rattle.std.specs.Prelude.{◌≡◌, ◌++◌, ◌∷◌, [], OnOk, Some, codes};
ghost use Rattle.std.specs.List.{flat_map};
ghost use Rattle.lane_chart.specs.Faces.{edge_class, edge_of, is_node, node_strokes, restart_strokes, row_strokes, span_end, span_strokes, state_text};
ghost use Rattle.lane_chart.specs.Strokes.{line, named, on_paper, place_of, strokes};

use crate::change::Happening;
use crate::drawn::{DrawnRow, lower_kind};
use crate::lane::{Progress, Seen};
use crate::marks::Marks;
use crate::scale::{LEFT, RIGHT, WIDTH, Window, on_paper, place_of};
use crate::scene::Scene;
use crate::spans::Span;
use crate::subject::{Row, Sort};
use crate::words::{label, state_word};
use control_table::Position;
use control_table::layout::Route;
use drawing::{Anchor, Spot};
use std::alloc::AllocError;

/// How wide a letter is.
pub(crate) const LETTER: usize = 6;

/// How high a row is.
pub(crate) fn height(sort: Sort) -> i32 {
    match lower_kind(sort) {
        Some(_) => 32,
        None => 18,
    }
}

/// How far above or below the middle of its band something is drawn: a point's side is told by it.
pub(crate) fn offset(seen: Seen) -> i32 {
    match seen {
        Seen::Position(Some(Position::Left)) => -4,
        Seen::Position(Some(Position::Right)) => 4,
        _ => 0,
    }
}

/// How far below the middle of its band the word of what is seen stands: beside a thin line, and within a wide one.
fn word_offset(seen: Seen) -> i32 {
    match seen {
        Seen::Position(Some(Position::Left)) => 6,
        Seen::Position(Some(Position::Right)) => 0,
        Seen::Position(Some(Position::NoEndPosition)) | Seen::Route(Some(Progress::Waiting)) => -3,
        _ => 3,
    }
}

/// How many units a text takes.
pub(crate) fn width(words: &str) -> i32 {
    let letters = words.len().saturating_mul(LETTER).saturating_add(8);
    i32::try_from(letters).unwrap_or(i32::MAX)
}

/// Where the line of a span ends: one unit after its beginning at the earliest.
fn span_end(span: Span) -> i32
    ensures { result ≡ span_end span }
{
    let next = span.left.min(WIDTH) + 1;
    on_paper(span.right.min(WIDTH).max(next))
}

/// Draws a span of a band, from this height of its middle on.
fn draw_span(marks: &mut Marks, routes: &[Route], span: Span, middle: i32) -> Result<(), AllocError>
    ensures drawn { OnOk result (strokes marks.new.marks.items ≡ strokes marks.old.marks.items ++ span_strokes span) }
    ensures named { OnOk result (named marks.new.marks.items ≡ named marks.old.marks.items) }
{
    draw_state(marks, span, middle)?;
    draw_edge(marks, span, middle)?;
    draw_label(marks, routes, span, middle)
}

/// Draws what a span shows, as a line.
fn draw_state(marks: &mut Marks, span: Span, middle: i32) -> Result<(), AllocError>
    ensures drawn { OnOk result (strokes marks.new.marks.items ≡ strokes marks.old.marks.items ++ line (codes "band " ++ state_text span.seen) (place_of span.left) (span_end span) ∷ []) }
    ensures named { OnOk result (named marks.new.marks.items ≡ named marks.old.marks.items) }
{
    let state = state_word(span.seen);
    let class = format!(in marks.alloc; "band {state}")?;
    let height = middle.saturating_add(offset(span.seen));
    marks.level_line(class.as_str(), place_of(span.left), span_end(span), height)
}

/// The class of the edge where a span begins: where it joins changes that are narrower than a unit, the edge is thick.
fn edge_class(span: Span) -> &'static str
    ensures { result.now ≡ edge_class span }
{
    if span.joins { "joined" } else { "edge" }
}

/// Draws where a span begins, unless that is the left border.
fn draw_edge(marks: &mut Marks, span: Span, middle: i32) -> Result<(), AllocError>
    ensures drawn { OnOk result (strokes marks.new.marks.items ≡ strokes marks.old.marks.items ++ edge_of span) }
    ensures named { OnOk result (named marks.new.marks.items ≡ named marks.old.marks.items) }
{
    if span.left == 0 {
        return Ok(());
    }
    let top = middle.saturating_sub(7);
    let bottom = middle.saturating_add(7);
    marks.upright_line(edge_class(span), place_of(span.left), top, bottom)
}

/// Writes what a span shows, where there is room for it.
fn draw_label(
    marks: &mut Marks,
    routes: &[Route],
    span: Span,
    middle: i32,
) -> Result<(), AllocError>
    ensures drawn { OnOk result (strokes marks.new.marks.items ≡ strokes marks.old.marks.items) }
    ensures named { OnOk result (named marks.new.marks.items ≡ named marks.old.marks.items) }
{
    let left = place_of(span.left);
    let room = span_end(span).saturating_sub(left);
    let words = label(marks.alloc, routes, span.seen)?;
    if words.is_empty() || width(words.as_str()) > room {
        return Ok(());
    }
    let base = middle.saturating_add(word_offset(span.seen));
    let at = Spot {
        x: left.saturating_add(4),
        y: base,
    };
    marks.text("state", at, Anchor::Start, words.as_str())
}

/// Draws a band.
fn draw_band(
    marks: &mut Marks,
    routes: &[Route],
    spans: &[Span],
    middle: i32,
) -> Result<(), AllocError>
    ensures drawn { OnOk result (strokes marks.new.marks.items ≡ strokes marks.old.marks.items ++ flat_map span_strokes spans.now) }
    ensures named { OnOk result (named marks.new.marks.items ≡ named marks.old.marks.items) }
{
    for span in spans {
        draw_span(marks, routes, *span, middle)?;
    }
    Ok(())
}

/// Whether a node is the one that is made anew.
fn is_node(node: usize, made_anew: Option<usize>) -> bool
    ensures { result ≡ is_node node made_anew }
{
    match made_anew {
        Some(other) => other == node,
        None => false,
    }
}

/// Draws that a node was made anew, where it was.
fn draw_restart(
    marks: &mut Marks,
    window: Window,
    node: usize,
    happening: &Happening,
    middle: i32,
) -> Result<(), AllocError>
    ensures drawn { OnOk result (strokes marks.new.marks.items ≡ strokes marks.old.marks.items ++ restart_strokes window node happening.now) }
    ensures named { OnOk result (named marks.new.marks.items ≡ named marks.old.marks.items) }
{
    if !is_node(node, happening.node) || !window.has(happening.time) {
        return Ok(());
    }
    let x = window.place(happening.time);
    let y = middle.saturating_add(4);
    marks.arrow("restart", Spot { x, y })
}

/// Draws when a node was made anew.
fn draw_restarts(
    marks: &mut Marks,
    window: Window,
    node: usize,
    happenings: &[Happening],
    middle: i32,
) -> Result<(), AllocError>
    ensures drawn { OnOk result (strokes marks.new.marks.items ≡ strokes marks.old.marks.items ++ flat_map (restart_strokes window node) happenings.now) }
    ensures named { OnOk result (named marks.new.marks.items ≡ named marks.old.marks.items) }
{
    for happening in happenings {
        draw_restart(marks, window, node, happening, middle)?;
    }
    Ok(())
}

/// Draws the line of a row's node, and when it was made anew, if the row has a node.
fn draw_node(
    marks: &mut Marks,
    window: Window,
    node: Option<usize>,
    happenings: &[Happening],
    middle: i32,
) -> Result<(), AllocError>
    ensures drawn { OnOk result (strokes marks.new.marks.items ≡ strokes marks.old.marks.items ++ node_strokes window happenings.now node) }
    ensures named { OnOk result (named marks.new.marks.items ≡ named marks.old.marks.items) }
{
    match node {
        Some(node) => {
            marks.level_line("band node-line", LEFT, RIGHT, middle)?;
            draw_restarts(marks, window, node, happenings, middle)
        }
        None => Ok(()),
    }
}

/// Writes what stands before a row, if something does: the kind of it and of those that follow.
fn draw_kind(marks: &mut Marks, heading: &str, top: i32) -> Result<(), AllocError>
    ensures drawn { OnOk result (strokes marks.new.marks.items ≡ strokes marks.old.marks.items) }
    ensures named { OnOk result (named marks.new.marks.items ≡ named marks.old.marks.items) }
{
    if heading.is_empty() {
        return Ok(());
    }
    let at = Spot {
        x: 12,
        y: top.saturating_add(12),
    };
    marks.text("sort", at, Anchor::Start, heading)
}

/// Draws the rule below a row, and its name.
fn draw_name(marks: &mut Marks, row: &Row, top: i32) -> Result<(), AllocError>
    ensures drawn { OnOk result (strokes marks.new.marks.items ≡ strokes marks.old.marks.items ++ line (codes "rule") (on_paper 0) (on_paper 1380) ∷ []) }
    ensures named { OnOk result (named marks.new.marks.items ≡ named marks.old.marks.items ++ row.now.subject.name) }
{
    let rule = top.saturating_add(height(row.subject.sort));
    marks.level_line("rule", LEFT, RIGHT, rule)?;
    let at = Spot {
        x: LEFT.saturating_sub(8),
        y: top.saturating_add(12),
    };
    marks.text("name", at, Anchor::End, row.subject.name.as_str())
}

/// Draws a row under a heading, from this height on.
pub(crate) fn draw_row(
    marks: &mut Marks,
    scene: Scene<'_>,
    drawn: &DrawnRow,
    heading: &str,
    top: i32,
) -> Result<(), AllocError>
    ensures drawn { OnOk result (strokes marks.new.marks.items ≡ strokes marks.old.marks.items ++ row_strokes scene.entry.nodes scene.entry.window scene.entry.happenings.now drawn.now) }
    ensures named { OnOk result (named marks.new.marks.items ≡ named marks.old.marks.items ++ drawn.now.row.subject.name) }
{
    draw_kind(marks, heading, top)?;
    draw_name(marks, &drawn.row, top)?;
    let middle = top.saturating_add(9);
    draw_band(marks, scene.routes, &drawn.upper, middle)?;
    let below = middle.saturating_add(14);
    draw_band(marks, scene.routes, &drawn.lower, below)?;
    let node = scene.nodes.number_of(&drawn.row);
    draw_node(marks, scene.window, node, scene.happenings, middle)
}
