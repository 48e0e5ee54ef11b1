//! The list of all that a chart draws of the lanes.

ghost use Rattle.std.specs.Prelude.{◌≡◌, IfOk, map};
ghost use Rattle.lane_chart.specs.Drawn.{band_of, drawn_of, drawn_rows, lower_kind, seen_row, upper_kind};

use crate::change::Change;
use crate::lane::{Kind, Lane};
use crate::row_list::rows;
use crate::scale::Window;
use crate::spans::{Span, spans_of};
use crate::subject::{Row, Sort};
use control_table::Layout;
use std::alloc::{AllocError, Global};

/// A row with the spans of its bands.
#[derive(Drop)]
pub struct DrawnRow {
    /// What it is for.
    pub row: Row,
    /// Its upper band, from left to right.
    pub upper: Vec<Span>,
    /// Its lower band.
    pub lower: Vec<Span>,
}

/// The lane of the upper band of a row.
fn upper_kind(sort: Sort) -> Option<Kind>
    ensures { result ≡ upper_kind sort }
{
    match sort {
        Sort::Signal => Some(Kind::Aspect),
        Sort::Point => Some(Kind::Position),
        Sort::Section => Some(Kind::Section),
        Sort::Route => Some(Kind::Route),
        Sort::SignalLink => Some(Kind::SignalLink),
        Sort::PointLink => Some(Kind::PointLink),
        Sort::DetectorLink => Some(Kind::DetectorLink),
        Sort::Interlocking | Sort::SignalNode | Sort::PointNode | Sort::DetectorNode => None,
    }
}

/// The lane of its lower band.
pub(crate) fn lower_kind(sort: Sort) -> Option<Kind>
    ensures { result ≡ lower_kind sort }
{
    match sort {
        Sort::Signal => Some(Kind::Authority),
        Sort::Point => Some(Kind::Drive),
        _ => None,
    }
}

/// The spans of a band, if there is one.
fn band(
    alloc: Global,
    window: Window,
    changes: &[Change],
    kind: Option<Kind>,
    place: usize,
) -> Result<Vec<Span>, AllocError>
    ensures { IfOk result (λ spans. spans.items ≡ band_of window changes.now kind place) }
{
    match kind {
        Some(kind) => spans_of(alloc, window, Lane { kind, place }, changes),
        None => Ok(Vec::new(alloc)),
    }
}

/// Rows with their spans, in order.
fn all_drawn(
    alloc: Global,
    window: Window,
    changes: &[Change],
    rows: &[Row],
) -> Result<Vec<DrawnRow>, AllocError>
    ensures { IfOk result (λ drawn. map seen_row drawn.items ≡ map (drawn_of window changes.now) rows.now) }
{
    let mut drawn = Vec::new(alloc);
    for row in rows {
        let sort = row.subject.sort;
        let upper = band(alloc, window, changes, upper_kind(sort), row.place)?;
        let lower = band(alloc, window, changes, lower_kind(sort), row.place)?;
        let row = *row;
        drawn.push(DrawnRow { row, upper, lower })?;
    }
    Ok(drawn)
}

/// All that a chart of this part of a session draws of the lanes: each row of the layout, once, in order, and in it each
/// change of its lanes, once, in order. What is narrower than a unit is joined.
pub fn drawn_rows(
    alloc: Global,
    layout: &Layout,
    window: Window,
    changes: &[Change],
) -> Result<Vec<DrawnRow>, AllocError>
    ensures { IfOk result (λ drawn. map seen_row drawn.items ≡ drawn_rows layout.now window changes.now) }
{
    let rows = rows(alloc, layout)?;
    all_drawn(alloc, window, changes, &rows)
}
