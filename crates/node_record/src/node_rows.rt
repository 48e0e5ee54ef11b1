//! Which rows the chart of a node's record has.

ghost use Rattle.std.specs.Prelude.{◌≡◌, IfOk, map};
ghost use Rattle.std.specs.List.{filter};
ghost use Rattle.lane_chart.specs.Drawn.{drawn_rows, seen_row};
ghost use Rattle.node_record.specs.NodeRows.{is_row_of};
ghost use Rattle.control_table.specs.layout.Nodes.{meant_node};

use control_table::layout::Detector;
use control_table::{Layout, Node, SectionId};
use lane_chart::{Change, DrawnRow, Row, Sort, Window, drawn_rows};
use std::alloc::{AllocError, Global};

/// Whether a row is one that a node tells of: an interlocking of all but the controllers themselves, and a controller of its own.
fn is_row_of(detectors: &[Detector], whose: Node, row: Row) -> bool
    ensures { result ≡ is_row_of detectors.now (meant_node whose) row }
{
    match (whose, row.subject.sort) {
        (Node::Interlocking, Sort::SignalNode | Sort::PointNode | Sort::DetectorNode) => false,
        (Node::Interlocking, _) => true,
        (Node::Signal(signal), Sort::Signal | Sort::SignalNode) => row.place == signal.0,
        (Node::Point(point), Sort::Point | Sort::PointNode) => row.place == point.0,
        (Node::Detector(detector), Sort::DetectorNode) => row.place == detector.0,
        (Node::Detector(detector), Sort::Section) => match detectors.get(detector.0) {
            Some(detector) => detector.sections().contains(&SectionId(row.place)),
            None => false,
        },
        _ => false,
    }
}

/// All that the chart of this part of a node's record draws of its lanes.
pub(crate) fn node_rows(
    alloc: Global,
    layout: &Layout,
    whose: Node,
    window: Window,
    changes: &[Change],
) -> Result<Vec<DrawnRow>, AllocError>
    ensures { IfOk result (λ rows. map seen_row rows.items ≡ filter (λ drawn. is_row_of layout.now.detectors (meant_node whose) drawn.row) (drawn_rows layout.now window changes.now)) }
{
    let mut rows = drawn_rows(alloc, layout, window, changes)?;
    let detectors = layout.detectors();
    rows.retain(|drawn| is_row_of(detectors, whose, drawn.row));
    Ok(rows)
}
