//! What the reports of field equipment tell of sections and of a point.

ghost use Rattle.std.specs.Prelude.{◌≡◌};
ghost use Rattle.replay_words.specs.Cut.{words};
ghost use Rattle.node_record.specs.ReportsTold.{report_said};
ghost use Rattle.control_table.specs.layout.Nodes.{meant_node};

use crate::told::Told;
use control_table::{Layout, Node};
use lane_chart::{Kind, Lane, Seen};
use node_lines::{FieldReport, read_report};

/// What a line of field equipment tells of a lane.
pub(crate) fn report_said(layout: &Layout, whose: Node, line: &str) -> Option<Told>
    ensures { result ≡ report_said layout.now (meant_node whose) (words line.now) }
{
    let (kind, place, seen) = match (read_report(layout, line), whose) {
        (Ok(FieldReport::Section { section, occupancy }), _) => {
            (Kind::Section, section.0, Seen::Section(Some(occupancy)))
        }
        (Ok(FieldReport::Point(position)), Node::Point(point)) => {
            (Kind::Position, point.0, Seen::Position(Some(position)))
        }
        _ => return None,
    };
    let lane = Lane { kind, place };
    Some(Told { lane, seen })
}
