//! What a chart is drawn from.

ghost use Rattle.std.specs.Prelude.{◌≡◌};
ghost use Rattle.lane_chart.specs.Faces.{node_of};

use crate::change::Happening;
use crate::scale::Window;
use crate::subject::{Row, Sort};
use control_table::layout::Route;

/// By what the nodes of a station are numbered.
#[derive(Clone, Copy)]
pub(crate) struct Nodes {
    /// How many signals it has.
    pub(crate) signals: usize,
    /// How many points it has.
    pub(crate) points: usize,
}

impl Nodes {
    /// The number of a row's node, if the row is one of a node.
    pub(crate) fn number_of(self, row: &Row) -> Option<usize>
        ensures { result ≡ node_of self row.now }
    {
        let behind = row.place.saturating_add(1);
        let behind_signals = behind.saturating_add(self.signals);
        match row.subject.sort {
            Sort::Interlocking => Some(0),
            Sort::SignalNode => Some(behind),
            Sort::PointNode => Some(behind_signals),
            Sort::DetectorNode => Some(behind_signals.saturating_add(self.points)),
            _ => None,
        }
    }
}

/// What the rows of a chart are drawn from.
#[derive(Clone, Copy)]
pub(crate) struct Scene<'a> {
    /// The routes of the layout, by which bands name those that are held.
    pub(crate) routes: &'a [Route],
    pub(crate) nodes: Nodes,
    pub(crate) window: Window,
    pub(crate) happenings: &'a [Happening],
}
