//! What an operator asks for at a panel.

ghost use Rattle.std.specs.Prelude.{◌≡◌};

use crate::standing_order::StandingOrder;
use node_lines::replay_lines::point_word;
use node_lines::{Event, Layout, NodeId, PointId};
use std::fmt;

/// What is done to the network or to a point, so that less comes than was sent or driven.
#[derive(Clone, Copy, PartialEq, Eq)]
pub enum Disturbance {
    /// What goes to a node or comes from it is lost.
    Cut(NodeId),
    /// It isn't lost any more.
    Mend(NodeId),
    /// Of the datagrams that are sent one in so many is lost; none where that is 0.
    Drop { one_in: u64 },
    /// Datagrams come so many milliseconds late, up to 2000.
    Delay { millis: u64 },
    /// A point doesn't reach an end position, however long it is driven.
    Jam(PointId),
    /// It reaches one again.
    Unjam(PointId),
}

/// What an operator asks for at a panel.
pub enum PanelCommand {
    /// That an event happens: a command to the interlocking, an occupancy, or a restart.
    Event(Event),
    /// To cancel each route of the table. The words `cancel all` always ask for this, whatever a route is called.
    CancelAll,
    /// To disturb the station.
    Disturb(Disturbance),
    /// That the panel does something by itself from now on.
    Stand(StandingOrder),
}

// Written by hand, so that it is proved and compiled here alone.
impl Drop for PanelCommand {
    fn drop(self) {
        match self {
            Self::Event(_) => {}
            Self::CancelAll => {}
            Self::Disturb(_) => {}
            Self::Stand(_) => {}
        }
    }
}

/// The line that asks for a disturbance of a station with this layout.
#[derive(Clone, Copy)]
pub struct DisturbanceText<'a> {
    pub layout: &'a Layout,
    pub disturbance: Disturbance,
}

impl<'a> fmt::Display for DisturbanceText<'a> {
    ghost use Rattle.std.specs.Prelude.{Some};
    ghost use Rattle.panel_desk.specs.ShownLines.{disturbance_text};

    ghost output = { λ text. Some (disturbance_text text.layout.now text.disturbance) };

    fn fmt<W: fmt::Write>(&self, f: &mut fmt::Formatter<W>) -> fmt::Result {
        let layout = self.layout;
        match self.disturbance {
            Disturbance::Cut(node) => {
                let node = NodeText { layout, node };
                write!(f, "cut {node}")
            }
            Disturbance::Mend(node) => {
                let node = NodeText { layout, node };
                write!(f, "mend {node}")
            }
            Disturbance::Drop { one_in } => write!(f, "drop {one_in}"),
            Disturbance::Delay { millis } => write!(f, "delay {millis}"),
            Disturbance::Jam(point) => {
                let point = point_word(layout, point);
                write!(f, "jam {point}")
            }
            Disturbance::Unjam(point) => {
                let point = point_word(layout, point);
                write!(f, "unjam {point}")
            }
        }
    }
}

/// The name of a node, or `_` where the layout lacks it.
#[derive(Clone, Copy)]
struct NodeText<'a> {
    layout: &'a Layout,
    node: NodeId,
}

impl<'a> fmt::Display for NodeText<'a> {
    ghost use Rattle.std.specs.Prelude.{Some};
    ghost use Rattle.node_lines.specs.Known.{node_word};

    ghost output = { λ text. Some (node_word text.layout.now text.node) };

    fn fmt<W: fmt::Write>(&self, f: &mut fmt::Formatter<W>) -> fmt::Result {
        match self.layout.node_name(self.node) {
            Some(name) => {
                let name = name.as_str();
                write!(f, "{name}")
            }
            None => write!(f, "_"),
        }
    }
}
