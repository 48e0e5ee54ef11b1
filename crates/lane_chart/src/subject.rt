//! The rows of a chart.

ghost use Rattle.std.specs.Prelude.{◌≡◌};
ghost use Rattle.lane_chart.specs.Subjects.{kind_text};

use control_table::Name;

/// What a row of a chart is for.
#[derive(Clone, Copy)]
pub enum Sort {
    /// A signal: its aspect, and the route that is held for it.
    Signal,
    /// A point: its position, and the side to which it is driven.
    Point,
    /// A section.
    Section,
    /// A route.
    Route,
    /// The link to a signal.
    SignalLink,
    /// The link to a point.
    PointLink,
    /// The link to a detector.
    DetectorLink,
    /// The interlocking, and when it is made anew.
    Interlocking,
    /// The controller of a signal, and when it is made anew.
    SignalNode,
    /// The controller of a point, and when it is made anew.
    PointNode,
    /// A detector, and when it is made anew.
    DetectorNode,
}

/// What a row is for, with its name.
#[derive(Clone, Copy)]
pub struct Subject {
    /// What it is for.
    pub sort: Sort,
    /// The name of the signal, the point, the section, the route or the node.
    pub name: Name,
}

/// A row of a chart.
#[derive(Clone, Copy)]
pub struct Row {
    /// What it is for.
    pub subject: Subject,
    /// The place in its table of the layout.
    pub place: usize,
}

/// The word of a row's kind.
pub(crate) fn kind_word(sort: Sort) -> &'static str
    ensures { result.now ≡ kind_text sort }
{
    match sort {
        Sort::Signal => "signal",
        Sort::Point => "point",
        Sort::Section => "section",
        Sort::Route => "route",
        Sort::SignalLink | Sort::PointLink | Sort::DetectorLink => "link",
        Sort::Interlocking | Sort::SignalNode | Sort::PointNode | Sort::DetectorNode => "node",
    }
}
