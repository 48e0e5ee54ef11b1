//! What may be wrong with a route.

use control_table::{FaultyRoute, Name, Side};
use layout_text::PortName;

/// What is told of a route.
#[derive(Clone, Copy)]
pub(crate) struct RouteAdvice {
    pub(crate) route: FaultyRoute,
    pub(crate) detail: RouteDetail,
}

/// What is wrong with a route.
#[derive(Clone, Copy)]
pub(crate) enum RouteDetail {
    /// This is wrong with its path.
    Path(PathDetail),
    /// This is wrong with its points.
    Points(PointDetail),
    /// This point of its path isn't written.
    Unwritten(Name),
    /// It lists itself as an extra conflict.
    WithItself,
    /// It lists another as an extra conflict, which doesn't list it.
    Unanswered(Name),
}

/// What is wrong with the path of a route.
#[derive(Clone, Copy)]
pub(crate) enum PathDetail {
    /// It is empty.
    Empty,
    /// It leads to a port to which nothing is joined.
    DeadEnd(PortName),
    /// It leads to a port that is joined to another, from where no train leaves by the third.
    Astray(PortName, PortName, PortName),
    /// It leads over this element twice.
    Twice(Name),
    /// It comes back to this section, which it left.
    ComesBack(Name),
    /// This leg isn't used, and is joined to a port at which no signal stands.
    OpenLeg(PortName, PortName),
    /// This leg isn't used, and is joined to the leg of a point that guards it at this side and isn't written.
    FlankLacks(PortName, PortName, Side),
    /// It ends at this port, where the exit isn't.
    EndsElsewhere(PortName, Name),
    /// Its exit is its entry signal.
    EndsAtEntry(Name),
    /// This signal stands in the way, at this port.
    InTheWay(Name, PortName),
}

/// What is wrong with the points of a route.
#[derive(Clone, Copy)]
pub(crate) enum PointDetail {
    /// This point stands under `points`, and the path doesn't lead over it.
    OffPath(Name),
    /// This point stands under `points` at a side at which it isn't required.
    PointAt(Name, Side),
    /// This point stands under `flank`, and the path leads over it.
    OnPath(Name),
    /// This point stands under `flank` at a side at which it isn't required.
    FlankAt(Name, Side),
    /// This point is required at both sides.
    BothSides(Name),
}
