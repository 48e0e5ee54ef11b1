//! The things of which a panel shows a line each.

/// A kind of thing of which a panel shows a line.
#[derive(Clone, Copy, Debug)]
pub enum Thing {
    /// What a signal shows.
    Aspect,
    /// Where a point lies.
    Lies,
    /// Whether a section is occupied.
    Stands,
    /// The route that locks a section.
    Locked,
    /// The link to the controller of a signal.
    SignalLink,
    /// The link to the controller of a point.
    PointLink,
    /// The link to a detector.
    DetectorLink,
    /// The route that is held for a signal.
    HeldRoute,
    /// Whether a route is set.
    Route,
    /// Whether a route was released in its present setting.
    Release,
    /// Whether a section is closed.
    SectionClosing,
    /// Whether a point is closed at the left.
    LeftClosing,
    /// Whether a point is closed at the right.
    RightClosing,
    /// Whether a signal is closed.
    SignalClosing,
    /// Whether a route is closed.
    RouteClosing,
}
