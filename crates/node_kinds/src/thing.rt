//! The things of which an interlocking tells its operator.

/// A kind of thing of which an interlocking tells its operator.
#[derive(Clone, Copy)]
pub enum Thing {
    /// The link to the controller of a signal.
    SignalLink,
    /// The link to the controller of a point.
    PointLink,
    /// The link to a detector.
    DetectorLink,
    /// Whether a section is clear or occupied.
    Section,
    /// At which side a point lies.
    Point,
    /// The authority given at a signal.
    Signal,
    /// What the controller of a signal reports that it shows.
    Indication,
    /// Whether a route is set.
    Route,
    /// Whether a route that is set was released.
    Release,
    /// Whether a section is closed.
    SectionClosing,
    /// Whether a point is closed at the left.
    LeftClosing,
    /// Whether a point is closed at the right.
    RightClosing,
    /// Whether a signal is closed.
    SignalClosing,
    /// Whether a route is closed.
    RouteClosing,
    /// How many auxiliary commands of a kind were accepted.
    Counter,
    /// Whether requests are taken.
    Readiness,
}
