//! What is followed through a session, and what is seen of it.

use control_table::{Aspect, Occupancy, Position, RouteId, Side};

/// What is followed of signals, points, sections, routes and links.
#[derive(Clone, Copy)]
pub enum Kind {
    /// What a signal shows.
    Aspect,
    /// The route that is held for a signal.
    Authority,
    /// Where a point stands.
    Position,
    /// The side to which a point is driven.
    Drive,
    /// Whether a section is occupied.
    Section,
    /// How far a route is.
    Route,
    /// How far the interlocking's link to a signal is.
    SignalLink,
    /// How far its link to a point is.
    PointLink,
    /// How far its link to a detector is.
    DetectorLink,
}

/// What is followed through a session: of a signal, a point, a section, a route or a link, by its place in the layout.
#[derive(Clone, Copy)]
pub struct Lane {
    pub kind: Kind,
    pub place: usize,
}

/// How far a route is.
#[derive(Clone, Copy, PartialEq, Eq)]
pub enum Progress {
    /// It isn't set.
    Free,
    /// It is set, and had no authority since.
    Waiting,
    /// It has authority.
    Proceeding,
    /// It has authority, and was withdrawn.
    Withdrawn,
    /// Its authority ended. The first sections are freed, so many.
    Ended(usize),
}

/// How far a link is.
#[derive(Clone, Copy, PartialEq, Eq)]
pub enum Readiness {
    /// It is in no connection.
    Down,
    /// It is in a connection, whose initialisation isn't completed.
    Up,
    /// The initialisation of its connection is completed.
    Ready,
}

/// What is seen of a lane. There is nothing to see of what a station lacks.
#[derive(Clone, Copy, PartialEq, Eq)]
pub enum Seen {
    /// The aspect of a signal.
    Aspect(Option<Aspect>),
    /// The route that is held for a signal, if there is one.
    Authority(Option<RouteId>),
    /// The position of a point.
    Position(Option<Position>),
    /// The side to which a point is driven, if it is.
    Drive(Option<Side>),
    /// The occupancy of a section.
    Section(Option<Occupancy>),
    /// How far a route is.
    Route(Option<Progress>),
    /// How far a link is.
    Link(Readiness),
}
