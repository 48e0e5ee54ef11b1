//! Where a train can stand, and which way round.

use control_table::{BorderId, PointId, Side, TrackId};

/// The port of a track to which a train's front looks.
#[derive(Clone, Copy)]
pub enum Toward {
    /// Port `a`.
    A,
    /// Port `b`.
    B,
}

/// The port by which a train came onto a point.
#[derive(Clone, Copy)]
pub enum Over {
    /// The tip: it leaves by the leg.
    Tip,
    /// The leg: it leaves by the tip.
    Leg,
}

/// An element of the track, with the direction in which a train stands on it.
#[derive(Clone, Copy)]
pub enum Place {
    /// On a track.
    Track(TrackId, Toward),
    /// On a point, by one of its legs.
    Point(PointId, Side, Over),
    /// Outside of a border at whose own port a signal stands: on the track before it.
    Outside(BorderId),
}
