//! What is seen of a station at a moment.

ghost use Rattle.std.specs.Prelude.{◌≡◌, []};

use arrayvec::ArrayVec;
use ixl_spec::{Aspect, Position, RouteId, Side, SignalId};

/// What a signal shows.
#[derive(Clone, Copy, Debug)]
pub struct Shown(pub Aspect);

impl Default for Shown {
    /// For places that hold no signal.
    fn default() -> Shown {
        Shown(Aspect::Stop)
    }
}

/// A route that is held for a signal.
#[derive(Clone, Copy, Debug)]
pub struct Held {
    pub signal: SignalId,
    pub route: RouteId,
}

impl Default for Held {
    /// For places that hold no pair.
    fn default() -> Held {
        Held {
            signal: SignalId(0),
            route: RouteId(0),
        }
    }
}

/// Where a point stands.
#[derive(Clone, Copy, Debug)]
pub struct Stands(pub Position);

impl Default for Stands {
    /// For places that hold no point.
    fn default() -> Stands {
        Stands(Position::NoEndPosition)
    }
}

/// What is seen of a station at a moment. It may also be one that no station shows.
#[derive(Debug, Drop)]
pub struct Snapshot {
    /// What each signal shows, in the order of the layout.
    pub shows: ArrayVec<Shown, 32>,
    /// The routes that are held, each with the signal for which it is.
    pub held: ArrayVec<Held, 64>,
    /// Where each point stands, in the order of the layout.
    pub position: ArrayVec<Stands, 32>,
    /// The side to which each point is driven, if it is, in the order of the layout.
    pub driven: ArrayVec<Option<Side>, 32>,
}

impl Snapshot {
    /// A snapshot of nothing.
    pub fn empty() -> Snapshot
        ensures shows { result.shows.items ≡ [] }
        ensures held { result.held.items ≡ [] }
        ensures position { result.position.items ≡ [] }
        ensures driven { result.driven.items ≡ [] }
    {
        Snapshot {
            shows: ArrayVec::new(),
            held: ArrayVec::new(),
            position: ArrayVec::new(),
            driven: ArrayVec::new(),
        }
    }
}
