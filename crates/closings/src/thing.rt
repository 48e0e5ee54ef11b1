//! What can be closed, and what a command names.

ghost use Rattle.std.specs.Prelude.{◌≡◌};
ghost use Rattle.closings.specs.Things.{kind_of, place_of, thing_at};

use control_table::layout::{PointId, RouteId, SectionId, SignalId};
use control_table::sci_telegram::Side;

/// What can be closed by itself.
#[derive(Clone, Copy, Debug, PartialEq, Eq)]
pub enum Thing {
    Section(SectionId),
    /// A point at one side.
    Point(PointId, Side),
    Signal(SignalId),
    Route(RouteId),
}

/// What `close` and `open` name.
#[derive(Clone, Copy, Debug, PartialEq, Eq)]
pub enum Named {
    One(Thing),
    /// A point at both its sides.
    BothSides(PointId),
}

/// The kinds of things, in the order in which they are listed.
#[derive(Clone, Copy)]
pub(crate) enum Kind {
    Section,
    PointLeft,
    PointRight,
    Signal,
    Route,
}

/// The thing of a kind at a place.
pub(crate) fn thing_at(kind: Kind, place: usize) -> Thing
    ensures { result ≡ thing_at kind place }
{
    match kind {
        Kind::Section => Thing::Section(SectionId(place)),
        Kind::PointLeft => Thing::Point(PointId(place), Side::Left),
        Kind::PointRight => Thing::Point(PointId(place), Side::Right),
        Kind::Signal => Thing::Signal(SignalId(place)),
        Kind::Route => Thing::Route(RouteId(place)),
    }
}

impl Thing {
    pub(crate) fn kind(self) -> Kind
        ensures { result ≡ kind_of self }
    {
        match self {
            Thing::Section(_) => Kind::Section,
            Thing::Point(_, Side::Left) => Kind::PointLeft,
            Thing::Point(_, Side::Right) => Kind::PointRight,
            Thing::Signal(_) => Kind::Signal,
            Thing::Route(_) => Kind::Route,
        }
    }

    /// The place among those of its kind.
    pub(crate) fn place(self) -> usize
        ensures { result ≡ place_of self }
    {
        match self {
            Thing::Section(section) => section.0,
            Thing::Point(point, _) => point.0,
            Thing::Signal(signal) => signal.0,
            Thing::Route(route) => route.0,
        }
    }
}
