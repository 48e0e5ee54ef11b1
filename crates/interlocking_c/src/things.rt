//! Things that a command or a refusal names, in the numbers of C.

ghost use Rattle.std.specs.Prelude.{◌≡◌};
ghost use Rattle.interlocking_c.specs.Things.{kind_told, named_of, place_told, side_named, side_of, thing_by, thing_of};

use crate::places::kind_of;
use embedded_ixl::{Kind, Named, PointId, RouteId, SectionId, Side, SignalId, Thing};

/// The side of a number, if it is that of one: 1 left, 2 right.
pub(crate) fn side_of(number: u32) -> Option<Side>
    ensures { result ≡ side_of number }
{
    match number {
        1 => Some(Side::Left),
        2 => Some(Side::Right),
        _ => None,
    }
}

/// The thing of a kind at a place, if it is one: a point is one at a side, and a node is none.
fn thing_by(kind: Option<Kind>, place: usize, side: Option<Side>) -> Option<Thing>
    ensures { result ≡ thing_by kind place side }
{
    match kind {
        Some(Kind::Signal) => Some(Thing::Signal(SignalId(place))),
        Some(Kind::Point) => match side {
            Some(side) => Some(Thing::Point(PointId(place), side)),
            None => None,
        },
        Some(Kind::Section) => Some(Thing::Section(SectionId(place))),
        Some(Kind::Route) => Some(Thing::Route(RouteId(place))),
        _ => None,
    }
}

/// The thing of these numbers, if they are those of one.
pub(crate) fn thing_of(kind: u32, place: usize, side: u32) -> Option<Thing>
    ensures { result ≡ thing_of kind place side }
{
    thing_by(kind_of(kind), place, side_of(side))
}

/// What a command of these numbers names, if they are those of something: a point at no side is one at both.
pub(crate) fn named_of(kind: u32, place: usize, side: u32) -> Option<Named>
    ensures { result ≡ named_of kind place side }
{
    if kind == 1 && side == 0 {
        return Some(Named::BothSides(PointId(place)));
    }
    match thing_of(kind, place, side) {
        Some(thing) => Some(Named::One(thing)),
        None => None,
    }
}

/// 0 a signal, 1 a point, 2 a section, 3 a route.
pub(crate) fn kind_told(named: Named) -> u32
    ensures { result ≡ kind_told named }
{
    match named {
        Named::One(Thing::Signal(_)) => 0,
        Named::One(Thing::Point(_, _)) | Named::BothSides(_) => 1,
        Named::One(Thing::Section(_)) => 2,
        Named::One(Thing::Route(_)) => 3,
    }
}

/// Its place among those of its kind.
pub(crate) fn place_told(named: Named) -> usize
    ensures { result ≡ place_told named }
{
    match named {
        Named::One(Thing::Signal(signal)) => signal.0,
        Named::One(Thing::Point(point, _)) | Named::BothSides(point) => point.0,
        Named::One(Thing::Section(section)) => section.0,
        Named::One(Thing::Route(route)) => route.0,
    }
}

/// The side of a point at one side.
pub(crate) fn side_named(named: Named) -> Option<Side>
    ensures { result ≡ side_named named }
{
    match named {
        Named::One(Thing::Point(_, side)) => Some(side),
        _ => None,
    }
}
