//! Where the head of a train comes next.

ghost use Rattle.std.specs.Prelude.{◌≡◌};
ghost use Rattle.station_track.specs.Ahead.{IfOnto, ahead, behind_port, entered_place, leg_taken};

use crate::numbers::limits;
use crate::place::{Over, Place, Toward};
use crate::ports::{beyond, front};
use control_table::layout::{Element, End, Layout, Port};
use control_table::{BitRow, PointId, Side};

/// What is ahead of a train.
#[derive(Clone, Copy)]
pub enum Ahead {
    /// Nothing is joined.
    Nothing,
    /// A border.
    Out,
    /// A place.
    Onto(Place),
}

/// The leg by which a point is left that is entered by its tip.
fn leg_taken(right: BitRow, point: PointId) -> Side
    ensures { result ≡ leg_taken right point }
{
    if right.contains(point.0) {
        Side::Right
    } else {
        Side::Left
    }
}

/// What is behind the port by which an element is entered.
fn entered_place(right: BitRow, on: Element, entered: End) -> Ahead
    ensures { result ≡ entered_place right on entered }
{
    match (on, entered) {
        (Element::Track(track), End::A) => Ahead::Onto(Place::Track(track, Toward::B)),
        (Element::Track(track), End::B) => Ahead::Onto(Place::Track(track, Toward::A)),
        (Element::Point(point), End::Tip) => Ahead::Onto(Place::Point(
            point,
            leg_taken(right, point),
            Over::Tip,
        )),
        (Element::Point(point), End::Left) => Ahead::Onto(Place::Point(
            point,
            Side::Left,
            Over::Leg,
        )),
        (Element::Point(point), End::Right) => Ahead::Onto(Place::Point(
            point,
            Side::Right,
            Over::Leg,
        )),
        (Element::Border(_), End::End) => Ahead::Out,
        _ => Ahead::Nothing,
    }
}

/// What is behind a port.
fn behind_port(right: BitRow, entered: Option<Port>) -> Ahead
    ensures { result ≡ behind_port right entered }
{
    match entered {
        Some(entered) => entered_place(right, entered.element, entered.end),
        None => Ahead::Nothing,
    }
}

/// What is ahead of a train on a place, where these points lie right: a track is left by its other end, a point by its tip, or, where it
/// is entered by the tip, by the leg at which it lies, and by the left one where it lies at neither.
pub fn ahead_of(layout: &Layout, right: BitRow, place: Place) -> Ahead
    ensures ahead { result ≡ ahead layout.now right place }
    ensures there { IfOnto layout.now result }
{
    limits(layout);
    behind_port(right, beyond(layout.joints(), front(place)))
}
