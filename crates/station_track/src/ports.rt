//! By which ports a train stands on a place, what is joined to them, and what stands there.

ghost use Rattle.std.specs.Prelude.{◌≡◌, ℕ};
ghost use Rattle.control_table.specs.Topology.{port_of, section_of};
ghost use Rattle.control_table.specs.Sides.{leg};
ghost use Rattle.station_track.specs.Ports.{away_end, beyond, front, is_port, is_same_port, leg_left, other_over, other_port, other_way, over_leg, place_between, place_left, rear, signal_from, tip, tip_left, toward_end, track_behind, track_entered, track_left, turned_place};

use crate::place::{Over, Place, Toward};
use control_table::layout::{Element, End, Joint, Layout, Port, SectionId, Signal, SignalId};
use control_table::{PointId, Side};

/// Whether two ports are the same.
#[tactic(auto, unfolding(crate::specs::Ports::is_port))]
fn is_port(one: Port, other: Port) -> bool
    ensures { result ≡ is_port one other }
{
    one == other
}

/// Whether two ports are there, and the same.
pub(crate) fn is_same_port(one: Option<Port>, other: Option<Port>) -> bool
    ensures { result ≡ is_same_port one other }
{
    match (one, other) {
        (Some(one), Some(other)) => is_port(one, other),
        _ => false,
    }
}

/// The other port of a joint, if this one stands in it.
fn other_port(joint: Joint, port: Port) -> Option<Port>
    ensures { result ≡ other_port joint port }
{
    if is_port(joint.first, port) {
        return Some(joint.second);
    }
    if is_port(joint.second, port) {
        return Some(joint.first);
    }
    None
}

/// The port that is joined to a port.
pub(crate) fn beyond(joints: &[Joint], port: Port) -> Option<Port>
    ensures { result ≡ beyond joints.now port }
{
    for joint in joints {
        if let Some(other) = other_port(*joint, port) {
            return Some(other);
        }
    }
    None
}

/// The number of the signal that stands at a port.
pub(crate) fn signal_at(signals: &[Signal], port: Port) -> Option<usize>
    ensures { result ≡ signal_from 0 signals.now port }
{
    for (number, signal) in signals.iter().enumerate() {
        if is_port(signal.at, port) {
            return Some(number);
        }
    }
    None
}

/// The port at which a signal stands.
pub(crate) fn port_of(signals: &[Signal], signal: SignalId) -> Option<Port>
    ensures { result ≡ port_of signals.now signal }
{
    signals.get(signal.0).map(|entry| entry.at)
}

/// The section in which an element lies. A border lies in none.
pub(crate) fn section_of(layout: &Layout, element: Element) -> Option<SectionId>
    ensures { result ≡ section_of layout.now element }
{
    match element {
        Element::Track(track) => layout.tracks().get(track.0).map(|entry| entry.section),
        Element::Point(point) => layout.points().get(point.0).map(|entry| entry.section),
        Element::Border(_) => None,
    }
}

/// The port of a track to the front.
fn toward_end(toward: Toward) -> End
    ensures { result ≡ toward_end toward }
{
    match toward {
        Toward::A => End::A,
        Toward::B => End::B,
    }
}

/// The port of a track to the rear.
fn away_end(toward: Toward) -> End
    ensures { result ≡ away_end toward }
{
    match toward {
        Toward::A => End::B,
        Toward::B => End::A,
    }
}

/// The tip of a point.
fn tip(point: PointId) -> Port
    ensures { result ≡ tip point }
{
    Port {
        element: Element::Point(point),
        end: End::Tip,
    }
}

/// The leg of a point at a side.
fn leg(point: PointId, side: Side) -> Port
    ensures { result ≡ leg point side }
{
    let end = match side {
        Side::Left => End::Left,
        Side::Right => End::Right,
    };
    Port {
        element: Element::Point(point),
        end,
    }
}

/// The port to the front of a place.
pub(crate) fn front(place: Place) -> Port
    ensures { result ≡ front place }
{
    match place {
        Place::Track(track, toward) => Port {
            element: Element::Track(track),
            end: toward_end(toward),
        },
        Place::Point(point, side, Over::Tip) => leg(point, side),
        Place::Point(point, _, Over::Leg) => tip(point),
        Place::Outside(border) => Port {
            element: Element::Border(border),
            end: End::End,
        },
    }
}

/// The port to the rear of a place. What is outside of a border has none.
pub(crate) fn rear(place: Place) -> Option<Port>
    ensures { result ≡ rear place }
{
    match place {
        Place::Track(track, toward) => Some(Port {
            element: Element::Track(track),
            end: away_end(toward),
        }),
        Place::Point(point, _, Over::Tip) => Some(tip(point)),
        Place::Point(point, side, Over::Leg) => Some(leg(point, side)),
        Place::Outside(_) => None,
    }
}

/// The other direction on a track.
fn other_way(toward: Toward) -> Toward
    ensures { result ≡ other_way toward }
{
    match toward {
        Toward::A => Toward::B,
        Toward::B => Toward::A,
    }
}

/// The other direction on a point.
fn other_over(over: Over) -> Over
    ensures { result ≡ other_over over }
{
    match over {
        Over::Tip => Over::Leg,
        Over::Leg => Over::Tip,
    }
}

/// The same element the other way round.
pub(crate) fn turned_place(place: Place) -> Place
    ensures { result ≡ turned_place place }
{
    match place {
        Place::Track(track, toward) => Place::Track(track, other_way(toward)),
        Place::Point(point, side, over) => Place::Point(point, side, other_over(over)),
        Place::Outside(border) => Place::Outside(border),
    }
}

/// The place on a point that is entered by a leg.
fn over_leg(point: PointId, entered: End) -> Option<Place>
    ensures { result ≡ over_leg point entered }
{
    match entered {
        End::Left => Some(Place::Point(point, Side::Left, Over::Leg)),
        End::Right => Some(Place::Point(point, Side::Right, Over::Leg)),
        _ => None,
    }
}

/// The place on an element, if it is a track.
fn track_left(on: Element, toward: Toward) -> Option<Place>
    ensures { result ≡ track_left on toward }
{
    match on {
        Element::Track(track) => Some(Place::Track(track, toward)),
        _ => None,
    }
}

/// The place on an element that is left by a leg, if it is a point.
fn leg_left(on: Element, side: Side) -> Option<Place>
    ensures { result ≡ leg_left on side }
{
    match on {
        Element::Point(point) => Some(Place::Point(point, side, Over::Tip)),
        _ => None,
    }
}

/// The place on an element that is left by its tip, if it is a point.
fn tip_left(on: Element, entered: End) -> Option<Place>
    ensures { result ≡ tip_left on entered }
{
    match on {
        Element::Point(point) => over_leg(point, entered),
        _ => None,
    }
}

/// The place on an element that is entered by one end and left by another.
fn place_left(on: Element, entered: End, left: End) -> Option<Place>
    ensures { result ≡ place_left on entered left }
{
    match left {
        End::A => track_left(on, Toward::A),
        End::B => track_left(on, Toward::B),
        End::Left => leg_left(on, Side::Left),
        End::Right => leg_left(on, Side::Right),
        End::Tip => tip_left(on, entered),
        End::End => None,
    }
}

/// The place from the port by which its element is entered, if it is, to that by which it is left.
pub(crate) fn place_between(entered: Option<Port>, left: Port) -> Option<Place>
    ensures { result ≡ place_between entered left }
{
    match entered {
        Some(entered) => place_left(left.element, entered.end, left.end),
        None => None,
    }
}

/// The track that is entered by an end.
fn track_entered(on: Element, entered: End) -> Option<Place>
    ensures { result ≡ track_entered on entered }
{
    match (on, entered) {
        (Element::Track(track), End::A) => Some(Place::Track(track, Toward::B)),
        (Element::Track(track), End::B) => Some(Place::Track(track, Toward::A)),
        _ => None,
    }
}

/// The track behind a port.
pub(crate) fn track_behind(entered: Option<Port>) -> Option<Place>
    ensures { result ≡ track_behind entered }
{
    match entered {
        Some(entered) => track_entered(entered.element, entered.end),
        None => None,
    }
}
