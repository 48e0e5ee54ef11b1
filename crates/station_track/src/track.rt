//! The track of a layout: what the machine of trains asks of a place, a point or a signal.

ghost use Rattle.std.specs.Prelude.{◌≡◌};
ghost use Rattle.station_track.specs.declared.place.Place.TheVariants as place;
ghost use Rattle.station_track.specs.Ports.{front, signal_from};
ghost use Rattle.station_track.specs.Tracks.{beyond_front, front_of, machine_side, no_section, place_section, rear_of, section_number, track_of};
ghost use Rattle.station_track.specs.Meaning.{IfThere};

use crate::numbers::{limits, place_at, place_number};
use crate::place::{Over, Place};
use crate::ports::{beyond, front, is_same_port, rear, section_of, signal_at, turned_place};
use control_table::layout::{Element, Layout, Port};
use control_table::{BorderId, PointId, SectionId, Side};

/// A number that no section has.
fn no_section(layout: &Layout) -> usize
    ensures { result ≡ no_section layout.now }
{
    limits(layout);
    layout.sections().len() + layout.borders().len()
}

/// The number of a section.
fn section_number(layout: &Layout, section: Option<SectionId>) -> usize
    ensures { result ≡ section_number layout.now section }
{
    match section {
        Some(section) => section.0,
        None => no_section(layout),
    }
}

/// The number of the section of a place.
fn place_section(layout: &Layout, place: Option<Place>) -> usize
    requires { IfThere layout.now place }
    ensures { result ≡ place_section layout.now place }
{
    limits(layout);
    match place {
        Some(Place::Track(track, _)) => section_number(
            layout,
            section_of(layout, Element::Track(track)),
        ),
        Some(Place::Point(point, _, _)) => section_number(
            layout,
            section_of(layout, Element::Point(point)),
        ),
        Some(Place::Outside(border)) => layout.sections().len() + border.0,
        None => no_section(layout),
    }
}

/// The section in which a place lies. Sections have the numbers of the layout; what is outside of a border, and a number that no place
/// has, have numbers behind these.
pub fn section(layout: &Layout, place: usize) -> usize
    ensures { result ≡ (track_of layout.now).section place }
{
    place_section(layout, place_at(layout, place))
}

/// The point that a place is on.
pub fn point(layout: &Layout, place: usize) -> Option<usize>
    ensures { result ≡ (track_of layout.now).point place }
{
    match place_at(layout, place) {
        Some(Place::Point(point, _, _)) => Some(point.0),
        _ => None,
    }
}

/// The leg by which a train lies on a point, at a place.
pub fn leg(layout: &Layout, place: usize) -> Side
    ensures { machine_side result ≡ (track_of layout.now).leg place }
{
    match place_at(layout, place) {
        Some(Place::Point(_, side, _)) => side,
        _ => Side::Left,
    }
}

/// Whether a train came over the tip of a point, at a place.
pub fn is_facing(layout: &Layout, place: usize) -> bool
    ensures { result ≡ (track_of layout.now).is_facing place }
{
    matches!(place_at(layout, place), Some(Place::Point(_, _, Over::Tip)))
}

/// The section in which a point lies.
pub fn own(layout: &Layout, point: usize) -> usize
    ensures { result ≡ (track_of layout.now).own point }
{
    section_number(layout, section_of(layout, Element::Point(PointId(point))))
}

/// The port to the front of a place.
fn front_of(place: Option<Place>) -> Option<Port>
    ensures { result ≡ front_of place }
{
    place.map(|place| front(place))
}

/// The port to the rear of a place.
fn rear_of(place: Option<Place>) -> Option<Port>
    ensures { result ≡ rear_of place }
{
    match place {
        Some(place) => rear(place),
        None => None,
    }
}

/// The port that is joined to a front.
fn beyond_front(layout: &Layout, front: Option<Port>) -> Option<Port>
    ensures { result ≡ beyond_front layout.now front }
{
    match front {
        Some(front) => beyond(layout.joints(), front),
        None => None,
    }
}

/// Whether the front of a place is joined to the rear of another.
pub fn follows(layout: &Layout, place: usize, next: usize) -> bool
    ensures { result ≡ (track_of layout.now).follows place next }
{
    let ahead = beyond_front(layout, front_of(place_at(layout, place)));
    is_same_port(ahead, rear_of(place_at(layout, next)))
}

/// The number of a place the other way round.
pub fn turned(layout: &Layout, place: usize) -> usize
    ensures { result ≡ (track_of layout.now).turned place }
{
    match place_at(layout, place) {
        Some(place) => place_number(layout, turned_place(place)),
        None => place,
    }
}

/// The signal that stands at the front of a place.
pub fn signal(layout: &Layout, place: usize) -> Option<usize>
    ensures { result ≡ (track_of layout.now).signal place }
{
    match front_of(place_at(layout, place)) {
        Some(front) => signal_at(layout.signals(), front),
        None => None,
    }
}

/// The signal that stands at a border's own port.
pub fn border_signal(layout: &Layout, border: BorderId) -> Option<usize>
    ensures { result ≡ signal_from 0 layout.now.signals (front (place.Outside border)) }
{
    signal_at(layout.signals(), front(Place::Outside(border)))
}
