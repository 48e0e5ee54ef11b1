//! Places and their numbers.

ghost use Rattle.std.specs.Prelude.{◌≡◌, ◌<◌, ◌≤◌, length};
ghost use Rattle.control_table.specs.layout.Station.{IsStation};
ghost use Rattle.station_track.specs.Places.{HasPlace, later_numbered, no_place, outside_numbered, passing_number, passing_numbered, place_at, place_number, point_numbered, toward_number, toward_numbered, track_numbered};

use crate::place::{Over, Place, Toward};
use control_table::layout::Layout;
use control_table::{BorderId, PointId, Side, TrackId};

/// A layout has so many tracks, points and borders at most.
pub(crate) fn limits(layout: &Layout)
    ensures station { IsStation layout.now }
    ensures tracks { length layout.now.tracks ≤ 128 }
    ensures points { length layout.now.points ≤ 32 }
    ensures borders { length layout.now.borders ≤ 16 }
    ensures sections { length layout.now.sections ≤ 64 }
{
    layout.joints();
}

/// The number of a direction on a track.
fn toward_number(toward: Toward) -> usize
    ensures number { result ≡ toward_number toward }
    ensures small { result < 2 }
{
    match toward {
        Toward::A => 0,
        Toward::B => 1,
    }
}

/// The number of a way over a point.
fn passing_number(side: Side, over: Over) -> usize
    ensures number { result ≡ passing_number side over }
    ensures small { result < 4 }
{
    match (side, over) {
        (Side::Left, Over::Tip) => 0,
        (Side::Right, Over::Tip) => 1,
        (Side::Left, Over::Leg) => 2,
        (Side::Right, Over::Leg) => 3,
    }
}

/// The number of a place that is there.
pub fn place_number(layout: &Layout, place: Place) -> usize
    requires { HasPlace layout.now place }
    ensures { result ≡ place_number layout.now place }
{
    limits(layout);
    let tracks = 2 * layout.tracks().len();
    match place {
        Place::Track(track, toward) => 2 * track.0 + toward_number(toward),
        Place::Point(point, side, over) => tracks + (4 * point.0 + passing_number(side, over)),
        Place::Outside(border) => tracks + (4 * layout.points().len() + border.0),
    }
}

/// A number that no place has.
pub(crate) fn no_place(layout: &Layout) -> usize
    ensures { result ≡ no_place layout.now }
{
    limits(layout);
    2 * layout.tracks().len() + (4 * layout.points().len() + layout.borders().len())
}

/// The direction on a track that has a number.
fn toward_numbered(number: usize) -> Toward
    ensures { result ≡ toward_numbered number }
{
    if number == 0 { Toward::A } else { Toward::B }
}

/// The way over a point that has a number.
fn passing_numbered(point: PointId, number: usize) -> Place
    ensures { result ≡ passing_numbered point number }
{
    match number {
        0 => Place::Point(point, Side::Left, Over::Tip),
        1 => Place::Point(point, Side::Right, Over::Tip),
        2 => Place::Point(point, Side::Left, Over::Leg),
        _ => Place::Point(point, Side::Right, Over::Leg),
    }
}

/// The place outside of a border that has a number behind those of the points.
fn outside_numbered(layout: &Layout, number: usize) -> Option<Place>
    ensures { result ≡ outside_numbered layout.now number }
{
    if number < layout.borders().len() {
        return Some(Place::Outside(BorderId(number)));
    }
    None
}

/// The place that has a number behind those of the tracks.
fn later_numbered(layout: &Layout, number: usize) -> Option<Place>
    ensures { result ≡ later_numbered layout.now number }
{
    limits(layout);
    let points = 4 * layout.points().len();
    if number < points {
        return Some(passing_numbered(PointId(number / 4), number % 4));
    }
    outside_numbered(layout, number - points)
}

/// The place that has a number, if one has it.
#[tactic(auto, unfolding(crate::specs::Places::place_at))]
pub fn place_at(layout: &Layout, number: usize) -> Option<Place>
    ensures { result ≡ place_at layout.now number }
{
    limits(layout);
    let tracks = 2 * layout.tracks().len();
    if number < tracks {
        return Some(Place::Track(TrackId(number / 2), toward_numbered(number % 2)));
    }
    later_numbered(layout, number - tracks)
}
