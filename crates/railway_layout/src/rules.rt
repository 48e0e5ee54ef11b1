//! The rules of a line's end, over the layout of its station.

ghost use Rattle.std.specs.Prelude.{◌≡◌, option_map};
ghost use Rattle.control_table.specs.Path.{same_section};
ghost use Rattle.control_table.specs.Topology.{section_of};
ghost use Rattle.railway_layout.specs.Faults.{is_missing};
ghost use Rattle.railway_layout.specs.Rules.{has_element, has_no_point, has_route_in, has_section, has_some, has_some_track, has_track, is_alone, is_among, is_astray, is_elsewhere, is_exit, is_in, is_only, is_section, lacks_left, lacks_right, leads_in, leads_onto, leaves_by, lies_on, same_side, tip, tracks_among, writes};

use crate::line::LineEnd;
use crate::way::{is_port, joined_to, leg};
use control_table::layout::{Detector, Element, End, Exit, Point, Port, Route, Track};
use control_table::{BorderId, Layout, PointId, SectionId, Side, TrackId};

/// Whether two sides are the same.
fn same_side(one: Side, other: Side) -> bool
    ensures { result ≡ same_side one other }
{
    one == other
}

/// Whether a route writes a point of its path at a side.
fn writes(point: PointId, side: Side, route: &Route) -> bool
    ensures { result ≡ writes point side route.now }
{
    route
        .points()
        .iter()
        .any(|need| need.0.0 == point.0 && same_side(need.1, side))
}

fn is_exit(border: BorderId, exit: Exit) -> bool
    ensures { result ≡ is_exit border exit }
{
    match exit {
        Exit::Border(other) => other.0 == border.0,
        Exit::Signal(_) => false,
    }
}

/// The tip of a point.
fn tip(point: PointId) -> Port
    ensures { result ≡ tip point }
{
    Port {
        element: Element::Point(point),
        end: End::Tip,
    }
}

/// Whether a route leaves an element by this port.
fn leaves_by(port: Port, route: &Route) -> bool
    ensures { result ≡ leaves_by port route.now }
{
    route.path().iter().any(|left| is_port(*left, port))
}

/// Whether a route comes in over a lock: it leaves it by its tip.
fn leads_in(lock: PointId, route: &Route) -> bool
    ensures { result ≡ leads_in lock route.now }
{
    leaves_by(tip(lock), route)
}

/// Whether a route leads onto the line: it ends at the border, or leaves the lock by its left leg, where the track of
/// the line lies once more.
fn leads_onto(end: &LineEnd, route: &Route) -> bool
    ensures { result ≡ leads_onto end.now route.now }
{
    is_exit(end.border, route.exit()) || leaves_by(leg(end.lock, Side::Left), route)
}

/// Whether a route leads onto the line and doesn't require the lock at the right.
pub(crate) fn lacks_right(end: &LineEnd, route: &Route) -> bool
    ensures { result ≡ lacks_right end.now route.now }
{
    leads_onto(end, route) && !writes(end.lock, Side::Right, route)
}

/// Whether a route comes in and doesn't require the lock at the left.
pub(crate) fn lacks_left(end: &LineEnd, route: &Route) -> bool
    ensures { result ≡ lacks_left end.now route.now }
{
    leads_in(end.lock, route) && !writes(end.lock, Side::Left, route)
}

/// Whether some route comes in over the lock's left leg.
pub(crate) fn has_route_in(lock: PointId, routes: &[Route]) -> bool
    ensures { result ≡ has_route_in lock routes.now }
{
    routes.iter().any(|route| leads_in(lock, route) && writes(lock, Side::Left, route))
}

/// Whether this is a section, if there is one.
fn is_section(section: SectionId, other: Option<SectionId>) -> bool
    ensures { result ≡ is_section section other }
{
    match other {
        Some(other) => other.0 == section.0,
        None => false,
    }
}

/// The section in which an element lies. A border lies in none.
fn section_of(layout: &Layout, element: Element) -> Option<SectionId>
    ensures { result ≡ section_of layout.now element }
{
    match element {
        Element::Track(track) => layout.tracks().get(track.0).map(|entry| entry.section),
        Element::Point(point) => layout.points().get(point.0).map(|entry| entry.section),
        Element::Border(_) => None,
    }
}

/// Whether a track lies in a section.
fn is_in(layout: &Layout, section: SectionId, track: TrackId) -> bool
    ensures { result ≡ is_in layout.now section track }
{
    is_section(section, section_of(layout, Element::Track(track)))
}

/// Whether a track is one of these.
fn is_among(way: &[TrackId], place: usize) -> bool
    ensures { result ≡ is_among way.now place }
{
    way.iter().any(|track| track.0 == place)
}

/// Whether a track lies in a section and isn't one of these.
fn is_astray(way: &[TrackId], section: SectionId, place: usize, track: &Track) -> bool
    ensures { result ≡ is_astray way.now section place track.now }
{
    track.section.0 == section.0 && !is_among(way, place)
}

/// Whether each track of a section is one of these.
fn tracks_among(way: &[TrackId], section: SectionId, tracks: &[Track]) -> bool
    ensures { result ≡ tracks_among way.now section 0 tracks.now }
{
    for (place, track) in tracks.iter().enumerate() {
        if is_astray(way, section, place, track) {
            return false;
        }
    }
    true
}

/// Whether two sections are the same.
fn is_same(one: SectionId, other: SectionId) -> bool
    ensures { result ≡ same_section one other }
{
    one.0 == other.0
}

/// Whether no point lies in a section.
fn has_no_point(section: SectionId, points: &[Point]) -> bool
    ensures { result ≡ has_no_point section points.now }
{
    points.iter().all(|point| !is_same(point.section, section))
}

/// Whether some track of these lies in a section.
fn has_some_track(layout: &Layout, section: SectionId, way: &[TrackId]) -> bool
    ensures { result ≡ has_some_track layout.now section way.now }
{
    way.iter().any(|track| is_in(layout, section, *track))
}

/// Whether a section lies on the way: some track of it does, all its tracks do, and it has no point.
fn lies_on(layout: &Layout, section: SectionId, way: &[TrackId]) -> bool
    ensures { result ≡ lies_on layout.now section way.now }
{
    has_some_track(layout, section, way)
        && tracks_among(way, section, layout.tracks())
        && has_no_point(section, layout.points())
}

/// Whether no way was found.
pub(crate) fn is_lost(way: &Option<Vec<TrackId>>) -> bool
    ensures { result ≡ is_missing (option_map (λ v. v.items) way.now) }
{
    match way {
        Some(_) => false,
        None => true,
    }
}

/// Whether a section lies elsewhere than on the way. Where no way was found, that is told alone.
pub(crate) fn is_elsewhere(layout: &Layout, section: SectionId, way: &Option<Vec<TrackId>>) -> bool
    ensures { result ≡ is_elsewhere layout.now section (option_map (λ v. v.items) way.now) }
{
    match way {
        Some(way) => !lies_on(layout, section, way),
        None => false,
    }
}

/// Whether a section is the only one of these.
fn is_only(section: SectionId, sections: &[SectionId]) -> bool
    ensures { result ≡ is_only section sections.now }
{
    match sections.split_first() {
        Some((other, more)) => more.is_empty() && is_same(*other, section),
        None => false,
    }
}

/// Whether a detector reports a section, and no other.
pub(crate) fn is_alone(section: SectionId, detectors: &[Detector]) -> bool
    ensures { result ≡ is_alone section detectors.now }
{
    detectors
        .iter()
        .any(|detector| is_only(section, detector.sections()))
}

/// Whether a part has a section.
fn has_section(part: &[SectionId], section: SectionId) -> bool
    ensures { result ≡ has_section part.now section }
{
    part.iter().any(|other| other.0 == section.0)
}

/// Whether a part has a section, if there is one.
fn has_some(part: &[SectionId], section: Option<SectionId>) -> bool
    ensures { result ≡ has_some part.now section }
{
    match section {
        Some(section) => has_section(part, section),
        None => false,
    }
}

/// Whether a part has the section of the element at a port, if there is one.
fn has_element(layout: &Layout, part: &[SectionId], port: Option<Port>) -> bool
    ensures { result ≡ has_element layout.now part.now port }
{
    match port {
        Some(port) => has_some(part, section_of(layout, port.element)),
        None => false,
    }
}

/// Whether the part has the section at the lock's left leg.
pub(crate) fn has_track(layout: &Layout, end: &LineEnd) -> bool
    ensures { result ≡ has_track layout.now end.now }
{
    let behind = joined_to(layout.joints(), leg(end.lock, Side::Left));
    has_element(layout, &end.part, behind)
}
