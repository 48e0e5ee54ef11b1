//! What is wrong with the points that a route writes, or has to write.

ghost use Rattle.std.specs.Prelude.{◌≡◌};
ghost use Rattle.station_layout.specs.Search.{first_of};
ghost use Rattle.station_layout.specs.SideDetails.{contrary, contrary_at, lacking_at, wrong_detail};
ghost use Rattle.station_layout.specs.inside.WrittenPoints.{wrong_at};

use crate::detail::{PathDetail, PointDetail};
use crate::layout_names::{leg_names, point_name};
use crate::route_sides::{
    guard, guard_behind, is_on_path, other, requires_on, unused_leg, used_behind,
};
use crate::route_start::{is_written, start_of};
use control_table::layout::{Port, Route};
use control_table::{Layout, PointId, Side};

/// Where a route writes points.
#[derive(Clone, Copy)]
enum Under {
    /// Under `points`, those of its path.
    Points,
    /// Under `flank`, others.
    Flank,
}

/// What is wrong with a point that is written there.
#[tactic(auto, unfolding(crate::specs::SideDetails::wrong_point, crate::specs::SideDetails::wrong_flank))]
fn wrong_at(
    layout: &Layout,
    start: Port,
    path: &[Port],
    under: Under,
    written: (PointId, Side),
) -> Option<PointDetail>
    ensures { result ≡ wrong_at layout.now start path.now under written }
{
    let (point, side) = written;
    let name = point_name(layout, point)?;
    let is_required = requires_on(layout, start, path, point, side);
    match under {
        Under::Points if !is_on_path(path, point) => Some(PointDetail::OffPath(name)),
        Under::Flank if is_on_path(path, point) => Some(PointDetail::OnPath(name)),
        _ if is_required => None,
        Under::Points => Some(PointDetail::PointAt(name, side)),
        Under::Flank => Some(PointDetail::FlankAt(name, side)),
    }
}

/// What is wrong with the first point that is wrong there.
fn first_wrong(
    layout: &Layout,
    start: Port,
    path: &[Port],
    under: Under,
    points: &[(PointId, Side)],
) -> Option<PointDetail>
    ensures { result ≡ first_of (wrong_at layout.now start path.now under) points.now }
{
    for written in points {
        if let Some(found) = wrong_at(layout, start, path, under, *written) {
            return Some(found);
        }
    }
    None
}

/// What is wrong with the first point that a route writes wrongly.
#[tactic(auto, unfolding(crate::specs::SideDetails::wrong_detail))]
pub(crate) fn wrong_detail(layout: &Layout, route: &Route) -> Option<PointDetail>
    ensures { result ≡ wrong_detail layout.now route.now }
{
    let start = start_of(layout, route)?;
    let path = route.path();
    first_wrong(layout, start, path, Under::Points, route.points()).or(first_wrong(
        layout,
        start,
        path,
        Under::Flank,
        route.flank(),
    ))
}

/// The point that has to be written under `flank` for the leg behind a port, if it isn't.
#[tactic(auto, unfolding(crate::specs::SideDetails::lacking_at))]
pub(crate) fn lacking_at(
    layout: &Layout,
    route: &Route,
    before: Port,
    left: Port,
) -> Option<PathDetail>
    ensures { result ≡ lacking_at layout.now route.now before left }
{
    let (leg, from) = unused_leg(layout, before, left)?;
    let (point, side) = guard(leg, from)?;
    if is_on_path(route.path(), point) || is_written(route.flank(), point) {
        return None;
    }
    let (leg, from) = leg_names(layout, leg, from)?;
    Some(PathDetail::FlankLacks(leg, from, side))
}

/// A point that is required at a side, if the path requires it at the other side too.
#[tactic(auto, unfolding(crate::specs::SideDetails::contrary))]
fn contrary(
    layout: &Layout,
    start: Port,
    path: &[Port],
    need: Option<(PointId, Side)>,
) -> Option<PointDetail>
    ensures { result ≡ contrary layout.now start path.now need }
{
    let (point, side) = need?;
    if !requires_on(layout, start, path, point, other(side)) {
        return None;
    }
    Some(PointDetail::BothSides(point_name(layout, point)?))
}

/// The point that the path requires at both sides, of those behind a port.
#[tactic(auto, unfolding(crate::specs::SideDetails::contrary_at))]
pub(crate) fn contrary_at(
    layout: &Layout,
    start: Port,
    path: &[Port],
    before: Port,
    left: Port,
) -> Option<PointDetail>
    ensures { result ≡ contrary_at layout.now start path.now before left }
{
    let used = used_behind(layout, before, left);
    let guard = guard_behind(layout, before, left);
    contrary(layout, start, path, used).or(contrary(layout, start, path, guard))
}
