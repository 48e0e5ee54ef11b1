//! At which sides a path requires points: those on it, and those that guard its unused legs.

ghost use Rattle.std.specs.Prelude.{◌≡◌};
ghost use Rattle.control_table.specs.Sides.{leg, other};
ghost use Rattle.station_layout.specs.RouteSides.{guard, guard_behind, is_need, is_on_path, requires_at, requires_on, side_of, unused_leg, used_behind};

use crate::joints::joined_to;
use control_table::layout::{Element, End, Port};
use control_table::{Layout, PointId, Side};

/// The side at which a point leads to its leg.
fn side_of(end: End) -> Option<Side>
    ensures { result ≡ side_of end }
{
    match end {
        End::Left => Some(Side::Left),
        End::Right => Some(Side::Right),
        _ => None,
    }
}

/// The other side.
pub(crate) fn other(side: Side) -> Side
    ensures { result ≡ other side }
{
    match side {
        Side::Left => Side::Right,
        Side::Right => Side::Left,
    }
}

/// The leg of a point at a side.
fn leg(point: PointId, side: Side) -> Port
    ensures { result ≡ leg point side }
{
    let element = Element::Point(point);
    match side {
        Side::Left => Port {
            element,
            end: End::Left,
        },
        Side::Right => Port {
            element,
            end: End::Right,
        },
    }
}

/// The point behind a port, with the side of the leg that a path uses which leaves it by another port.
#[tactic(auto, unfolding(crate::specs::RouteSides::side_used, crate::specs::RouteSides::used_behind))]
pub(crate) fn used_behind(layout: &Layout, before: Port, left: Port) -> Option<(PointId, Side)>
    ensures { result ≡ used_behind layout.now before left }
{
    let entered = joined_to(layout.joints(), before)?;
    let side = match left.end {
        End::Tip => side_of(entered.end),
        leg => side_of(leg),
    };
    match (left.element, side) {
        (Element::Point(point), Some(side)) => Some((point, side)),
        _ => None,
    }
}

/// The leg of the point behind a port that a path doesn't use which leaves it by another port, and what is joined to it.
#[tactic(auto, unfolding(crate::specs::RouteSides::unused_leg))]
pub(crate) fn unused_leg(layout: &Layout, before: Port, left: Port) -> Option<(Port, Port)>
    ensures { result ≡ unused_leg layout.now before left }
{
    let (point, side) = used_behind(layout, before, left)?;
    let unused = leg(point, other(side));
    let from = joined_to(layout.joints(), unused)?;
    Some((unused, from))
}

/// What guards a leg to which a port is joined: another point whose leg this is, while it lies at its other side.
#[tactic(auto, unfolding(crate::specs::RouteSides::guard))]
pub(crate) fn guard(leg: Port, from: Port) -> Option<(PointId, Side)>
    ensures { result ≡ guard leg from }
{
    if from.element == leg.element {
        return None;
    }
    match from.element {
        Element::Point(point) => Some((point, other(side_of(from.end)?))),
        _ => None,
    }
}

/// What guards the unused leg of the point behind a port.
#[tactic(auto, unfolding(crate::specs::RouteSides::guard_behind))]
pub(crate) fn guard_behind(layout: &Layout, before: Port, left: Port) -> Option<(PointId, Side)>
    ensures { result ≡ guard_behind layout.now before left }
{
    let (leg, from) = unused_leg(layout, before, left)?;
    guard(leg, from)
}

/// Whether this is a point at a side.
fn is_need(need: Option<(PointId, Side)>, point: PointId, side: Side) -> bool
    ensures { result ≡ is_need point side need }
{
    match need {
        Some((wanted, at)) => wanted.0 == point.0 && at == side,
        None => false,
    }
}

/// Whether a path requires a point at a side, between a port and that by which the next element is left.
#[tactic(auto, unfolding(crate::specs::RouteSides::requires_at))]
fn requires_at(layout: &Layout, before: Port, left: Port, point: PointId, side: Side) -> bool
    ensures { result ≡ requires_at layout.now point side before left }
{
    is_need(used_behind(layout, before, left), point, side)
        || is_need(guard_behind(layout, before, left), point, side)
}

/// Whether a path requires a point at a side, from a port on.
#[tactic(auto, unfolding(crate::specs::RouteSides::requires_on))]
pub(crate) fn requires_on(
    layout: &Layout,
    start: Port,
    path: &[Port],
    point: PointId,
    side: Side,
) -> bool
    ensures { result ≡ requires_on layout.now point side start path.now }
{
    let mut before = start;
    for left in path {
        if requires_at(layout, before, *left, point, side) {
            return true;
        }
        before = *left;
    }
    false
}

/// Whether a point lies on a path.
#[tactic(auto, unfolding(crate::specs::RouteSides::is_on_path))]
pub(crate) fn is_on_path(path: &[Port], point: PointId) -> bool
    ensures { result ≡ is_on_path path.now point }
{
    for left in path {
        if left.element == Element::Point(point) {
            return true;
        }
    }
    false
}
