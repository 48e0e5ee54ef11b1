//! At which sides a passage requires points: its own, and the one that protects its flank.

ghost use Rattle.std.specs.Prelude.{◌≡◌, Some};
ghost use Rattle.control_table.specs.Sides.{leg_at, other};
ghost use Rattle.route_derivation.specs.inside.WaySearch.{side_of, leg_used, used, leg_of_another, protection_from, protection_of, flank_need, flank_at, is_open_at, same_side, has_need, opposed};

use crate::passage::Passage;
use crate::topology::{is_end, joined_to, signal_at};
use control_table::layout::{Element, End, Layout, PointId, Port};
use control_table::sci_telegram::Side;

/// The side at which a point leads to its leg.
fn side_of(end: End) -> Option<Side>
    ensures { result ≡ side_of end }
{
    match end {
        End::Left => Some(Side::Left),
        End::Right => Some(Side::Right),
        _ => None,
    }
}

/// The leg to which a point leads at a side.
pub(crate) fn leg_at(side: Side) -> End
    ensures { result ≡ leg_at side }
{
    match side {
        Side::Left => End::Left,
        Side::Right => End::Right,
    }
}

/// The other side.
pub(crate) fn other(side: Side) -> Side
    ensures { result ≡ other side }
{
    match side {
        Side::Left => Side::Right,
        Side::Right => Side::Left,
    }
}

/// The side of the leg that a passage uses, if it leads over a point: the leg by which it leaves, else
/// the one by which it enters.
fn leg_used(passage: &Passage) -> Option<Side>
    ensures { result ≡ leg_used passage.now }
{
    if is_end(passage.left.end, End::Tip) {
        side_of(passage.entered.end)
    } else {
        side_of(passage.left.end)
    }
}

/// The point over which a passage leads, if it is one, and the side at which it has to lie.
#[tactic(auto, unfolding(crate::specs::inside::WaySearch::used))]
pub(crate) fn used(passage: &Passage) -> Option<(PointId, Side)>
    ensures { result ≡ used passage.now }
{
    match passage.left.element {
        Element::Point(point) => leg_used(passage).map(|side| (point, side)),
        _ => None,
    }
}

/// What protects the flank of a way at the leg of a point that the way doesn't use.
#[derive(Clone, Copy)]
pub(crate) enum Protection {
    /// Nothing is joined to the leg, or a signal stands toward the way.
    Given,
    /// Another point, which has to lie at this side.
    By(PointId, Side),
    /// Nothing.
    Open,
}

/// The other point and the side of its leg, if a port is the leg of another point than this one.
#[tactic(auto, unfolding(crate::specs::inside::WaySearch::leg_of_another))]
fn leg_of_another(point: PointId, port: Port) -> Option<(PointId, Side)>
    ensures { result ≡ leg_of_another point port }
{
    match port.element {
        Element::Point(another) if another.0 != point.0 => {
            side_of(port.end).map(|side| (another, side))
        }
        _ => None,
    }
}

/// What protects the way against what comes to a point's leg from a port.
#[tactic(auto, unfolding(crate::specs::inside::WaySearch::protection_from))]
fn protection_from(layout: &Layout, point: PointId, from: Port) -> Protection
    ensures { result ≡ protection_from layout.now point from }
{
    match leg_of_another(point, from) {
        Some((another, side)) => Protection::By(another, other(side)),
        None if signal_at(layout.signals(), from).is_some() => Protection::Given,
        None => Protection::Open,
    }
}

/// What protects the way at the unused leg of a point that it passes at a side.
#[tactic(auto, unfolding(crate::specs::inside::WaySearch::protection_of))]
pub(crate) fn protection_of(layout: &Layout, point: PointId, side: Side) -> Protection
    ensures { result ≡ protection_of layout.now point side }
{
    let unused = Port {
        element: Element::Point(point),
        end: leg_at(other(side)),
    };
    match joined_to(layout.joints(), unused) {
        Some(from) => protection_from(layout, point, from),
        None => Protection::Given,
    }
}

/// The point that a protection requires, and its side.
fn flank_need(protection: Protection) -> Option<(PointId, Side)>
    ensures { result ≡ flank_need protection }
{
    match protection {
        Protection::By(flank, side) => Some((flank, side)),
        _ => None,
    }
}

/// The point that guards the other leg of a point that is passed at a side, and its side.
pub(crate) fn protection_by_point(
    layout: &Layout,
    passed: (PointId, Side),
) -> Option<(PointId, Side)>
    ensures { result ≡ flank_at layout.now (Some passed) }
{
    flank_need(protection_of(layout, passed.0, passed.1))
}

/// The point that guards the unused leg of a passage, and its side.
pub(crate) fn flank_at(layout: &Layout, passage: &Passage) -> Option<(PointId, Side)>
    ensures { result ≡ flank_at layout.now (used passage.now) }
{
    match used(passage) {
        Some(passed) => protection_by_point(layout, passed),
        None => None,
    }
}

/// Whether the unused leg of a passage is open.
pub(crate) fn is_open(layout: &Layout, passage: &Passage) -> bool
    ensures { result ≡ is_open_at layout.now (used passage.now) }
{
    match used(passage) {
        Some((point, side)) => matches!(protection_of(layout, point, side), Protection::Open),
        None => false,
    }
}

/// Whether two sides are the same.
fn same_side(one: Side, other: Side) -> bool
    ensures { result ≡ same_side one other }
{
    one == other
}

/// Whether a point stands in a list at a side.
fn has_need(needs: &[(PointId, Side)], point: PointId, side: Side) -> bool
    ensures { result ≡ has_need needs.now (point, side) }
{
    needs
        .iter()
        .any(|need| need.0.0 == point.0 && same_side(need.1, side))
}

/// Whether the point of a need stands in a list at the other side.
pub(crate) fn is_opposed(needs: &[(PointId, Side)], need: Option<(PointId, Side)>) -> bool
    ensures { result ≡ opposed needs.now need }
{
    match need {
        Some((point, side)) => has_need(needs, point, other(side)),
        None => false,
    }
}
