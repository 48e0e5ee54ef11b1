//! At which sides a route requires points: those on its path, and those that protect its flank.

ghost use Rattle.std.specs.Prelude.{◌≡◌, IfOk};
ghost use Rattle.control_table.specs.Sides.{leg_at, other};
ghost use Rattle.control_table.specs.inside.TableTests.{side_of, leg_used, used, leg_of_another, guarded_by, protection_from, protection_of, needs, protections, is_open_at, flanks_guarded, same_side, has_need, consistent};

use crate::passage::Passage;
use crate::topology::{has_signal, is_end, joined_to};
use layout::{Element, End, Layout, PointId, Port};
use sci_telegram::Side;
use std::alloc::{AllocError, Global};

/// The side at which a point leads to its leg.
fn side_of(end: End) -> Option<Side>
    ensures { result ≡ side_of end }
{
    match end {
        End::Left => Some(Side::Left),
        End::Right => Some(Side::Right),
        _ => None,
    }
}

/// The leg to which a point leads at a side.
fn leg_at(side: Side) -> End
    ensures { result ≡ leg_at side }
{
    match side {
        Side::Left => End::Left,
        Side::Right => End::Right,
    }
}

/// The other side.
pub(crate) fn other(side: Side) -> Side
    ensures { result ≡ other side }
{
    match side {
        Side::Left => Side::Right,
        Side::Right => Side::Left,
    }
}

/// The side of the leg that a passage uses, if it leads over a point: the leg by which it leaves, else
/// the one by which it enters.
fn leg_used(passage: &Passage) -> Option<Side>
    ensures { result ≡ leg_used passage.now }
{
    if is_end(passage.left.end, End::Tip) {
        side_of(passage.entered.end)
    } else {
        side_of(passage.left.end)
    }
}

/// The point over which a passage leads, if it is one, and the side at which it has to lie.
#[tactic(auto, unfolding(crate::specs::inside::TableTests::used))]
pub(crate) fn used(passage: &Passage) -> Option<(PointId, Side)>
    ensures { result ≡ used passage.now }
{
    match passage.left.element {
        Element::Point(point) => leg_used(passage).map(|side| (point, side)),
        _ => None,
    }
}

/// A point on the path of a route, and the point that guards its unused leg.
#[derive(Clone, Copy, Debug, PartialEq, Eq)]
pub struct FlankProtection {
    /// The point that protects. It may itself lie on the path.
    pub flank: PointId,
    /// The point on the path.
    pub point: PointId,
}

/// What protects the flank of a path at the leg of a point that the path doesn't use.
#[derive(Clone, Copy, Debug)]
pub(crate) enum Protection {
    /// Nothing is joined to the leg, or a signal stands toward the path.
    Given,
    /// Another point, which has to lie at this side.
    By(PointId, Side),
    /// Nothing.
    Open,
}

/// The other point and the side of its leg, if a port is the leg of another point than this one.
#[tactic(auto, unfolding(crate::specs::inside::TableTests::leg_of_another))]
fn leg_of_another(point: PointId, port: Port) -> Option<(PointId, Side)>
    ensures { result ≡ leg_of_another point port }
{
    match port.element {
        Element::Point(another) if another.0 != point.0 => {
            side_of(port.end).map(|side| (another, side))
        }
        _ => None,
    }
}

/// What protects the path against what comes to a point's leg from a port.
#[tactic(auto, unfolding(crate::specs::inside::TableTests::protection_from))]
fn protection_from(layout: &Layout, point: PointId, from: Port) -> Protection
    ensures { result ≡ protection_from layout.now point from }
{
    match leg_of_another(point, from) {
        Some((another, side)) => Protection::By(another, other(side)),
        None if has_signal(layout.signals(), from) => Protection::Given,
        None => Protection::Open,
    }
}

/// What protects the path at the unused leg of a point that it passes at a side.
#[tactic(auto, unfolding(crate::specs::inside::TableTests::protection_of))]
fn protection_of(layout: &Layout, point: PointId, side: Side) -> Protection
    ensures { result ≡ protection_of layout.now point side }
{
    let unused = Port {
        element: Element::Point(point),
        end: leg_at(other(side)),
    };
    match joined_to(layout.joints(), unused) {
        Some(from) => protection_from(layout, point, from),
        None => Protection::Given,
    }
}

/// All points that a path requires, each with its side: for each point on it the point itself, and
/// the one that protects its unused leg.
#[tactic(auto, unfolding(crate::specs::inside::TableTests::needs))]
pub(crate) fn needs(
    alloc: Global,
    layout: &Layout,
    path: &[Passage],
) -> Result<Vec<(PointId, Side)>, AllocError>
    ensures { IfOk result (λ v. v.items ≡ needs layout.now path.now) }
{
    let mut needs = Vec::new(alloc);
    for passage in path {
        if let Some((point, side)) = used(passage) {
            needs.push((point, side))?;
            if let Protection::By(flank, side) = protection_of(layout, point, side) {
                needs.push((flank, side))?;
            }
        }
    }
    Ok(needs)
}

/// Which point guards the unused leg of which point on the path, in the order of the path.
#[tactic(auto, unfolding(crate::specs::inside::TableTests::protections))]
pub(crate) fn protections(
    alloc: Global,
    layout: &Layout,
    path: &[Passage],
) -> Result<Vec<FlankProtection>, AllocError>
    ensures { IfOk result (λ v. v.items ≡ protections layout.now path.now) }
{
    let mut protections = Vec::new(alloc);
    for passage in path {
        if let Some((point, side)) = used(passage) {
            if let Protection::By(flank, _) = protection_of(layout, point, side) {
                protections.push(FlankProtection { flank, point })?;
            }
        }
    }
    Ok(protections)
}

/// Whether an unused leg of the passage is open.
fn is_open(layout: &Layout, passage: &Passage) -> bool
    ensures { result ≡ is_open_at layout.now (used passage.now) }
{
    match used(passage) {
        Some((point, side)) => matches!(protection_of(layout, point, side), Protection::Open),
        None => false,
    }
}

/// Whether the rule for each unused leg of a path is met.
#[tactic(auto, unfolding(crate::specs::inside::TableTests::flanks_guarded))]
pub(crate) fn flanks_guarded(layout: &Layout, path: &[Passage]) -> bool
    ensures { result ≡ flanks_guarded layout.now path.now }
{
    path.iter().all(|passage| !is_open(layout, passage))
}

/// Whether two sides are the same.
pub(crate) fn same_side(one: Side, other: Side) -> bool
    ensures { result ≡ same_side one other }
{
    one == other
}

/// Whether a point stands in a list at a side.
pub(crate) fn has_need(needs: &[(PointId, Side)], point: PointId, side: Side) -> bool
    ensures { result ≡ has_need needs.now (point, side) }
{
    needs
        .iter()
        .any(|need| need.0.0 == point.0 && same_side(need.1, side))
}

/// Whether no point is required at both sides.
#[tactic(auto, unfolding(crate::specs::inside::TableTests::consistent))]
pub(crate) fn consistent(needs: &[(PointId, Side)]) -> bool
    ensures { result ≡ consistent needs.now }
{
    needs
        .iter()
        .all(|need| !has_need(needs, need.0, other(need.1)))
}
