//! The ways that can't be routes, and what hinders each.

ghost use Rattle.std.specs.Prelude.{◌≡◌, IfOk, OnOk, Err, Some};
ghost use Rattle.route_derivation.specs.Impossible.{AreImpossible, ManyWaysFrom};
ghost use Rattle.route_derivation.specs.declared.fault.Underived.TheVariants.{TooMany};
ghost use Rattle.route_derivation.specs.inside.HindranceSearch.{open_leg, first_open, opposite, both_sides, first_against, first_both, hindrance_at, told_of, with_told, all_told};

use crate::fault::Underived;
use crate::route_parts::points_of;
use crate::search::{Way, all_ways_from};
use crate::sides::{Protection, leg_at, other, protection_by_point, protection_of};
use crate::topology::joined_to;
use control_table::layout::{Element, Exit, Layout, PointId, Port, SignalId};
use control_table::sci_telegram::Side;
use std::alloc::{AllocError, Global};

/// What hinders a way.
#[derive(Clone, Copy)]
pub enum Hindrance {
    /// The leg of a point at a side, which the way doesn't use, is joined to this port. That is no leg of
    /// another point, and no signal stands there.
    OpenLeg(PointId, Side, Port),
    /// It requires a point at both sides: left by the first of two points that it passes, and right by the
    /// second, each at the side at which it is passed.
    BothSides(PointId, (PointId, Side), (PointId, Side)),
}

/// A way that can't be a route: the signal at which it begins, where it ends, and what hinders it.
#[derive(Clone, Copy)]
pub struct ImpossibleWay {
    pub entry: SignalId,
    pub exit: Exit,
    pub hindrance: Hindrance,
}

/// The other leg of a point that is passed at a side, where it is open.
#[tactic(auto, unfolding(crate::specs::inside::HindranceSearch::open_leg))]
fn open_leg(layout: &Layout, passed: (PointId, Side)) -> Option<Hindrance>
    ensures { result ≡ open_leg layout.now passed }
{
    let (point, side) = passed;
    if !matches!(protection_of(layout, point, side), Protection::Open) {
        return None;
    }
    let unused = Port {
        element: Element::Point(point),
        end: leg_at(other(side)),
    };
    match joined_to(layout.joints(), unused) {
        Some(from) => Some(Hindrance::OpenLeg(point, other(side), from)),
        None => None,
    }
}

/// The first open leg of some points that are passed.
fn first_open(layout: &Layout, passed: &[(PointId, Side)]) -> Option<Hindrance>
    ensures { result ≡ first_open layout.now passed.now }
{
    for point in passed {
        if let Some(hindrance) = open_leg(layout, *point) {
            return Some(hindrance);
        }
    }
    None
}

/// What two points that are passed ask for, where it is one point left and right.
fn opposite(
    left: Option<(PointId, Side)>,
    right: Option<(PointId, Side)>,
    first: (PointId, Side),
    second: (PointId, Side),
) -> Option<Hindrance>
    ensures { result ≡ opposite left right first second }
{
    match (left, right) {
        (Some((point, Side::Left)), Some((same, Side::Right))) if point.0 == same.0 => {
            Some(Hindrance::BothSides(point, first, second))
        }
        _ => None,
    }
}

/// A point that two points that are passed ask for left and right: themselves, or what guards them.
#[tactic(auto, unfolding(crate::specs::inside::HindranceSearch::both_sides))]
fn both_sides(layout: &Layout, first: (PointId, Side), second: (PointId, Side)) -> Option<Hindrance>
    ensures { result ≡ both_sides layout.now first second }
{
    let guard = protection_by_point(layout, first);
    let other_guard = protection_by_point(layout, second);
    opposite(Some(first), Some(second), first, second)
        .or(opposite(Some(first), other_guard, first, second))
        .or(opposite(guard, Some(second), first, second))
        .or(opposite(guard, other_guard, first, second))
}

/// The first of some points that asks for the other side of what a point asks for.
fn first_against(
    layout: &Layout,
    first: (PointId, Side),
    passed: &[(PointId, Side)],
) -> Option<Hindrance>
    ensures { result ≡ first_against layout.now first passed.now }
{
    for second in passed {
        if let Some(hindrance) = both_sides(layout, first, *second) {
            return Some(hindrance);
        }
    }
    None
}

/// The first of some points of which another one asks for the other side.
fn first_both(layout: &Layout, passed: &[(PointId, Side)]) -> Option<Hindrance>
    ensures { result ≡ first_both layout.now passed.now passed.now }
{
    for first in passed {
        if let Some(hindrance) = first_against(layout, *first, passed) {
            return Some(hindrance);
        }
    }
    None
}

/// What hinders a way that passes these points, if something does.
fn hindrance_at(layout: &Layout, passed: &[(PointId, Side)]) -> Option<Hindrance>
    ensures { result ≡ hindrance_at layout.now passed.now }
{
    match first_open(layout, passed) {
        Some(hindrance) => Some(hindrance),
        None => first_both(layout, passed),
    }
}

/// What is told of a way, if something hinders it.
fn told_of(alloc: Global, layout: &Layout, way: &Way) -> Result<Option<ImpossibleWay>, AllocError>
    ensures { IfOk result (λ told. told ≡ told_of layout.now way.now) }
{
    let passed = points_of(alloc, &way.passages)?;
    match hindrance_at(layout, &passed) {
        Some(hindrance) => Ok(Some(ImpossibleWay {
            entry: way.entry,
            exit: way.exit,
            hindrance,
        })),
        None => Ok(None),
    }
}

/// Adds what is told of a way, if something is.
fn add_told(told: &mut Vec<ImpossibleWay>, one: Option<ImpossibleWay>) -> Result<(), AllocError>
    ensures { OnOk result (told.new.items ≡ with_told told.old.items one) }
{
    if let Some(one) = one {
        told.push(one)?;
    }
    Ok(())
}

/// What is told of some ways.
#[tactic(auto, using(crate::proofs::ImpossibleLaws::told_none, crate::proofs::ImpossibleLaws::told_all))]
fn all_told(alloc: Global, layout: &Layout, ways: &[Way]) -> Result<Vec<ImpossibleWay>, AllocError>
    ensures { IfOk result (λ v. v.items ≡ all_told layout.now ways.now) }
{
    let mut told = Vec::new(alloc);
    for way in ways {
        add_told(&mut told, told_of(alloc, layout, way)?)?;
    }
    Ok(told)
}

/// The ways of at most 64 elements from a signal that can't be routes, each with what hinders it.
/// `TooMany` comes where more than 64 ways begin there, be they passable or not.
pub fn impossible_ways(
    alloc: Global,
    layout: &Layout,
    signal: SignalId,
) -> Result<Vec<ImpossibleWay>, Underived>
    ensures impossible { IfOk result (λ v. AreImpossible layout.now signal v.items) }
    ensures too_many { result ≡ Err TooMany → ManyWaysFrom layout.now signal }
{
    let ways = all_ways_from(alloc, layout, signal)?;
    Ok(all_told(alloc, layout, &ways)?)
}
