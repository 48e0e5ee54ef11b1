//! The routes that follow from a layout and that its table lacks.

ghost use Rattle.std.specs.Prelude.{◌≡◌, ◌↔◌, true, IfOk, OnOk, Err};
ghost use Rattle.std.specs.List.{All};
ghost use Rattle.route_derivation.specs.Approach.{IsApproach};
ghost use Rattle.route_derivation.specs.Derived.{HasDerivedAspect};
ghost use Rattle.route_derivation.specs.Lacking.{AreLacking, HasWay};
ghost use Rattle.route_derivation.specs.Ways.{TooManyWays};
ghost use Rattle.route_derivation.specs.declared.fault.Underived.TheVariants.{TooMany};
ghost use Rattle.route_derivation.specs.inside.WaysKept.{has_way, lacking, same_path, same_way, with_lacking};

use crate::derived::{DerivedRoute, derive};
use crate::fault::Underived;
use crate::rule::ApproachRule;
use crate::slow::SlowLegs;
use crate::topology::is_port;
use control_table::layout::{Layout, Port, Route, SignalId};
use std::alloc::{AllocError, Global};

/// Whether two paths are the same.
#[tactic(auto, unfolding(crate::specs::inside::WaysKept::same_path))]
pub(crate) fn same_path(one: &[Port], other: &[Port]) -> bool
    ensures { result ≡ same_path one.now other.now }
{
    match (one.split_first(), other.split_first()) {
        (Some((first, rest)), Some((second, others))) => {
            is_port(*first, *second) && same_path(rest, others)
        }
        (None, None) => true,
        _ => false,
    }
}

/// Whether two routes lead the same way.
fn same_way(one: &Route, other: &DerivedRoute) -> bool
    ensures { result ≡ same_way one.now other.now }
{
    one.entry().0 == other.entry().0 && same_path(one.path(), other.path())
}

/// Whether the table of a layout has a route that leads the way of another.
fn is_led(layout: &Layout, route: &DerivedRoute) -> bool
    ensures { result ≡ has_way layout.now route.now }
{
    layout.routes().iter().any(|entry| same_way(entry, route))
}

/// Whether the table of a layout has a route that leads the way of another.
#[tactic(auto, using(crate::proofs::LackingLaws::way_told))]
pub fn has_way(layout: &Layout, route: &DerivedRoute) -> bool
    ensures { (result ≡ true) ↔ HasWay layout.now route.now }
{
    is_led(layout, route)
}

/// Keeps a route, unless a route of the table leads its way.
fn keep_lacking(
    layout: &Layout,
    kept: &mut Vec<DerivedRoute>,
    route: DerivedRoute,
) -> Result<(), AllocError>
    ensures { OnOk result (kept.new.items ≡ with_lacking layout.now kept.old.items route) }
{
    if is_led(layout, &route) {
        return Ok(());
    }
    kept.push(route)?;
    Ok(())
}

/// Those of some routes whose way no route of the table of a layout leads.
#[tactic(auto, using(crate::proofs::LackingLaws::kept_none, crate::proofs::LackingLaws::kept_more))]
fn lacking(
    alloc: Global,
    layout: &Layout,
    routes: Vec<DerivedRoute>,
) -> Result<Vec<DerivedRoute>, AllocError>
    ensures { IfOk result (λ v. v.items ≡ lacking layout.now routes.items) }
{
    let mut kept = Vec::new(alloc);
    for route in routes {
        keep_lacking(layout, &mut kept, route)?;
    }
    Ok(kept)
}

/// The routes that follow from a layout, begin at some signals, and lead ways that no route of its table
/// leads, in the order in which `derive` has them. `TooMany` comes where more than 64 routes follow, be
/// they in the table or not.
pub fn lacking_routes(
    alloc: Global,
    layout: &Layout,
    entries: &[SignalId],
    slow: &[SlowLegs],
    rule: ApproachRule,
) -> Result<Vec<DerivedRoute>, Underived>
    ensures lacking { IfOk result (λ v. AreLacking layout.now entries.now v.items) }
    ensures aspects { IfOk result (λ v. All (HasDerivedAspect slow.now) v.items) }
    ensures approaches { IfOk result (λ v. All (λ r. IsApproach layout.now rule r.entry r.approach) v.items) }
    ensures too_many { result ≡ Err TooMany → TooManyWays layout.now entries.now }
    ensures not_too_many { OnOk result (TooManyWays layout.now entries.now → ⊥) }
{
    let routes = derive(alloc, layout, entries, slow, rule)?;
    Ok(lacking(alloc, layout, routes)?)
}
