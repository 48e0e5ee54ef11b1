//! The routes that follow from a layout.

ghost use Rattle.std.specs.Prelude.{◌≡◌, IfOk, OnOk, Err};
ghost use Rattle.std.specs.List.{All, Contains};
ghost use Rattle.control_table.specs.layout.declared.ids.SignalId.{SignalId};
ghost use Rattle.control_table.specs.layout.Station.{HasSignal};
ghost use Rattle.route_derivation.specs.Approach.{IsApproach};
ghost use Rattle.route_derivation.specs.Derived.{HasDerivedAspect, IsDerived};
ghost use Rattle.route_derivation.specs.Ways.{TooManyWays};
ghost use Rattle.route_derivation.specs.declared.fault.Underived.TheVariants.{TooMany};
ghost use Rattle.route_derivation.specs.inside.RouteParts.{IsAlong, AreAlong};

use crate::approach::approach_of;
use crate::fault::{NameFault, Underived};
use crate::names::{end_names, free_name, name_in_table, names_of};
use crate::route_parts::{flank_of, path_of, points_of};
use crate::rule::ApproachRule;
use crate::search::{Way, route_ways};
use crate::slow::{SlowLegs, aspect_of};
use control_table::layout::{Exit, Layout, PointId, Port, SectionId, SignalId};
use control_table::sci_telegram::{Aspect, Name, Side};
use std::alloc::{AllocError, Global};
use std::marker::Model;

/// A route that follows from a layout. It lists no extra conflicts.
#[derive(Drop)]
pub struct DerivedRoute {
    name: Name,
    entry: SignalId,
    exit: Exit,
    path: Vec<Port>,
    points: Vec<(PointId, Side)>,
    flank: Vec<(PointId, Side)>,
    approach: Vec<SectionId>,
    aspect: Aspect,
}

impl Model for DerivedRoute {
    ghost use Rattle.std.specs.Prelude.{[]};
    ghost use Rattle.control_table.specs.layout.Entries.{RouteEntry};

    ghost Value = { RouteEntry };

    ghost view = { λ r. record {
      name = r.name;
      entry = r.entry;
      exit = r.exit;
      path = r.path.items;
      points = r.points.items;
      flank = r.flank.items;
      approach = r.approach.items;
      extra = [];
      aspect = r.aspect;
    } };
}

impl DerivedRoute {
    /// Its name.
    pub fn name(&self) -> &Name
        ensures { result.now ≡ self.now.name }
    {
        &self.name
    }

    /// The signal at which it begins.
    pub fn entry(&self) -> SignalId
        ensures { result ≡ self.now.entry }
    {
        self.entry
    }

    /// Where it ends.
    pub fn exit(&self) -> Exit
        ensures { result ≡ self.now.exit }
    {
        self.exit
    }

    /// The port by which each of its elements is left, in the order of the path.
    pub fn path(&self) -> &[Port]
        ensures { result.now ≡ self.now.path }
    {
        &self.path
    }

    /// The points on its path, and the side at which each has to lie, in the order of the path.
    pub fn points(&self) -> &[(PointId, Side)]
        ensures { result.now ≡ self.now.points }
    {
        &self.points
    }

    /// The points off its path that protect its flank, and the side at which each has to lie, in the order
    /// in which the path asks for them.
    pub fn flank(&self) -> &[(PointId, Side)]
        ensures { result.now ≡ self.now.flank }
    {
        &self.flank
    }

    /// The sections on which a train approaches its entry signal, in layout order.
    pub fn approach(&self) -> &[SectionId]
        ensures { result.now ≡ self.now.approach }
    {
        &self.approach
    }

    /// The aspect that its entry signal shows for it: slow where it uses a slow leg, and otherwise proceed.
    pub fn aspect(&self) -> Aspect
        ensures { result ≡ self.now.aspect }
    {
        self.aspect
    }
}

/// What a route is made of beside its way.
#[derive(Clone, Copy)]
struct Made<'a> {
    alloc: Global,
    layout: &'a Layout,
    slow: &'a [SlowLegs],
    rule: ApproachRule,
}

/// The name of a route along a way: that which the table has for it, or a free one.
fn name_of(made: Made<'_>, taken: &[Name], way: &Way, path: &[Port]) -> Result<Name, NameFault> {
    if let Some(name) = name_in_table(made.layout.routes(), way.entry, path) {
        return Ok(name);
    }
    match end_names(made.layout, way.entry, way.exit) {
        Some((entry, exit)) => free_name(made.alloc, taken, &entry, &exit),
        None => Err(NameFault::NoName),
    }
}

/// The route along a way.
fn route_along(made: Made<'_>, taken: &[Name], way: &Way) -> Result<DerivedRoute, NameFault>
    ensures { IfOk result (IsAlong made.entry.layout.now made.entry.slow.now made.entry.rule way.now) }
{
    let path = path_of(made.alloc, &way.passages)?;
    let name = name_of(made, taken, way, &path)?;
    let points = points_of(made.alloc, &way.passages)?;
    let flank = flank_of(made.alloc, made.layout, &way.passages)?;
    let approach = approach_of(made.alloc, made.layout, made.rule, way.entry)?;
    let aspect = aspect_of(made.slow, &points);
    Ok(DerivedRoute {
        name,
        entry: way.entry,
        exit: way.exit,
        path,
        points,
        flank,
        approach,
        aspect,
    })
}

/// The routes along ways, whose names aren't taken.
fn routes_along(made: Made<'_>, ways: &[Way]) -> Result<Vec<DerivedRoute>, NameFault>
    ensures { IfOk result (λ v. AreAlong made.entry.layout.now made.entry.slow.now made.entry.rule ways.now v.items) }
{
    let mut taken = names_of(made.alloc, made.layout)?;
    let mut routes = Vec::new(made.alloc);
    for way in ways {
        let route = route_along(made, &taken, way)?;
        taken.push(*route.name())?;
        routes.push(route)?;
    }
    Ok(routes)
}

/// The routes that follow from a layout and begin at some signals: one for each passable way of at most 64
/// elements, in layout order, and left before right where ways part. `TooMany` comes where there are more
/// than 64.
pub fn derive(
    alloc: Global,
    layout: &Layout,
    entries: &[SignalId],
    slow: &[SlowLegs],
    rule: ApproachRule,
) -> Result<Vec<DerivedRoute>, Underived>
    ensures derived { IfOk result (λ v. IsDerived layout.now entries.now v.items) }
    ensures aspects { IfOk result (λ v. All (HasDerivedAspect slow.now) v.items) }
    ensures approaches { IfOk result (λ v. All (λ r. IsApproach layout.now rule r.entry r.approach) v.items) }
    ensures too_many { result ≡ Err TooMany → TooManyWays layout.now entries.now }
    ensures not_too_many { OnOk result (TooManyWays layout.now entries.now → ⊥) }
{
    let ways = route_ways(alloc, layout, entries)?;
    let made = Made {
        alloc,
        layout,
        slow,
        rule,
    };
    Ok(routes_along(made, &ways)?)
}

/// All signals of a layout, in its order.
pub fn all_signals(alloc: Global, layout: &Layout) -> Result<Vec<SignalId>, AllocError>
    ensures { IfOk result (λ v. (s : SignalId) → HasSignal layout.now s → Contains v.items s) }
{
    let mut signals = Vec::new(alloc);
    for place in 0..layout.signals().len() {
        signals.push(SignalId(place))?;
    }
    Ok(signals)
}
