//! Whether the routes of a layout are those of another, and behind them some more.

use route_derivation::DerivedRoute;
use route_derivation::control_table::layout::{
    Exit, PointId, Port, Route, RouteId, SectionId, SignalId,
};
use route_derivation::control_table::{Aspect, Name, Side};

/// What a route says, be it one of a table or one that follows.
#[derive(Clone, Copy)]
struct Said<'a> {
    name: Name,
    entry: SignalId,
    exit: Exit,
    path: &'a [Port],
    points: &'a [(PointId, Side)],
    flank: &'a [(PointId, Side)],
    approach: &'a [SectionId],
    extra: &'a [RouteId],
    aspect: Aspect,
}

/// What a route of a table says.
fn told_by(route: &Route) -> Said<'_> {
    Said {
        name: *route.name(),
        entry: route.entry(),
        exit: route.exit(),
        path: route.path(),
        points: route.points(),
        flank: route.flank(),
        approach: route.approach(),
        extra: route.extra(),
        aspect: route.aspect(),
    }
}

/// What a route says that follows.
fn following(route: &DerivedRoute) -> Said<'_> {
    Said {
        name: *route.name(),
        entry: route.entry(),
        exit: route.exit(),
        path: route.path(),
        points: route.points(),
        flank: route.flank(),
        approach: route.approach(),
        extra: &[],
        aspect: route.aspect(),
    }
}

/// Whether two routes have the same name, ends and aspect.
fn same_ends(one: &Said<'_>, other: &Said<'_>) -> bool {
    one.name == other.name
        && one.entry.0 == other.entry.0
        && one.exit == other.exit
        && one.aspect == other.aspect
}

/// Whether two lists have the same points at the same sides, in whatever order: that in which a text writes them isn't
/// kept when it is read. No point stands in a list twice.
fn same_sides(one: &[(PointId, Side)], other: &[(PointId, Side)]) -> bool {
    one.len() == other.len() && other.iter().all(|needed| one.contains(needed))
}

/// Whether two routes say the same.
fn is_same(one: &Said<'_>, other: &Said<'_>) -> bool {
    same_ends(one, other)
        && one.path == other.path
        && same_sides(one.points, other.points)
        && same_sides(one.flank, other.flank)
        && one.approach == other.approach
        && one.extra == other.extra
}

/// Whether routes are those of another table.
fn are_old(routes: &[Route], old: &[Route]) -> bool {
    if routes.len() != old.len() {
        return false;
    }
    for (place, route) in old.iter().enumerate() {
        if !is_same(&told_by(&routes[place]), &told_by(route)) {
            return false;
        }
    }
    true
}

/// Whether routes are those that follow.
fn are_derived(routes: &[Route], new: &[DerivedRoute]) -> bool {
    if routes.len() != new.len() {
        return false;
    }
    for (place, route) in new.iter().enumerate() {
        if !is_same(&told_by(&routes[place]), &following(route)) {
            return false;
        }
    }
    true
}

/// Whether routes are those of another table, and behind them those that follow.
pub(crate) fn are_completed(routes: &[Route], old: &[Route], new: &[DerivedRoute]) -> bool {
    if routes.len() < old.len() {
        return false;
    }
    let (first, last) = routes.split_at(old.len());
    are_old(first, old) && are_derived(last, new)
}
