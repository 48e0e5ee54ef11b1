//! The promise of a station, asked in plain words of what is seen of it and of its table.

use simulator::{Aspect, Checked, Held, PointId, Position, Role, RouteId, Side, Snapshot, World};

/// For how long, in microseconds of true time, a signal shows more than stop after the interlocking was last heard.
const FRESHNESS: u64 = 1_802_000;

/// What a signal shows.
pub(crate) fn aspect_of(seen: &Snapshot, signal: usize) -> Aspect {
    match seen.shows.as_slice().get(signal) {
        Some(shown) => shown.0,
        None => Aspect::Stop,
    }
}

/// Whether a point stands in the end position at a side, and isn't driven.
fn stands(seen: &Snapshot, point: PointId, side: Side) -> bool {
    let wanted = match side {
        Side::Left => Position::Left,
        Side::Right => Position::Right,
    };
    let Some(position) = seen.position.as_slice().get(point.0) else {
        return false;
    };
    position.0 == wanted && matches!(seen.driven.as_slice().get(point.0), Some(None))
}

/// Whether all points that a route requires stand so.
fn is_laid(table: &Checked, seen: &Snapshot, route: RouteId) -> bool {
    if route.0 >= table.layout().routes().len() {
        return false;
    }
    for (point, side) in table.required(route) {
        if !stands(seen, *point, *side) {
            return false;
        }
    }
    true
}

/// Whether two routes have a section in common.
fn meet(table: &Checked, one: RouteId, other: RouteId) -> bool {
    let routes = table.layout().routes().len();
    if one.0 >= routes || other.0 >= routes {
        return true;
    }
    for section in table.sections(one) {
        if table.sections(other).contains(section) {
            return true;
        }
    }
    false
}

/// Whether two routes keep apart: they share no section, neither lists the other, and where they share a point they
/// require it at one side.
fn are_apart(table: &Checked, one: RouteId, other: RouteId) -> bool {
    if meet(table, one, other) {
        return false;
    }
    let routes = table.layout().routes();
    let (Some(first), Some(second)) = (routes.get(one.0), routes.get(other.0)) else {
        return false;
    };
    if first.extra().contains(&other) || second.extra().contains(&one) {
        return false;
    }
    agree(first.points(), second.points())
        && agree(first.points(), second.flank())
        && agree(first.flank(), second.points())
        && agree(first.flank(), second.flank())
}

/// Whether no point stands in two lists at different sides.
fn agree(ones: &[(PointId, Side)], others: &[(PointId, Side)]) -> bool {
    for (point, side) in ones {
        if !agrees(*point, *side, others) {
            return false;
        }
    }
    true
}

fn agrees(point: PointId, side: Side, others: &[(PointId, Side)]) -> bool {
    for (other, at) in others {
        if *other == point && *at != side {
            return false;
        }
    }
    true
}

/// The one route that is held for a signal, if it is one.
fn only_route(seen: &Snapshot, signal: usize) -> Option<RouteId> {
    let mut found = None;
    for held in seen.held.as_slice() {
        if held.signal.0 == signal {
            if found.is_some() {
                return None;
            }
            found = Some(held.route);
        }
    }
    found
}

/// Whether a signal that shows this aspect, other than stop, has exactly one route held for it, which is laid, and shows
/// this route's aspect.
fn is_protected(table: &Checked, seen: &Snapshot, signal: usize, aspect: Aspect) -> bool {
    let Some(route) = only_route(seen, signal) else {
        return false;
    };
    let Some(entry) = table.layout().routes().get(route.0) else {
        return false;
    };
    entry.entry().0 == signal && entry.aspect() == aspect && is_laid(table, seen, route)
}

/// Whether a pair is apart from every other one whose signal shows more than stop.
fn is_apart(table: &Checked, seen: &Snapshot, held: &Held) -> bool {
    for other in seen.held.as_slice() {
        let is_open = aspect_of(seen, other.signal.0) != Aspect::Stop;
        if other.signal != held.signal && is_open && !are_apart(table, held.route, other.route) {
            return false;
        }
    }
    true
}

/// Whether the promise is kept.
pub(crate) fn is_kept(table: &Checked, seen: &Snapshot) -> bool {
    for (signal, shown) in seen.shows.as_slice().iter().enumerate() {
        if shown.0 != Aspect::Stop && !is_protected(table, seen, signal, shown.0) {
            return false;
        }
    }
    for held in seen.held.as_slice() {
        let is_open = aspect_of(seen, held.signal.0) != Aspect::Stop;
        if is_open && !is_apart(table, seen, held) {
            return false;
        }
    }
    true
}

/// Whether the interlocking sent something on a link so lately that its signal may still show more than stop.
fn is_lately_heard(world: &World, link: usize) -> bool {
    let network = world.network();
    let count = network.len();
    for back in 0..count {
        let place = count.saturating_sub(back).saturating_sub(1);
        let Some(sent) = network.get(place) else {
            return false;
        };
        if world.time().saturating_sub(sent.at) >= FRESHNESS {
            return false;
        }
        if sent.link == link && matches!(sent.sender, Role::Client) {
            return true;
        }
    }
    false
}

/// Whether each signal that shows more than stop was lately spoken to. The links of signals come first, in their order.
pub(crate) fn are_lately_heard(world: &World, seen: &Snapshot) -> bool {
    for (signal, shown) in seen.shows.as_slice().iter().enumerate() {
        if shown.0 != Aspect::Stop && !is_lately_heard(world, signal) {
            return false;
        }
    }
    true
}

/// Whether two lists of pairs are equal.
fn are_held_alike(ones: &[Held], others: &[Held]) -> bool {
    if ones.len() != others.len() {
        return false;
    }
    for (one, other) in ones.iter().zip(others) {
        if one.signal != other.signal || one.route != other.route {
            return false;
        }
    }
    true
}

/// Whether two snapshots are equal.
pub(crate) fn are_alike(one: &Snapshot, other: &Snapshot) -> bool {
    for (shown, then) in one.shows.as_slice().iter().zip(other.shows.as_slice()) {
        if shown.0 != then.0 {
            return false;
        }
    }
    stand_alike(one, other) && are_held_alike(one.held.as_slice(), other.held.as_slice())
}

/// Whether the points stand and are driven alike.
fn stand_alike(one: &Snapshot, other: &Snapshot) -> bool {
    for (stands, then) in one
        .position
        .as_slice()
        .iter()
        .zip(other.position.as_slice())
    {
        if stands.0 != then.0 {
            return false;
        }
    }
    one.driven.as_slice() == other.driven.as_slice()
}
