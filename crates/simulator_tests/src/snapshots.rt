//! Snapshots of a station, also such as no station shows.

use crate::layouts::SMALL;
use crate::station::table;
use simulator::{
    Aspect, Checked, Held, Position, RouteId, Shown, Side, SignalId, Snapshot, Stands,
};
use std::process::Abort;

/// A snapshot in which the first signal shows an aspect, the point is somewhere, and these routes are held for the signal.
fn snapshot(
    aspect: Aspect,
    position: Position,
    driven: Option<Side>,
    routes: &[usize],
) -> Snapshot {
    let mut seen = Snapshot::empty();
    seen.shows.push(Shown(aspect));
    seen.shows.push(Shown(Aspect::Stop));
    seen.shows.push(Shown(Aspect::Stop));
    seen.position.push(Stands(position));
    seen.driven.push(driven);
    for route in routes {
        let (signal, route) = (SignalId(0), RouteId(*route));
        let _ = seen.held.try_push(Held { signal, route });
    }
    seen
}

/// Whether such a snapshot is safe.
fn is_safe(
    table: &Checked,
    aspect: Aspect,
    position: Position,
    driven: Option<Side>,
    routes: &[usize],
) -> bool {
    snapshot(aspect, position, driven, routes).safe(table)
}

/// A snapshot is safe with the aspect, the point and the only route of its signal.
fn are_judged(rt: &impl Abort, table: &Checked) {
    let (proceed, slow) = (Aspect::Proceed, Aspect::Slow);
    let (left, right) = (Position::Left, Position::Right);
    let driven = Some(Side::Right);
    assert!(rt; is_safe(table, proceed, right, None, &[0]));
    assert!(rt; !is_safe(table, slow, right, None, &[0]));
    assert!(rt; !is_safe(table, proceed, left, None, &[0]));
    assert!(rt; !is_safe(table, proceed, right, driven, &[0]));
    assert!(rt; !is_safe(table, proceed, right, None, &[]));
    assert!(rt; !is_safe(table, proceed, right, None, &[0, 1]));
}

#[test]
fn a_snapshot_is_safe_with_the_aspect_the_point_and_the_only_route_of_its_signal(rt: HostRuntime) {
    let table = table(&rt, rt.alloc(), SMALL);
    are_judged(&rt, &table);
}
