//! Which legs of points are passed slowly.

ghost use Rattle.std.specs.Prelude.{◌≡◌};
ghost use Rattle.std.specs.Option.{option_copied};
ghost use Rattle.std.specs.List.{list_any};
ghost use Rattle.route_derivation.specs.inside.RouteParts.{is_slow_leg, is_slow_at, aspect_of};

use control_table::layout::PointId;
use control_table::sci_telegram::{Aspect, Side};

/// The legs of a point that are passed slowly.
#[derive(Clone, Copy)]
pub enum SlowLegs {
    /// Neither.
    Neither,
    /// The left one.
    Left,
    /// The right one.
    Right,
    /// Both.
    Both,
}

/// Whether a point is passed slowly where it lies at a side. A point of which nothing is said isn't.
fn is_slow_leg(legs: Option<SlowLegs>, side: Side) -> bool
    ensures { result ≡ is_slow_leg legs side }
{
    match (legs, side) {
        (Some(SlowLegs::Left), Side::Left) => true,
        (Some(SlowLegs::Right), Side::Right) => true,
        (Some(SlowLegs::Both), _) => true,
        _ => false,
    }
}

/// Whether a point is passed slowly at a side, by the slow legs of all points in layout order.
fn is_slow_at(slow: &[SlowLegs], point: PointId, side: Side) -> bool
    ensures { result ≡ is_slow_at slow.now (point, side) }
{
    is_slow_leg(slow.get(point.0).copied(), side)
}

/// Whether one of some points is passed slowly.
fn uses_slow(slow: &[SlowLegs], points: &[(PointId, Side)]) -> bool
    ensures { result ≡ list_any (λ n. is_slow_at slow.now n) points.now }
{
    points
        .iter()
        .any(|point| is_slow_at(slow, point.0, point.1))
}

/// The aspect of a route that uses points at these sides: slow where one of these legs is.
#[tactic(auto, unfolding(crate::specs::inside::RouteParts::aspect_of))]
pub(crate) fn aspect_of(slow: &[SlowLegs], points: &[(PointId, Side)]) -> Aspect
    ensures { result ≡ aspect_of slow.now points.now }
{
    if uses_slow(slow, points) {
        Aspect::Slow
    } else {
        Aspect::Proceed
    }
}
