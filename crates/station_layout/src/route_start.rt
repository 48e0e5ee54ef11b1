//! Where a route begins, and which points it writes.

ghost use Rattle.std.specs.Prelude.{◌≡◌};
ghost use Rattle.station_layout.specs.RouteStart.{is_written, start_of};

use crate::layout_names::item_at;
use control_table::layout::{Port, Route};
use control_table::{Layout, PointId, Side};

/// The port at which the entry signal of a route stands.
pub(crate) fn start_of(layout: &Layout, route: &Route) -> Option<Port>
    ensures { result ≡ start_of layout.now route.now }
{
    Some(item_at(layout.signals(), route.entry().0)?.at)
}

/// Whether a point is written.
pub(crate) fn is_written(points: &[(PointId, Side)], point: PointId) -> bool
    ensures { result ≡ is_written points.now point }
{
    for (other, _) in points {
        if other.0 == point.0 {
            return true;
        }
    }
    false
}
