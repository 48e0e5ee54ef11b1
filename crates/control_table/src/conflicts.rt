//! Which routes conflict.

ghost use Rattle.std.specs.Prelude.{◌↔◌, IsTrue};
ghost use Rattle.control_table.specs.inside.TableTests.{MasksConflict};

use crate::masks::RouteMasks;
use layout::RouteId;

/// Whether two routes, which have these masks, conflict.
pub(crate) fn conflicts(a: RouteId, b: RouteId, first: RouteMasks, second: RouteMasks) -> bool
    ensures { IsTrue result ↔ MasksConflict a b first second }
{
    a.0 != b.0
        && (first.entry.0 == second.entry.0
            || first.sections.intersects(second.sections)
            || first.right.intersects(second.left)
            || first.left.intersects(second.right)
            || first.extra.contains(b.0)
            || second.extra.contains(a.0))
}
