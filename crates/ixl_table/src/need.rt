//! The points that a route requires.

ghost use Rattle.std.specs.Prelude.{◌≡◌, ◌<◌, IfOk, length};
ghost use Rattle.ixl_spec.specs.bit_row.Places.{Has};
ghost use Rattle.ixl_spec.specs.control_table.Table.{AreRequired};
ghost use Rattle.ixl_table.specs.inside.Made.{AreNeedsOf, IsPastAwaited, IsPastLast};
ghost use Rattle.ixl_table.specs.Table.{required};

use ixl_spec::{BitRow, Checked, PointId, RouteId, Side};
use std::alloc::{AllocError, Global};
use std::marker::Model;

/// A point that a route requires at a side, and until when the route holds it.
#[derive(Clone, Copy, Debug)]
pub struct Need {
    point: usize,
    side: Side,
    until: usize,
}

impl Model for Need {
    ghost use Rattle.ixl_spec.specs.Table.{Need};

    ghost Value = { Need };

    ghost view = { λ n. record { point = n.point; side = n.side; until = n.until } };

    ghost inverse = { λ n. record { point = n.point; side = n.side; until = n.until } };
}

impl Need {
    /// The point.
    pub fn point(self) -> usize
        ensures { result ≡ self.point }
    {
        self.point
    }

    /// The side at which it has to lie.
    pub fn side(self) -> Side
        ensures { result ≡ self.side }
    {
        self.side
    }

    /// The route holds the point until so many of its sections are freed.
    pub fn until(self) -> usize
        ensures { result ≡ self.until }
    {
        self.until
    }
}

/// How many sections of a path there are up to the last one of a set.
fn past_last(sections: &[usize], set: BitRow) -> usize
    ensures { IsPastLast sections.now (Has set) result }
{
    let mut past = 0;
    for (place, section) in sections.iter().enumerate() {
        if set.contains(*section) {
            past = place + 1;
        }
    }
    past
}

/// How many sections of a route there are up to the last one that a point awaits.
fn until(table: &Checked, route: RouteId, sections: &[usize], point: PointId) -> usize
    requires { route.0 < length table.now.routes }
    ensures { IsPastAwaited table.now route sections.now point result }
{
    past_last(sections, table.awaited(route, point))
}

/// The points that a route requires which has these sections.
fn needs_for(
    alloc: Global,
    table: &Checked,
    route: RouteId,
    sections: &[usize],
    asked: &[(PointId, Side)],
) -> Result<Vec<Need>, AllocError>
    requires { route.0 < length table.now.routes }
    ensures { IfOk result (λ v. AreNeedsOf table.now route sections.now asked.now v.items) }
{
    let mut needs = Vec::new(alloc);
    for (point, side) in asked {
        needs.push(Need {
            point: point.0,
            side: *side,
            until: until(table, route, sections, *point),
        })?;
    }
    Ok(needs)
}

/// The points that a route requires which has these sections.
pub(crate) fn needs_of(
    alloc: Global,
    table: &Checked,
    route: RouteId,
    sections: &[usize],
) -> Result<Vec<Need>, AllocError>
    requires { route.0 < length table.now.routes }
    ensures points { IfOk result (λ v. AreRequired table.now route (required v.items)) }
    ensures until { IfOk result (λ v. AreNeedsOf table.now route sections.now (required v.items) v.items) }
{
    needs_for(alloc, table, route, sections, table.required(route))
}
