//! What a route needs, as rows of bits.

ghost use Rattle.std.specs.Prelude.{◌≡◌, ◌<◌, length, IfOk};
ghost use Rattle.std.specs.List.{All};
ghost use Rattle.control_table.specs.inside.TableTests.{AreWithin, IsWithin, all_masks, masks_of, point_row, route_row, section_row};

use crate::row::Row;
use crate::sides::same_side;
use bit_row::BitRow;
use layout::{PointId, Route, RouteId, SectionId, SignalId};
use sci_telegram::Side;
use std::alloc::{AllocError, Global};

/// What a route needs, each kind of entry as a row of its places in the layout.
#[derive(Clone, Copy, Debug)]
pub struct RouteMasks {
    /// The signal at which it begins.
    pub entry: SignalId,
    /// The sections over which it leads.
    pub sections: BitRow,
    /// The points that it requires right.
    pub right: BitRow,
    /// The points that it requires left.
    pub left: BitRow,
    /// The routes that it lists as extra conflicts.
    pub extra: BitRow,
}

/// The row of these sections.
fn section_row(sections: &[SectionId]) -> BitRow
    requires { All (λ s. s.0 < 64) sections.now }
    ensures { result ≡ section_row sections.now }
{
    let mut row = BitRow::empty();
    for section in sections {
        row = row.with(section.0);
    }
    row
}

/// The row of the points that are required at a side.
fn point_row(required: &[(PointId, Side)], side: Side) -> BitRow
    requires { All (λ n. n.0.0 < 64) required.now }
    ensures { result ≡ point_row side required.now }
{
    let mut row = BitRow::empty();
    for need in required {
        if same_side(need.1, side) {
            row = row.with(need.0.0);
        }
    }
    row
}

/// The row of these routes.
fn route_row(routes: &[RouteId]) -> BitRow
    requires { All (λ b. b.0 < 64) routes.now }
    ensures { result ≡ route_row routes.now }
{
    let mut row = BitRow::empty();
    for route in routes {
        row = row.with(route.0);
    }
    row
}

/// The masks of a route.
fn masks_of(route: &Route, row: &Row) -> RouteMasks
    requires { IsWithin route.now row.now }
    ensures { result ≡ masks_of route.now row.now }
{
    RouteMasks {
        entry: route.entry(),
        sections: section_row(&row.sections),
        right: point_row(&row.required, Side::Right),
        left: point_row(&row.required, Side::Left),
        extra: route_row(route.extra()),
    }
}

/// The masks of all routes.
pub(crate) fn all_masks(
    alloc: Global,
    routes: &[Route],
    rows: &[Row],
) -> Result<Vec<RouteMasks>, AllocError>
    requires each { length rows.now ≡ length routes.now }
    requires within { AreWithin routes.now rows.now }
    ensures { IfOk result (λ v. v.items ≡ all_masks routes.now rows.now) }
{
    let mut masks = Vec::new(alloc);
    for (index, row) in rows.iter().enumerate() {
        masks.push(masks_of(&routes[index], row))?;
    }
    Ok(masks)
}
