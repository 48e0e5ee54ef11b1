//! The cells of a row that list more than one entry.

ghost use Rattle.std.specs.Prelude.{◌≡◌, ◌++◌, IfOk, OnOk, string_bytes};
ghost use Rattle.station_layout.specs.Names.{parted, spaced};
ghost use Rattle.station_layout.specs.Row.{flank_texts, is_written, names_of_points, points_at, section_names};

use crate::layout_names::{point_name, section_name, written};
use control_table::layout::{Element, Route};
use control_table::{Layout, PointId, SectionId, Side};
use std::alloc::{AllocError, Global};

/// Adds a text to a cell, after what stands before it there.
pub(crate) fn add(cell: &mut String, before: &str, text: &str) -> Result<(), AllocError>
    ensures { OnOk result (string_bytes cell.new ≡ string_bytes cell.old ++ (before.now ++ text.now)) }
{
    cell.push_str(before)?;
    cell.push_str(text)
}

/// Whether a point is written at a side.
fn is_written(points: &[(PointId, Side)], side: Side, point: PointId) -> bool
    ensures { result ≡ is_written points.now side point }
{
    for (other, at) in points {
        if other.0 == point.0 && *at == side {
            return true;
        }
    }
    false
}

/// The cell of the points on the path of a route that have to lie at a side, in the order of the path.
pub(crate) fn points_cell(
    alloc: Global,
    layout: &Layout,
    route: &Route,
    side: Side,
) -> Result<String, AllocError>
    ensures { IfOk result (λ cell. string_bytes cell ≡ spaced (names_of_points layout.now (points_at route.now side))) }
{
    let mut cell = String::new(alloc);
    let mut before = "";
    for port in route.path() {
        if let Element::Point(point) = port.element {
            if is_written(route.points(), side, point) {
                add(&mut cell, before, written(&point_name(layout, point)))?;
                before = " ";
            }
        }
    }
    Ok(cell)
}

/// The cell of sections.
pub(crate) fn sections_cell(
    alloc: Global,
    layout: &Layout,
    sections: &[SectionId],
) -> Result<String, AllocError>
    ensures { IfOk result (λ cell. string_bytes cell ≡ spaced (section_names layout.now sections.now)) }
{
    let mut cell = String::new(alloc);
    let mut before = "";
    for section in sections {
        add(&mut cell, before, written(&section_name(layout, *section)))?;
        before = " ";
    }
    Ok(cell)
}

/// The cell of the flank points that a route writes, each with its side.
pub(crate) fn flank_cell(
    alloc: Global,
    layout: &Layout,
    flank: &[(PointId, Side)],
) -> Result<String, AllocError>
    ensures { IfOk result (λ cell. string_bytes cell ≡ parted (flank_texts layout.now flank.now)) }
{
    let mut cell = String::new(alloc);
    let mut before = "";
    for (point, side) in flank {
        add(&mut cell, before, written(&point_name(layout, *point)))?;
        add(&mut cell, ": ", side.word())?;
        before = "; ";
    }
    Ok(cell)
}
