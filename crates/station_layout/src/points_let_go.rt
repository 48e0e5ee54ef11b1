//! At which section a route lets the points go that it requires.

ghost use Rattle.std.specs.Prelude.{◌≡◌, ◌<◌, ◌↔◌, length, IfOk, IsTrue, Some, slice_get, string_bytes};
ghost use Rattle.std.specs.FinSet.{contains};
ghost use Rattle.std.specs.List.{list_any};
ghost use Rattle.station_layout.specs.Row.{IsLetGoAt, IsLetGoCell, point_at};
ghost use Rattle.station_layout.specs.inside.LetGoTexts.{AddsLetGo, TellsPoints};

use crate::cells::add;
use crate::layout_names::{point_name, section_name, written};
use control_table::{BitRow, Checked, PointId, RouteId, SectionId};
use std::alloc::{AllocError, Global};

/// A route, with the sections of its path.
#[derive(Clone, Copy)]
struct RoutePath<'a> {
    route: RouteId,
    sections: &'a [SectionId],
}

/// Whether a row has one of some sections.
fn has_one(awaited: BitRow, sections: &[SectionId]) -> bool
    ensures { result ≡ list_any (λ section. contains awaited section.0) sections.now }
{
    for section in sections {
        if awaited.contains(section.0) {
            return true;
        }
    }
    false
}

/// The section at a place.
fn section_at(sections: &[SectionId], place: usize) -> SectionId
    requires { place < length sections.now }
    ensures { slice_get sections.now place ≡ Some result }
{
    sections[place]
}

/// Whether a point is let go at a place of the sections of a route.
fn is_let_go(table: &Checked, path: RoutePath<'_>, place: usize, point: usize) -> bool
    requires route { path.route.0 < length table.now.routes }
    requires place { place < length path.sections.now }
    ensures { IsTrue result ↔ IsLetGoAt table.now path.entry.route path.entry.sections.now place (point_at point) }
{
    let masks = table.masks(path.route);
    let is_required = masks.right.contains(point) | masks.left.contains(point);
    let awaited = table.awaited(path.route, PointId(point));
    let awaits_there = awaited.contains(section_at(path.sections, place).0);
    let (_, behind) = path.sections.split_at(place + 1);
    let awaits_behind = has_one(awaited, behind);
    is_required & (awaits_there & !awaits_behind)
}

/// The points that are let go at a place, with a colon before the first.
fn points_told(
    alloc: Global,
    table: &Checked,
    path: RoutePath<'_>,
    place: usize,
) -> Result<String, AllocError>
    requires route { path.route.0 < length table.now.routes }
    requires place { place < length path.sections.now }
    ensures { IfOk result (λ text. TellsPoints table.now path.entry.route path.entry.sections.now place (string_bytes text)) }
{
    let mut text = String::new(alloc);
    let mut before = ": ";
    for point in 0..table.layout().points().len() {
        if is_let_go(table, path, place, point) {
            let name = point_name(table.layout(), PointId(point));
            add(&mut text, before, written(&name))?;
            before = " ";
        }
    }
    Ok(text)
}

/// Adds what is told of a section at which points are let go, after what stands before it: its name, and these points.
/// Answers whether there are any.
fn add_let_go(
    alloc: Global,
    table: &Checked,
    path: RoutePath<'_>,
    place: usize,
    before: &str,
    cell: &mut String,
) -> Result<bool, AllocError>
    requires route { path.route.0 < length table.now.routes }
    requires place { place < length path.sections.now }
    ensures { IfOk result (λ is_told. AddsLetGo table.now path.entry.route path.entry.sections.now place before.now is_told (string_bytes cell.old) (string_bytes cell.new)) }
{
    let points = points_told(alloc, table, path, place)?;
    if points.is_empty() {
        return Ok(false);
    }
    let section = section_name(table.layout(), section_at(path.sections, place));
    add(cell, before, written(&section))?;
    cell.push_str(points.as_str())?;
    Ok(true)
}

/// The cell of the sections at which a route lets points go, each with these points.
pub(crate) fn let_go_cell(
    alloc: Global,
    table: &Checked,
    route: RouteId,
) -> Result<String, AllocError>
    requires { route.0 < length table.now.routes }
    ensures { IfOk result (λ cell. IsLetGoCell table.now route (string_bytes cell)) }
{
    let sections = table.sections(route);
    let path = RoutePath { route, sections };
    let mut cell = String::new(alloc);
    let mut before = "";
    for place in 0..sections.len() {
        if add_let_go(alloc, table, path, place, before, &mut cell)? {
            before = "; ";
        }
    }
    Ok(cell)
}
