//! The routes that a route conflicts with, with the reasons.

ghost use Rattle.std.specs.Prelude.{◌≡◌, ◌<◌, ◌++◌, ℕ, List, length, IfOk, OnOk, string_bytes};
ghost use Rattle.station_layout.specs.Row.{IsConflictText, IsConflictsCell};

use crate::cells::add;
use crate::conflict_reasons::{add_reasons, reasons};
use crate::layout_names::{route_name, written};
use control_table::{Checked, RouteId};
use std::alloc::{AllocError, Global};

/// Adds what is told of a route that conflicts with another, after what stands before it: its name, and the reasons.
fn add_conflict(
    table: &Checked,
    route: RouteId,
    other: RouteId,
    before: &str,
    cell: &mut String,
) -> Result<(), AllocError>
    requires first { route.0 < length table.now.routes }
    requires second { other.0 < length table.now.routes }
    ensures { OnOk result ((text : List ℕ) × IsConflictText table.now route other text × (string_bytes cell.new ≡ string_bytes cell.old ++ (before.now ++ text))) }
{
    let name = route_name(table.layout(), other);
    add(cell, before, written(&name))?;
    cell.push_str(": ")?;
    add_reasons(reasons(table, route, other), cell)
}

/// The cell of the routes that conflict with a route.
pub(crate) fn conflicts_cell(
    alloc: Global,
    table: &Checked,
    route: RouteId,
) -> Result<String, AllocError>
    requires { route.0 < length table.now.routes }
    ensures { IfOk result (λ cell. IsConflictsCell table.now route (string_bytes cell)) }
{
    let mut cell = String::new(alloc);
    let mut before = "";
    for place in 0..table.layout().routes().len() {
        if table.conflict(route, RouteId(place)) {
            add_conflict(table, route, RouteId(place), before, &mut cell)?;
            before = "; ";
        }
    }
    Ok(cell)
}
