//! The cells of the rows of the control table.

ghost use Rattle.std.specs.Prelude.{◌≡◌, ◌<◌, length, map, IfOk, string_bytes};
ghost use Rattle.control_table.specs.Topology.{IsRoute};
ghost use Rattle.station_layout.specs.Lines.{cells};
ghost use Rattle.station_layout.specs.Row.{IsRowOf, Row};
ghost use Rattle.station_layout.specs.inside.Columns.{IsCell};

use crate::cells::{flank_cell, points_cell, sections_cell};
use crate::conflicts::conflicts_cell;
use crate::layout_names::{exit_name, signal_name, written};
use crate::points_let_go::let_go_cell;
use control_table::layout::Route;
use control_table::{Checked, RouteId, Side};
use std::alloc::{AllocError, Global};

/// A column of the table.
#[derive(Clone, Copy)]
pub(crate) enum Column {
    /// The name of the route.
    Route,
    /// The signal at which it begins.
    Entry,
    /// The signal or the border at which it ends.
    Exit,
    /// The aspect at which it is passed.
    Aspect,
    /// The points on the path that have to lie right.
    Right,
    /// The points on the path that have to lie left.
    Left,
    /// The points that protect the flank, each with its side.
    Flank,
    /// The sections over which the route leads.
    Sections,
    /// The sections at which points are let go that are required, each with these points.
    LetGo,
    /// The sections on which a train approaches it.
    Approach,
    /// The routes that conflict with it, with the reasons.
    Conflicts,
}

/// The columns, in their order.
const COLUMNS: &[Column] = &[
    Column::Route,
    Column::Entry,
    Column::Exit,
    Column::Aspect,
    Column::Right,
    Column::Left,
    Column::Flank,
    Column::Sections,
    Column::LetGo,
    Column::Approach,
    Column::Conflicts,
];

/// The cell in a column of the row of a route, of which this is the entry.
#[tactic(auto, using(crate::proofs::NamesWritten::signal_written, crate::proofs::NamesWritten::exit_written))]
fn cell_of(
    alloc: Global,
    table: &Checked,
    id: RouteId,
    entry: &Route,
    column: Column,
) -> Result<String, AllocError>
    requires there { id.0 < length table.now.routes }
    requires entry { IsRoute table.now id entry.now }
    ensures { IfOk result (λ cell. IsCell table.now id entry.now column (string_bytes cell)) }
{
    let layout = table.layout();
    match column {
        Column::Route => String::from_str(alloc, entry.name().as_str()),
        Column::Entry => String::from_str(alloc, written(&signal_name(layout, entry.entry().0))),
        Column::Exit => String::from_str(alloc, written(&exit_name(layout, entry.exit()))),
        Column::Aspect => String::from_str(alloc, entry.aspect().word()),
        Column::Right => points_cell(alloc, layout, entry, Side::Right),
        Column::Left => points_cell(alloc, layout, entry, Side::Left),
        Column::Flank => flank_cell(alloc, layout, entry.flank()),
        Column::Sections => sections_cell(alloc, layout, table.sections(id)),
        Column::LetGo => let_go_cell(alloc, table, id),
        Column::Approach => sections_cell(alloc, layout, entry.approach()),
        Column::Conflicts => conflicts_cell(alloc, table, id),
    }
}

/// The cells of the row of a route, of which this is the entry.
pub(crate) fn cells_of(
    alloc: Global,
    table: &Checked,
    id: RouteId,
    entry: &Route,
) -> Result<Vec<String>, AllocError>
    requires there { id.0 < length table.now.routes }
    requires entry { IsRoute table.now id entry.now }
    ensures { IfOk result (λ texts. (row : Row) × IsRowOf table.now id entry.now row × (map string_bytes texts.items ≡ cells row)) }
{
    let mut texts = Vec::new(alloc);
    for column in COLUMNS {
        texts.push(cell_of(alloc, table, id, entry, *column)?)?;
    }
    Ok(texts)
}
