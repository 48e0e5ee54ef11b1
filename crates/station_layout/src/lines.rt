//! The lines of the table, in either form.

ghost use Rattle.std.specs.Prelude.{◌≡◌, ◌<◌, ◌++◌, length, map, max, replicate, List, ◌∷◌, IfOk, OnOk, string_bytes};
ghost use Rattle.std.specs.List.{flat_map};
ghost use Rattle.csv.specs.Writing.{default_writer, row_text};
ghost use Rattle.station_layout.specs.Lines.{AreRows, IsTable, barred, cell_at, cells, heads, markdown_line, padded, rule_text, table_text, width_of};
ghost use Rattle.station_layout.specs.Row.{Row};
ghost use Rattle.station_layout.specs.declared.form.Form.TheVariants.{Csv, Markdown};
ghost use Rattle.station_layout.specs.inside.CellLines.{cells_in};

use crate::form::Form;
use crate::row::cells_of;
use control_table::{Checked, RouteId};
use csv::WriterBuilder;
use std::alloc::{AllocError, Global};

/// The heads of the columns.
const HEADS: &[&str] = &[
    "Route",
    "Entry",
    "Exit",
    "Aspect",
    "Points right",
    "Points left",
    "Flank points",
    "Sections",
    "Points let go",
    "Approach",
    "Conflicts",
];

/// How many columns there are. The last one isn't padded.
const COLUMNS: usize = 11;

const LAST: usize = 10;

/// How many hyphens the rule has below a head at least.
const SHORTEST_RULE: usize = 3;

// ---- the cells

/// The cells of the heads.
fn head_cells(alloc: Global) -> Result<Vec<String>, AllocError>
    ensures { IfOk result (λ line. map string_bytes line.items ≡ cells heads) }
{
    let mut line = Vec::new(alloc);
    for head in HEADS {
        line.push(String::from_str(alloc, head)?)?;
    }
    Ok(line)
}

/// The cells of the table: a line of heads, and a line for each route, in the order of the table.
fn cell_lines(alloc: Global, table: &Checked) -> Result<Vec<Vec<String>>, AllocError>
    ensures { IfOk result (λ lines. (rows : List Row) × AreRows table.now (length table.now.routes) rows × (cells_in lines.items ≡ map cells (heads ∷ rows))) }
{
    let mut lines = Vec::new(alloc);
    lines.push(head_cells(alloc)?)?;
    for (place, entry) in table.layout().routes().iter().enumerate() {
        lines.push(cells_of(alloc, table, RouteId(place), entry)?)?;
    }
    Ok(lines)
}

/// The cell of a line at a place.
fn cell(line: &[String], place: usize) -> &str
    ensures { result.now ≡ cell_at place (map string_bytes line.now) }
{
    match line.get(place) {
        Some(cell) => cell.as_str(),
        None => "",
    }
}

// ---- Markdown

/// The greater width.
fn wider(width: usize, other: usize) -> usize
    ensures { result ≡ max width other }
{
    width.max(other)
}

/// How wide a column is, as its widest cell. The last column isn't padded.
fn width(lines: &[Vec<String>], place: usize) -> usize
    ensures { result ≡ width_of (cells_in lines.now) place }
{
    let mut width = 0;
    if place != LAST {
        for line in lines {
            width = wider(width, cell(line, place).len());
        }
    }
    width
}

/// Adds a byte so many times.
fn add_times(count: usize, byte: u8, text: &mut Vec<u8>) -> Result<(), AllocError>
    ensures { OnOk result (text.new.items ≡ text.old.items ++ replicate count byte) }
{
    for done in 0..count {
        text.push(byte)?;
    }
    Ok(())
}

/// Adds a cell that is padded to a width, with the bar before it.
#[tactic(auto, using(crate::proofs::Tables::padded_added))]
fn add_cell(cell: &str, width: usize, text: &mut Vec<u8>) -> Result<(), AllocError>
    ensures { OnOk result (text.new.items ≡ text.old.items ++ barred (padded width cell.now)) }
{
    text.extend_from_slice(b"| ")?;
    text.extend_from_slice(cell.as_bytes())?;
    add_times(width.saturating_sub(cell.len()), b' ', text)?;
    text.extend_from_slice(b" ")
}

/// Adds a line of a table in Markdown.
fn add_markdown(
    lines: &[Vec<String>],
    line: &[String],
    text: &mut Vec<u8>,
) -> Result<(), AllocError>
    ensures { OnOk result (text.new.items ≡ text.old.items ++ markdown_line (cells_in lines.now) (map string_bytes line.now)) }
{
    for place in 0..COLUMNS {
        add_cell(cell(line, place), width(lines, place), text)?;
    }
    text.extend_from_slice(b"|\n")
}

/// Adds the rule of a column.
#[tactic(auto, using(crate::proofs::Tables::barred_added))]
fn add_rule_cell(width: usize, text: &mut Vec<u8>) -> Result<(), AllocError>
    ensures { OnOk result (text.new.items ≡ text.old.items ++ barred (replicate (max width 3) 45)) }
{
    text.extend_from_slice(b"| ")?;
    add_times(wider(width, SHORTEST_RULE), b'-', text)?;
    text.extend_from_slice(b" ")
}

/// Adds the rule below the heads of a table.
fn add_rule(lines: &[Vec<String>], text: &mut Vec<u8>) -> Result<(), AllocError>
    ensures { OnOk result (text.new.items ≡ text.old.items ++ rule_text (cells_in lines.now)) }
{
    for place in 0..COLUMNS {
        add_rule_cell(width(lines, place), text)?;
    }
    text.extend_from_slice(b"|\n")
}

/// A table in Markdown, whose first line has the heads.
fn markdown(alloc: Global, lines: &[Vec<String>]) -> Result<Vec<u8>, AllocError>
    ensures { IfOk result (λ text. text.items ≡ table_text Markdown (cells_in lines.now)) }
{
    let mut text = Vec::new(alloc);
    let Some((heads, rows)) = lines.split_first() else {
        return Ok(text);
    };
    add_markdown(lines, heads, &mut text)?;
    add_rule(lines, &mut text)?;
    for row in rows {
        add_markdown(lines, row, &mut text)?;
    }
    Ok(text)
}

// ---- CSV

/// The line of these cells as CSV.
fn csv_line(alloc: Global, cells: &[String]) -> Result<Vec<u8>, AllocError>
    ensures { IfOk result (λ line. line.items ≡ row_text default_writer (map string_bytes cells.now)) }
{
    let mut fields = Vec::new(alloc);
    for cell in cells {
        fields.push(cell.as_bytes())?;
    }
    let mut writer = WriterBuilder::new().from_writer(Vec::new(alloc));
    // A vector refuses bytes only where memory is lacking.
    let is_written = writer.write_fields(&fields).is_ok();
    drop(fields);
    match writer.into_inner() {
        Ok(line) => {
            if is_written {
                Ok(line)
            } else {
                Err(AllocError)
            }
        }
        Err(_) => Err(AllocError),
    }
}

/// A table as CSV.
fn csv(alloc: Global, lines: &[Vec<String>]) -> Result<Vec<u8>, AllocError>
    ensures { IfOk result (λ text. text.items ≡ table_text Csv (cells_in lines.now)) }
{
    let mut text = Vec::new(alloc);
    for line in lines {
        text.extend_from_slice(&csv_line(alloc, line)?)?;
    }
    Ok(text)
}

// ---- the table

/// The heads, and a line for each route, in the order of the table.
pub(crate) fn lines(alloc: Global, form: Form, table: &Checked) -> Result<Vec<u8>, AllocError>
    ensures { IfOk result (λ text. IsTable form table.now text.items) }
{
    let lines = cell_lines(alloc, table)?;
    match form {
        Form::Markdown => markdown(alloc, &lines),
        Form::Csv => csv(alloc, &lines),
    }
}
