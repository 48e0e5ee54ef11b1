//! The picture of a chart.

ghost use Rattle.std.specs.Prelude.{◌≡◌, ◌++◌, ◌∷◌, [], IfOk, OnOk};
ghost use Rattle.lane_chart.specs.Chart.{AreChartGroups, IsChartOf, axis_id, faces, legend_id, row_faces};
ghost use Rattle.lane_chart.specs.Faces.{row_face};
ghost use Rattle.lane_chart.specs.inside.Added.{AddsGroup};

use crate::axis::draw_axis;
use crate::change::Happening;
use crate::drawn::DrawnRow;
use crate::happening_marks::{add_group, add_happenings};
use crate::legend::{HEIGHT, draw_legend};
use crate::marks::Marks;
use crate::row_marks::{draw_row, height};
use crate::scale::Window;
use crate::scene::{Nodes, Scene};
use crate::style::STYLE;
use crate::subject::{Sort, kind_word};
use control_table::Layout;
use drawing::{Anchor, Frame, Group, Picture, Spot};
use rasta_core_link::MICROS;
use std::alloc::{AllocError, Global};

/// How wide the paper is.
const PAPER: u32 = 1600;

/// Where the rows begin.
const ROWS: i32 = 112;

/// How high all rows are.
fn height_of(rows: &[DrawnRow]) -> i32 {
    let mut all: i32 = 0;
    for row in rows {
        all = all.saturating_add(height(row.row.subject.sort));
    }
    all
}

/// Adds marks as a group whose identity is its class, too, and what a viewer says of it.
fn add_named(groups: &mut Vec<Group>, name: &str, marks: Marks) -> Result<(), AllocError>
    ensures { OnOk result (AddsGroup name.now groups.old.items groups.new.items) }
{
    let id = String::from_str(marks.alloc, name);
    let class = String::from_str(marks.alloc, name);
    let title = String::from_str(marks.alloc, name);
    add_group(groups, id, class, title, marks)
}

/// Adds the heading and the axis of a chart as a group: the name of the station, and what part of time is drawn.
fn add_axis(
    groups: &mut Vec<Group>,
    alloc: Global,
    station: &str,
    window: Window,
    bottom: i32,
) -> Result<(), AllocError>
    ensures { OnOk result (AddsGroup axis_id groups.old.items groups.new.items) }
{
    let words = format!(in alloc;
        "{station}: {} to {} ms of true time",
        window.from / MICROS,
        window.to / MICROS
    )?;
    let mut marks = Marks::new(alloc);
    let at = Spot { x: 20, y: 24 };
    marks.text("heading", at, Anchor::Start, words.as_str())?;
    draw_axis(&mut marks, window, bottom)?;
    add_named(groups, "axis", marks)
}

/// Adds what the marks mean, as a group.
fn add_legend(groups: &mut Vec<Group>, alloc: Global, top: i32) -> Result<(), AllocError>
    ensures { OnOk result (AddsGroup legend_id groups.old.items groups.new.items) }
{
    let mut marks = Marks::new(alloc);
    draw_legend(&mut marks, top)?;
    add_named(groups, "legend", marks)
}

/// Adds a row as a group under a heading, from this height on. A viewer calls it by its identity.
fn add_row(
    groups: &mut Vec<Group>,
    alloc: Global,
    scene: Scene<'_>,
    drawn: &DrawnRow,
    heading: &str,
    top: i32,
) -> Result<(), AllocError>
    ensures { OnOk result (faces groups.new.items ≡ faces groups.old.items ++ row_face scene.entry.nodes scene.entry.window scene.entry.happenings.now drawn.now ∷ []) }
{
    let mut marks = Marks::new(alloc);
    draw_row(&mut marks, scene, drawn, heading, top)?;
    let kind = kind_word(drawn.row.subject.sort);
    let name = drawn.row.subject.name.as_str();
    let id = format!(in alloc; "{kind}.{name}");
    let class = format!(in alloc; "{kind} {kind}.{name}");
    let title = format!(in alloc; "{kind}.{name}");
    add_group(groups, id, class, title, marks)
}

/// What stands before a row of a kind: its word, unless the row above is of this kind.
fn heading_behind(above: Option<Sort>, sort: Sort) -> &'static str {
    let kind = kind_word(sort);
    match above {
        Some(above) if kind_word(above) == kind => "",
        _ => kind,
    }
}

/// Adds a group for each row, in order, one below the other.
fn add_rows(
    groups: &mut Vec<Group>,
    alloc: Global,
    scene: Scene<'_>,
    rows: &[DrawnRow],
) -> Result<(), AllocError>
    ensures { OnOk result (faces groups.new.items ≡ faces groups.old.items ++ row_faces scene.entry.nodes scene.entry.window scene.entry.happenings.now rows.now) }
{
    let mut top = ROWS;
    let mut above = None;
    for row in rows {
        let sort = row.row.subject.sort;
        let heading = heading_behind(above, sort);
        add_row(groups, alloc, scene, row, heading, top)?;
        above = Some(sort);
        top = top.saturating_add(height(sort));
    }
    Ok(())
}

/// Adds all groups of a chart, whose rows end here, to a list that is empty.
fn add_groups(
    groups: &mut Vec<Group>,
    alloc: Global,
    station: &str,
    scene: Scene<'_>,
    rows: &[DrawnRow],
    bottom: i32,
) -> Result<(), AllocError>
    requires { groups.old.items ≡ [] }
    ensures { OnOk result (AreChartGroups scene.entry.nodes scene.entry.window rows.now scene.entry.happenings.now groups.new.items) }
{
    add_axis(groups, alloc, station, scene.window, bottom)?;
    add_rows(groups, alloc, scene, rows)?;
    add_happenings(groups, alloc, scene.window, scene.happenings)?;
    add_legend(groups, alloc, bottom)
}

/// The chart of a part of a session on a station of this layout, by its rows, as a picture: a group for each row, whose
/// identity is its kind and its name, and one for each command and restart, by its line. The error comes only where memory
/// was refused.
pub fn chart(
    alloc: Global,
    layout: &Layout,
    window: Window,
    rows: &[DrawnRow],
    happenings: &[Happening],
) -> Result<Picture, AllocError>
    ensures { IfOk result (IsChartOf layout.now window rows.now happenings.now) }
{
    let station = layout.station().name.as_str();
    let title = String::from_str(alloc, station)?;
    let style = String::from_str(alloc, STYLE)?;
    let scene = Scene {
        routes: layout.routes(),
        nodes: Nodes {
            signals: layout.signals().len(),
            points: layout.points().len(),
        },
        window,
        happenings,
    };
    let bottom = ROWS.saturating_add(height_of(rows));
    let mut groups = Vec::new(alloc);
    add_groups(&mut groups, alloc, station, scene, rows, bottom)?;
    let height = u32::try_from(bottom.saturating_add(HEIGHT)).unwrap_or(0);
    Ok(Picture {
        title,
        style,
        paper: Frame {
            left: 0,
            top: 0,
            width: PAPER,
            height,
        },
        strips: Vec::new(alloc),
        groups,
    })
}
