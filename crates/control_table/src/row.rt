//! One route of the control table.

ghost use Rattle.std.specs.Prelude.{◌≡◌, IfOk, map};
ghost use Rattle.control_table.specs.inside.TableTests.{Gives, path_of, sections_of, required_of, row_of, rows_from, rows_of};

use crate::fault::{FaultyRoute, TableFault};
use crate::order::in_layout_order;
use crate::passage::{Passage, passages};
use crate::sections::{elements, elements_differ, sections, sections_differ};
use crate::sides::{FlankProtection, consistent, flanks_guarded, needs, protections};
use crate::signals::{extras_listed, port_of, signals_placed};
use crate::written::{flank_written, points_written, written_right};
use layout::{Layout, PointId, Route, RouteId, SectionId};
use sci_telegram::Side;
use std::alloc::{AllocError, Global};
use std::marker::Model;

/// What a route needs.
#[derive(Debug, Drop)]
pub(crate) struct Row {
    /// The sections over which it leads, in the order of its path.
    pub(crate) sections: Vec<SectionId>,
    /// The points that it requires, each with its side, in layout order.
    pub(crate) required: Vec<(PointId, Side)>,
    /// Which point guards which point on its path.
    pub(crate) protections: Vec<FlankProtection>,
}

impl Model for Row {
    ghost use Rattle.control_table.specs.inside.TableTests.{TableRow};

    ghost Value = { TableRow };

    ghost view = { λ r. record { sections = r.sections.items; required = r.required.items; protections = r.protections.items } };
}

impl Row {
    /// An equal row.
    pub(crate) fn copy(&self, alloc: Global) -> Result<Row, AllocError>
        ensures { IfOk result (λ r. r ≡ self.now) }
    {
        let sections = Vec::from_slice(alloc, &self.sections)?;
        let required = Vec::from_slice(alloc, &self.required)?;
        let protections = Vec::from_slice(alloc, &self.protections)?;
        Ok(Row {
            sections,
            required,
            protections,
        })
    }
}

/// Equal rows.
pub(crate) fn copy_rows(alloc: Global, rows: &[Row]) -> Result<Vec<Row>, AllocError>
    ensures { IfOk result (λ v. v.items ≡ rows.now) }
{
    let mut copies = Vec::new(alloc);
    for row in rows {
        copies.push(row.copy(alloc)?)?;
    }
    Ok(copies)
}

/// The path of a route, unless it is broken.
#[tactic(auto, unfolding(crate::specs::inside::TableTests::path_of))]
fn path_of(
    alloc: Global,
    place: &FaultyRoute,
    layout: &Layout,
    route: &Route,
) -> Result<Vec<Passage>, TableFault>
    ensures { Gives (λ v. v.items) result (path_of place.now layout.now route.now) }
{
    if route.path().is_empty() {
        return Err(TableFault::PathBroken(*place));
    }
    let Some(start) = port_of(layout.signals(), route.entry()) else {
        return Err(TableFault::PathBroken(*place));
    };
    passages(alloc, place, layout.joints(), start, route.path())
}

/// The sections of a path, unless an element or a section comes again.
#[tactic(auto, unfolding(crate::specs::inside::TableTests::sections_of))]
fn sections_of(
    alloc: Global,
    place: &FaultyRoute,
    layout: &Layout,
    path: &[Passage],
) -> Result<Vec<SectionId>, TableFault>
    ensures { Gives (λ v. v.items) result (sections_of place.now layout.now path.now) }
{
    let elements = elements(alloc, path)?;
    let sections = sections(alloc, layout, &elements)?;
    if elements_differ(&elements) && sections_differ(&sections) {
        return Ok(sections);
    }
    Err(TableFault::PathRepeats(*place))
}

/// The points that a path requires, unless a fault is in what the route writes, in the flanks or in
/// the points.
#[tactic(auto, unfolding(crate::specs::inside::TableTests::required_of))]
fn required_of(
    alloc: Global,
    place: &FaultyRoute,
    layout: &Layout,
    route: &Route,
    path: &[Passage],
) -> Result<Vec<(PointId, Side)>, TableFault>
    ensures { Gives (λ v. v.items) result (required_of place.now layout.now route.now path.now) }
{
    let needs = needs(alloc, layout, path)?;
    if !points_written(route, path) {
        return Err(TableFault::PointMissing(*place));
    }
    if !written_right(route, path, &needs) {
        return Err(TableFault::PointWrong(*place));
    }
    if !flank_written(route, path, &needs) {
        return Err(TableFault::FlankMissing(*place));
    }
    if !flanks_guarded(layout, path) {
        return Err(TableFault::FlankOpen(*place));
    }
    if !consistent(&needs) {
        return Err(TableFault::FlankContradicts(*place));
    }
    Ok(in_layout_order(alloc, &needs)?)
}

/// The row of a route, or its first fault.
#[tactic(auto, unfolding(crate::specs::inside::TableTests::row_of))]
fn row_of(
    alloc: Global,
    place: &FaultyRoute,
    layout: &Layout,
    route: &Route,
) -> Result<Row, TableFault>
    ensures { Gives (λ r. r) result (row_of place.now layout.now route.now) }
{
    let path = path_of(alloc, place, layout, route)?;
    let sections = sections_of(alloc, place, layout, &path)?;
    let required = required_of(alloc, place, layout, route, &path)?;
    if !signals_placed(layout, route, &path) {
        return Err(TableFault::SignalPlace(*place));
    }
    if !extras_listed(layout.routes(), place.id, route.extra()) {
        return Err(TableFault::NotSymmetric(*place));
    }
    let protections = protections(alloc, layout, &path)?;
    Ok(Row {
        sections,
        required,
        protections,
    })
}

/// The rows of routes, or the first fault of the first faulty one.
fn each_row(alloc: Global, layout: &Layout, routes: &[Route]) -> Result<Vec<Row>, TableFault>
    ensures { Gives (λ v. v.items) result (rows_from layout.now 0 routes.now) }
{
    let mut rows = Vec::new(alloc);
    for (before, route) in routes.iter().enumerate() {
        let place = FaultyRoute {
            id: RouteId(before),
            name: *route.name(),
        };
        rows.push(row_of(alloc, &place, layout, route)?)?;
    }
    Ok(rows)
}

/// The rows of all routes, or the first fault of the first faulty one.
#[tactic(auto, unfolding(crate::specs::inside::TableTests::rows_of))]
pub(crate) fn rows(alloc: Global, layout: &Layout) -> Result<Vec<Row>, TableFault>
    ensures { Gives (λ v. v.items) result (rows_of layout.now) }
{
    each_row(alloc, layout, layout.routes())
}
