//! One route of the table.

ghost use Rattle.std.specs.Prelude.{◌≡◌, ◌<◌, IfOk, length, map};
ghost use Rattle.std.specs.List.{All};
ghost use Rattle.ixl_spec.specs.sci_telegram.declared.message.Side.TheVariants as at;
ghost use Rattle.ixl_table.specs.Table.{AreNeededAt, IsRowOf, IsSetOf, as_route, as_section};

use crate::need::{Need, needs_of};
use ixl_spec::control_table::{
    a_route_leads_over_its_sections_alone, required_points_await_a_section_of_the_route,
};
use ixl_spec::{Aspect, BitRow, Checked, RouteId, SectionId};
use std::alloc::{AllocError, Global};
use std::marker::Model;

/// A route of the table. Signals, sections, points and routes are numbers: their places in the layout.
#[derive(Debug, Drop)]
pub struct Row {
    entry: usize,
    aspect: Aspect,
    sections: Vec<usize>,
    needs: Vec<Need>,
    approach: Vec<usize>,
    extra: Vec<usize>,
    section_row: BitRow,
    approach_row: BitRow,
    right_row: BitRow,
    left_row: BitRow,
}

impl Model for Row {
    ghost use Rattle.ixl_spec.specs.Table.{Row};
    ghost use Rattle.ixl_table.specs.inside.Made.{AreItsRows};

    ghost Value = { Row };

    ghost view = { λ r. record {
      entry = r.entry;
      aspect = r.aspect;
      sections = r.sections.items;
      needs = r.needs.items;
      approach = r.approach.items;
      extra = r.extra.items;
    } };

    ghost invariant = { λ r. AreItsRows (record {
      entry = r.entry;
      aspect = r.aspect;
      sections = r.sections.items;
      needs = r.needs.items;
      approach = r.approach.items;
      extra = r.extra.items;
    }) r.section_row r.approach_row r.right_row r.left_row };
}

/// The numbers of sections.
pub(crate) fn section_numbers(
    alloc: Global,
    sections: &[SectionId],
) -> Result<Vec<usize>, AllocError>
    ensures { IfOk result (λ v. map as_section v.items ≡ sections.now) }
{
    let mut numbers = Vec::new(alloc);
    for section in sections {
        numbers.push(section.0)?;
    }
    Ok(numbers)
}

/// The numbers of routes.
fn route_numbers(alloc: Global, routes: &[RouteId]) -> Result<Vec<usize>, AllocError>
    ensures { IfOk result (λ v. map as_route v.items ≡ routes.now) }
{
    let mut numbers = Vec::new(alloc);
    for route in routes {
        numbers.push(route.0)?;
    }
    Ok(numbers)
}

/// The row of bits of these numbers.
fn set_of(numbers: &[usize]) -> BitRow
    requires { All (λ n. n < 64) numbers.now }
    ensures { IsSetOf numbers.now result }
{
    let mut row = BitRow::empty();
    for number in numbers {
        row = row.with(*number);
    }
    row
}

/// The row of a route.
pub(crate) fn row_of(alloc: Global, table: &Checked, route: RouteId) -> Result<Row, AllocError>
    requires { route.0 < length table.now.routes }
    ensures { IfOk result (IsRowOf table.now route) }
{
    a_route_leads_over_its_sections_alone();
    required_points_await_a_section_of_the_route();
    let written = &table.layout().routes()[route.0];
    let masks = table.masks(route);
    let sections = section_numbers(alloc, table.sections(route))?;
    let needs = needs_of(alloc, table, route, &sections)?;
    let approach = section_numbers(alloc, written.approach())?;
    let approach_row = set_of(&approach);
    Ok(Row {
        entry: written.entry().0,
        aspect: table.aspect(route),
        sections,
        needs,
        approach,
        extra: route_numbers(alloc, written.extra())?,
        section_row: masks.sections,
        approach_row,
        right_row: masks.right,
        left_row: masks.left,
    })
}

impl Row {
    /// The signal at which the route begins.
    pub fn entry(&self) -> usize
        ensures { result ≡ self.now.entry }
    {
        self.entry
    }

    /// The aspect that the signal shows for the route.
    pub fn aspect(&self) -> Aspect
        ensures { result ≡ self.now.aspect }
    {
        self.aspect
    }

    /// The sections of its path, in order.
    pub fn sections(&self) -> &[usize]
        ensures { result.now ≡ self.now.sections }
    {
        &self.sections
    }

    /// The points that it requires, in layout order.
    pub fn needs(&self) -> &[Need]
        ensures { result.now ≡ self.now.needs }
    {
        &self.needs
    }

    /// The sections on which a train approaches its signal.
    pub fn approach(&self) -> &[usize]
        ensures { result.now ≡ self.now.approach }
    {
        &self.approach
    }

    /// The routes that it lists as conflicting, beside those that conflict by themselves.
    pub fn extra(&self) -> &[usize]
        ensures { result.now ≡ self.now.extra }
    {
        &self.extra
    }

    /// Its sections, as a row of bits.
    pub fn section_row(&self) -> BitRow
        ensures { IsSetOf self.now.sections result }
    {
        self.section_row
    }

    /// Its approach sections, as a row of bits.
    pub fn approach_row(&self) -> BitRow
        ensures { IsSetOf self.now.approach result }
    {
        self.approach_row
    }

    /// The points that it requires right.
    pub fn right_row(&self) -> BitRow
        ensures { AreNeededAt self.now.needs at.Right result }
    {
        self.right_row
    }

    /// The points that it requires left.
    pub fn left_row(&self) -> BitRow
        ensures { AreNeededAt self.now.needs at.Left result }
    {
        self.left_row
    }
}
