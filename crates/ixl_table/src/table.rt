//! The table of a station.

ghost use Rattle.std.specs.Prelude.{◌≡◌, ◌<◌, IfOk, Some, length, slice_get};
ghost use Rattle.ixl_spec.specs.layout.Once.{Once};
ghost use Rattle.ixl_spec.specs.layout.Station.{IsStation};
ghost use Rattle.ixl_spec.specs.control_table.Table.{Sound};
ghost use Rattle.ixl_table.specs.Table.{AreRows, IsTableOf, IsTableThere};

use crate::reporters::{reported_by, reporters_of, sections_of};
use crate::row::{Row, row_of};
use ixl_spec::control_table::{
    a_route_leads_over_sections_that_are_there, required_points_are_there,
};
use ixl_spec::{Checked, RouteId};
use std::alloc::{AllocError, Global};
use std::marker::Model;

/// The control table of a station, and its site.
#[derive(Debug)]
pub struct Table {
    checked: Checked,
    rows: Vec<Row>,
    point_sections: Vec<usize>,
    reporters: Vec<(usize, usize)>,
    detectors: Vec<Vec<usize>>,
}

// Written by hand, so that it is proved and compiled here alone.
impl Drop for Table {
    fn drop(self) {
        let Self {
            checked: _,
            rows: _,
            point_sections: _,
            reporters: _,
            detectors: _,
        } = self;
    }
}

impl Model for Table {
    ghost use Rattle.std.specs.Prelude.{map};
    ghost use Rattle.ixl_table.specs.Table.{SitedTable};
    ghost use Rattle.ixl_table.specs.inside.Made.{IsKept};

    ghost Value = { SitedTable };

    ghost view = { λ t. record {
      site = t.checked;
      table = record {
        rows = t.rows.items;
        point_sections = t.point_sections.items;
        reporters = t.reporters.items;
        detectors = map (λ sections. sections.items) t.detectors.items;
      };
    } };

    ghost invariant = { λ t. IsKept t.checked (record {
      rows = t.rows.items;
      point_sections = t.point_sections.items;
      reporters = t.reporters.items;
      detectors = map (λ sections. sections.items) t.detectors.items;
    }) };
}

/// What holds of the layout of every table.
fn facts_of(table: &Checked)
    ensures once { Once table.now }
    ensures station { IsStation table.now }
    ensures sound { Sound table.now }
{
    table.layout();
}

/// A row for each route.
fn rows_of(alloc: Global, table: &Checked) -> Result<Vec<Row>, AllocError>
    ensures { IfOk result (λ v. AreRows table.now v.items) }
{
    let mut rows = Vec::new(alloc);
    for route in 0..table.layout().routes().len() {
        rows.push(row_of(alloc, table, RouteId(route))?)?;
    }
    Ok(rows)
}

impl Table {
    /// The table that was checked, as the rules read it.
    pub fn new(alloc: Global, checked: Checked) -> Result<Table, AllocError>
        ensures site { IfOk result (λ t. t.site ≡ checked) }
        ensures table { IfOk result (λ t. IsTableOf t.site t.table) }
    {
        facts_of(&checked);
        let rows = rows_of(alloc, &checked)?;
        let layout = checked.layout();
        let point_sections = sections_of(alloc, layout.points())?;
        let reporters = reporters_of(alloc, &checked)?;
        let detectors = reported_by(alloc, layout.detectors())?;
        Ok(Table {
            checked,
            rows,
            point_sections,
            reporters,
            detectors,
        })
    }

    /// The table that was checked, which lends the layout. What the rules read is its table, and all that it names is there.
    pub fn checked(&self) -> &Checked
        ensures site { result.now ≡ self.now.site }
        ensures table { IsTableOf self.now.site self.now.table }
        ensures there { IsTableThere self.now.site self.now.table }
        ensures sound { Sound self.now.site }
        ensures once { Once self.now.site }
        ensures station { IsStation self.now.site }
    {
        a_route_leads_over_sections_that_are_there();
        required_points_are_there();
        &self.checked
    }

    /// What the rules read is the table of its site, in which each name is used once.
    pub fn is_of_its_site(&self)
        ensures table { IsTableOf self.now.site self.now.table }
        ensures once { Once self.now.site }
    {
        self.checked();
    }

    /// All that the table names is there, within the limits of a station.
    pub fn names_what_is_there(&self)
        ensures there { IsTableThere self.now.site self.now.table }
        ensures station { IsStation self.now.site }
    {
        self.checked();
    }

    /// A row for each route.
    pub fn rows(&self) -> &[Row]
        ensures { result.now ≡ self.now.table.rows }
    {
        &self.rows
    }

    /// The section of each point.
    pub fn point_sections(&self) -> &[usize]
        ensures { result.now ≡ self.now.table.point_sections }
    {
        &self.point_sections
    }

    /// For each section the detector that reports it, and the section's place there.
    pub fn reporters(&self) -> &[(usize, usize)]
        ensures { result.now ≡ self.now.table.reporters }
    {
        &self.reporters
    }

    /// How many detectors there are.
    pub fn detectors(&self) -> usize
        ensures { result ≡ length self.now.table.detectors }
    {
        self.detectors.len()
    }

    /// The sections that a detector reports, in its own order.
    pub fn reported_by(&self, detector: usize) -> &[usize]
        requires { detector < length self.now.table.detectors }
        ensures { slice_get self.now.table.detectors detector ≡ Some result.now }
    {
        &self.detectors[detector]
    }
}
