//! The rows of a chart: one for each subject, in order.

ghost use Rattle.std.specs.Prelude.{◌≡◌, ◌++◌, ◌∷◌, [], OnOk, IfOk};
ghost use Rattle.lane_chart.specs.Subjects.{numbered, row_of, rows_of};

use crate::subject::{Row, Sort, Subject};
use control_table::layout::{Detector, Point, Route, Signal};
use control_table::{Layout, Name};
use std::alloc::{AllocError, Global};

/// An entry of a table of the layout, which goes by a name.
trait Named {
    ghost use Rattle.std.specs.Prelude.{◌≡◌, ℕ, List};

    ghost own_name: { Self → List ℕ };

    fn own_name(&self) -> Name
        ensures { result ≡ own_name self.now };
}

impl Named for Signal {
    ghost own_name = { λ signal. signal.name };

    fn own_name(&self) -> Name {
        self.name
    }
}

impl Named for Point {
    ghost own_name = { λ point. point.name };

    fn own_name(&self) -> Name {
        self.name
    }
}

impl Named for Name {
    ghost own_name = { λ name. name };

    fn own_name(&self) -> Name {
        *self
    }
}

impl Named for Route {
    ghost own_name = { λ route. route.name };

    fn own_name(&self) -> Name {
        *self.name()
    }
}

impl Named for Detector {
    ghost own_name = { λ detector. detector.name };

    fn own_name(&self) -> Name {
        *self.name()
    }
}

/// Adds a row for each entry of a table.
fn add_entries<T: Named>(rows: &mut Vec<Row>, sort: Sort, entries: &[T]) -> Result<(), AllocError>
    ensures { OnOk result (rows.new.items ≡ rows.old.items ++ numbered T.own_name sort 0 entries.now) }
{
    for (place, entry) in entries.iter().enumerate() {
        let subject = Subject {
            sort,
            name: entry.own_name(),
        };
        rows.push(Row { subject, place })?;
    }
    Ok(())
}

/// Adds all rows: those of the field, of links and of nodes.
fn add_rows(rows: &mut Vec<Row>, layout: &Layout) -> Result<(), AllocError>
    ensures { OnOk result (rows.new.items ≡ rows.old.items ++ rows_of layout.now) }
{
    add_entries(rows, Sort::Signal, layout.signals())?;
    add_entries(rows, Sort::Point, layout.points())?;
    add_entries(rows, Sort::Section, layout.sections())?;
    add_entries(rows, Sort::Route, layout.routes())?;
    add_entries(rows, Sort::SignalLink, layout.signals())?;
    add_entries(rows, Sort::PointLink, layout.points())?;
    add_entries(rows, Sort::DetectorLink, layout.detectors())?;
    add_entries(rows, Sort::Interlocking, &[layout.station().name])?;
    add_entries(rows, Sort::SignalNode, layout.signals())?;
    add_entries(rows, Sort::PointNode, layout.points())?;
    add_entries(rows, Sort::DetectorNode, layout.detectors())
}

/// All rows of a chart, each once, in order.
pub(crate) fn rows(alloc: Global, layout: &Layout) -> Result<Vec<Row>, AllocError>
    ensures { IfOk result (λ rows. rows.items ≡ rows_of layout.now) }
{
    let mut rows = Vec::new(alloc);
    add_rows(&mut rows, layout)?;
    Ok(rows)
}
