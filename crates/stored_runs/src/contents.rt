//! What a layout reads from its text, and what its control table says of each route.

ghost use Rattle.std.specs.Prelude.{◌<◌, length};

use crate::failure::Failure;
use control_table::layout::Route;
use control_table::{Checked, Layout, RouteId, check};
use std::alloc::Global;
use std::io;
use std::io::Write;

/// Reads a text, checks its table, and writes what stands in a copy of both.
pub(crate) fn show_contents<W: Write>(
    alloc: Global,
    text: &str,
    out: &mut W,
) -> Result<(), Failure> {
    let layout = read_copy(alloc, text)?;
    show_layout(&layout, out)?;
    let table = check_copy(alloc, layout)?;
    show_table(&table, out)?;
    Ok(())
}

/// A copy of the layout that a text has.
fn read_copy(alloc: Global, text: &str) -> Result<Layout, Failure> {
    let Ok(layout) = Layout::read(alloc, text) else {
        return Err(Failure::Layout);
    };
    Ok(layout.copy(alloc)?)
}

/// A copy of the table of a layout.
fn check_copy(alloc: Global, layout: Layout) -> Result<Checked, Failure> {
    let Ok(table) = check(alloc, layout) else {
        return Err(Failure::Layout);
    };
    Ok(table.copy(alloc)?)
}

/// Writes the station, how many entries there are of each kind, the identities of the points, and the routes.
fn show_layout<W: Write>(layout: &Layout, out: &mut W) -> io::Result<()> {
    let station = layout.station();
    writeln!(out, "station {}", station.id)?;
    if let Some(key) = station.key {
        let [a, b, c, d] = key;
        writeln!(out, "key {a:08x} {b:08x} {c:08x} {d:08x}")?;
    }
    show_sizes(layout, out)?;
    for point in layout.points() {
        let name = point.name.as_str();
        writeln!(out, "point {name} {}", point.id)?;
    }
    for route in layout.routes() {
        show_route(route, out)?;
    }
    Ok(())
}

/// Writes how many entries there are of each kind.
fn show_sizes<W: Write>(layout: &Layout, out: &mut W) -> io::Result<()> {
    let sizes = [
        ("sections", layout.sections().len()),
        ("tracks", layout.tracks().len()),
        ("points", layout.points().len()),
        ("borders", layout.borders().len()),
        ("joints", layout.joints().len()),
        ("signals", layout.signals().len()),
        ("detectors", layout.detectors().len()),
        ("routes", layout.routes().len()),
    ];
    for (kind, size) in sizes {
        writeln!(out, "{size} {kind}")?;
    }
    Ok(())
}

/// Writes what a route says of itself.
fn show_route<W: Write>(route: &Route, out: &mut W) -> io::Result<()> {
    let name = route.name().as_str();
    let (entry, exit, approach) = (route.entry(), route.exit(), route.approach());
    writeln!(
        out,
        "route {name} from {entry:?} to {exit:?}, approach {approach:?}"
    )?;
    for port in route.path() {
        writeln!(out, "  leaves {:?} by {:?}", port.element, port.end)?;
    }
    Ok(())
}

/// Writes which version of telegrams the table needs, and what it says of each route.
fn show_table<W: Write>(table: &Checked, out: &mut W) -> io::Result<()> {
    writeln!(out, "version {}", table.version())?;
    let routes = table.layout().routes().len();
    for route in 0..routes {
        show_row(table, RouteId(route), out)?;
        show_conflicts(table, RouteId(route), out)?;
    }
    Ok(())
}

/// Writes what a route needs.
fn show_row<W: Write>(table: &Checked, route: RouteId, out: &mut W) -> io::Result<()>
    requires { route.0 < length table.now.routes }
{
    let (aspect, sections) = (table.aspect(route), table.sections(route));
    writeln!(out, "{route:?} shows {aspect:?}, sections {sections:?}")?;
    let (required, protections) = (table.required(route), table.protections(route));
    writeln!(out, "  requires {required:?}, {protections:?}")?;
    Ok(())
}

/// Writes with which routes a route conflicts.
fn show_conflicts<W: Write>(table: &Checked, route: RouteId, out: &mut W) -> io::Result<()>
    requires { route.0 < length table.now.routes }
{
    let routes = table.layout().routes().len();
    for other in 0..routes {
        if table.conflict(route, RouteId(other)) {
            writeln!(out, "  conflicts with {:?}", RouteId(other))?;
        }
    }
    Ok(())
}
