//! The report on a sound table.

ghost use Rattle.std.specs.Prelude.{◌≡◌, ◌<◌, ◌-◌, suc, length, OnOk, Some};
ghost use Rattle.station_check.specs.Report.{Reported, route_name, summary_text, conflict_text, slow_text, slow_line};
ghost use Rattle.station_check.specs.inside.Told.{ToldRoutes, ToldBehind, ToldPair, ToldSlow};
ghost use Rattle.std.specs.Io.KnownBytes.{Appends};

use control_table::layout::Route;
use control_table::{Aspect, Checked, Name, RouteId};
use std::io::Write;
use std::{fmt, io};

/// How many signals, points, sections and routes a station has.
#[derive(Clone, Copy, Debug)]
struct Summary {
    signals: usize,
    points: usize,
    sections: usize,
    routes: usize,
}

impl Summary {
    fn of(table: &Checked) -> Summary
        ensures { result ≡ record {
          signals = length table.now.signals;
          points = length table.now.points;
          sections = length table.now.sections;
          routes = length table.now.routes;
        } }
    {
        let layout = table.layout();
        Summary {
            signals: layout.signals().len(),
            points: layout.points().len(),
            sections: layout.sections().len(),
            routes: layout.routes().len(),
        }
    }
}

impl fmt::Display for Summary {
    ghost output = { λ s. Some (summary_text s.signals s.points s.sections s.routes) };

    fn fmt<W: fmt::Write>(&self, f: &mut fmt::Formatter<W>) -> fmt::Result {
        let signals = self.signals;
        let points = self.points;
        let sections = self.sections;
        let routes = self.routes;
        write!(
            f,
            "ok: {signals} signals, {points} points, {sections} sections, {routes} routes"
        )
    }
}

/// Two routes that conflict, the earlier one first.
#[derive(Clone, Copy, Debug)]
struct Conflict {
    earlier: Name,
    later: Name,
}

impl fmt::Display for Conflict {
    ghost output = { λ c. Some (conflict_text c.earlier c.later) };

    fn fmt<W: fmt::Write>(&self, f: &mut fmt::Formatter<W>) -> fmt::Result {
        let earlier = self.earlier.as_str();
        let later = self.later.as_str();
        write!(f, "conflict {earlier} {later}")
    }
}

/// A route that is passed slowly.
#[derive(Clone, Copy, Debug)]
struct Slow {
    route: Name,
}

impl fmt::Display for Slow {
    ghost output = { λ s. Some (slow_text s.route) };

    fn fmt<W: fmt::Write>(&self, f: &mut fmt::Formatter<W>) -> fmt::Result {
        let route = self.route.as_str();
        write!(f, "slow {route}")
    }
}

/// Writes how large the station is, each pair of conflicting routes once, in table order, and then the
/// slow routes.
pub(crate) fn write_report<W: Write>(table: &Checked, out: &mut W) -> io::Result<()>
    ensures { OnOk result (Reported table.now (W.contents out.old) (W.contents out.new)) }
{
    write_pairs(table, out)?;
    write_slow(table.layout().routes(), out)?;
    out.flush()?;
    Ok(())
}

/// Writes the slow routes, in table order.
fn write_slow<W: Write>(routes: &[Route], out: &mut W) -> io::Result<()>
    ensures { OnOk result (ToldSlow routes.now (W.contents out.old) (W.contents out.new)) }
{
    for route in routes {
        write_aspect(route, out)?;
    }
    Ok(())
}

/// Writes that a route is slow, if it is.
fn write_aspect<W: Write>(route: &Route, out: &mut W) -> io::Result<()>
    ensures { OnOk result (Appends (W.contents out.old) (W.contents out.new) (slow_line route.now)) }
{
    if matches!(route.aspect(), Aspect::Slow) {
        let route = *route.name();
        out.writeln(Slow { route })?;
    }
    Ok(())
}

/// Writes how large the station is, and then each pair of conflicting routes once, in table order.
#[tactic(auto, using(crate::proofs::ReportGrows::routes_begin))]
fn write_pairs<W: Write>(table: &Checked, out: &mut W) -> io::Result<()>
    ensures { OnOk result (ToldRoutes table.now (length table.now.routes) (W.contents out.old) (W.contents out.new)) }
{
    out.writeln(Summary::of(table))?;
    let routes = table.layout().routes().len();
    for earlier in 0..routes {
        write_conflicts(table, RouteId(earlier), out)?;
    }
    Ok(())
}

/// Writes the conflicts of a route with those after it.
fn write_conflicts<W: Write>(table: &Checked, earlier: RouteId, out: &mut W) -> io::Result<()>
    requires { earlier.0 < length table.now.routes }
    ensures { OnOk result (ToldBehind table.now earlier.0 (length table.now.routes - suc earlier.0) (W.contents out.old) (W.contents out.new)) }
{
    let routes = table.layout().routes().len();
    for later in earlier.0 + 1..routes {
        write_pair(table, earlier, RouteId(later), out)?;
    }
    Ok(())
}

/// Writes that two routes conflict, if they do.
fn write_pair<W: Write>(
    table: &Checked,
    earlier: RouteId,
    later: RouteId,
    out: &mut W,
) -> io::Result<()>
    requires { (earlier.0 < length table.now.routes) × (later.0 < length table.now.routes) }
    ensures { OnOk result (ToldPair table.now earlier.0 later.0 (W.contents out.old) (W.contents out.new)) }
{
    if !table.conflict(earlier, later) {
        return Ok(());
    }
    let earlier = route_name(table, earlier);
    let later = route_name(table, later);
    out.writeln(Conflict { earlier, later })?;
    Ok(())
}

/// The name of a route.
#[tactic(auto, unfolding(crate::specs::Report::route_name))]
fn route_name(table: &Checked, route: RouteId) -> Name
    requires { route.0 < length table.now.routes }
    ensures { result ≡ route_name table.now route.0 }
{
    *table.layout().routes()[route.0].name()
}
