//! What is wrong with a route: the first thing that fails the test of its fault.

ghost use Rattle.std.specs.Prelude.{◌≡◌, Some, option_map};
ghost use Rattle.station_layout.specs.FaultWords.{route_at_fault};
ghost use Rattle.station_layout.specs.Search.{first_of};
ghost use Rattle.station_layout.specs.declared.detail.RouteDetail.TheVariants.{Path, Points};
ghost use Rattle.station_layout.specs.RouteDetails.{break_at, detail_of, elsewhere, exit_detail, in_the_way, is_exit, is_signal, lists, open_at, table_detail, unanswered, unwritten_at};
ghost use Rattle.station_layout.specs.inside.StepsFound.{first_step_found, step_found};

use crate::detail::{PathDetail, PointDetail, RouteAdvice, RouteDetail};
use crate::joints::{joined_to, may_pass, same_port, signal_at};
use crate::layout_names::{
    exit_name, item_at, leg_names, point_name, port_name, route_at, route_name, signal_name,
};
use crate::repeats::repeated_detail;
use crate::route_sides::{guard, unused_leg};
use crate::route_start::{is_written, start_of};
use crate::side_detail::{contrary_at, lacking_at, wrong_detail};
use control_table::layout::{Element, Exit, Port, Route};
use control_table::{FaultyRoute, Layout, RouteId, TableFault};

/// The break of a path between a port and that by which the next element is left.
#[tactic(auto, unfolding(crate::specs::RouteDetails::break_at))]
fn break_at(layout: &Layout, before: Port, left: Port) -> Option<PathDetail>
    ensures { result ≡ break_at layout.now before left }
{
    match joined_to(layout.joints(), before) {
        None => Some(PathDetail::DeadEnd(port_name(layout, before)?)),
        Some(entered) if may_pass(entered, left) => None,
        Some(entered) => {
            let (before, entered) = leg_names(layout, before, entered)?;
            Some(PathDetail::Astray(before, entered, port_name(layout, left)?))
        }
    }
}

/// The point that a path leaves by this port, if it isn't written.
#[tactic(auto, unfolding(crate::specs::RouteDetails::unwritten_at))]
fn unwritten_at(layout: &Layout, route: &Route, left: Port) -> Option<RouteDetail>
    ensures { result ≡ unwritten_at layout.now route.now left }
{
    match left.element {
        Element::Point(point) if is_written(route.points(), point) => None,
        Element::Point(point) => Some(RouteDetail::Unwritten(point_name(layout, point)?)),
        _ => None,
    }
}

/// The first point of a path that isn't written.
fn first_unwritten(layout: &Layout, route: &Route, path: &[Port]) -> Option<RouteDetail>
    ensures { result ≡ first_of (unwritten_at layout.now route.now) path.now }
{
    for left in path {
        if let Some(found) = unwritten_at(layout, route, *left) {
            return Some(found);
        }
    }
    None
}

/// The leg of the point behind a port that a path doesn't use, if it is open: what is joined to it is no leg of another point,
/// and no signal stands there.
#[tactic(auto, unfolding(crate::specs::RouteDetails::open_at))]
fn open_at(layout: &Layout, before: Port, left: Port) -> Option<PathDetail>
    ensures { result ≡ open_at layout.now before left }
{
    let (leg, from) = unused_leg(layout, before, left)?;
    if guard(leg, from).is_some() || signal_at(layout.signals(), from).is_some() {
        return None;
    }
    let (leg, from) = leg_names(layout, leg, from)?;
    Some(PathDetail::OpenLeg(leg, from))
}

/// What is wrong with a step of the path of a route that begins at a port, from one port to that by which the next element is
/// left, by the test of a fault.
fn step_detail(
    layout: &Layout,
    route: &Route,
    start: Port,
    fault: &TableFault,
    before: Port,
    left: Port,
) -> Option<RouteDetail>
    ensures { result ≡ step_found layout.now route.now start fault.now before left }
{
    match fault {
        TableFault::PathBroken(_) => of_path(break_at(layout, before, left)),
        TableFault::FlankMissing(_) => of_path(lacking_at(layout, route, before, left)),
        TableFault::FlankOpen(_) => of_path(open_at(layout, before, left)),
        TableFault::FlankContradicts(_) => {
            of_points(contrary_at(layout, start, route.path(), before, left))
        }
        _ => None,
    }
}

/// What is wrong with the first step of the path of a route that fails the test of a fault.
fn first_step_detail(layout: &Layout, route: &Route, fault: &TableFault) -> Option<RouteDetail>
    ensures { result ≡ first_step_found layout.now route.now fault.now }
{
    let start = start_of(layout, route)?;
    let path = route.path();
    let mut before = start;
    for left in path {
        if let Some(found) = step_detail(layout, route, start, fault, before, *left) {
            return Some(found);
        }
        before = *left;
    }
    None
}

/// Whether an exit is at a port: the signal stands there, or the border is joined to it.
#[tactic(auto, unfolding(crate::specs::RouteDetails::is_exit))]
fn is_exit(layout: &Layout, exit: Exit, port: Port) -> bool
    ensures { result ≡ is_exit layout.now exit port }
{
    match exit {
        Exit::Signal(signal) => match item_at(layout.signals(), signal.0) {
            Some(signal) => same_port(signal.at, port),
            None => false,
        },
        Exit::Border(border) => match joined_to(layout.joints(), port) {
            Some(beyond) => beyond.element == Element::Border(border),
            None => false,
        },
    }
}

/// Whether an exit is the signal of this place.
#[tactic(auto, unfolding(crate::specs::RouteDetails::is_signal))]
fn is_signal(exit: Exit, place: usize) -> bool
    ensures { result ≡ is_signal exit place }
{
    match exit {
        Exit::Signal(signal) => signal.0 == place,
        Exit::Border(_) => false,
    }
}

/// The signal at a port by which the path leaves an element, where it isn't the exit.
#[tactic(auto, unfolding(crate::specs::RouteDetails::in_the_way))]
fn in_the_way(layout: &Layout, exit: Exit, left: Port) -> Option<PathDetail>
    ensures { result ≡ in_the_way layout.now exit left }
{
    let place = signal_at(layout.signals(), left)?;
    if is_signal(exit, place) {
        return None;
    }
    let name = signal_name(layout, place)?;
    let at = port_name(layout, left)?;
    Some(PathDetail::InTheWay(name, at))
}

/// The first signal on a path that stands in the way.
fn first_in_the_way(layout: &Layout, exit: Exit, path: &[Port]) -> Option<PathDetail>
    ensures { result ≡ first_of (in_the_way layout.now exit) path.now }
{
    for left in path {
        if let Some(found) = in_the_way(layout, exit, *left) {
            return Some(found);
        }
    }
    None
}

/// That a path ends at a port where the exit isn't.
fn elsewhere(layout: &Layout, exit: Exit, last: Port) -> Option<PathDetail>
    ensures { result ≡ elsewhere layout.now exit last }
{
    let end = port_name(layout, last)?;
    Some(PathDetail::EndsElsewhere(end, exit_name(layout, exit)?))
}

/// What is wrong with the exit of a route, or which signal stands in the way.
#[tactic(auto, unfolding(crate::specs::RouteDetails::exit_detail))]
fn exit_detail(layout: &Layout, route: &Route) -> Option<PathDetail>
    ensures { result ≡ exit_detail layout.now route.now }
{
    let path = route.path();
    let last = *path.last()?;
    let exit = route.exit();
    if !is_exit(layout, exit, last) {
        return elsewhere(layout, exit, last);
    }
    let entry = route.entry().0;
    if is_signal(exit, entry) {
        return Some(PathDetail::EndsAtEntry(signal_name(layout, entry)?));
    }
    first_in_the_way(layout, exit, path)
}

/// Whether a route lists another as an extra conflict.
#[tactic(auto, unfolding(crate::specs::RouteDetails::is_listed, crate::specs::RouteDetails::lists))]
fn lists(layout: &Layout, route: RouteId, other: RouteId) -> bool
    ensures { result ≡ lists layout.now route other }
{
    match route_at(layout, route) {
        Some(entry) => entry.extra().contains(&other),
        None => false,
    }
}

/// What is wrong with a route that lists another one, if it is the same, or if that doesn't list it.
#[tactic(auto, unfolding(crate::specs::RouteDetails::unanswered))]
fn unanswered(layout: &Layout, route: RouteId, other: RouteId) -> Option<RouteDetail>
    ensures { result ≡ unanswered layout.now route other }
{
    if other.0 == route.0 {
        return Some(RouteDetail::WithItself);
    }
    if lists(layout, other, route) {
        return None;
    }
    Some(RouteDetail::Unanswered(route_name(layout, other)?))
}

/// The first of these routes that a route lists, and that is the route itself or doesn't list it.
fn first_unanswered(layout: &Layout, route: RouteId, extra: &[RouteId]) -> Option<RouteDetail>
    ensures { result ≡ first_of (unanswered layout.now route) extra.now }
{
    for other in extra {
        if let Some(found) = unanswered(layout, route, *other) {
            return Some(found);
        }
    }
    None
}

/// What is wrong with a route, if this is wrong with its path.
fn of_path(detail: Option<PathDetail>) -> Option<RouteDetail>
    ensures { result ≡ option_map Path detail }
{
    match detail {
        Some(detail) => Some(RouteDetail::Path(detail)),
        None => None,
    }
}

/// What is wrong with a route, if this is wrong with its points.
fn of_points(detail: Option<PointDetail>) -> Option<RouteDetail>
    ensures { result ≡ option_map Points detail }
{
    match detail {
        Some(detail) => Some(RouteDetail::Points(detail)),
        None => None,
    }
}

/// What is wrong with a route that has a fault.
#[tactic(auto, unfolding(crate::specs::RouteDetails::detail_of, crate::specs::RouteDetails::broken_detail))]
fn detail_of(layout: &Layout, route: &Route, id: RouteId, fault: &TableFault) -> Option<RouteDetail>
    ensures { result ≡ detail_of layout.now route.now id fault.now }
{
    match fault {
        TableFault::PathBroken(_) if route.path().is_empty() => {
            Some(RouteDetail::Path(PathDetail::Empty))
        }
        TableFault::PathRepeats(_) => of_path(repeated_detail(layout, route)),
        TableFault::PointMissing(_) => first_unwritten(layout, route, route.path()),
        TableFault::PointWrong(_) => of_points(wrong_detail(layout, route)),
        TableFault::SignalPlace(_) => of_path(exit_detail(layout, route)),
        TableFault::NotSymmetric(_) => first_unanswered(layout, id, route.extra()),
        _ => first_step_detail(layout, route, fault),
    }
}

/// The route at which a fault is told.
pub(crate) fn route_at_fault(fault: &TableFault) -> Option<FaultyRoute>
    ensures { result ≡ route_at_fault fault.now }
{
    match fault {
        TableFault::PathBroken(at)
        | TableFault::PathRepeats(at)
        | TableFault::PointMissing(at)
        | TableFault::PointWrong(at)
        | TableFault::FlankMissing(at)
        | TableFault::FlankOpen(at)
        | TableFault::FlankContradicts(at)
        | TableFault::SignalPlace(at)
        | TableFault::NotSymmetric(at) => Some(*at),
        TableFault::OutOfMemory => None,
    }
}

/// What is told of a fault of the table: what is wrong with its route, by name, where that is found.
#[tactic(auto, unfolding(crate::specs::RouteDetails::table_detail))]
pub(crate) fn table_detail(layout: &Layout, fault: &TableFault) -> Option<RouteAdvice>
    ensures { result ≡ table_detail layout.now fault.now }
{
    let route = route_at_fault(fault)?;
    let entry = route_at(layout, route.id)?;
    let detail = detail_of(layout, entry, route.id, fault)?;
    Some(RouteAdvice { route, detail })
}
