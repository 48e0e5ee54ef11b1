//! What a route uses, and what stands against its use: things that are closed, and points in closed sections.

ghost use Rattle.std.specs.Prelude.{◌≡◌, ◌<◌, ◌==◌, ◌&&◌, ◌||◌, not, ◌∷◌, ◌++◌, length, map, Some, if◌then◌else◌};
ghost use Rattle.ixl_state.specs.ixl_spec.Operations.{awaits_in_named, awaits_point_in, counts_as_closed, first_holding, first_keeping_open, keeps_open, lies_in, lies_in_closed, need_thing, section_thing, signal_thing, things_used, uses, uses_named};
ghost use Rattle.ixl_state.specs.ixl_spec.Table.{is_same_side};
ghost use Rattle.ixl_state.specs.ixl_spec.View.{holds_need, holds_point, holds_point_at, is_known, is_set};
ghost use Rattle.ixl_state.specs.ixl_spec.closings.Closed.{is_closed};
ghost use Rattle.ixl_state.specs.State.{AtRoute};
ghost use Rattle.ixl.specs.inside.Parts.{first_where};

use crate::field_known::{is_point_known, row_of};
use ixl_state::ixl_table::{Need, Row};
use ixl_state::{Named, PointId, Route, RouteId, SectionId, Side, SignalId, State, Thing};

// ---- what a route holds

/// Whether two sides are the same.
fn is_same_side(one: Side, other: Side) -> bool
    ensures { result ≡ is_same_side one other }
{
    one == other
}

/// Whether a route holds a point that it requires: it is set, and the sections that the point awaits aren't freed.
fn holds_need(route: Route, need: Need) -> bool
    ensures { result ≡ holds_need route.phase need }
{
    route.is_set() && route.freed_sections() < need.until()
}

/// Whether a route holds a point, at whichever side.
fn holds_point(row: &Row, route: Route, point: usize) -> bool
    ensures { result ≡ holds_point row.now route.phase point }
{
    row.needs()
        .iter()
        .any(|need| need.point() == point && holds_need(route, *need))
}

/// Whether a route holds a point at a side.
fn holds_point_at(row: &Row, route: Route, point: usize, side: Side) -> bool
    ensures { result ≡ holds_point_at row.now route.phase point side }
{
    row.needs().iter().any(|need| need.point() == point
        && is_same_side(need.side(), side)
        && holds_need(route, *need))
}

// ---- what a route uses

/// Whether a route is set from a signal.
fn is_set_from(row: &Row, route: Route, signal: usize) -> bool
    ensures { result ≡ (is_set route.phase && row.now.entry == signal) }
{
    route.is_set() && row.entry() == signal
}

/// Whether a route is set, and is the one with this number.
fn is_set_as(number: usize, route: Route, other: usize) -> bool
    ensures { result ≡ (is_set route.phase && number == other) }
{
    route.is_set() && number == other
}

/// Whether a set route uses a thing.
fn uses(state: &State, number: usize, thing: Thing) -> bool
    requires { number < length state.now.sited.table.rows }
    ensures { AtRoute state.now number (λ row route. result ≡ uses number row route thing) }
{
    let row = row_of(state, number);
    let route = state.route(number);
    match thing {
        Thing::Section(section) => state.locked(number).contains(section.0),
        Thing::Point(point, side) => holds_point_at(row, route, point.0, side),
        Thing::Signal(signal) => is_set_from(row, route, signal.0),
        Thing::Route(other) => is_set_as(number, route, other.0),
    }
}

/// Whether a route holds a point, at whichever side.
fn holds(state: &State, number: usize, point: usize) -> bool
    requires { number < length state.now.sited.table.rows }
    ensures { AtRoute state.now number (λ row route. result ≡ holds_point row route.phase point) }
{
    holds_point(row_of(state, number), state.route(number), point)
}

/// Whether a set route uses what a command names.
fn uses_named(state: &State, number: usize, named: Named) -> bool
    requires { number < length state.now.sited.table.rows }
    ensures { AtRoute state.now number (λ row route. result ≡ uses_named number row route named) }
{
    match named {
        Named::One(thing) => uses(state, number, thing),
        Named::BothSides(point) => holds(state, number, point.0),
    }
}

// ---- points in closed sections

/// Whether a point lies in a section.
fn lies_in(state: &State, section: usize, point: usize) -> bool
    ensures { result ≡ lies_in state.now.sited.table section point }
{
    let sections = state.table().point_sections();
    point < sections.len() && sections[point] == section
}

/// Whether a point lies in a section that is closed.
pub(crate) fn lies_in_closed(state: &State, point: usize) -> bool
    ensures { result ≡ lies_in_closed state.now.sited.table state.now.ixl point }
{
    let sections = state.table().point_sections();
    point < sections.len() && is_section_closed(state, sections[point])
}

/// Whether a route holds a point that it requires, and the point isn't known at this side.
fn awaits_need(state: &State, route: Route, need: Need) -> bool
    ensures { result ≡ (holds_need route.phase need && not (is_known state.now.ixl need.point need.side)) }
{
    holds_need(route, need) && !is_point_known(state, need.point(), need.side())
}

/// Whether one of the points of a row lies in a section, and is awaited.
fn awaits_some_in(state: &State, row: &Row, route: Route, section: usize) -> bool
    ensures { result ≡ awaits_point_in state.now.sited.table state.now.ixl row.now route section }
{
    row.needs().iter().any(|need| lies_in(state, section, need.point())
        && awaits_need(state, route, *need))
}

/// Whether a route holds a point of a section at a side at which it isn't known.
fn awaits_point_in(state: &State, number: usize, section: usize) -> bool
    requires { number < length state.now.sited.table.rows }
    ensures { AtRoute state.now number (λ row route. result ≡ awaits_point_in state.now.sited.table state.now.ixl row route section) }
{
    awaits_some_in(state, row_of(state, number), state.route(number), section)
}

/// Whether a route awaits a point in what a command names.
fn awaits_in_named(state: &State, number: usize, named: Named) -> bool
    requires { number < length state.now.sited.table.rows }
    ensures { AtRoute state.now number (λ row route. result ≡ awaits_in_named state.now.sited.table state.now.ixl row route named) }
{
    match named {
        Named::One(Thing::Section(section)) => awaits_point_in(state, number, section.0),
        _ => false,
    }
}

/// Whether a route uses what a command names, or awaits a point in it.
fn is_in_use(state: &State, number: usize, named: Named) -> bool
    requires { number < length state.now.sited.table.rows }
    ensures { AtRoute state.now number (λ row route. result ≡ (uses_named number row route named || awaits_in_named state.now.sited.table state.now.ixl row route named)) }
{
    uses_named(state, number, named) || awaits_in_named(state, number, named)
}

/// Whether a route keeps what a command names open: it isn't cancelled, and uses it, or awaits a point in it.
fn keeps_open(state: &State, number: usize, named: Named) -> bool
    requires { number < length state.now.sited.table.rows }
    ensures { AtRoute state.now number (λ row route. result ≡ keeps_open state.now.sited.table state.now.ixl named number row route) }
{
    !state.route(number).is_cancelled() && is_in_use(state, number, named)
}

// ---- the first of them

/// The first set route that holds a point.
pub(crate) fn first_holding(state: &State, point: usize) -> Option<usize>
    ensures { result ≡ first_holding state.now.sited.table state.now.ixl point }
{
    for number in 0..state.table().rows().len() {
        if holds(state, number, point) {
            return Some(number);
        }
    }
    None
}

/// The first route that keeps what a command names open.
pub(crate) fn first_keeping_open(state: &State, named: Named) -> Option<usize>
    ensures { result ≡ first_keeping_open state.now.sited.table state.now.ixl named }
{
    for number in 0..state.table().rows().len() {
        if keeps_open(state, number, named) {
            return Some(number);
        }
    }
    None
}

// ---- what counts as closed

/// Whether a thing is closed.
pub(crate) fn is_closed(state: &State, thing: Thing) -> bool
    ensures { result ≡ is_closed state.now.ixl.closed thing }
{
    let closed = state.closed();
    closed.is_closed(thing)
}

/// Whether a section is closed.
fn is_section_closed(state: &State, section: usize) -> bool
    ensures { result ≡ counts_as_closed state.now.sited.table state.now.ixl (section_thing section) }
{
    is_closed(state, Thing::Section(SectionId(section)))
}

/// Whether a point lies in a closed section, and isn't known at a side.
fn is_kept_from(state: &State, point: usize, side: Side) -> bool
    ensures { result ≡ (lies_in_closed state.now.sited.table state.now.ixl point && not (is_known state.now.ixl point side)) }
{
    lies_in_closed(state, point) && !is_point_known(state, point, side)
}

/// Whether a point counts as closed at the side at which it is required: it is closed there, or lies in a closed section and
/// isn't known at this side.
fn is_need_closed(state: &State, need: Need) -> bool
    ensures { result ≡ counts_as_closed state.now.sited.table state.now.ixl (need_thing need) }
{
    let point = need.point();
    let side = need.side();
    is_closed(state, Thing::Point(PointId(point), side)) || is_kept_from(state, point, side)
}

// ---- the first thing that counts as closed

/// The first of these sections that is closed.
fn first_closed_section(state: &State, sections: &[usize]) -> Option<usize>
    ensures { result ≡ first_where (λ section. counts_as_closed state.now.sited.table state.now.ixl (section_thing section)) sections.now }
{
    for section in sections {
        if is_section_closed(state, *section) {
            return Some(*section);
        }
    }
    None
}

/// The first of these points that counts as closed at its side.
fn first_closed_need(state: &State, needs: &[Need]) -> Option<Need>
    ensures { result ≡ first_where (λ need. counts_as_closed state.now.sited.table state.now.ixl (need_thing need)) needs.now }
{
    for need in needs {
        if is_need_closed(state, *need) {
            return Some(*need);
        }
    }
    None
}

/// The first of a route's points that counts as closed at its side, as a thing.
fn first_closed_point(state: &State, needs: &[Need]) -> Option<Thing>
    ensures { result ≡ first_where (counts_as_closed state.now.sited.table state.now.ixl) (map need_thing needs.now) }
{
    match first_closed_need(state, needs) {
        Some(need) => Some(Thing::Point(PointId(need.point()), need.side())),
        None => None,
    }
}

/// The first of a route's sections, or else of its points, that counts as closed.
fn first_closed_track(state: &State, row: &Row) -> Option<Thing>
    ensures { result ≡ first_where (counts_as_closed state.now.sited.table state.now.ixl) (map section_thing row.now.sections ++ map need_thing row.now.needs) }
{
    match first_closed_section(state, row.sections()) {
        Some(section) => Some(Thing::Section(SectionId(section))),
        None => first_closed_point(state, row.needs()),
    }
}

/// A thing where it is closed, or else another.
fn closed_or(state: &State, thing: Thing, other: Option<Thing>) -> Option<Thing>
    ensures { result ≡ (if is_closed state.now.ixl.closed thing then Some thing else other) }
{
    if is_closed(state, thing) {
        Some(thing)
    } else {
        other
    }
}

/// The first of a route's entry signal, its sections and its points that counts as closed.
fn first_closed_on_it(state: &State, row: &Row) -> Option<Thing>
    ensures { result ≡ first_where (counts_as_closed state.now.sited.table state.now.ixl) (signal_thing row.now.entry ∷ (map section_thing row.now.sections ++ map need_thing row.now.needs)) }
{
    let signal = Thing::Signal(SignalId(row.entry()));
    closed_or(state, signal, first_closed_track(state, row))
}

/// The first thing of a row that counts as closed.
fn first_closed_of(state: &State, number: usize, row: &Row) -> Option<Thing>
    ensures { result ≡ first_where (counts_as_closed state.now.sited.table state.now.ixl) (things_used number row.now) }
{
    let own = Thing::Route(RouteId(number));
    closed_or(state, own, first_closed_on_it(state, row))
}

/// The first thing that counts as closed of those that a route would use: the route, its entry signal, its sections in path
/// order, and its required points in layout order at the required side.
pub(crate) fn first_closed(state: &State, number: usize) -> Option<Thing>
    requires { number < length state.now.sited.table.rows }
    ensures { AtRoute state.now number (λ row route. result ≡ first_where (counts_as_closed state.now.sited.table state.now.ixl) (things_used number row)) }
{
    first_closed_of(state, number, row_of(state, number))
}
