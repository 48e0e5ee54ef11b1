//! What an interlocking knows of each thing of its station.

ghost use Rattle.std.specs.Prelude.{◌≡◌, ◌<◌, ◌+◌, ◌&&◌, is_some, length};
ghost use Rattle.std.specs.Option.{option_map};
ghost use Rattle.simulator_spec.specs.layout.declared.ids.RouteId.{RouteId};
ghost use Rattle.simulator_spec.specs.ixl_spec.Table.{at};
ghost use Rattle.simulator_spec.specs.ixl_spec.View.{authority_from, indicated, is_clear, is_holding, is_known, is_occupied, is_point_ready, is_set, is_signal_ready};
ghost use Rattle.simulator_spec.specs.sci_telegram.declared.message.Side.TheVariants as sides;
ghost use Rattle.node_kinds.specs.Interlockings.{authority_of, auxiliary_at, closing_at, closing_known, count, counter_known, indication, is_detector_ready, is_released, known_at, link_known, occupancy_known, readiness, release_known, side_known};

use crate::thing::Thing;
use ixl::Interlocking;
use ixl_state::ixl_table::Table;
use ixl_state::{Route, State};
use node_drive::node_lines::{
    Authority, Auxiliary, AuxiliaryCounts, Known, LinkState, Thing as Closable,
};
use simulator_spec::{Millis, NodeId, Occupancy, PointId, RouteId, SectionId, Side, SignalId};

/// What is known of the link to the controller of a place among all.
fn link(place: usize, ready: bool) -> Option<Known>
    requires { place < 80 }
    ensures { result ≡ link_known place ready }
{
    let state = if ready {
        LinkState::Ready
    } else {
        LinkState::Lost
    };
    Some(Known::Link {
        node: NodeId(place + 1),
        state,
    })
}

/// The link to the controller of a signal.
fn signal_link(state: &State, place: usize) -> Option<Known>
    requires { place < length state.now.ixl.known_signals }
    ensures { result ≡ link_known place (is_signal_ready state.now.ixl place) }
{
    state.table();
    link(place, state.field().is_signal_ready(place))
}

/// The link to the controller of a point.
fn point_link(state: &State, place: usize) -> Option<Known>
    requires { place < length state.now.ixl.known_points }
    ensures { result ≡ link_known (length state.now.ixl.known_signals + place) (is_point_ready state.now.ixl place) }
{
    state.table();
    let field = state.field();
    link(field.signals() + place, field.is_point_ready(place))
}

/// The link to a detector.
fn detector_link(state: &State, place: usize) -> Option<Known>
    requires { place < length state.now.ixl.detectors }
    ensures { result ≡ link_known (length state.now.ixl.known_signals + length state.now.ixl.known_points + place) (is_detector_ready state.now.ixl place) }
{
    state.table();
    let field = state.field();
    link(
        field.signals() + field.points() + place,
        field.is_detector_ready(place),
    )
}

/// Whether a section is clear or occupied.
fn section(state: &State, place: usize) -> Option<Occupancy>
    ensures { result ≡ occupancy_known (is_clear state.now.sited.table state.now.ixl place) (is_occupied state.now.sited.table state.now.ixl place) }
{
    let field = state.field();
    if field.is_clear(place) {
        Some(Occupancy::Clear)
    } else if field.is_occupied(place) {
        Some(Occupancy::Occupied)
    } else {
        None
    }
}

/// At which side a point lies.
fn point(state: &State, place: usize) -> Option<Side>
    ensures { result ≡ side_known (is_known state.now.ixl place sides.Right) (is_known state.now.ixl place sides.Left) }
{
    let field = state.field();
    if field.is_known(place, Side::Right) {
        Some(Side::Right)
    } else if field.is_known(place, Side::Left) {
        Some(Side::Left)
    } else {
        None
    }
}

/// Whether a route is set.
fn is_route_set(state: &State, place: usize) -> bool
    requires { place < length state.now.ixl.routes }
    ensures { result ≡ at state.now.ixl.routes place (λ route. is_set route.phase) }
{
    state.table();
    state.route(place).is_set()
}

/// The route with its aspect.
fn authority_of(table: &Table, route: Option<RouteId>) -> Option<Authority>
    ensures { result ≡ authority_of table.now.table.rows (option_map (λ (r : RouteId). r.0) route) }
{
    let route = route?;
    let row = table.rows().get(route.0)?;
    Some(Authority {
        aspect: row.aspect(),
        route,
    })
}

/// What is known of a signal's authority.
fn signal(ixl: &Interlocking, place: usize) -> Option<Authority>
    ensures { result ≡ authority_of ixl.now.state.sited.table.rows (authority_from place 0 ixl.now.state.sited.table.rows ixl.now.state.ixl.routes) }
{
    authority_of(ixl.table(), ixl.authority(SignalId(place)))
}

/// What a signal's controller reports that it shows.
fn indication(ixl: &Interlocking, place: usize) -> Option<Known>
    ensures { result ≡ indication place (indicated ixl.now.state.ixl place) }
{
    let signal = SignalId(place);
    let aspect = ixl.indicated(signal)?;
    Some(Known::Indicates { signal, aspect })
}

/// Whether a route is set, and was released.
fn is_set_and_released(route: Route) -> bool
    ensures { result ≡ (is_set route.phase && is_some route.released) }
{
    route.is_set() && route.released().is_some()
}

/// The same of a route of the table.
fn is_released(state: &State, place: usize) -> bool
    requires { place < length state.now.ixl.routes }
    ensures { result ≡ is_released state.now.ixl place }
{
    state.table();
    is_set_and_released(state.route(place))
}

/// That a route was released, if it is set and was.
fn release(state: &State, place: usize) -> Option<Known>
    requires { place < length state.now.ixl.routes }
    ensures { result ≡ release_known place (is_released state.now.ixl place) }
{
    if is_released(state, place) {
        Some(Known::Released {
            route: RouteId(place),
        })
    } else {
        None
    }
}

/// Whether a thing is closed.
fn closing(state: &State, thing: Closable) -> Option<Known>
    ensures { result ≡ closing_known state.now.ixl thing }
{
    let is_closed = state.closed().is_closed(thing);
    Some(Known::Closing { thing, is_closed })
}

/// How many auxiliary commands of the kind at a place were accepted; nothing is told of none.
fn counter(counts: AuxiliaryCounts, place: usize) -> Option<Known>
    ensures { result ≡ counter_known counts (auxiliary_at place) }
{
    let command = auxiliary_at(place);
    let count = counts.count(command);
    if count == 0 {
        None
    } else {
        Some(Known::Counted { command, count })
    }
}

/// The kinds of auxiliary commands, by place.
fn auxiliary_at(place: usize) -> Auxiliary
    ensures { result ≡ auxiliary_at place }
{
    if place == 0 {
        Auxiliary::Release
    } else {
        Auxiliary::Open
    }
}

/// Whether requests are taken.
fn readiness(ixl: &Interlocking, now: Millis) -> Option<Known>
    ensures { result ≡ readiness (is_holding now ixl.now.state.ixl) ixl.now.state.ixl.resumed }
{
    if ixl.holding(now) {
        Some(Known::Holding)
    } else if ixl.state().is_resumed() {
        None
    } else {
        Some(Known::WaitingForResume)
    }
}

/// How many things of a kind there are.
pub(crate) fn count(ixl: &Interlocking, thing: Thing) -> usize
    ensures { result ≡ count ixl.now.state.sited.site ixl.now.state.ixl thing }
{
    let state = ixl.state();
    let field = state.field();
    match thing {
        Thing::SignalLink | Thing::Signal | Thing::Indication => field.signals(),
        Thing::PointLink | Thing::Point => field.points(),
        Thing::DetectorLink => field.detectors(),
        Thing::Section => state.table().checked().layout().sections().len(),
        Thing::Route | Thing::Release => state.table().rows().len(),
        Thing::SectionClosing => state.table().checked().layout().sections().len(),
        Thing::LeftClosing | Thing::RightClosing => field.points(),
        Thing::SignalClosing => field.signals(),
        Thing::RouteClosing => state.table().rows().len(),
        Thing::Counter => 2,
        Thing::Readiness => 1,
    }
}

/// What is known of the thing of a kind at a place.
pub(crate) fn known_at(
    ixl: &Interlocking,
    counts: AuxiliaryCounts,
    now: Millis,
    thing: Thing,
    place: usize,
) -> Option<Known>
    requires { place < count ixl.now.state.sited.site ixl.now.state.ixl thing }
    ensures { result ≡ known_at ixl.now.state.sited.table counts now ixl.now.state.ixl thing place }
{
    let state = ixl.state();
    match thing {
        Thing::SignalLink => signal_link(state, place),
        Thing::PointLink => point_link(state, place),
        Thing::DetectorLink => detector_link(state, place),
        Thing::Section => Some(Known::Section {
            section: SectionId(place),
            occupancy: section(state, place),
        }),
        Thing::Point => Some(Known::Point {
            point: PointId(place),
            side: point(state, place),
        }),
        Thing::Signal => Some(Known::Signal {
            signal: SignalId(place),
            authority: signal(ixl, place),
        }),
        Thing::Indication => indication(ixl, place),
        Thing::Route => Some(Known::Route {
            route: RouteId(place),
            is_set: is_route_set(state, place),
        }),
        Thing::Release => release(state, place),
        Thing::Counter => counter(counts, place),
        Thing::Readiness => readiness(ixl, now),
        closing => closing_at(state, closing, place),
    }
}

/// Whether what a kind of closing is of is closed, at a place.
fn closing_at(state: &State, thing: Thing, place: usize) -> Option<Known>
    ensures { result ≡ closing_at state.now.ixl thing place }
{
    match thing {
        Thing::SectionClosing => closing(state, Closable::Section(SectionId(place))),
        Thing::LeftClosing => closing(state, Closable::Point(PointId(place), Side::Left)),
        Thing::RightClosing => closing(state, Closable::Point(PointId(place), Side::Right)),
        Thing::SignalClosing => closing(state, Closable::Signal(SignalId(place))),
        Thing::RouteClosing => closing(state, Closable::Route(RouteId(place))),
        _ => None,
    }
}
