//! Where the signals of a route stand.

ghost use Rattle.std.specs.Prelude.{◌≡◌};
ghost use Rattle.control_table.specs.Topology.{port_of};
ghost use Rattle.control_table.specs.inside.TableTests.{same_exit, is_other_at, names_route, stands_at, none_between, leads_out, is_exit, ends_at_exit, no_other_at, signals_placed, lists, lists_in, extras_listed};
ghost use Rattle.std.specs.Option.{option_map};

use crate::passage::Passage;
use crate::topology::{is_element, is_port, joined_to};
use layout::{BorderId, Element, Exit, Joint, Layout, Port, Route, RouteId, Signal, SignalId};

/// The port at which a signal stands.
pub(crate) fn port_of(signals: &[Signal], signal: SignalId) -> Option<Port>
    ensures { result ≡ port_of signals.now signal }
{
    signals.get(signal.0).map(|entry| entry.at)
}

/// Whether a signal stands at a port.
fn stands_at(signals: &[Signal], signal: SignalId, port: Port) -> bool
    ensures { result ≡ stands_at signals.now signal port }
{
    match port_of(signals, signal) {
        Some(at) => is_port(at, port),
        None => false,
    }
}

/// Whether two exits are the same.
fn same_exit(one: Exit, other: Exit) -> bool
    ensures { result ≡ same_exit one other }
{
    match (one, other) {
        (Exit::Signal(one), Exit::Signal(other)) => one.0 == other.0,
        (Exit::Border(one), Exit::Border(other)) => one.0 == other.0,
        _ => false,
    }
}

/// Whether a port is joined to a border.
fn leads_out(joints: &[Joint], port: Port, border: BorderId) -> bool
    ensures { result ≡ leads_out joints.now port border }
{
    match joined_to(joints, port) {
        Some(beyond) => is_element(beyond.element, Element::Border(border)),
        None => false,
    }
}

/// Whether the exit is at a port: the signal stands there, or the border is joined to it.
fn is_exit(layout: &Layout, exit: Exit, port: Port) -> bool
    ensures { result ≡ is_exit layout.now exit port }
{
    match exit {
        Exit::Signal(signal) => stands_at(layout.signals(), signal, port),
        Exit::Border(border) => leads_out(layout.joints(), port, border),
    }
}

/// Whether a path ends at its exit.
#[tactic(auto, unfolding(crate::specs::inside::TableTests::ends_at_exit))]
fn ends_at_exit(layout: &Layout, exit: Exit, path: &[Passage]) -> bool
    ensures { result ≡ ends_at_exit layout.now exit path.now }
{
    match path.last() {
        Some(last) => is_exit(layout, exit, last.left),
        None => false,
    }
}

/// Whether a signal stands at a port and isn't the exit.
#[tactic(auto, unfolding(crate::specs::inside::TableTests::is_other_at))]
fn is_other_at(signal: &Signal, id: SignalId, exit: Exit, port: Port) -> bool
    ensures { result ≡ is_other_at signal.now id exit port }
{
    is_port(signal.at, port) && !same_exit(exit, Exit::Signal(id))
}

/// Whether no signal but the exit stands at a port.
fn no_other_at(signals: &[Signal], exit: Exit, port: Port) -> bool
    ensures { result ≡ no_other_at 0 signals.now exit port }
{
    for (place, signal) in signals.iter().enumerate() {
        if is_other_at(signal, SignalId(place), exit, port) {
            return false;
        }
    }
    true
}

/// Whether no other signal than the exit stands at a port by which the path leaves an element.
fn none_between(signals: &[Signal], exit: Exit, path: &[Passage]) -> bool
    ensures { result ≡ none_between signals.now exit path.now }
{
    path.iter()
        .all(|passage| no_other_at(signals, exit, passage.left))
}

/// Whether the path ends at the exit, which isn't the entry, and no signal stands between.
#[tactic(auto, unfolding(crate::specs::inside::TableTests::signals_placed))]
pub(crate) fn signals_placed(layout: &Layout, route: &Route, path: &[Passage]) -> bool
    ensures { result ≡ signals_placed layout.now route.now path.now }
{
    ends_at_exit(layout, route.exit(), path)
        && !same_exit(route.exit(), Exit::Signal(route.entry()))
        && none_between(layout.signals(), route.exit(), path)
}

/// Whether a route stands in a list.
fn names_route(extra: &[RouteId], other: RouteId) -> bool
    ensures { result ≡ names_route extra.now other }
{
    extra.iter().any(|listed| listed.0 == other.0)
}

/// Whether a route, if it is one, lists another as an extra conflict.
fn lists_in(route: Option<&Route>, other: RouteId) -> bool
    ensures { result ≡ lists_in other (option_map (λ r. r.now) route.entry) }
{
    match route {
        Some(route) => names_route(route.extra(), other),
        None => false,
    }
}

/// Whether a route lists another as an extra conflict.
#[tactic(auto, unfolding(crate::specs::inside::TableTests::lists))]
pub(crate) fn lists(routes: &[Route], route: RouteId, other: RouteId) -> bool
    ensures { result ≡ lists routes.now route other }
{
    lists_in(routes.get(route.0), other)
}

/// Whether each extra conflict of a route is listed the other way too, and is none with itself.
#[tactic(auto, unfolding(crate::specs::inside::TableTests::extras_listed))]
pub(crate) fn extras_listed(routes: &[Route], id: RouteId, extra: &[RouteId]) -> bool
    ensures { result ≡ extras_listed routes.now id extra.now }
{
    extra
        .iter()
        .all(|other| other.0 != id.0 && lists(routes, *other, id))
}
