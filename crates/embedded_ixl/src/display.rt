//! What is known of the things of a station, for a display. What stands at no place isn't known, and no route there is set.

ghost use Rattle.std.specs.Prelude.{◌≡◌};
ghost use Rattle.std.specs.Option.{option_map};
ghost use Rattle.ixl_state.specs.layout.Nodes.{meant_node};
ghost use Rattle.ixl_state.specs.layout.declared.ids.RouteId.{RouteId};
ghost use Rattle.ixl_state.specs.ixl_spec.View.{authority_from, is_clear, is_holding, is_known, is_occupied, is_point_ready, is_signal_ready};
ghost use Rattle.ixl_state.specs.sci_telegram.declared.message.Side.TheVariants as sides;
ghost use Rattle.embedded_ixl.specs.Display.{authority_of, is_detector_linked, is_linked, is_node_linked, is_set_at, occupancy_known, readiness_of, side_known};

use ixl::Interlocking;
use ixl_state::ixl_table::Table;
use ixl_state::{Aspect, Layout, Millis, Node, NodeId, Occupancy, RouteId, Side, SignalId, State};

/// The route that has authority from a signal, and the aspect that goes with it.
#[derive(Clone, Copy)]
pub struct Authority {
    pub route: RouteId,
    pub aspect: Aspect,
}

/// Whether requests are taken.
#[derive(Clone, Copy, PartialEq, Eq)]
pub enum Readiness {
    /// Not in the first 6000 ms after its start.
    Holding,
    /// Not before it is told to resume.
    WaitingForResume,
    TakesRequests,
}

/// The route with its aspect.
fn authority_of(table: &Table, route: Option<RouteId>) -> Option<Authority>
    ensures { result ≡ authority_of table.now.table.rows (option_map (λ (r : RouteId). r.0) route) }
{
    let route = route?;
    let row = table.rows().get(route.0)?;
    Some(Authority {
        route,
        aspect: row.aspect(),
    })
}

/// The route that has authority from a signal.
pub(crate) fn authority_at(ixl: &Interlocking, place: usize) -> Option<Authority>
    ensures { result ≡ authority_of ixl.now.state.sited.table.rows (authority_from place 0 ixl.now.state.sited.table.rows ixl.now.state.ixl.routes) }
{
    authority_of(ixl.table(), ixl.authority(SignalId(place)))
}

/// Whether a section is clear or occupied.
pub(crate) fn section(state: &State, place: usize) -> Option<Occupancy>
    ensures { result ≡ occupancy_known (is_clear state.now.sited.table state.now.ixl place) (is_occupied state.now.sited.table state.now.ixl place) }
{
    let field = state.field();
    if field.is_clear(place) {
        Some(Occupancy::Clear)
    } else if field.is_occupied(place) {
        Some(Occupancy::Occupied)
    } else {
        None
    }
}

/// At which side a point lies.
pub(crate) fn point(state: &State, place: usize) -> Option<Side>
    ensures { result ≡ side_known (is_known state.now.ixl place sides.Right) (is_known state.now.ixl place sides.Left) }
{
    let field = state.field();
    if field.is_known(place, Side::Right) {
        Some(Side::Right)
    } else if field.is_known(place, Side::Left) {
        Some(Side::Left)
    } else {
        None
    }
}

/// Whether a signal's link is ready.
fn is_signal_linked(state: &State, place: usize) -> bool
    ensures { result ≡ is_signal_ready state.now.ixl place }
{
    state.field().is_signal_ready(place)
}

/// Whether a point's link is ready.
fn is_point_linked(state: &State, place: usize) -> bool
    ensures { result ≡ is_point_ready state.now.ixl place }
{
    state.field().is_point_ready(place)
}

/// Whether a detector's link is ready.
fn is_detector_linked(state: &State, place: usize) -> bool
    ensures { result ≡ is_detector_linked state.now.ixl place }
{
    let field = state.field();
    place < field.detectors() && field.is_detector_ready(place)
}

/// Whether the initialisation of a controller is completed in the present connection.
fn is_node_linked(state: &State, node: Option<Node>) -> bool
    ensures { result ≡ is_node_linked state.now.ixl (option_map meant_node node) }
{
    match node {
        Some(Node::Signal(signal)) => is_signal_linked(state, signal.0),
        Some(Node::Point(point)) => is_point_linked(state, point.0),
        Some(Node::Detector(detector)) => is_detector_linked(state, detector.0),
        Some(Node::Interlocking) | None => false,
    }
}

/// Whether the initialisation of the controller of a number is completed in the present connection.
pub(crate) fn is_linked(state: &State, number: usize) -> bool
    ensures { result ≡ is_linked state.now.sited.site state.now.ixl number }
{
    let layout = state.table().checked().layout();
    is_node_linked(state, layout.node(NodeId(number)))
}

/// Whether a route is set.
pub(crate) fn is_set(state: &State, place: usize) -> bool
    ensures { result ≡ is_set_at state.now.ixl place }
{
    place < state.table().rows().len() && state.route(place).is_set()
}

/// Whether requests are taken.
pub(crate) fn readiness_at(ixl: &Interlocking, now: Millis) -> Readiness
    ensures { result ≡ readiness_of (is_holding now ixl.now.state.ixl) ixl.now.state.ixl.resumed }
{
    if ixl.holding(now) {
        Readiness::Holding
    } else if ixl.state().is_resumed() {
        Readiness::TakesRequests
    } else {
        Readiness::WaitingForResume
    }
}
