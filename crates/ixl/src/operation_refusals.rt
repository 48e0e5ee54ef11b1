//! Why a release, a move, a close and an open are refused.

ghost use Rattle.std.specs.Prelude.{◌≡◌, ◌<◌, ◌&&◌, length, slice_get, Some};
ghost use Rattle.ixl_state.specs.ixl_spec.Commands.{close_refusal, is_ended, move_refusal, moving_refusal, open_refusal, own_section_refusal, release_refusal, section_refusal};

use crate::field_known::is_point_available;
use crate::operations::{first_holding, first_keeping_open, is_closed, lies_in_closed};
use crate::refusals::{is_occupied, is_unknown, refusal_of_any};
use ixl_state::{Millis, Named, PointId, Refusal, Route, RouteId, SectionId, Side, State, Thing};

/// Whether a route is cancelled, and its authority was given in this setting and is ended.
fn may_be_released(route: Route) -> bool
    ensures { result ≡ (route.cancelled && is_ended route.phase) }
{
    route.is_cancelled() && route.is_ended()
}

/// Why a release is refused.
pub(crate) fn release_refusal(state: &State, now: Millis, number: usize) -> Option<Refusal>
    ensures { result ≡ release_refusal now state.now.ixl (slice_get state.now.ixl.routes number) }
{
    if number >= state.table().rows().len() {
        return Some(Refusal::UnknownRoute);
    }
    if let Some(cause) = refusal_of_any(state, now) {
        return Some(cause);
    }
    let route = state.route(number);
    if !route.is_set() {
        return Some(Refusal::NotSet);
    }
    if !may_be_released(route) {
        return Some(Refusal::NotEnded);
    }
    None
}

/// Why a point isn't moved over a section: it is occupied or unknown.
fn section_refusal(state: &State, section: usize) -> Option<Refusal>
    ensures { result ≡ section_refusal state.now.sited.table state.now.ixl (Some section) }
{
    if is_occupied(state, section) {
        return Some(Refusal::NotClear(SectionId(section)));
    }
    if is_unknown(state, section) {
        return Some(Refusal::DetectionDown);
    }
    None
}

/// Why a point isn't moved over the section in which it lies. Where that is closed, nothing stands against it.
fn own_section_refusal(state: &State, point: usize) -> Option<Refusal>
    requires { point < length state.now.sited.table.point_sections }
    ensures { result ≡ own_section_refusal state.now.sited.table state.now.ixl point }
{
    if lies_in_closed(state, point) {
        return None;
    }
    let sections = state.table().point_sections();
    section_refusal(state, sections[point])
}

/// Why a point isn't moved for the routes, or for itself.
fn moving_refusal(state: &State, point: PointId, side: Side) -> Option<Refusal>
    requires { point.0 < length state.now.sited.table.point_sections }
    ensures { result ≡ moving_refusal state.now.sited.table state.now.ixl point side }
{
    let thing = Thing::Point(point, side);
    if is_closed(state, thing) {
        return Some(Refusal::Closed(thing));
    }
    if let Some(holder) = first_holding(state, point.0) {
        return Some(Refusal::Held(RouteId(holder)));
    }
    if !is_point_available(state, point.0) {
        return Some(Refusal::PointUnavailable(point));
    }
    own_section_refusal(state, point.0)
}

/// Why a move is refused.
pub(crate) fn move_refusal(
    state: &State,
    now: Millis,
    point: PointId,
    side: Side,
) -> Option<Refusal>
    ensures { result ≡ move_refusal now state.now.sited.table state.now.ixl point side }
{
    if !state.has_thing(Thing::Point(point, side)) {
        return Some(Refusal::NoSuchThing);
    }
    match refusal_of_any(state, now) {
        Some(cause) => Some(cause),
        None => moving_refusal(state, point, side),
    }
}

/// Why what a command names isn't closed. The hold doesn't stand against it, for it only takes away.
pub(crate) fn close_refusal(state: &State, named: Named) -> Option<Refusal>
    ensures { result ≡ close_refusal state.now.sited.table state.now.ixl named }
{
    if !state.has_named(named) {
        return Some(Refusal::NoSuchThing);
    }
    match first_keeping_open(state, named) {
        Some(route) => Some(Refusal::Held(RouteId(route))),
        None => None,
    }
}

/// Why what a command names isn't opened.
pub(crate) fn open_refusal(state: &State, named: Named) -> Option<Refusal>
    ensures { result ≡ open_refusal state.now.sited.table state.now.ixl named }
{
    if state.has_named(named) {
        None
    } else {
        Some(Refusal::NoSuchThing)
    }
}
