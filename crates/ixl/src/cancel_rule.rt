//! The fourth rule: a cancelled route is freed.

ghost use Rattle.std.specs.Prelude.{◌≡◌, ◌<◌, ◌&&◌, ◌||◌, length};
ghost use Rattle.ixl_state.specs.ixl_spec.StepSoFar.{over};
ghost use Rattle.ixl_state.specs.ixl_spec.Rules.{count, freeing_by_cancel, frees_cancelled, is_release_over, none_seen};
ghost use Rattle.ixl_state.specs.ixl_spec.View.{all_clear};
ghost use Rattle.ixl_state.specs.release.Approach.{is_due};
ghost use Rattle.ixl_state.specs.State.{AtRoute};
ghost use Rattle.ixl.specs.inside.Changes.{Changes};

use crate::field_known::{are_sections_clear, is_at_known_stop};
use ixl_state::release::APPROACH_TIME;
use ixl_state::{Millis, Phase, Route, State};

/// Whether no section of a route was reported occupied since authority was given.
fn was_none_seen(state: &State, number: usize) -> bool
    requires { number < length state.now.sited.table.rows }
    ensures { AtRoute state.now number (λ row route. result ≡ none_seen (length row.sections) route.passage) }
{
    state.keeps_route(number);
    !state.route(number).passage().is_reached()
}

/// Whether the approach time is over since a route was released.
fn is_release_over(route: Route, now: Millis) -> bool
    ensures { result ≡ is_release_over now route.released }
{
    match route.released() {
        Some(clock) => now >= clock.saturating_add(APPROACH_TIME),
        None => false,
    }
}

/// Whether no train came to a route whose authority has ended, and the approach lets it go.
fn none_came(state: &State, now: Millis, number: usize, ended_at: Millis) -> bool
    requires { number < length state.now.sited.table.rows }
    ensures { AtRoute state.now number (λ row route. result ≡ (none_seen (length row.sections) route.passage && all_clear state.now.sited.table state.now.ixl row.sections && is_due route.approached ended_at now)) }
{
    was_none_seen(state, number)
        && are_sections_clear(state, number)
        && state.route(number).approach().due(ended_at, now)
}

/// Whether a route whose authority has ended lets itself be freed: no train came, and the approach lets it go; or its
/// release is over.
fn lets_go(state: &State, now: Millis, number: usize, ended_at: Millis) -> bool
    requires { number < length state.now.sited.table.rows }
    ensures { AtRoute state.now number (λ row route. result ≡ ((none_seen (length row.sections) route.passage && all_clear state.now.sited.table state.now.ixl row.sections && is_due route.approached ended_at now) || is_release_over now route.released)) }
{
    none_came(state, now, number, ended_at) || is_release_over(state.route(number), now)
}

/// Whether a route is cancelled and lets itself be freed: it had no authority in this setting, and is at known stop; or its
/// authority has ended, and it lets go.
fn is_cancel_due(state: &State, now: Millis, number: usize) -> bool
    requires { number < length state.now.sited.table.rows }
    ensures { AtRoute state.now number (λ row route. result ≡ (route.cancelled && frees_cancelled now state.now.sited.table state.now.ixl row route route.phase)) }
{
    let route = state.route(number);
    if !route.is_cancelled() {
        return false;
    }
    match route.phase() {
        Phase::Waiting => is_at_known_stop(state, now, number),
        Phase::Ended { clock, .. } => lets_go(state, now, number, clock),
        _ => false,
    }
}

/// A route is freed where its cancel lets it go.
fn free_by_cancel(state: &mut State, now: Millis, number: usize)
    requires { number < length state.old.sited.table.rows }
    ensures { Changes (freeing_by_cancel now state.old.sited.table number) state.old state.new }
{
    state.keeps_route(number);
    if is_cancel_due(state, now, number) {
        state.free(number);
    }
}

/// All routes in turn.
pub(crate) fn free_routes_by_cancel(state: &mut State, now: Millis)
    ensures { Changes (over (freeing_by_cancel now state.old.sited.table) (count state.old.sited.table)) state.old state.new }
{
    for number in 0..state.table().rows().len() {
        free_by_cancel(state, now, number);
    }
}
