//! The third rule: the passage of a train frees the sections of a route, one after another.

ghost use Rattle.std.specs.Prelude.{◌≡◌, ◌<◌, length};
ghost use Rattle.ixl_state.specs.ixl_spec.StepSoFar.{over};
ghost use Rattle.ixl_state.specs.ixl_spec.Rules.{count, freeing_by_passage, frees_next};
ghost use Rattle.ixl_state.specs.State.{AtRoute};
ghost use Rattle.ixl.specs.inside.Changes.{Changes};

use crate::field_known::{is_section_clear, row_of};
use ixl_state::{Phase, State};

/// Whether the first section of a route that isn't freed may be.
fn is_next_freeable(state: &State, number: usize) -> bool
    requires { number < length state.now.sited.table.rows }
    ensures { AtRoute state.now number (λ row route. result ≡ frees_next state.now.sited.table state.now.ixl row route route.phase) }
{
    state.keeps_route(number);
    let route = state.route(number);
    match route.phase() {
        Phase::Ended { freed, .. } => {
            let section = row_of(state, number).sections()[freed];
            route.passage().freeable(freed, true) && is_section_clear(state, section)
        }
        _ => false,
    }
}

/// The sections of a route are freed until nothing more is.
fn free_by_passage(state: &mut State, number: usize)
    requires { number < length state.old.sited.table.rows }
    ensures { Changes (freeing_by_passage state.old.sited.table number) state.old state.new }
{
    state.keeps_route(number);
    for _place in 0..row_of(state, number).sections().len() {
        state.keeps_route(number);
        if !is_next_freeable(state, number) {
            return;
        }
        state.free_next(number);
    }
}

/// All routes in turn.
pub(crate) fn free_routes_by_passage(state: &mut State)
    ensures { Changes (over (freeing_by_passage state.old.sited.table) (count state.old.sited.table)) state.old state.new }
{
    for number in 0..state.table().rows().len() {
        free_by_passage(state, number);
    }
}
