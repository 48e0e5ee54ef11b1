//! The sixth rule: a route is given authority, and its signal the route's aspect.

ghost use Rattle.std.specs.Prelude.{◌≡◌, ◌<◌, ◌+◌, length};
ghost use Rattle.ixl_state.specs.rasta_core.Outbox.{HasRoomFor};
ghost use Rattle.ixl_state.specs.ixl_spec.StepSoFar.{over};
ghost use Rattle.ixl_state.specs.ixl_spec.Rules.{count, is_proceed_due, proceeding};
ghost use Rattle.ixl_state.specs.State.{AllAt, AtRoute, Goes};

use crate::field_known::{
    are_points_known, are_sections_clear, aspect, entry, is_approach_clear, is_at_known_stop,
    is_signal_ready,
};
use ixl_state::{Millis, Outbox, Phase, State};

/// Whether a route is to be given authority.
fn is_proceed_due(state: &State, now: Millis, number: usize) -> bool
    requires { number < length state.now.sited.table.rows }
    ensures { AtRoute state.now number (λ row route. result ≡ is_proceed_due now state.now.sited.table state.now.ixl row route) }
{
    let route = state.route(number);
    match route.phase() {
        Phase::Waiting => {
            !route.is_cancelled()
                && are_points_known(state, number)
                && are_sections_clear(state, number)
                && is_signal_ready(state, number)
                && is_at_known_stop(state, now, number)
        }
        _ => false,
    }
}

/// A route is given authority where that is due, and its signal the route's aspect.
fn proceed(state: &mut State, now: Millis, number: usize, outbox: &mut Outbox)
    requires there { number < length state.old.sited.table.rows }
    requires clock { AllAt now state.old }
    requires room { HasRoomFor 26 outbox.old }
    ensures { Goes now 2 (proceeding now state.old.sited.table number) state.old outbox.old state.new outbox.new }
{
    state.keeps_route(number);
    if !is_proceed_due(state, now, number) {
        return;
    }
    let signal = entry(state, number);
    let aspect = aspect(state, number);
    let is_clear = is_approach_clear(state, number);
    state.authorise(number, is_clear);
    state.give_aspect(now, signal, aspect, outbox);
}

/// All routes in turn.
pub(crate) fn give_authority(state: &mut State, now: Millis, outbox: &mut Outbox)
    requires clock { AllAt now state.old }
    requires room { HasRoomFor (24 + 128) outbox.old }
    ensures { Goes now 128 (over (proceeding now state.old.sited.table) (count state.old.sited.table)) state.old outbox.old state.new outbox.new }
{
    for number in 0..state.table().rows().len() {
        proceed(state, now, number, outbox);
    }
}
