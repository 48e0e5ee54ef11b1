//! The first rule: a route is withdrawn, and its signal is given stop.

ghost use Rattle.std.specs.Prelude.{◌≡◌, ◌<◌, ◌+◌, length};
ghost use Rattle.ixl_state.specs.rasta_core.Outbox.{HasRoomFor};
ghost use Rattle.ixl_state.specs.ixl_spec.StepSoFar.{over};
ghost use Rattle.ixl_state.specs.ixl_spec.Rules.{count, is_stop_due, withdrawing};
ghost use Rattle.ixl_state.specs.State.{AllAt, AtRoute, Goes};

use crate::field_known::{are_points_known, are_sections_clear, entry, is_signal_ready};
use ixl_state::{Aspect, Millis, Outbox, Phase, State};

/// Whether the aspect of a route was given, and what it rests on holds no longer: the will of the operator, a point, a
/// section, or the signal's link.
fn is_stop_due(state: &State, number: usize) -> bool
    requires { number < length state.now.sited.table.rows }
    ensures { AtRoute state.now number (λ row route. result ≡ is_stop_due state.now.sited.table state.now.ixl row route) }
{
    let route = state.route(number);
    match route.phase() {
        Phase::Proceeding => {
            route.is_cancelled()
                || !are_points_known(state, number)
                || !are_sections_clear(state, number)
                || !is_signal_ready(state, number)
        }
        _ => false,
    }
}

/// A route is withdrawn where stop is due. Its signal is given stop where its link is ready.
fn withdraw(state: &mut State, now: Millis, number: usize, outbox: &mut Outbox)
    requires there { number < length state.old.sited.table.rows }
    requires clock { AllAt now state.old }
    requires room { HasRoomFor 26 outbox.old }
    ensures { Goes now 2 (withdrawing now state.old.sited.table number) state.old outbox.old state.new outbox.new }
{
    state.keeps_route(number);
    if !is_stop_due(state, number) {
        return;
    }
    let signal = entry(state, number);
    let is_ready = is_signal_ready(state, number);
    state.withdraw(number);
    if is_ready {
        state.give_aspect(now, signal, Aspect::Stop, outbox);
    }
}

/// All routes in turn.
pub(crate) fn withdraw_routes(state: &mut State, now: Millis, outbox: &mut Outbox)
    requires clock { AllAt now state.old }
    requires room { HasRoomFor (24 + 128) outbox.old }
    ensures { Goes now 128 (over (withdrawing now state.old.sited.table) (count state.old.sited.table)) state.old outbox.old state.new outbox.new }
{
    for number in 0..state.table().rows().len() {
        withdraw(state, now, number, outbox);
    }
}
