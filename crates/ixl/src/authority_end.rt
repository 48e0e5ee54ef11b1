//! The second rule: the authority of a withdrawn route ends once its signal is known to show stop.

ghost use Rattle.std.specs.Prelude.{◌≡◌, ◌<◌, ◌&&◌, length};
ghost use Rattle.ixl_state.specs.ixl_spec.StepSoFar.{over};
ghost use Rattle.ixl_state.specs.ixl_spec.Rules.{count, ending_authority, is_withdrawn};
ghost use Rattle.ixl_state.specs.ixl_spec.View.{is_at_known_stop};
ghost use Rattle.ixl_state.specs.State.{AtRoute};
ghost use Rattle.ixl.specs.inside.Changes.{Changes};

use crate::field_known::is_at_known_stop;
use ixl_state::{Millis, Phase, State};

/// Whether a route was withdrawn, and its signal is at known stop.
fn is_end_due(state: &State, now: Millis, number: usize) -> bool
    requires { number < length state.now.sited.table.rows }
    ensures { AtRoute state.now number (λ row route. result ≡ (is_withdrawn route.phase && is_at_known_stop now state.now.ixl row.entry)) }
{
    match state.route(number).phase() {
        Phase::Withdrawn => is_at_known_stop(state, now, number),
        _ => false,
    }
}

/// The authority of a route ends where that is due.
fn end_authority(state: &mut State, now: Millis, number: usize)
    requires { number < length state.old.sited.table.rows }
    ensures { Changes (ending_authority now state.old.sited.table number) state.old state.new }
{
    state.keeps_route(number);
    if is_end_due(state, now, number) {
        state.end_authority(number, now);
    }
}

/// All routes in turn.
pub(crate) fn end_authorities(state: &mut State, now: Millis)
    ensures { Changes (over (ending_authority now state.old.sited.table) (count state.old.sited.table)) state.old state.new }
{
    for number in 0..state.table().rows().len() {
        end_authority(state, now, number);
    }
}
