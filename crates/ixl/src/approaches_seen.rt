//! Routes with authority watch their approaches.

ghost use Rattle.std.specs.Prelude.{◌≡◌, ◌<◌, length};
ghost use Rattle.ixl_state.specs.ixl_spec.StepSoFar.{over};
ghost use Rattle.ixl_state.specs.ixl_spec.Rules.{count};
ghost use Rattle.ixl_state.specs.ixl_spec.Step.{watching};
ghost use Rattle.ixl_state.specs.State.{AllAt};
ghost use Rattle.ixl.specs.inside.Parts.{Passes};

use crate::is_approach_clear;
use ixl_state::{Millis, State};

/// A route that has authority watches its approach.
fn watch_by(state: &mut State, now: Millis, number: usize)
    requires there { number < length state.old.sited.table.rows }
    requires clock { AllAt now state.old }
    ensures { Passes now (watching state.old.sited.table number) state.old state.new }
{
    state.keeps_route(number);
    // Watching a clear approach changes nothing.
    if state.route(number).has_authority() && !is_approach_clear(state, number) {
        state.watch(number, false);
    }
}

/// All routes that have authority watch their approaches.
pub(crate) fn watch(state: &mut State, now: Millis)
    requires { AllAt now state.old }
    ensures { Passes now (over (watching state.old.sited.table) (count state.old.sited.table)) state.old state.new }
{
    for number in 0..state.table().rows().len() {
        watch_by(state, now, number);
    }
}
