//! Routes that rest: only the first rule changes one that is free or proceeds.

ghost use Rattle.std.specs.Prelude.{◌≡◌, ◌<◌, length, IsTrue};
ghost use Rattle.ixl_state.specs.State.{AtRoute};
ghost use Rattle.ixl.specs.inside.RoutesAtRest.{AllRest, rests};

use ixl_state::{Phase, State};

/// Whether a route rests.
fn rests(state: &State, number: usize) -> bool
    requires { number < length state.now.sited.table.rows }
    ensures { AtRoute state.now number (λ row route. result ≡ rests route.phase) }
{
    matches!(state.route(number).phase(), Phase::Free | Phase::Proceeding)
}

/// Whether every route does.
pub(crate) fn all_rest(state: &State) -> bool
    ensures { IsTrue result → AllRest (length state.now.sited.table.rows) state.now }
{
    for number in 0..state.table().rows().len() {
        if !rests(state, number) {
            return false;
        }
    }
    true
}
