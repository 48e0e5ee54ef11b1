//! Which route has authority from a signal.

ghost use Rattle.std.specs.Prelude.{◌≡◌, ◌==◌, ◌&&◌, ◌<◌, length};
ghost use Rattle.ixl_state.specs.ixl_spec.View.{authority_from, has_authority};
ghost use Rattle.ixl_state.specs.State.{AtRoute};

use ixl_state::State;

/// Whether a route begins at a signal.
fn begins_at(state: &State, number: usize, signal: usize) -> bool
    requires { number < length state.now.sited.table.rows }
    ensures { AtRoute state.now number (λ row route. result ≡ (row.entry == signal)) }
{
    state.table().rows()[number].entry() == signal
}

/// Whether a route has authority from a signal.
fn has_authority_from(state: &State, number: usize, signal: usize) -> bool
    requires { number < length state.now.sited.table.rows }
    ensures { AtRoute state.now number (λ row route. result ≡ (row.entry == signal && has_authority route.phase)) }
{
    begins_at(state, number, signal) && state.route(number).has_authority()
}

/// The route that has authority from a signal: the first of the table.
pub(crate) fn authority(state: &State, signal: usize) -> Option<usize>
    ensures { result ≡ authority_from signal 0 state.now.sited.table.rows state.now.ixl.routes }
{
    for number in 0..state.table().rows().len() {
        if has_authority_from(state, number, signal) {
            return Some(number);
        }
    }
    None
}
