//! What a step comes to.

ghost use Rattle.std.specs.Prelude.{◌≡◌, ◌↔◌, ◌≤◌, ℕ};
ghost use Rattle.ixl_state.specs.layout.declared.ids.RouteId.{RouteId};
ghost use Rattle.ixl_state.specs.ixl_spec.Due.{Admissible};
ghost use Rattle.ixl_state.specs.ixl_spec.Step.{Accepted, Commands, Refused, Reply, all_clocked};
ghost use Rattle.ixl_state.specs.ixl_spec.declared.command.Command.TheVariants as commands;
ghost use Rattle.ixl_state.specs.ixl_spec.declared.command.Refusal.{Refusal};
ghost use Rattle.ixl_state.specs.ixl_spec.Refusals.{IsRequestRefused};
ghost use Rattle.ixl.specs.Interlocking.{HasStepped, InterlockingState};
ghost use Rattle.ixl_state.specs.State.{AllAt, MayStepAll, StateView};

use ixl_state::ixl_spec::request_is_accepted_where_admissible;

/// A request is accepted exactly where it is admissible once the clock has acted, and refused for the first cause that is
/// given.
pub fn requests_are_accepted_where_admissible()
    ensures accepted { (now : ℕ) (route : RouteId) (old new : InterlockingState) (answer : Reply) → HasStepped now (Commands (commands.Request route)) old new answer
        → answer ≡ Accepted ↔ Admissible now old.state.sited.table (all_clocked now old.state.ixl) route.0 }
    ensures refused { (now : ℕ) (route : RouteId) (old new : InterlockingState) (answer : Reply) (cause : Refusal) → HasStepped now (Commands (commands.Request route)) old new answer
        → answer ≡ Refused cause → IsRequestRefused now old.state.sited.table (all_clocked now old.state.ixl) route.0 cause }
{
    request_is_accepted_where_admissible();
}

/// After a step at a clock reading a step may be made at any that isn't earlier.
pub fn steps_may_follow_at_later_clocks()
    ensures { (now later : ℕ) (state : StateView) → AllAt now state → now ≤ later → MayStepAll later state }
{}
