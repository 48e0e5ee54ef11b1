//! A whole step as a list of turns, in each of which exactly what is due is done, and what follows from that.

ghost use Rattle.std.specs.Prelude.{◌≡◌, ℕ, true, List, [], ◌∷◌, Some, slice_get};
ghost use Rattle.ixl_state.specs.First.{Beginning, new_ixl};
ghost use Rattle.ixl_state.specs.ixl_client.declared.command.Command.TheVariants as telegrams;
ghost use Rattle.ixl_state.specs.ixl_spec.State.{KnownPointState, KnownSignalState, RouteState};
ghost use Rattle.ixl_state.specs.ixl_spec.Step.{Input, Reply};
ghost use Rattle.ixl_state.specs.ixl_spec.StepSoFar.{Point, Signal, StepSoFar, giving_aspect, giving_move};
ghost use Rattle.ixl_state.specs.ixl_spec.Table.{Need, Row, Table};
ghost use Rattle.ixl_state.specs.ixl_spec.declared.phase.Phase.TheVariants as phase;
ghost use Rattle.ixl_state.specs.layout.Entries.{Site};
ghost use Rattle.ixl_state.specs.sci_telegram.declared.message.Aspect.{Aspect};
ghost use Rattle.ixl_state.specs.sci_telegram.declared.message.Side.{Side};
ghost use Rattle.ixl.specs.Interlocking.{HasStepped, InterlockingState};
ghost use Rattle.ixl_laws.specs.GivenOnce.{GivesMove, GivesProceed, GivesStop, GivesTelegram, InNone, NoneBehind, OneAfterAnother, ProceedGiven, SetsAnew, StepTaken, telegram_for};
ghost use Rattle.ixl_laws.specs.UnsoundAspect.{IsUnsound};
ghost use Rattle.ixl_laws.specs.WholeStep.{EndAuthority, Fits, FreeCancelled, FreeSection, MovePoint, Passed, Proceed, Watch, WholeStep, Withdraw, heard, turns_of_rules};

use ixl_client::initialisations_go_out_in_order;
use ixl_state::ixl_spec::{
    authority_ends_at_known_stop, move_is_given_where_due, passage_frees_all_that_it_may,
    proceed_is_given_where_due, route_is_freed_where_cancel_lets_it_go,
    section_is_freed_where_passage_lets_it_go, stop_is_given_where_due,
};

/// Each step is a whole step: the turns of the six rules in their order, and then, on a tick, those of the links. Each turn
/// begins where the one before it ended, and does exactly what is due there. What is kept fits the table at first and
/// after every step.
pub fn whole_steps_do_what_is_due()
    ensures whole { (now : ℕ) (input : Input) (old new : InterlockingState) (answer : Reply) → HasStepped now input old new answer
        → Fits old.state.sited.table old.state.ixl → WholeStep now input old new }
    ensures first { (site : Site) (table : Table) (begins : Beginning) → Fits table (new_ixl site table begins) }
    ensures kept { (now : ℕ) (input : Input) (old new : InterlockingState) (answer : Reply) → HasStepped now input old new answer
        → Fits old.state.sited.table old.state.ixl → Fits new.state.sited.table new.state.ixl }
{
    stop_is_given_where_due();
    authority_ends_at_known_stop();
    section_is_freed_where_passage_lets_it_go();
    passage_frees_all_that_it_may();
    route_is_freed_where_cancel_lets_it_go();
    move_is_given_where_due();
    proceed_is_given_where_due();
}

/// The turns of two routes, of which the first has two sections and requires a point, and the second has one section.
#[tactic(auto, using(crate::proofs::TwoRoutes::two_routes))]
pub fn two_routes_take_their_turns()
    ensures { (first second : Row) (a b c : ℕ) (need : Need) → first.sections ≡ a ∷ b ∷ [] → first.needs ≡ need ∷ [] → second.sections ≡ c ∷ [] → second.needs ≡ []
        → turns_of_rules (first ∷ second ∷ []) ≡ Watch 0 ∷ Watch 1 ∷ Withdraw 0 ∷ Withdraw 1 ∷ EndAuthority 0 ∷ EndAuthority 1
        ∷ FreeSection 0 ∷ FreeSection 0 ∷ Passed 0 ∷ FreeSection 1 ∷ Passed 1 ∷ FreeCancelled 0 ∷ FreeCancelled 1 ∷ MovePoint 0 need ∷ Proceed 0 ∷ Proceed 1 ∷ [] }
{}

/// In a step each is given once at most: stop for a route, the route's aspect, and a move to a point, for whichever route.
/// A route that was withdrawn in a step isn't given its aspect in it.
pub fn a_step_gives_each_once()
    ensures stop { (now number : ℕ) (input : Input) (old new : InterlockingState) (step : WholeStep now input old new)
        → NoneBehind (GivesStop old.state.sited.table number) (GivesStop old.state.sited.table number) step.turns }
    ensures withdrawn { (now number : ℕ) (input : Input) (old new : InterlockingState) (step : WholeStep now input old new)
        → NoneBehind (GivesStop old.state.sited.table number) (GivesProceed now old.state.sited.table number) step.turns }
    ensures proceed { (now number : ℕ) (input : Input) (old new : InterlockingState) (step : WholeStep now input old new)
        → NoneBehind (GivesProceed now old.state.sited.table number) (GivesProceed now old.state.sited.table number) step.turns }
    ensures moves { (now point : ℕ) (input : Input) (old new : InterlockingState) (step : WholeStep now input old new)
        → NoneBehind (GivesMove old.state.sited.table point) (GivesMove old.state.sited.table point) step.turns }
{}

/// No aspect outlives a step after whose input it is unsound: where a point that the route requires isn't known at its side
/// then, a section isn't clear, or the signal's link isn't ready. Nor does the aspect of a route that is cancelled then.
/// After the step the route's aspect doesn't stand.
pub fn an_unsound_aspect_falls()
    ensures unsound { (now number : ℕ) (input : Input) (old new : InterlockingState) (row : Row) (route : RouteState) → WholeStep now input old new
        → slice_get old.state.sited.table.rows number ≡ Some row → slice_get new.state.ixl.routes number ≡ Some route
        → IsUnsound old.state.sited.table (heard now input old).ixl row → route.phase ≡ phase.Proceeding → ⊥ }
    ensures cancelled { (now number : ℕ) (input : Input) (old new : InterlockingState) (row : Row) (was route : RouteState) → WholeStep now input old new
        → slice_get old.state.sited.table.rows number ≡ Some row → slice_get new.state.ixl.routes number ≡ Some route
        → slice_get (heard now input old).ixl.routes number ≡ Some was → was.cancelled ≡ true → route.phase ≡ phase.Proceeding → ⊥ }
{}

/// After a step in which a route's aspect was given no step gives it again, until a request for the route is accepted.
pub fn proceed_is_given_once_in_a_setting()
    ensures { (number : ℕ) (first : StepTaken) (others : List StepTaken) → OneAfterAnother first others → ProceedGiven number first
        → InNone (SetsAnew number) others → InNone (ProceedGiven number) others }
{}

/// An aspect that is given to a signal is one telegram to the signal's controller, and a move that is given to a point one to
/// the point's.
pub fn aspects_and_moves_are_telegrams()
    ensures aspect { (now signal : ℕ) (aspect : Aspect) (part : StepSoFar) (known_signal : KnownSignalState) → slice_get part.ixl.known_signals signal ≡ Some known_signal
        → GivesTelegram (Signal signal) (telegram_for known_signal.client (telegrams.Indicate aspect)) part (giving_aspect now signal aspect part) }
    ensures moves { (now point : ℕ) (side : Side) (part : StepSoFar) (known_point : KnownPointState) → slice_get part.ixl.known_points point ≡ Some known_point
        → GivesTelegram (Point point) (telegram_for known_point.client (telegrams.Move side)) part (giving_move now point side part) }
{
    initialisations_go_out_in_order();
}
