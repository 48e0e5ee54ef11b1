//! What closing, releasing and moving by command come to over the steps of an interlocking.

ghost use Rattle.std.specs.Prelude.{◌≡◌, ◌↔◌, ℕ, List, ◌∷◌, None, Some, slice_get};
ghost use Rattle.std.specs.List.{All, Contains};
ghost use Rattle.ixl_state.specs.First.{Beginning, new_ixl};
ghost use Rattle.ixl_state.specs.layout.Entries.{Site};
ghost use Rattle.ixl_state.specs.layout.declared.ids.PointId.{PointId};
ghost use Rattle.ixl_state.specs.layout.declared.ids.RouteId.{RouteId};
ghost use Rattle.ixl_state.specs.sci_telegram.declared.message.Side.{Side};
ghost use Rattle.ixl_state.specs.ixl_spec.closings.Closed.{IsClosed, nothing};
ghost use Rattle.ixl_state.specs.ixl_spec.closings.Things.{Names};
ghost use Rattle.ixl_state.specs.ixl_spec.closings.declared.thing.Named.{Named};
ghost use Rattle.ixl_state.specs.ixl_spec.closings.declared.thing.Thing.TheVariants.{Point};
ghost use Rattle.ixl_state.specs.ixl_spec.closings.declared.thing.Thing.{Thing};
ghost use Rattle.ixl_state.specs.ixl_spec.Due.{Uses};
ghost use Rattle.ixl_state.specs.ixl_spec.OperationCauses.{Holds, IsCloseRefused, IsMoveRefused, IsNamed, IsReleaseRefused, MayBeClosed, MayBeMoved, MayBeReleased, NoRoute};
ghost use Rattle.ixl_state.specs.ixl_spec.Rules.{freed};
ghost use Rattle.ixl_state.specs.ixl_spec.State.{RouteState};
ghost use Rattle.ixl_state.specs.ixl_spec.Step.{Accepted, Commands, Input, Refused, Reply, all_clocked};
ghost use Rattle.ixl_state.specs.ixl_spec.StepSoFar.{with_route};
ghost use Rattle.ixl_state.specs.ixl_spec.Table.{Table};
ghost use Rattle.ixl_state.specs.ixl_spec.declared.command.Command.TheVariants as commands;
ghost use Rattle.ixl_state.specs.ixl_spec.declared.command.Refusal.{Refusal};
ghost use Rattle.ixl_state.specs.ixl_table.Table.{IsTableOf};
ghost use Rattle.ixl.specs.Interlocking.{HasStepped, InterlockingState};
ghost use Rattle.ixl_laws.specs.GivenOnce.{GivesMove, GivesProceed, InNone, OneAfterAnother, SetsAnew, StepTaken};
ghost use Rattle.ixl_laws.specs.Operations.{AllAccepted, AreCloses, FreesByRelease, IsCancelledAndEnded, IsMovedOnce, IsReleasedBefore, IsUnreleased, NothingClosedIsUsed, ReleasedAreEnded, closed_after, last_of, released_after};
ghost use Rattle.ixl_laws.specs.WholeStep.{Fits, TurnTaken, WholeStep, clock_left, heard};

use ixl_client::initialisations_go_out_in_order;
use ixl_state::ixl_spec::{
    a_command_changes_what_it_names_alone, close_is_accepted_where_nothing_is_used,
    move_is_accepted_where_it_may_be, release_is_accepted_where_it_may_be,
    request_is_accepted_where_admissible,
};

/// A release, a move, a close and an open are accepted exactly where they may be once the clock has acted, and refused for the
/// first cause that is given.
pub fn operations_are_accepted_where_they_may_be()
    ensures released { (now : ℕ) (route : RouteId) (old new : InterlockingState) (answer : Reply) → HasStepped now (Commands (commands.Release route)) old new answer
        → Fits old.state.sited.table old.state.ixl → answer ≡ Accepted ↔ MayBeReleased now old.state.sited.table (all_clocked now old.state.ixl) route.0 }
    ensures unreleased { (now : ℕ) (route : RouteId) (old new : InterlockingState) (answer : Reply) (cause : Refusal) → HasStepped now (Commands (commands.Release route)) old new answer
        → Fits old.state.sited.table old.state.ixl → answer ≡ Refused cause → IsReleaseRefused now old.state.sited.table (all_clocked now old.state.ixl) route.0 cause }
    ensures moved { (now : ℕ) (point : PointId) (side : Side) (old new : InterlockingState) (answer : Reply) → HasStepped now (Commands (commands.Move point side)) old new answer
        → answer ≡ Accepted ↔ MayBeMoved now old.state.sited.table (all_clocked now old.state.ixl) point side }
    ensures unmoved { (now : ℕ) (point : PointId) (side : Side) (old new : InterlockingState) (answer : Reply) (cause : Refusal) → HasStepped now (Commands (commands.Move point side)) old new answer
        → answer ≡ Refused cause → IsMoveRefused now old.state.sited.table (all_clocked now old.state.ixl) point side cause }
    ensures closed { (now : ℕ) (named : Named) (old new : InterlockingState) (answer : Reply) → HasStepped now (Commands (commands.Close named)) old new answer
        → answer ≡ Accepted ↔ MayBeClosed old.state.sited.table (all_clocked now old.state.ixl) named }
    ensures unclosed { (now : ℕ) (named : Named) (old new : InterlockingState) (answer : Reply) (cause : Refusal) → HasStepped now (Commands (commands.Close named)) old new answer
        → answer ≡ Refused cause → IsCloseRefused old.state.sited.table (all_clocked now old.state.ixl) named cause }
    ensures opened { (now : ℕ) (named : Named) (old new : InterlockingState) (answer : Reply) → HasStepped now (Commands (commands.Open named)) old new answer
        → answer ≡ Accepted ↔ IsNamed old.state.sited.table (all_clocked now old.state.ixl) named }
{
    release_is_accepted_where_it_may_be();
    move_is_accepted_where_it_may_be();
    close_is_accepted_where_nothing_is_used();
}

/// Nothing is closed at first, and no step changes what is closed but one in which a close or an open is accepted.
pub fn what_is_closed_changes_by_command_alone()
    ensures first { (site : Site) (table : Table) (begins : Beginning) → (new_ixl site table begins).closed ≡ nothing }
    ensures kept { (now : ℕ) (input : Input) (old new : InterlockingState) (answer : Reply) → HasStepped now input old new answer
        → new.state.ixl.closed ≡ closed_after input answer old.state.ixl.closed }
{}

/// No set route that isn't cancelled uses a closed thing, at first and after every step.
pub fn nothing_closed_is_used()
    ensures first { (site : Site) (table : Table) (begins : Beginning) → NothingClosedIsUsed table (new_ixl site table begins) }
    ensures kept { (now : ℕ) (input : Input) (old new : InterlockingState) (answer : Reply) → HasStepped now input old new answer
        → NothingClosedIsUsed old.state.sited.table old.state.ixl → NothingClosedIsUsed new.state.sited.table new.state.ixl }
{
    request_is_accepted_where_admissible();
    close_is_accepted_where_nothing_is_used();
    a_command_changes_what_it_names_alone();
}

/// In a step no aspect is given to a route that uses a closed thing, and no move to a point at a side that is closed: neither
/// by a rule nor by a command.
pub fn nothing_is_given_over_what_is_closed()
    ensures aspects { (now number : ℕ) (input : Input) (old new : InterlockingState) (step : WholeStep now input old new) (place : ℕ) (taken : TurnTaken) (thing : Thing)
        → NothingClosedIsUsed old.state.sited.table old.state.ixl → slice_get step.turns place ≡ Some taken
        → (gives : GivesProceed now old.state.sited.table number taken) → Uses number gives.row gives.route thing → IsClosed new.state.ixl.closed thing → ⊥ }
    ensures moves { (now point : ℕ) (input : Input) (old new : InterlockingState) (step : WholeStep now input old new) (place : ℕ) (taken : TurnTaken)
        → NothingClosedIsUsed old.state.sited.table old.state.ixl → IsTableOf old.state.sited.site old.state.sited.table → slice_get step.turns place ≡ Some taken
        → (gives : GivesMove old.state.sited.table point taken) → IsClosed new.state.ixl.closed (Point (record { 0 = point }) gives.need.side) → ⊥ }
    ensures commands { (now : ℕ) (point : PointId) (side : Side) (old new : InterlockingState) → HasStepped now (Commands (commands.Move point side)) old new Accepted
        → IsClosed old.state.ixl.closed (Point point side) → ⊥ }
{
    request_is_accepted_where_admissible();
    close_is_accepted_where_nothing_is_used();
    a_command_changes_what_it_names_alone();
    move_is_accepted_where_it_may_be();
}

/// A move by command goes to a point that no set route holds.
pub fn moves_by_command_go_to_points_that_nothing_holds()
    ensures { (now : ℕ) (point : PointId) (side : Side) (old new : InterlockingState) → HasStepped now (Commands (commands.Move point side)) old new Accepted
        → NoRoute old.state.sited.table old.state.ixl (Holds point.0) }
{
    move_is_accepted_where_it_may_be();
}

/// The point of an accepted move is given exactly one move in the step, and to that side: at once, on what the clock left and
/// before any rule. A refused move gives none: it leaves what the clock left.
pub fn a_move_by_command_is_given_once()
    ensures given { (now : ℕ) (point : PointId) (side : Side) (old new : InterlockingState) (step : WholeStep now (Commands (commands.Move point side)) old new)
        → HasStepped now (Commands (commands.Move point side)) old new Accepted → IsMovedOnce now point.0 side (Commands (commands.Move point side)) old new step }
    ensures refused { (now : ℕ) (point : PointId) (side : Side) (old new : InterlockingState) (cause : Refusal) → HasStepped now (Commands (commands.Move point side)) old new (Refused cause)
        → heard now (Commands (commands.Move point side)) old ≡ clock_left now old }
{
    initialisations_go_out_in_order();
    move_is_accepted_where_it_may_be();
}

/// Of a route the clock is kept at which its release was first accepted in its present setting; at first none was released.
/// Only a route that is cancelled and whose authority is ended is released.
pub fn releases_are_noted_with_their_clock()
    ensures clock { (now : ℕ) (input : Input) (old new : InterlockingState) (answer : Reply) (number : ℕ) (before after : RouteState) → HasStepped now input old new answer
        → slice_get old.state.ixl.routes number ≡ Some before → slice_get new.state.ixl.routes number ≡ Some after
        → after.released ≡ released_after now input answer number before.released }
    ensures unreleased { (site : Site) (table : Table) (begins : Beginning) (number : ℕ) → IsUnreleased number (new_ixl site table begins) }
    ensures first { (site : Site) (table : Table) (begins : Beginning) → ReleasedAreEnded (new_ixl site table begins) }
    ensures ended { (now : ℕ) (input : Input) (old new : InterlockingState) (answer : Reply) → HasStepped now input old new answer
        → ReleasedAreEnded old.state.ixl → ReleasedAreEnded new.state.ixl }
{}

/// A route is freed by its release only 120000 ms after it or later. Where steps begin in which a route isn't released, and it
/// is freed by its release in the last of them, its release was accepted in one of them, so long before, and no step since has
/// set the route anew. A route that is freed so is cancelled, and its authority is ended.
pub fn a_release_frees_only_after_its_time()
    ensures before { (number : ℕ) (first : StepTaken) (others : List StepTaken) (place : ℕ) (taken : TurnTaken) → OneAfterAnother first others → IsUnreleased number first.old.state.ixl
        → slice_get (last_of first others).whole.turns place ≡ Some taken → FreesByRelease (last_of first others).now (last_of first others).old.state.sited.table number taken
        → IsReleasedBefore number (first ∷ others) (last_of first others).now }
    ensures ended { (now number : ℕ) (input : Input) (old new : InterlockingState) (step : WholeStep now input old new) (place : ℕ) (taken : TurnTaken)
        → ReleasedAreEnded old.state.ixl → slice_get step.turns place ≡ Some taken → (frees : FreesByRelease now old.state.sited.table number taken) → IsCancelledAndEnded frees.route }
    ensures freed { (now number : ℕ) (input : Input) (old new : InterlockingState) (step : WholeStep now input old new) (place : ℕ) (taken : TurnTaken)
        → ReleasedAreEnded old.state.ixl → slice_get step.turns place ≡ Some taken → FreesByRelease now old.state.sited.table number taken
        → taken.after ≡ with_route number freed taken.before }
{}

/// Where the first inputs of an interlocking that was just made are closes of what is there, each is accepted, and all that they
/// name is closed after them. So what was closed before a restart is closed after it.
pub fn closings_that_are_given_first_are_closed()
    ensures accepted { (site : Site) (table : Table) (begins : Beginning) (names : List Named) (first : StepTaken) (others : List StepTaken) → OneAfterAnother first others
        → first.old.state.ixl ≡ new_ixl site table begins → first.old.state.sited.table ≡ table → AreCloses names (first ∷ others)
        → All (IsNamed table (new_ixl site table begins)) names → AllAccepted (first ∷ others) }
    ensures closed { (site : Site) (table : Table) (begins : Beginning) (names : List Named) (first : StepTaken) (others : List StepTaken) (named : Named) (thing : Thing) → OneAfterAnother first others
        → first.old.state.ixl ≡ new_ixl site table begins → first.old.state.sited.table ≡ table → AreCloses names (first ∷ others)
        → All (IsNamed table (new_ixl site table begins)) names → Contains names named → Names named thing → IsClosed (last_of first others).new.state.ixl.closed thing }
{
    close_is_accepted_where_nothing_is_used();
    a_command_changes_what_it_names_alone();
}
