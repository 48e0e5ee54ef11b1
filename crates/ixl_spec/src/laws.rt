//! The rules do exactly what is due, for each route of the table and in every state.

ghost use Rattle.std.specs.Prelude.{◌≡◌, ◌↔◌, ℕ, None, Some, length};
ghost use Rattle.ixl_spec.specs.EndDue.{EndDue, SomeFreeable};
ghost use Rattle.ixl_spec.specs.Refusals.{IsRequestRefused};
ghost use Rattle.ixl_spec.specs.Commands.{refusal};
ghost use Rattle.ixl_spec.specs.Due.{Admissible, DoesWhere, FreeByCancel, IsRouteOf, MoveDue, ProceedDue, StopDue};
ghost use Rattle.ixl_spec.specs.StepSoFar.{StepSoFar, giving_aspect, giving_move, with_route};
ghost use Rattle.ixl_spec.specs.Rules.{authorised, come_to, ending_authority, freed, freeing_by_cancel, freeing_by_passage, freeing_next, moving_one, one_freed, proceeding, stopped, withdrawing};
ghost use Rattle.ixl_spec.specs.State.{IxlState, RouteState};
ghost use Rattle.ixl_spec.specs.Table.{Need, Row, Table};
ghost use Rattle.ixl_spec.specs.declared.command.Command.TheVariants as commands;
ghost use Rattle.ixl_spec.specs.declared.command.Refusal.{Refusal};
ghost use Rattle.closings.specs.layout.declared.ids.RouteId.{RouteId};
ghost use Rattle.ixl_spec.specs.declared.phase.Phase.TheVariants as phase;

/// A route is withdrawn, and its signal is given stop where its link is ready, exactly where stop is due.
#[tactic(auto, using(crate::proofs::Due::withdraws_where_due))]
pub fn stop_is_given_where_due()
    ensures { (now : ℕ) (table : Table) (number : ℕ) (part : StepSoFar) (row : Row) (route : RouteState) → IsRouteOf table part.ixl number row route → DoesWhere (StopDue table part.ixl row route) part (stopped now row (with_route number (come_to phase.Withdrawn) part)) (withdrawing now table number part) }
{}

/// A route is given authority, and its signal the route's aspect, exactly where proceed is due.
#[tactic(auto, using(crate::proofs::Due::proceeds_where_due))]
pub fn proceed_is_given_where_due()
    ensures { (now : ℕ) (table : Table) (number : ℕ) (part : StepSoFar) (row : Row) (route : RouteState) → IsRouteOf table part.ixl number row route → DoesWhere (ProceedDue now table part.ixl row route) part (giving_aspect now row.entry row.aspect (with_route number (authorised table part.ixl row) part)) (proceeding now table number part) }
{}

/// A cancelled route is freed exactly where it may be.
#[tactic(auto, using(crate::proofs::Due::frees_where_due))]
pub fn route_is_freed_where_cancel_lets_it_go()
    ensures { (now : ℕ) (table : Table) (number : ℕ) (part : StepSoFar) (row : Row) (route : RouteState) → IsRouteOf table part.ixl number row route → DoesWhere (FreeByCancel now table part.ixl row route) part (with_route number freed part) (freeing_by_cancel now table number part) }
{}

/// The authority of a withdrawn route ends exactly where its signal is at known stop.
#[tactic(auto, using(crate::proofs::Due::ends_where_due))]
pub fn authority_ends_at_known_stop()
    ensures { (now : ℕ) (table : Table) (number : ℕ) (part : StepSoFar) (row : Row) (route : RouteState) → IsRouteOf table part.ixl number row route → DoesWhere (EndDue now part.ixl row route) part (with_route number (come_to (phase.Ended now 0)) part) (ending_authority now table number part) }
{}

/// The next section of a route is freed exactly where passage lets it go. What is kept of the passage is of a route of so
/// many sections.
#[tactic(auto, using(crate::proofs::Due::section_where_due))]
pub fn section_is_freed_where_passage_lets_it_go()
    ensures { (table : Table) (number : ℕ) (part : StepSoFar) (row : Row) (route : RouteState) → IsRouteOf table part.ixl number row route → route.passage.sections ≡ length row.sections → DoesWhere (SomeFreeable table part.ixl row route) part (with_route number (one_freed row route.phase) part) (freeing_next table number part) }
{}

/// It goes on until no further section of the route may be freed so.
#[tactic(auto, using(crate::proofs::FreedByPassage::nothing_more))]
pub fn passage_frees_all_that_it_may()
    ensures { (table : Table) (number : ℕ) (part : StepSoFar) (row : Row) (route after : RouteState) → IsRouteOf table part.ixl number row route → IsRouteOf table (freeing_by_passage table number part).ixl number row after → after.passage.sections ≡ length row.sections → SomeFreeable table (freeing_by_passage table number part).ixl row after → ⊥ }
{}

/// A required point is given a move exactly where one is due.
#[tactic(auto, using(crate::proofs::Due::moves_where_due))]
pub fn move_is_given_where_due()
    ensures { (now : ℕ) (table : Table) (number : ℕ) (need : Need) (part : StepSoFar) (row : Row) (route : RouteState) → IsRouteOf table part.ixl number row route → DoesWhere (MoveDue table part.ixl number route need) part (giving_move now need.point need.side part) (moving_one now table number need part) }
{}

/// A request is accepted exactly where it is admissible, and refused for the first cause that is given.
#[tactic(auto, using(crate::proofs::Requests::accepts_admissible, crate::proofs::Requests::refuses_for_cause))]
pub fn request_is_accepted_where_admissible()
    ensures accepted { (now : ℕ) (table : Table) (ixl : IxlState) (route : RouteId) → refusal now table (commands.Request route) ixl ≡ None ↔ Admissible now table ixl route.0 }
    ensures refused { (now : ℕ) (table : Table) (ixl : IxlState) (route : RouteId) (cause : Refusal) → refusal now table (commands.Request route) ixl ≡ Some cause → IsRequestRefused now table ixl route.0 cause }
{}
