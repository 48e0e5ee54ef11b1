//! When a release, a move, a close and an open are accepted, and why they are refused.

ghost use Rattle.std.specs.Prelude.{◌≡◌, ◌↔◌, ℕ, None, Some, slice_get};
ghost use Rattle.closings.specs.layout.declared.ids.PointId.{PointId};
ghost use Rattle.closings.specs.layout.declared.ids.RouteId.{RouteId};
ghost use Rattle.closings.specs.sci_telegram.declared.message.Side.{Side};
ghost use Rattle.closings.specs.declared.thing.Named.{Named};
ghost use Rattle.ixl_spec.specs.Commands.{refusal};
ghost use Rattle.ixl_spec.specs.OperationCauses.{IsCloseRefused, IsMoveRefused, IsNamed, IsReleaseRefused, MayBeClosed, MayBeMoved, MayBeReleased};
ghost use Rattle.ixl_spec.specs.State.{IxlState, RouteState};
ghost use Rattle.ixl_spec.specs.Table.{Row, Table};
ghost use Rattle.ixl_spec.specs.declared.command.Command.TheVariants as commands;
ghost use Rattle.ixl_spec.specs.declared.command.Refusal.{Refusal};

/// A route that is kept of a row of the table is released exactly where it may be, and else the release is refused for the
/// first cause that is given.
#[tactic(auto, using(crate::proofs::Operations::releases_accepted, crate::proofs::Operations::releases_refused))]
pub fn release_is_accepted_where_it_may_be()
    ensures accepted { (now : ℕ) (table : Table) (ixl : IxlState) (route : RouteId) → ((state : RouteState) → slice_get ixl.routes route.0 ≡ Some state → (row : Row) × (slice_get table.rows route.0 ≡ Some row)) → refusal now table (commands.Release route) ixl ≡ None ↔ MayBeReleased now table ixl route.0 }
    ensures refused { (now : ℕ) (table : Table) (ixl : IxlState) (route : RouteId) → ((state : RouteState) → slice_get ixl.routes route.0 ≡ Some state → (row : Row) × (slice_get table.rows route.0 ≡ Some row)) → (cause : Refusal) → refusal now table (commands.Release route) ixl ≡ Some cause → IsReleaseRefused now table ixl route.0 cause }
{}

/// A point is given a move by a command exactly where it may be moved, and else the command is refused for the first cause
/// that is given.
#[tactic(auto, using(crate::proofs::Operations::moves_accepted, crate::proofs::Operations::moves_refused))]
pub fn move_is_accepted_where_it_may_be()
    ensures accepted { (now : ℕ) (table : Table) (ixl : IxlState) (point : PointId) (side : Side) → refusal now table (commands.Move point side) ixl ≡ None ↔ MayBeMoved now table ixl point side }
    ensures refused { (now : ℕ) (table : Table) (ixl : IxlState) (point : PointId) (side : Side) (cause : Refusal) → refusal now table (commands.Move point side) ixl ≡ Some cause → IsMoveRefused now table ixl point side cause }
{}

/// What a command names is closed exactly where no set route keeps it open, and opened wherever it is there.
#[tactic(auto, using(crate::proofs::Operations::closes_accepted, crate::proofs::Operations::closes_refused, crate::proofs::Operations::opens_accepted))]
pub fn close_is_accepted_where_nothing_is_used()
    ensures closed { (now : ℕ) (table : Table) (ixl : IxlState) (named : Named) → refusal now table (commands.Close named) ixl ≡ None ↔ MayBeClosed table ixl named }
    ensures refused { (now : ℕ) (table : Table) (ixl : IxlState) (named : Named) (cause : Refusal) → refusal now table (commands.Close named) ixl ≡ Some cause → IsCloseRefused table ixl named cause }
    ensures opened { (now : ℕ) (table : Table) (ixl : IxlState) (named : Named) → refusal now table (commands.Open named) ixl ≡ None ↔ IsNamed table ixl named }
{}
