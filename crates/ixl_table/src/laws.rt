//! What the phases of the routes say of what is locked.

ghost use Rattle.std.specs.Prelude.{◌≡◌, ◌↔◌, ℕ, IsTrue, List, None, Some, length};
ghost use Rattle.ixl_spec.specs.sci_telegram.declared.message.Side.{Side};
ghost use Rattle.ixl_spec.specs.layout.Once.{Once};
ghost use Rattle.ixl_spec.specs.layout.declared.ids.RouteId.{RouteId};
ghost use Rattle.route_lock.specs.Locks.{Blocks, FirstBlocks, Holds, IsSet, LockState};
ghost use Rattle.ixl_spec.specs.State.{IxlState, RouteState};
ghost use Rattle.ixl_spec.specs.Table.{Row};
ghost use Rattle.ixl_spec.specs.View.{blocks, first_blocking, holds_point, holds_point_at, is_held_at, is_set};
ghost use Rattle.ixl_table.specs.Locks.{AreLocksOf, HaveSectionsLeft, IsKeptRoute};
ghost use Rattle.ixl_table.specs.Table.{IsTableOf, SitedTable, as_point, as_route};

/// A route is set where it locks something.
pub fn set_routes_lock_sections()
    ensures { (sited : SitedTable) (routes : List RouteState) (locks : LockState) → AreLocksOf sited routes locks → HaveSectionsLeft sited.table routes → (number : ℕ) (row : Row) (route : RouteState) → IsKeptRoute sited.table routes number row route → IsSet locks (as_route number) ↔ IsTrue (is_set route.phase) }
{}

/// A route holds a point at a side, by its locks, where the rules say so.
pub fn points_are_held_by_phase()
    ensures { (sited : SitedTable) (routes : List RouteState) (locks : LockState) → IsTableOf sited.site sited.table → AreLocksOf sited routes locks → (number : ℕ) (row : Row) (route : RouteState) → IsKeptRoute sited.table routes number row route → (point : ℕ) (side : Side) → Holds locks (as_route number) (as_point point) side ↔ IsTrue (holds_point_at row route.phase point side) }
{}

/// The same of a point at whichever side.
pub fn points_are_held_by_phase_at_a_side()
    ensures { (sited : SitedTable) (routes : List RouteState) (locks : LockState) → IsTableOf sited.site sited.table → AreLocksOf sited routes locks → (number : ℕ) (row : Row) (route : RouteState) → IsKeptRoute sited.table routes number row route → (point : ℕ) → ((side : Side) × Holds locks (as_route number) (as_point point) side) ↔ IsTrue (holds_point row route.phase point) }
{}

/// Some route holds a point at a side, by the locks, where the rules say so.
pub fn points_are_held_by_some_phase()
    ensures { (sited : SitedTable) (ixl : IxlState) (locks : LockState) → IsTableOf sited.site sited.table → length ixl.routes ≡ length sited.table.rows → AreLocksOf sited ixl.routes locks → (point : ℕ) (side : Side) → ((a : RouteId) × Holds locks a (as_point point) side) ↔ IsTrue (is_held_at sited.table ixl point side) }
{}

/// A route blocks another, by the locks, where the rules say so.
pub fn routes_block_by_phase()
    ensures { (sited : SitedTable) (routes : List RouteState) (locks : LockState) → Once sited.site → IsTableOf sited.site sited.table → AreLocksOf sited routes locks → HaveSectionsLeft sited.table routes → (number : ℕ) (row : Row) (route : RouteState) → IsKeptRoute sited.table routes number row route → (wanted : ℕ) (wanted_row : Row) (wanted_route : RouteState) → IsKeptRoute sited.table routes wanted wanted_row wanted_route → Blocks locks (as_route number) (as_route wanted) ↔ IsTrue (blocks wanted wanted_row number row route) }
{
    ixl_spec::control_table::a_route_leads_over_its_sections_alone();
}

/// The first route that blocks another, by the locks, is the one that the rules tell.
pub fn the_first_blocking_route_is_told_by_phase()
    ensures some { (sited : SitedTable) (routes : List RouteState) (locks : LockState) → Once sited.site → IsTableOf sited.site sited.table → length routes ≡ length sited.table.rows → AreLocksOf sited routes locks → HaveSectionsLeft sited.table routes → (wanted : ℕ) (wanted_row : Row) (wanted_route : RouteState) → IsKeptRoute sited.table routes wanted wanted_row wanted_route → (number : ℕ) → FirstBlocks locks (as_route number) (as_route wanted) ↔ (first_blocking wanted wanted_row 0 sited.table.rows routes ≡ Some number) }
    ensures none { (sited : SitedTable) (routes : List RouteState) (locks : LockState) → Once sited.site → IsTableOf sited.site sited.table → length routes ≡ length sited.table.rows → AreLocksOf sited routes locks → HaveSectionsLeft sited.table routes → (wanted : ℕ) (wanted_row : Row) (wanted_route : RouteState) → IsKeptRoute sited.table routes wanted wanted_row wanted_route → ((a : RouteId) → Blocks locks a (as_route wanted) → ⊥) ↔ (first_blocking wanted wanted_row 0 sited.table.rows routes ≡ None) }
{
    ixl_spec::control_table::a_route_leads_over_its_sections_alone();
}
