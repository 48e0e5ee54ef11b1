//! What the set routes lock.

ghost use Rattle.std.specs.Prelude.{◌≡◌, ◌↔◌, ℕ, ◌<◌, ◌≤◌, false, length, IsTrue};
ghost use Rattle.ixl_spec.specs.bit_row.Places.{Has};
ghost use Rattle.ixl_spec.specs.Due.{HoldsSection};
ghost use Rattle.ixl_spec.specs.View.{first_blocking, is_held_at, is_held_with_authority, is_set};
ghost use Rattle.ixl_state.specs.State.{AtRoute};
ghost use Rattle.ixl_state.specs.inside.Kept.{HoldsWithAuthority, SomeHoldsWithAuthority};

use crate::route::Route;
use crate::state::State;
use ixl_spec::{BitRow, PointId, RouteId, Side};
use ixl_table::{
    points_are_held_by_phase_at_a_side, points_are_held_by_some_phase, set_routes_lock_sections,
    the_first_blocking_route_is_told_by_phase,
};
use route_lock::{LockFault, Locks};

/// Whether this route was given authority in its present setting, and holds a point.
fn holds_with_authority(locks: &Locks, number: usize, route: Route, point: usize) -> bool
    requires { number < length locks.now.table.routes }
    ensures { IsTrue result ↔ HoldsWithAuthority locks.now number route point }
{
    route.was_authorised() && locks.holds(RouteId(number), PointId(point))
}

/// Whether one of the routes does.
fn some_holds_with_authority(locks: &Locks, routes: &[Route], point: usize) -> bool
    requires { length routes.now ≤ length locks.now.table.routes }
    ensures { IsTrue result ↔ SomeHoldsWithAuthority locks.now routes.now point }
{
    for (number, route) in routes.iter().enumerate() {
        if holds_with_authority(locks, number, *route, point) {
            return true;
        }
    }
    false
}

impl State {
    /// The sections that a route locks.
    pub fn locked(&self, number: usize) -> BitRow
        requires { number < length self.now.sited.table.rows }
        ensures { AtRoute self.now number (λ row route. (section : ℕ) → Has result section ↔ HoldsSection row route.phase section) }
    {
        self.table.is_of_its_site();
        self.locks.locked(RouteId(number))
    }

    /// Whether some set route holds a point at this side.
    pub fn is_held_at(&self, point: usize, side: Side) -> bool
        ensures { result ≡ is_held_at self.now.sited.table self.now.ixl point side }
    {
        points_are_held_by_some_phase();
        self.table.is_of_its_site();
        self.locks.is_held(PointId(point), side)
    }

    /// Whether a route that was given authority in its present setting holds a point.
    pub fn is_held_with_authority(&self, point: usize) -> bool
        ensures { result ≡ is_held_with_authority self.now.sited.table self.now.ixl point }
    {
        points_are_held_by_phase_at_a_side();
        self.table.is_of_its_site();
        some_holds_with_authority(&self.locks, &self.routes, point)
    }

    /// The first route of the table that blocks one that isn't set.
    pub fn blocking(&self, number: usize) -> Option<usize>
        requires there { number < length self.now.sited.table.rows }
        requires free { AtRoute self.now number (λ row route. is_set route.phase ≡ false) }
        ensures { AtRoute self.now number (λ row route. result ≡ first_blocking number row 0 self.now.sited.table.rows self.now.ixl.routes) }
    {
        set_routes_lock_sections();
        the_first_blocking_route_is_told_by_phase();
        self.table.is_of_its_site();
        match self.locks.fault(RouteId(number)) {
            None => None,
            Some(LockFault::Conflict(route)) => Some(route.0),
            Some(LockFault::PointHeld(route, _)) => Some(route.0),
        }
    }
}
