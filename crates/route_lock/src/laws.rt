//! What holds of all locks.

ghost use Rattle.std.specs.Prelude.{◌≢◌};
ghost use Rattle.control_table.specs.sci_telegram.declared.message.Side.{Side};
ghost use Rattle.control_table.specs.layout.declared.ids.PointId.{PointId};
ghost use Rattle.control_table.specs.layout.declared.ids.RouteId.{RouteId};
ghost use Rattle.control_table.specs.layout.Once.{Once};
ghost use Rattle.control_table.specs.layout.Station.{IsStation};
ghost use Rattle.control_table.specs.Table.{Conflict, RouteRequires, Sound};
ghost use Rattle.route_lock.specs.Locks.{AllApart, Holds, IsWhole, LockState};

/// A set route of which nothing was freed holds every point that it requires, flank points too.
pub fn whole_routes_hold_what_they_require()
    ensures { (st : LockState) → IsStation st.table → Once st.table → Sound st.table → (a : RouteId) (p : PointId) (t : Side) → IsWhole st a → RouteRequires st.table a p t → Holds st a p t }
{
    control_table::required_points_await_a_section_of_the_route();
}

/// Two set routes of which nothing was freed don't conflict.
pub fn whole_routes_do_not_conflict()
    ensures { (st : LockState) → IsStation st.table → Once st.table → Sound st.table → AllApart st → (a b : RouteId) → IsWhole st a → IsWhole st b → Conflict st.table a b → ⊥ }
{
    whole_routes_hold_what_they_require();
}
