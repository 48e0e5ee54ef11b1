//! What a table tells of conflicts and of points that are let go, and that a layout has one.

ghost use Rattle.std.specs.Prelude.{◌≡◌, ◌≢◌, ◌<◌, ◌↔◌, ℕ, List, [], length};
ghost use Rattle.std.specs.List.{Contains};
ghost use Rattle.control_table.specs.layout.declared.ids.PointId.{PointId};
ghost use Rattle.control_table.specs.layout.declared.ids.RouteId.{RouteId};
ghost use Rattle.control_table.specs.layout.declared.ids.SectionId.{SectionId};
ghost use Rattle.control_table.specs.layout.Entries.{Site};
ghost use Rattle.control_table.specs.layout.Once.{Once};
ghost use Rattle.control_table.specs.layout.Station.{IsStation};
ghost use Rattle.control_table.specs.Table.{AreSections, Conflict, Sound};
ghost use Rattle.station_layout.specs.declared.conflict_reasons.ConflictReasons.{ConflictReasons};
ghost use Rattle.station_layout.specs.declared.form.Form.{Form};
ghost use Rattle.station_layout.specs.Lines.{IsTable};
ghost use Rattle.station_layout.specs.Reasons.{AreReasons, reason_words};
ghost use Rattle.station_layout.specs.Row.{IsConflictText, IsLetGoAt, IsRequired, TellsConflicts, TellsLetGo, TellsPoint};

use control_table::{
    a_route_leads_over_its_sections_alone, required_points_are_there,
    required_points_await_a_section_of_the_route,
};

/// Two routes conflict exactly where they aren't one and a reason is told.
pub fn routes_conflict_for_a_reason()
    ensures { (l : Site) (a b : RouteId) (r : ConflictReasons) → AreReasons l a b r → Conflict l a b ↔ ((a ≢ b) × (reason_words r ≢ [])) }
{}

/// Among the conflicts of a route each route of the table is told that conflicts with it, and no other.
pub fn each_conflict_is_told()
    ensures told { (l : Site) (a : RouteId) (texts : List (List ℕ)) → TellsConflicts l a texts
        → (b : RouteId) → b.0 < length l.routes → Conflict l a b → (text : List ℕ) × IsConflictText l a b text × Contains texts text }
    ensures only { (l : Site) (a : RouteId) (texts : List (List ℕ)) → TellsConflicts l a texts
        → (text : List ℕ) → Contains texts text → (b : RouteId) × Conflict l a b × IsConflictText l a b text }
{}

/// Each point that a route requires is told at one section of its path: the last that the point awaits.
pub fn each_required_point_is_let_go()
    ensures told { (l : Site) → IsStation l → Once l → Sound l → (a : RouteId) (sections : List SectionId) (texts : List (List ℕ)) → AreSections l a sections → TellsLetGo l a sections texts
        → (p : PointId) → IsRequired l a p → (place : ℕ) × IsLetGoAt l a sections place p × TellsPoint l sections place p texts }
    ensures once { (l : Site) (a : RouteId) (sections : List SectionId) (p : PointId) (j k : ℕ) → IsLetGoAt l a sections j p → IsLetGoAt l a sections k p → j ≡ k }
{
    required_points_are_there();
    required_points_await_a_section_of_the_route();
    a_route_leads_over_its_sections_alone();
}

/// A layout has one table in each form.
pub fn a_layout_has_one_table()
    ensures { (form : Form) (l : Site) (one other : List ℕ) → IsTable form l one → IsTable form l other → one ≡ other }
{}
