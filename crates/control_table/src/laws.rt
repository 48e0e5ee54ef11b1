//! What holds of every layout.

ghost use Rattle.std.specs.Prelude.{◌≡◌, ◌≢◌, ◌≤◌, ◌↔◌, List, length, Some};
ghost use Rattle.std.specs.List.{All, Contains};
ghost use Rattle.sci_telegram.specs.declared.message.Side.{Side};
ghost use Rattle.sci_telegram.specs.declared.message.Side.TheVariants.{Left, Right};
ghost use Rattle.layout.specs.declared.ids.PointId.{PointId};
ghost use Rattle.layout.specs.declared.ids.RouteId.{RouteId};
ghost use Rattle.layout.specs.declared.ids.SectionId.{SectionId};
ghost use Rattle.layout.specs.declared.port.Element.TheVariants as element;
ghost use Rattle.layout.specs.Entries.{Site, RouteEntry};
ghost use Rattle.layout.specs.Once.{Once};
ghost use Rattle.layout.specs.Station.{HasPoint, HasSection, IsStation};
ghost use Rattle.control_table.specs.Topology.{IsRoute, section_of};
ghost use Rattle.control_table.specs.Path.{Passage, Path};
ghost use Rattle.control_table.specs.Sides.{OnPath};
ghost use Rattle.control_table.specs.AwaitedSections.{Awaits};
ghost use Rattle.control_table.specs.Table.{AreSections, Conflict, LeadsOver, RouteRequires, SameEntry, Sound};

/// Two routes conflict whichever of them is named first.
pub fn conflicts_go_both_ways()
    ensures { (l : Site) (a b : RouteId) → Conflict l a b → Conflict l b a }
{}

/// Two routes that begin at one signal conflict.
pub fn routes_of_one_entry_conflict()
    ensures { (l : Site) (a b : RouteId) → a ≢ b → SameEntry l a b → Conflict l a b }
{}

/// In a sound table of a layout in which no port is joined twice, no route requires a point at both
/// sides.
pub fn points_are_required_at_one_side()
    ensures { (l : Site) (a : RouteId) (p : PointId) → Once l → Sound l → RouteRequires l a p Left → RouteRequires l a p Right → ⊥ }
{}

/// A route leads over its sections, and over no other.
pub fn a_route_leads_over_its_sections_alone()
    ensures { (l : Site) → Once l → (a : RouteId) (ss : List SectionId) → AreSections l a ss → (s : SectionId) → Contains ss s ↔ LeadsOver l a s }
{}

/// A route of a station leads over 1 to 64 sections, all of which are there.
pub fn a_route_leads_over_sections_that_are_there()
    ensures { (l : Site) → IsStation l → (a : RouteId) (ss : List SectionId) → AreSections l a ss → (1 ≤ length ss) × (length ss ≤ 64) × All (HasSection l) ss }
{}

/// The points that a route of a station requires are there.
pub fn required_points_are_there()
    ensures { (l : Site) → IsStation l → (a : RouteId) (p : PointId) (s : Side) → RouteRequires l a p s → HasPoint l p }
{}

/// A route of a station leads over the section of each point on its path.
pub fn a_route_leads_over_the_sections_of_its_points()
    ensures { (l : Site) → IsStation l → (a : RouteId) (r : RouteEntry) (path : List Passage) (p : PointId) → IsRoute l a r → Path l r path → OnPath path p → (s : SectionId) × (section_of l (element.Point p) ≡ Some s) × LeadsOver l a s }
{}

/// A point that a route requires awaits a section over which the route leads.
pub fn required_points_await_a_section_of_the_route()
    ensures { (l : Site) → IsStation l → Once l → Sound l → (a : RouteId) (p : PointId) (t : Side) → RouteRequires l a p t → (s : SectionId) × Awaits l a p s × LeadsOver l a s }
{}
