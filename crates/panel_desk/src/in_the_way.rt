//! What stands against a route, as a panel sees it.

ghost use Rattle.std.specs.Prelude.{◌≡◌, ◌<◌, ◌↔◌, ◌⊎◌, length, IsTrue};
ghost use Rattle.node_lines.specs.closings.declared.thing.Thing.TheVariants as things;
ghost use Rattle.node_lines.specs.control_table.Table.{Conflict, LeadsOver};
ghost use Rattle.panel_desk.specs.InTheWay.{Hinders, IsHindered, IsOfNode, IsSetAgainst, KnowledgeAgainst, ReportsFor, StandsAgainst, UsedBy, tells_set_route};
ghost use Rattle.node_lines.specs.sci_telegram.declared.message.Side.TheVariants as sides;

use crate::panel_line::PanelLine;
use node_lines::{
    Checked, Known, LinkState, Node, NodeId, Occupancy, PointId, RouteId, SectionId, Side, Thing,
};

/// Whether what a line tells stands against a route.
pub(crate) fn stands_against(table: &Checked, route: RouteId, line: PanelLine) -> bool
    requires { route.0 < length table.now.routes }
    ensures { IsTrue result ↔ StandsAgainst table.now route line }
{
    match line {
        PanelLine::Known(known) => knowledge_against(table, route, known),
        PanelLine::Stands { section, occupancy } => {
            occupancy == Occupancy::Occupied && leads_over(table, route, section)
        }
        PanelLine::Closed { thing, is_closed } => is_closed && uses(table, route, thing),
        _ => false,
    }
}

/// Whether something that is told hinders a route.
pub(crate) fn is_hindered(table: &Checked, lines: &[PanelLine], route: RouteId) -> bool
    requires { route.0 < length table.now.routes }
    ensures { IsTrue result ↔ IsHindered table.now lines.now route }
{
    lines.iter().any(|line| hinders(table, route, *line))
}

/// Whether what a line tells hinders a route: it stands against it, and is no set route.
fn hinders(table: &Checked, route: RouteId, line: PanelLine) -> bool
    requires { route.0 < length table.now.routes }
    ensures { IsTrue result ↔ Hinders table.now route line }
{
    !tells_set_route(line) && stands_against(table, route, line)
}

/// Whether a line tells that a route is set, whichever.
fn tells_set_route(line: PanelLine) -> bool
    ensures { result ≡ tells_set_route line }
{
    match line {
        PanelLine::Known(Known::Route { route: _, is_set }) => is_set,
        _ => false,
    }
}

/// Whether what the interlocking knows stands against a route.
fn knowledge_against(table: &Checked, route: RouteId, known: Known) -> bool
    requires { route.0 < length table.now.routes }
    ensures { IsTrue result ↔ KnowledgeAgainst table.now route known }
{
    match known {
        Known::Link { node, state } => state == LinkState::Lost && is_of_node(table, route, node),
        Known::Section { section, occupancy } => {
            occupancy != Some(Occupancy::Clear) && leads_over(table, route, section)
        }
        Known::Route {
            route: other,
            is_set,
        } => is_set && is_set_against(table, route, other),
        _ => false,
    }
}

/// Whether a route that is set is this one, or conflicts with it.
fn is_set_against(table: &Checked, route: RouteId, other: RouteId) -> bool
    requires { route.0 < length table.now.routes }
    ensures { IsTrue result ↔ IsSetAgainst table.now route other }
{
    other == route || conflicts(table, route, other)
}

/// Whether another route conflicts with a route; one that the table lacks doesn't.
pub(crate) fn conflicts(table: &Checked, route: RouteId, other: RouteId) -> bool
    requires { route.0 < length table.now.routes }
    ensures conflict { IsTrue result ↔ Conflict table.now route other }
    ensures there { IsTrue result → other.0 < length table.now.routes }
{
    other.0 < table.layout().routes().len() && table.conflict(route, other)
}

/// Whether a route leads over a section.
fn leads_over(table: &Checked, route: RouteId, section: SectionId) -> bool
    requires { route.0 < length table.now.routes }
    ensures { IsTrue result ↔ LeadsOver table.now route section }
{
    table.masks(route).sections.contains(section.0)
}

/// Whether a route uses a thing.
fn uses(table: &Checked, route: RouteId, thing: Thing) -> bool
    requires { route.0 < length table.now.routes }
    ensures { IsTrue result ↔ UsedBy table.now route thing }
{
    match thing {
        Thing::Section(section) => leads_over(table, route, section),
        Thing::Point(point, Side::Right) => table.masks(route).right.contains(point.0),
        Thing::Point(point, Side::Left) => table.masks(route).left.contains(point.0),
        Thing::Signal(signal) => table.masks(route).entry == signal,
        Thing::Route(other) => other == route,
    }
}

/// Whether a route needs the controller of a node.
fn is_of_node(table: &Checked, route: RouteId, node: NodeId) -> bool
    requires { route.0 < length table.now.routes }
    ensures { IsTrue result ↔ IsOfNode table.now route node }
{
    match table.layout().node(node) {
        Some(Node::Signal(signal)) => uses(table, route, Thing::Signal(signal)),
        Some(Node::Point(point)) => requires_point(table, route, point),
        Some(Node::Detector(detector)) => reports_for(table, route, detector.0),
        Some(Node::Interlocking) | None => false,
    }
}

/// Whether a route requires a point, at whichever side.
fn requires_point(table: &Checked, route: RouteId, point: PointId) -> bool
    requires { route.0 < length table.now.routes }
    ensures { IsTrue result ↔ (UsedBy table.now route (things.Point point sides.Left) ⊎ UsedBy table.now route (things.Point point sides.Right)) }
{
    uses(table, route, Thing::Point(point, Side::Left))
        || uses(table, route, Thing::Point(point, Side::Right))
}

/// Whether a detector reports one of the sections over which a route leads.
fn reports_for(table: &Checked, route: RouteId, detector: usize) -> bool
    requires { route.0 < length table.now.routes }
    ensures { IsTrue result ↔ ReportsFor table.now route detector }
{
    let Some(detector) = table.layout().detectors().get(detector) else {
        return false;
    };
    detector
        .sections()
        .iter()
        .any(|section| leads_over(table, route, *section))
}
