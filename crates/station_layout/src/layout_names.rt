//! What the entries of a layout are called.

ghost use Rattle.std.specs.Prelude.{◌≡◌, [], option_map, slice_get};
ghost use Rattle.std.specs.Option.{unwrap_or};
ghost use Rattle.station_layout.specs.Names as text;
ghost use Rattle.station_layout.specs.LayoutNames.{element_name, exit_name, leg_names, point_name, port_name, route_name, signal_name};

use control_table::layout::{Element, Exit, Port, Route};
use control_table::{Layout, Name, PointId, RouteId, SectionId};
use layout_text::PortName;

/// The item of a list at a place, counted from 0.
pub(crate) fn item_at<T: Copy>(items: &[T], place: usize) -> Option<T>
    ensures { result ≡ slice_get items.now place }
{
    items.get(place).copied()
}

/// How a name is written: nothing stands for one that isn't there.
pub(crate) fn written(name: &Option<Name>) -> &str
    ensures { result.now ≡ unwrap_or name.now [] }
{
    match name {
        Some(name) => name.as_str(),
        None => "",
    }
}

/// The name of a section.
#[tactic(auto, unfolding(crate::specs::Names::section_name))]
pub(crate) fn section_name(layout: &Layout, section: SectionId) -> Option<Name>
    ensures { unwrap_or result [] ≡ text.section_name layout.now section }
{
    item_at(layout.sections(), section.0)
}

/// The name of a point.
#[tactic(auto, unfolding(crate::specs::LayoutNames::point_name, crate::specs::Names::point_name))]
pub(crate) fn point_name(layout: &Layout, point: PointId) -> Option<Name>
    ensures name { result ≡ point_name layout.now point }
    ensures text { unwrap_or result [] ≡ text.point_name layout.now point }
{
    Some(item_at(layout.points(), point.0)?.name)
}

/// The name of a signal, by its place in the layout.
#[tactic(auto, unfolding(crate::specs::LayoutNames::signal_name))]
pub(crate) fn signal_name(layout: &Layout, place: usize) -> Option<Name>
    ensures { result ≡ signal_name layout.now place }
{
    Some(item_at(layout.signals(), place)?.name)
}

/// A route of the layout.
pub(crate) fn route_at(layout: &Layout, route: RouteId) -> Option<&Route>
    ensures { option_map (λ r. r.now) result ≡ slice_get layout.now.routes route.0 }
{
    layout.routes().get(route.0)
}

/// The name of a route.
#[tactic(auto, unfolding(crate::specs::LayoutNames::route_name, crate::specs::Names::route_name))]
pub(crate) fn route_name(layout: &Layout, route: RouteId) -> Option<Name>
    ensures name { result ≡ route_name layout.now route }
    ensures text { unwrap_or result [] ≡ text.route_name layout.now route }
{
    Some(*route_at(layout, route)?.name())
}

/// The name of an element.
#[tactic(auto, unfolding(crate::specs::LayoutNames::element_name))]
pub(crate) fn element_name(layout: &Layout, element: Element) -> Option<Name>
    ensures { result ≡ element_name layout.now element }
{
    match element {
        Element::Track(track) => Some(item_at(layout.tracks(), track.0)?.name),
        Element::Point(point) => point_name(layout, point),
        Element::Border(border) => item_at(layout.borders(), border.0),
    }
}

/// A port by the name of its element.
#[tactic(auto, unfolding(crate::specs::LayoutNames::port_name))]
pub(crate) fn port_name(layout: &Layout, port: Port) -> Option<PortName>
    ensures { result ≡ port_name layout.now port }
{
    let element = element_name(layout, port.element)?;
    Some(PortName {
        element,
        end: port.end,
    })
}

/// A leg and what is joined to it, by name.
#[tactic(auto, unfolding(crate::specs::LayoutNames::leg_names))]
pub(crate) fn leg_names(layout: &Layout, leg: Port, from: Port) -> Option<(PortName, PortName)>
    ensures { result ≡ leg_names layout.now leg from }
{
    let leg = port_name(layout, leg)?;
    let from = port_name(layout, from)?;
    Some((leg, from))
}

/// The name of the signal or the border at which a route ends.
#[tactic(auto, unfolding(crate::specs::LayoutNames::exit_name))]
pub(crate) fn exit_name(layout: &Layout, exit: Exit) -> Option<Name>
    ensures { result ≡ exit_name layout.now exit }
{
    match exit {
        Exit::Signal(signal) => signal_name(layout, signal.0),
        Exit::Border(border) => item_at(layout.borders(), border.0),
    }
}
