//! What stands at a port, and where a joint leads from it.

ghost use Rattle.std.specs.Prelude.{◌≡◌};
ghost use Rattle.control_table.specs.Topology.{port_of, section_of};
ghost use Rattle.route_derivation.specs.inside.WaySearch.{is_port, is_element, is_end, other_port, joined_to, signal_from};

use control_table::layout::{Element, End, Joint, Layout, Port, SectionId, Signal, SignalId};

/// Whether two ports are the same.
#[tactic(auto, unfolding(crate::specs::inside::WaySearch::is_port))]
pub(crate) fn is_port(one: Port, other: Port) -> bool
    ensures { result ≡ is_port one other }
{
    one == other
}

/// Whether two elements are the same.
#[tactic(auto, unfolding(crate::specs::inside::WaySearch::is_element))]
pub(crate) fn is_element(one: Element, other: Element) -> bool
    ensures { result ≡ is_element one other }
{
    one == other
}

/// Whether two ends of elements have the same word.
#[tactic(auto, unfolding(crate::specs::inside::WaySearch::is_end))]
pub(crate) fn is_end(one: End, other: End) -> bool
    ensures { result ≡ is_end one other }
{
    one == other
}

/// The other port of a joint, if this one stands in it.
fn other_port(joint: Joint, port: Port) -> Option<Port>
    ensures { result ≡ other_port joint port }
{
    if is_port(joint.first, port) {
        return Some(joint.second);
    }
    if is_port(joint.second, port) {
        return Some(joint.first);
    }
    None
}

/// The port to which a port is joined.
pub(crate) fn joined_to(joints: &[Joint], port: Port) -> Option<Port>
    ensures { result ≡ joined_to joints.now port }
{
    for joint in joints {
        if let Some(other) = other_port(*joint, port) {
            return Some(other);
        }
    }
    None
}

/// The signal that stands at a port.
pub(crate) fn signal_at(signals: &[Signal], port: Port) -> Option<SignalId>
    ensures { result ≡ signal_from 0 signals.now port }
{
    for (place, signal) in signals.iter().enumerate() {
        if is_port(signal.at, port) {
            return Some(SignalId(place));
        }
    }
    None
}

/// The port at which a signal stands.
pub(crate) fn port_of(signals: &[Signal], signal: SignalId) -> Option<Port>
    ensures { result ≡ port_of signals.now signal }
{
    signals.get(signal.0).map(|entry| entry.at)
}

/// The section in which an element lies. A border lies in none.
pub(crate) fn section_of(layout: &Layout, element: Element) -> Option<SectionId>
    ensures { result ≡ section_of layout.now element }
{
    match element {
        Element::Track(track) => layout.tracks().get(track.0).map(|entry| entry.section),
        Element::Point(point) => layout.points().get(point.0).map(|entry| entry.section),
        Element::Border(_) => None,
    }
}
