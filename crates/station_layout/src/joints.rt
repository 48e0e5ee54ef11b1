//! Which ports are joined, and what stands there.

ghost use Rattle.std.specs.Prelude.{◌≡◌};
ghost use Rattle.control_table.specs.layout.Known.{same_port};
ghost use Rattle.station_layout.specs.Joints.{is_tip, joined_to, may_pass, other_port, signal_at};

use control_table::layout::{Element, End, Joint, Port, Signal};

/// Whether two ports are the same.
pub(crate) fn same_port(one: Port, other: Port) -> bool
    ensures { result ≡ same_port one other }
{
    one == other
}

/// The other port of a joint, if this one stands in it.
fn other_port(joint: Joint, port: Port) -> Option<Port>
    ensures { result ≡ other_port joint port }
{
    if same_port(joint.first, port) {
        return Some(joint.second);
    }
    if same_port(joint.second, port) {
        return Some(joint.first);
    }
    None
}

/// The port to which a port is joined.
#[tactic(auto, unfolding(crate::specs::Joints::joined_to))]
pub(crate) fn joined_to(joints: &[Joint], port: Port) -> Option<Port>
    ensures { result ≡ joined_to joints.now port }
{
    for joint in joints {
        if let Some(found) = other_port(*joint, port) {
            return Some(found);
        }
    }
    None
}

/// Whether an end is the tip of a point.
fn is_tip(end: End) -> bool
    ensures { result ≡ is_tip end }
{
    matches!(end, End::Tip)
}

/// Whether a train passes from one port to another.
#[tactic(auto, unfolding(crate::specs::Joints::may_pass))]
pub(crate) fn may_pass(entered: Port, left: Port) -> bool
    ensures { result ≡ may_pass entered left }
{
    if entered.element != left.element || same_port(entered, left) {
        return false;
    }
    match entered.element {
        Element::Point(_) => is_tip(entered.end) || is_tip(left.end),
        _ => true,
    }
}

/// The place of the signal that stands at a port.
#[tactic(auto, using(crate::proofs::SignalFound::found, crate::proofs::SignalFound::goes_on, crate::proofs::SignalFound::nowhere), unfolding(crate::specs::Joints::signal_at))]
pub(crate) fn signal_at(signals: &[Signal], port: Port) -> Option<usize>
    ensures { result ≡ signal_at signals.now port }
{
    for (place, signal) in signals.iter().enumerate() {
        if same_port(signal.at, port) {
            return Some(place);
        }
    }
    None
}
