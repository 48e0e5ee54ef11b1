//! The tracks between a lock and a border.

ghost use Rattle.std.specs.Prelude.{◌≡◌, [], IfOk};
ghost use Rattle.std.specs.Option.{option_map};
ghost use Rattle.control_table.specs.layout.Known.{same_port};
ghost use Rattle.control_table.specs.Sides.{leg, leg_at};
ghost use Rattle.railway_layout.specs.Way.{far_end, is_border, is_border_element, joined_to, other_port, track_behind, track_entered, way, way_on};

use control_table::layout::{Element, End, Joint, Port};
use control_table::{BorderId, Layout, PointId, Side, TrackId};
use std::alloc::{AllocError, Global};

/// The leg to which a point leads at a side.
fn leg_at(side: Side) -> End
    ensures { result ≡ leg_at side }
{
    match side {
        Side::Left => End::Left,
        Side::Right => End::Right,
    }
}

/// The leg of a point at a side.
pub(crate) fn leg(point: PointId, side: Side) -> Port
    ensures { result ≡ leg point side }
{
    Port {
        element: Element::Point(point),
        end: leg_at(side),
    }
}

/// Whether two ports are the same.
pub(crate) fn is_port(one: Port, other: Port) -> bool
    ensures { result ≡ same_port one other }
{
    one == other
}

/// The other port of a joint, if this one stands in it.
fn other_port(joint: Joint, port: Port) -> Option<Port>
    ensures { result ≡ other_port joint port }
{
    if is_port(joint.first, port) {
        return Some(joint.second);
    }
    if is_port(joint.second, port) {
        return Some(joint.first);
    }
    None
}

/// The port to which a port is joined.
pub(crate) fn joined_to(joints: &[Joint], port: Port) -> Option<Port>
    ensures { result ≡ joined_to joints.now port }
{
    for joint in joints {
        if let Some(other) = other_port(*joint, port) {
            return Some(other);
        }
    }
    None
}

/// The other end of a track.
fn far_end(end: End) -> End
    ensures { result ≡ far_end end }
{
    match end {
        End::A => End::B,
        _ => End::A,
    }
}

/// The track that is entered at an end, and the port by which it is left.
fn track_entered(element: Element, end: End) -> Option<(TrackId, Port)>
    ensures { result ≡ track_entered element end }
{
    match element {
        Element::Track(track) => {
            let left = Port {
                element: Element::Track(track),
                end: far_end(end),
            };
            Some((track, left))
        }
        _ => None,
    }
}

/// The track behind a port.
fn track_behind(joints: &[Joint], port: Port) -> Option<(TrackId, Port)>
    ensures { result ≡ track_behind joints.now port }
{
    let entered = joined_to(joints, port)?;
    track_entered(entered.element, entered.end)
}

fn is_border_element(border: BorderId, element: Element) -> bool
    ensures { result ≡ is_border_element border element }
{
    match element {
        Element::Border(other) => other.0 == border.0,
        _ => false,
    }
}

/// Whether the border stands at a port, if there is one.
fn is_border(border: BorderId, port: Option<Port>) -> bool
    ensures { result ≡ is_border border port }
{
    match port {
        Some(port) => is_border_element(border, port.element),
        None => false,
    }
}

/// Whether a port is joined to the border.
fn ends_at(joints: &[Joint], border: BorderId, port: Port) -> bool
    ensures { result ≡ is_border border (joined_to joints.now port) }
{
    is_border(border, joined_to(joints, port))
}

/// The tracks from a port to a border, at most so many.
#[tactic(auto, using(crate::proofs::Ways::way_goes_on, crate::proofs::Ways::way_lost))]
fn way_on(
    alloc: Global,
    joints: &[Joint],
    border: BorderId,
    most: usize,
    from: Port,
) -> Result<Option<Vec<TrackId>>, AllocError>
    ensures { IfOk result (λ w. option_map (λ v. v.items) w ≡ way_on joints.now border most from []) }
{
    let mut tracks = Vec::new(alloc);
    let mut port = from;
    for _step in 0..most {
        if ends_at(joints, border, port) {
            return Ok(Some(tracks));
        }
        let Some((track, left)) = track_behind(joints, port) else {
            return Ok(None);
        };
        tracks.push(track)?;
        port = left;
    }
    Ok(None)
}

/// The tracks from the right leg of a lock to a border, one after the other, if nothing else lies between.
pub(crate) fn way(
    alloc: Global,
    layout: &Layout,
    border: BorderId,
    lock: PointId,
) -> Result<Option<Vec<TrackId>>, AllocError>
    ensures { IfOk result (λ w. option_map (λ v. v.items) w ≡ way layout.now border lock) }
{
    // Each step but the last one is over another track.
    let most = layout.tracks().len() + 1;
    way_on(alloc, layout.joints(), border, most, leg(lock, Side::Right))
}
