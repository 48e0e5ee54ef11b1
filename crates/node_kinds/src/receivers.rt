//! To which node a datagram of the interlocking goes.

ghost use Rattle.std.specs.Prelude.{◌≡◌, suc};
ghost use Rattle.simulator_spec.specs.Interlocking.{link_of};

use simulator_spec::{Layout, NodeId, link_of};

/// The node of the controller that a datagram names as its receiver.
pub(crate) fn receiver(layout: &Layout, bytes: &[u8]) -> NodeId
    ensures { result.0 ≡ suc (link_of layout.now bytes.now) }
{
    NodeId(link_of(layout, bytes) + 1)
}
