//! To whom a datagram of the interlocking goes.

ghost use Rattle.std.specs.Prelude.{◌≡◌, ◌≤◌};
ghost use Rattle.simulator_spec.specs.Interlocking.{link_of};

use ixl_spec::{Layout, receiver_of};

/// The link of the controller that a datagram names as its receiver, and how many links there are where none has its identity.
pub fn link_of(layout: &Layout, bytes: &[u8]) -> usize
    ensures link { result ≡ link_of layout.now bytes.now }
    ensures few { result ≤ 80 }
{
    match layout.link_with(receiver_of(bytes)) {
        Some(link) => link,
        None => layout.links(),
    }
}
