//! What a step of a host is made for.

use crate::sense::Sense;

/// What a step of a host is made for.
#[derive(Clone, Copy, Debug)]
pub enum Input<'a> {
    /// The clock goes on.
    Tick,
    /// Bytes have come over the network.
    Datagram(&'a [u8]),
    /// A contact of the object has changed.
    Sense(Sense),
}
