//! What a step is made for.

/// What a step of an end's host is made for.
#[derive(Clone, Copy, Debug)]
pub enum Input<'a> {
    /// The clock goes on.
    Tick,
    /// Bytes have come over the network.
    Datagram(&'a [u8]),
    /// A contact has changed, or how the station drives the lock, or what the operator wishes.
    Look,
}
