//! What the test of an event finds that the event needs.

/// What an event needs beside itself.
#[derive(Clone, Copy, Debug)]
pub(crate) enum Found {
    /// Nothing.
    Nothing,
    /// A delivery: the connection in which the bytes were sent.
    Connection(usize),
    /// A loss: the place of the datagram, which is how many were sent before it.
    Place(usize),
}
