//! With whom a controller speaks.

use rasta_pdu::Key;
use sci_telegram::Name;

/// A controller and the interlocking at the other end of its link.
#[derive(Clone, Copy, Debug)]
pub struct Parties {
    /// The controller's own identity.
    pub own: u32,
    /// The identity of the interlocking.
    pub partner: u32,
    /// The name by which the controller signs its telegrams.
    pub own_name: Name,
    /// The name of the interlocking.
    pub peer_name: Name,
    /// The key of their network.
    pub key: Key,
}
