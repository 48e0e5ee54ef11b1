//! Which end of a line it is, and with whom it talks.

use line_end::Side;
use rasta_pdu::Key;
use sci_telegram::Name;

/// Which end of which line it is, and with whom it talks.
#[derive(Clone, Copy, Debug)]
pub struct Parties {
    /// The name of the line.
    pub line: Name,
    /// The first end is the client of the line's link.
    pub side: Side,
    /// The own identity.
    pub own: u32,
    /// The identity of the other end.
    pub partner: u32,
    /// The name by which the end signs its telegrams.
    pub own_name: Name,
    /// The name of the other end.
    pub peer_name: Name,
    /// The key of the line's network.
    pub key: Key,
}
