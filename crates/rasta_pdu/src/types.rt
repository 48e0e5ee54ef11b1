//! The type numbers of PDUs, and the lengths of payloads that are always the same (this profile).

/// A client asks for a connection.
pub(crate) const CONNECTION_REQUEST: u16 = 6200;

/// The server grants it.
pub(crate) const CONNECTION_RESPONSE: u16 = 6201;

/// The sender misses PDUs.
pub(crate) const RETRANSMISSION_REQUEST: u16 = 6212;

/// The missing ones follow.
pub(crate) const RETRANSMISSION_RESPONSE: u16 = 6213;

/// The sender has closed the connection.
pub(crate) const DISCONNECTION_REQUEST: u16 = 6216;

/// The sender is there.
pub(crate) const HEARTBEAT: u16 = 6220;

/// Items.
pub(crate) const DATA: u16 = 6240;

/// Items that were sent before.
pub(crate) const RETRANSMITTED_DATA: u16 = 6241;

/// Bytes of payload of a connection request or response.
pub(crate) const OPENING_LENGTH: usize = 14;

/// Bytes of payload of a disconnection request.
pub(crate) const DISCONNECTION_LENGTH: usize = 4;
