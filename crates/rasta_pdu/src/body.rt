//! What a PDU carries, by its type.

use crate::items::Items;

/// What the ends tell each other as a connection opens.
#[derive(Clone, Copy, Debug, PartialEq, Eq)]
pub struct Opening {
    /// The version of the protocol, four characters.
    pub version: [u8; 4],
    /// How many PDUs with items may be unconfirmed.
    pub window: u16,
    /// Bytes without a meaning, kept as they came.
    pub reserved: [u8; 8],
}

/// The types of PDUs with what each carries, in the order of their numbers, which are this profile's.
#[derive(Debug, PartialEq, Eq, Drop)]
pub enum Body {
    /// Type 6200: a client asks for a connection.
    ConnectionRequest(Opening),
    /// Type 6201: the server grants it.
    ConnectionResponse(Opening),
    /// Type 6212: the sender misses PDUs.
    RetransmissionRequest,
    /// Type 6213: the missing ones follow.
    RetransmissionResponse,
    /// Type 6216: the sender has closed the connection.
    DisconnectionRequest {
        /// A closer description of the reason; 0 where there is none.
        detail: u16,
        /// Why it closed.
        reason: u16,
    },
    /// Type 6220: the sender is there.
    Heartbeat,
    /// Type 6240: items.
    Data(Items),
    /// Type 6241: items that were sent before.
    RetransmittedData(Items),
}
