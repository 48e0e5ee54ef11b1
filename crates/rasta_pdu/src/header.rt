//! What the first bytes of a datagram say. They aren't judged: no length and no safety code is looked at.

ghost use Rattle.std.specs.Prelude.{◌≡◌, ◌==◌, slice_index};
ghost use Rattle.rasta_pdu.specs.Header.{AreOf, is_request, receiver_of, sender_of};
ghost use Rattle.rasta_pdu.specs.Spelling.{type_of};
ghost use Rattle.rasta_pdu.specs.declared.pdu.Pdu.{Pdu};

use crate::types::CONNECTION_REQUEST;

/// The byte at a place, and 0 where there is none.
fn byte_at(bytes: &[u8], place: usize) -> u8
    ensures { result ≡ slice_index bytes.now place }
{
    match bytes.get(place) {
        Some(byte) => *byte,
        None => 0,
    }
}

/// The identity of the receiver that a datagram names.
pub fn receiver_of(bytes: &[u8]) -> u32
    ensures value { result ≡ receiver_of bytes.now }
    ensures written { (pdu : Pdu) → AreOf pdu bytes.now → result ≡ pdu.receiver }
{
    u32::from_le_bytes([
        byte_at(bytes, 4),
        byte_at(bytes, 5),
        byte_at(bytes, 6),
        byte_at(bytes, 7),
    ])
}

/// The identity of the sender that a datagram names.
pub fn sender_of(bytes: &[u8]) -> u32
    ensures value { result ≡ sender_of bytes.now }
    ensures written { (pdu : Pdu) → AreOf pdu bytes.now → result ≡ pdu.sender }
{
    u32::from_le_bytes([
        byte_at(bytes, 8),
        byte_at(bytes, 9),
        byte_at(bytes, 10),
        byte_at(bytes, 11),
    ])
}

/// Whether a datagram says of itself that it is a connection request.
pub fn is_request(bytes: &[u8]) -> bool
    ensures value { result ≡ is_request bytes.now }
    ensures written { (pdu : Pdu) → AreOf pdu bytes.now → result ≡ (type_of pdu.body == 6200) }
{
    u16::from_le_bytes([byte_at(bytes, 2), byte_at(bytes, 3)]) == CONNECTION_REQUEST
}
