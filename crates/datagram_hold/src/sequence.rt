//! The sequence numbers of datagrams. No code is verified.

ghost use Rattle.std.specs.Prelude.{◌≡◌, slice_index};
ghost use Rattle.datagram_hold.specs.Sequence.{distance, is_ahead, is_behind, next_to, number_of};
ghost use Rattle.rasta_pdu.specs.Header.{AreOf};
ghost use Rattle.rasta_pdu.specs.declared.pdu.Pdu.{Pdu};

/// How far ahead of the number that is expected a number may be to wait for those before it.
const FARTHEST_AHEAD: u32 = 8;

/// How far behind the number that is expected a number may be, to be taken for one that came again or late.
const FARTHEST_BEHIND: u32 = 256;

/// The sequence number that a datagram tells, whether it is intact or not. Bytes that are lacking count as 0.
pub fn number_of(bytes: &[u8]) -> u32
    ensures value { result ≡ number_of bytes.now }
    ensures written { (pdu : Pdu) → AreOf pdu bytes.now → result ≡ pdu.sequence_number }
{
    u32::from_le_bytes([
        byte_at(bytes, 12),
        byte_at(bytes, 13),
        byte_at(bytes, 14),
        byte_at(bytes, 15),
    ])
}

/// The byte at a place, and 0 where there is none.
fn byte_at(bytes: &[u8], place: usize) -> u8
    ensures { result ≡ slice_index bytes.now place }
{
    match bytes.get(place) {
        Some(byte) => *byte,
        None => 0,
    }
}

/// How far one number is after another.
pub(crate) fn distance(from: u32, to: u32) -> u32
    ensures { result ≡ distance from to }
{
    to.wrapping_sub(from)
}

/// Whether a number is so little ahead of the one that is expected that it waits for those before it.
pub(crate) fn is_ahead(expected: u32, number: u32) -> bool
    ensures { result ≡ is_ahead expected number }
{
    let ahead = distance(expected, number);
    1 <= ahead && ahead <= FARTHEST_AHEAD
}

/// Whether a number is so little behind the one that is expected that it came again or late.
pub(crate) fn is_behind(expected: u32, number: u32) -> bool
    ensures { result ≡ is_behind expected number }
{
    let behind = distance(number, expected);
    1 <= behind && behind <= FARTHEST_BEHIND
}

/// The number after this one.
pub(crate) fn next_to(number: u32) -> u32
    ensures { result ≡ next_to number }
{
    number.wrapping_add(1)
}
