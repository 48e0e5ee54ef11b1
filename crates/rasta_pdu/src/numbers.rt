//! Numbers at a place of some bytes, low-order byte first.

ghost use Rattle.std.specs.Prelude.{◌≡◌, ◌+◌, ◌≤◌, length};
ghost use Rattle.rasta_pdu.specs.PduRead.{u16_at, u32_at};

use byteorder::{ByteOrder, LittleEndian};

/// The number of 16 bits.
pub(crate) fn u16_at(place: usize, bytes: &[u8]) -> u16
    requires { place + 2 ≤ length bytes.now }
    ensures { result ≡ u16_at place bytes.now }
{
    let (_, rest) = bytes.split_at(place);
    LittleEndian::read_u16(rest)
}

/// The number of 32 bits.
pub(crate) fn u32_at(place: usize, bytes: &[u8]) -> u32
    requires { place + 4 ≤ length bytes.now }
    ensures { result ≡ u32_at place bytes.now }
{
    let (_, rest) = bytes.split_at(place);
    LittleEndian::read_u32(rest)
}
