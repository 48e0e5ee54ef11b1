//! The safety code at the end of each PDU, and which bytes are intact.

ghost use Rattle.std.specs.Prelude.{◌≡◌, ◌≤◌, ◌↔◌, IsTrue, IfOk, length};
ghost use Rattle.rasta_pdu.specs.PduRead.{Gives, text_of};
ghost use Rattle.rasta_pdu.specs.SafetyCode.{IsIntact, code, intact};

use crate::fault::PduFault;
use crate::key::Key;
use byteorder::{ByteOrder, LittleEndian};

/// How many bytes the safety code has.
const CODE_LENGTH: usize = 8;

/// How many bytes of fields every PDU begins with.
pub(crate) const FIELDS_LENGTH: usize = 28;

/// A PDU without payload.
const SHORTEST: usize = FIELDS_LENGTH + CODE_LENGTH;

/// The safety code of a text: the first 8 bytes of its digest from the key.
#[tactic(auto, unfolding(crate::specs::SafetyCode::code))]
pub(crate) fn code_of(key: &Key, text: &[u8]) -> [u8; 8]
    ensures { result ≡ code key.now text.now }
{
    let digest = md4::digest_from(key.0, text);
    [
        digest[0], digest[1], digest[2], digest[3], digest[4], digest[5], digest[6], digest[7],
    ]
}

/// Intact bytes without their safety code.
#[tactic(auto, unfolding(crate::specs::PduRead::text_of))]
pub(crate) fn text<'a>(key: &Key, bytes: &'a [u8]) -> Result<&'a [u8], PduFault>
    ensures value { Gives (λ text. text.now) result (text_of key.now bytes.now) }
    ensures fits { IfOk result (λ text. 28 ≤ length text.now) }
{
    if bytes.len() < SHORTEST {
        return Err(PduFault::TooShort);
    }
    if LittleEndian::read_u16(bytes) as usize != bytes.len() {
        return Err(PduFault::Length);
    }
    let (text, code) = bytes.split_at(bytes.len() - CODE_LENGTH);
    if code != code_of(key, text).as_slice() {
        return Err(PduFault::Code);
    }
    Ok(text)
}

/// Whether bytes have the length that they say, and end with the right safety code under this key: the
/// first three tests of `read`.
pub fn is_intact(key: &Key, bytes: &[u8]) -> bool
    ensures value { result ≡ intact key.now bytes.now }
    ensures meaning { IsTrue result ↔ IsIntact key.now bytes.now }
{
    text(key, bytes).is_ok()
}
