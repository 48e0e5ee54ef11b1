//! Telegrams.

ghost use Rattle.std.specs.Prelude.{◌≡◌, ◌≢◌, ◌+◌, ◌++◌, ◌≤◌, ℕ, length, drop};
ghost use Rattle.arrayvec.specs.ArrayVec.{array_vec_len};
ghost use Rattle.sci_telegram.specs.Faults.{IsFault};
ghost use Rattle.sci_telegram.specs.Names.{name_field};
ghost use Rattle.sci_telegram.specs.Telegrams.{IsTelegram, writing};
ghost use Rattle.sci_telegram.specs.declared.fault.SciFault.{SciFault};
ghost use Rattle.sci_telegram.specs.declared.telegram.Telegram.{Telegram};
ghost use Rattle.codec.specs.Telegram.{IsWrittenSo, fault_number, fields_of, spelled};

use crate::bytes::put;
use arrayvec::ArrayVec;
use sci_telegram::{read, written_is_read};

/// The most bytes that a name has.
const LONGEST_NAME: usize = 20;

/// The most bytes that a payload has.
const LONGEST: usize = 18;

/// What stands after a name in its field.
const PADDING: [u8; LONGEST_NAME] = [b'_'; LONGEST_NAME];

/// The bytes of a telegram, of which there are at most 61.
type Bytes = ArrayVec<u8, 61>;

/// What stands before the payload of a telegram. The names are the first bytes of those from the 3rd and from the 23rd on.
#[repr(C)]
#[derive(Clone, Copy, Debug)]
pub struct TelegramFields {
    /// The number of its type. (`type` is no name in Rattle.)
    pub kind: u16,
    /// 0x20 for train detection, 0x30 for light signals, 0x40 for points.
    pub protocol: u8,
    pub sender_length: u8,
    pub receiver_length: u8,
}

/// Reads a telegram: 0, and what it says; or the number of the first fault, and the fields are as they were.
#[unsafe(no_mangle)]
pub extern "C" fn zendurai_telegram_read(bytes: &[u8], fields: &mut TelegramFields) -> u32
    ensures found { result ≡ 0 → (telegram : Telegram) × IsTelegram telegram × (bytes.now ≡ writing telegram) × (fields.new ≡ fields_of telegram bytes.now) }
    ensures only { (telegram : Telegram) → IsTelegram telegram → bytes.now ≡ writing telegram → result ≡ 0 }
    ensures fault { (fault : SciFault) → IsFault bytes.now fault → result ≡ fault_number fault }
    ensures same { result ≢ 0 → fields.new ≡ fields.old }
{
    written_is_read();
    match read(bytes) {
        Ok(telegram) => {
            *fields = TelegramFields {
                kind: u16::from_le_bytes([bytes[1], bytes[2]]),
                protocol: bytes[0],
                sender_length: telegram.sender.bytes().len() as u8,
                receiver_length: telegram.receiver.bytes().len() as u8,
            };
            0
        }
        Err(fault) => fault as u32,
    }
}

/// Appends the field of a name.
fn put_name(bytes: &mut Bytes, name: &[u8])
    requires name { length name.now ≤ 20 }
    requires room { array_vec_len bytes.old + 20 ≤ 61 }
    ensures { bytes.new.items ≡ bytes.old.items ++ name_field name.now }
{
    put(bytes, name);
    let (_, padding) = PADDING.split_at(name.len());
    put(bytes, padding);
}

/// Protocol, type, names and payload.
#[tactic(auto, unfolding(crate::specs::Telegram::spelled))]
fn spelled(protocol: u8, kind: u16, sender: &[u8], receiver: &[u8], payload: &[u8]) -> Bytes
    requires sender { length sender.now ≤ 20 }
    requires receiver { length receiver.now ≤ 20 }
    requires payload { length payload.now ≤ 18 }
    ensures { result.items ≡ spelled protocol kind sender.now receiver.now payload.now }
{
    let mut bytes = Bytes::new();
    put(&mut bytes, &[protocol]);
    put(&mut bytes, &kind.to_le_bytes());
    put_name(&mut bytes, sender);
    put_name(&mut bytes, receiver);
    put(&mut bytes, payload);
    bytes
}

/// Writes a telegram to the beginning of `out`, and answers how many bytes it has: 0, and nothing is written, where these
/// aren't names, the payload isn't one of the type, or `out` is shorter.
#[tactic(auto, using(crate::proofs::Telegrams::spelled_as_written, crate::proofs::Telegrams::parts_short))]
#[unsafe(no_mangle)]
pub extern "C" fn zendurai_telegram_write(
    protocol: u8,
    kind: u16,
    sender: &[u8],
    receiver: &[u8],
    payload: &[u8],
    out: &mut [u8],
) -> usize
    // Each telegram is written that there is room for.
    ensures each { (telegram : Telegram) → IsTelegram telegram → IsWrittenSo telegram protocol kind sender.now receiver.now payload.now
        → length (writing telegram) ≤ length out.old → result ≡ length (writing telegram) }
    // What is written is a telegram of these parts.
    ensures written { result ≢ 0 → (telegram : Telegram) × IsTelegram telegram × (spelled protocol kind sender.now receiver.now payload.now ≡ writing telegram)
        × (result ≡ length (writing telegram)) × (out.new ≡ writing telegram ++ drop result out.old) }
    ensures same { result ≡ 0 → out.new ≡ out.old }
{
    written_is_read();
    if sender.len() > LONGEST_NAME || receiver.len() > LONGEST_NAME || payload.len() > LONGEST {
        return 0;
    }
    let bytes = spelled(protocol, kind, sender, receiver, payload);
    if read(&bytes).is_err() || out.len() < bytes.len() {
        return 0;
    }
    let (front, _) = out.split_at_mut(bytes.len());
    front.copy_from_slice(&bytes);
    bytes.len()
}
