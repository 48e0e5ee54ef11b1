//! PDUs.

ghost use Rattle.std.specs.Prelude.{◌≡◌, ◌≢◌, ◌+◌, ◌++◌, ◌<◌, ◌≤◌, length, drop};
ghost use Rattle.rasta_pdu.specs.Faults.{IsFault};
ghost use Rattle.rasta_pdu.specs.SafetyCode.{code};
ghost use Rattle.rasta_pdu.specs.Spelling.{type_of, writing};
ghost use Rattle.rasta_pdu.specs.Values.{IsPdu};
ghost use Rattle.rasta_pdu.specs.declared.fault.PduFault.{PduFault};
ghost use Rattle.rasta_pdu.specs.declared.pdu.Pdu.{Pdu};
ghost use Rattle.codec.specs.Pdu.{fault_number, fields_of, head, key_of, payload_of, spelled};

use crate::bytes::put;
use crate::key::{KeyRegisters, key_of};
use byteorder::{ByteOrder, LittleEndian};
use rasta_pdu::{Body, Datagram, Key, Pdu, read, written_is_read};

/// The most bytes that a payload has: three items of 61 bytes, each with its length.
const LONGEST: usize = 189;

/// How many bytes stand before the payload.
const HEAD: usize = 28;

/// What stands before the payload of a PDU, but for the length.
#[repr(C)]
#[derive(Clone, Copy, Debug)]
pub struct PduFields {
    /// The number of its type. (`type` is no name in Rattle.)
    pub kind: u16,
    /// Who it is for, and who sent it.
    pub receiver: u32,
    pub sender: u32,
    pub sequence_number: u32,
    pub confirmed_sequence_number: u32,
    pub time_stamp: u32,
    pub confirmed_time_stamp: u32,
}

/// Reads a PDU: 0, and what it says; or the number of the first fault, and the fields are as they were.
#[unsafe(no_mangle)]
pub extern "C" fn zendurai_pdu_read(key: &KeyRegisters, bytes: &[u8], fields: &mut PduFields) -> u32
    ensures found { result ≡ 0 → (pdu : Pdu) × IsPdu pdu × (bytes.now ≡ writing (key_of key.now) pdu) × (fields.new ≡ fields_of pdu) }
    ensures only { (pdu : Pdu) → IsPdu pdu → bytes.now ≡ writing (key_of key.now) pdu → result ≡ 0 }
    ensures fault { (fault : PduFault) → IsFault (key_of key.now) bytes.now fault → result ≡ fault_number fault }
    ensures same { result ≢ 0 → fields.new ≡ fields.old }
{
    match read(&key_of(key), bytes) {
        Ok(pdu) => {
            *fields = fields_of(&pdu);
            0
        }
        Err(fault) => fault as u32,
    }
}

/// The number of a type.
fn number_of(body: &Body) -> u16
    ensures { result ≡ type_of body.now }
{
    match body {
        Body::ConnectionRequest(_) => 6200,
        Body::ConnectionResponse(_) => 6201,
        Body::RetransmissionRequest => 6212,
        Body::RetransmissionResponse => 6213,
        Body::DisconnectionRequest { .. } => 6216,
        Body::Heartbeat => 6220,
        Body::Data(_) => 6240,
        Body::RetransmittedData(_) => 6241,
    }
}

/// The fields of a PDU.
fn fields_of(pdu: &Pdu) -> PduFields
    ensures { result ≡ fields_of pdu.now }
{
    PduFields {
        kind: number_of(&pdu.body),
        receiver: pdu.receiver,
        sender: pdu.sender,
        sequence_number: pdu.sequence_number,
        confirmed_sequence_number: pdu.confirmed_sequence_number,
        time_stamp: pdu.time_stamp,
        confirmed_time_stamp: pdu.confirmed_time_stamp,
    }
}

/// The bytes before a payload of so many bytes.
#[tactic(auto, unfolding(crate::specs::Pdu::head))]
fn head(fields: &PduFields, payload_length: u16) -> [u8; HEAD]
    requires { payload_length + 36 < 65536 }
    ensures { result ≡ head fields.now payload_length }
{
    let mut bytes = [0; HEAD];
    LittleEndian::write_u16(&mut bytes[0..2], payload_length + 36);
    LittleEndian::write_u16(&mut bytes[2..4], fields.kind);
    LittleEndian::write_u32(&mut bytes[4..8], fields.receiver);
    LittleEndian::write_u32(&mut bytes[8..12], fields.sender);
    LittleEndian::write_u32(&mut bytes[12..16], fields.sequence_number);
    LittleEndian::write_u32(&mut bytes[16..20], fields.confirmed_sequence_number);
    LittleEndian::write_u32(&mut bytes[20..24], fields.time_stamp);
    LittleEndian::write_u32(&mut bytes[24..28], fields.confirmed_time_stamp);
    bytes
}

/// The safety code of a text.
#[tactic(auto, unfolding(crate::proofs::Below::code))]
fn code_of(key: &Key, text: &[u8]) -> [u8; 8]
    ensures { result ≡ code key.now text.now }
{
    let digest = md4::digest_from(key.0, text);
    [
        digest[0], digest[1], digest[2], digest[3], digest[4], digest[5], digest[6], digest[7],
    ]
}

/// The fields, the payload and the code of both.
#[tactic(auto, unfolding(crate::specs::Pdu::spelled, crate::specs::Pdu::text))]
fn spelled(key: &Key, fields: &PduFields, payload: &[u8]) -> Datagram
    requires { length payload.now ≤ 189 }
    ensures { result.items ≡ spelled key.now fields.now payload.now }
{
    let mut bytes = Datagram::new();
    put(&mut bytes, &head(fields, payload.len() as u16));
    put(&mut bytes, payload);
    let code = code_of(key, &bytes);
    put(&mut bytes, &code);
    bytes
}

/// Writes a PDU to the beginning of `out`, and answers how many bytes it has: 0, and nothing is written, where the payload
/// isn't that of the type, or `out` is shorter.
#[tactic(auto, using(crate::proofs::Written::spelled_as_written, crate::proofs::Written::payload_short))]
#[unsafe(no_mangle)]
pub extern "C" fn zendurai_pdu_write(
    key: &KeyRegisters,
    fields: &PduFields,
    payload: &[u8],
    out: &mut [u8],
) -> usize
    // Each PDU is written that there is room for.
    ensures each { (pdu : Pdu) → IsPdu pdu → fields.now ≡ fields_of pdu → payload.now ≡ payload_of pdu
        → length (writing (key_of key.now) pdu) ≤ length out.old → result ≡ length (writing (key_of key.now) pdu) }
    // What is written is a PDU: these fields, the payload and the code.
    ensures written { result ≢ 0 → (pdu : Pdu) × IsPdu pdu × (spelled (key_of key.now) fields.now payload.now ≡ writing (key_of key.now) pdu)
        × (result ≡ length (writing (key_of key.now) pdu)) × (out.new ≡ writing (key_of key.now) pdu ++ drop result out.old) }
    ensures same { result ≡ 0 → out.new ≡ out.old }
{
    written_is_read();
    if payload.len() > LONGEST {
        return 0;
    }
    let key = key_of(key);
    let bytes = spelled(&key, fields, payload);
    if read(&key, &bytes).is_err() || out.len() < bytes.len() {
        return 0;
    }
    let (front, _) = out.split_at_mut(bytes.len());
    front.copy_from_slice(&bytes);
    bytes.len()
}
