//! Values to bytes.

ghost use Rattle.std.specs.Prelude.{◌≡◌, ◌+◌, ◌<◌, ◌≤◌, ◌++◌, length, Ok};
ghost use Rattle.std.specs.List.{flat_map};
ghost use Rattle.arrayvec.specs.ArrayVec.{array_vec_len};
ghost use Rattle.rasta_pdu.specs.Items.{AreItems};
ghost use Rattle.rasta_pdu.specs.PduRead.{reading};
ghost use Rattle.rasta_pdu.specs.SafetyCode.{IsIntact};
ghost use Rattle.rasta_pdu.specs.Spelling.{fields, item_bytes, opening_bytes, payload, type_of, writing};
ghost use Rattle.rasta_pdu.specs.Values.{IsBody, IsOpening, IsPdu};

use crate::body::{Body, Opening};
use crate::items::Items;
use crate::key::Key;
use crate::pdu::Pdu;
use crate::safety_code::{FIELDS_LENGTH, code_of};
use crate::types;
use arrayvec::ArrayVec;
use byteorder::{ByteOrder, LittleEndian};

/// The bytes of one PDU, as they are sent: there is room for 256, of which a PDU takes at most 225.
pub type Datagram = ArrayVec<u8, 256>;

/// The longest datagram that an end hears whole: a longer one is no PDU.
pub const LONGEST_DATAGRAM: usize = 512;

/// The bytes of a datagram as they come from the network, whatever they are.
pub type Received = ArrayVec<u8, LONGEST_DATAGRAM>;

/// The bytes of a payload: at most three items of 61 bytes, each with its length.
type Payload = ArrayVec<u8, 189>;

/// Appends bytes for which there is room.
fn put<const N: usize>(bytes: &mut ArrayVec<u8, N>, more: &[u8])
    requires { array_vec_len bytes.old + length more.now ≤ N }
    ensures { bytes.new.items ≡ bytes.old.items ++ more.now }
{
    let _ = bytes.try_extend_from_slice(more);
}

/// The type number.
fn number_of(body: &Body) -> u16
    ensures { result ≡ type_of body.now }
{
    match body {
        Body::ConnectionRequest(_) => types::CONNECTION_REQUEST,
        Body::ConnectionResponse(_) => types::CONNECTION_RESPONSE,
        Body::RetransmissionRequest => types::RETRANSMISSION_REQUEST,
        Body::RetransmissionResponse => types::RETRANSMISSION_RESPONSE,
        Body::DisconnectionRequest { .. } => types::DISCONNECTION_REQUEST,
        Body::Heartbeat => types::HEARTBEAT,
        Body::Data(_) => types::DATA,
        Body::RetransmittedData(_) => types::RETRANSMITTED_DATA,
    }
}

/// Version, window and reserved bytes.
fn opening(opening: &Opening) -> Payload
    ensures value { result.items ≡ opening_bytes opening.now }
    ensures fits { IsOpening opening.now }
{
    let mut bytes = ArrayVec::new();
    put(&mut bytes, &opening.version);
    put(&mut bytes, &opening.window.to_le_bytes());
    put(&mut bytes, &opening.reserved);
    bytes
}

/// Each item with its length before it.
fn items(items: &Items) -> Payload
    ensures value { result.items ≡ flat_map item_bytes items.now }
    ensures fits { AreItems items.now }
{
    let mut bytes = ArrayVec::new();
    for item in items.as_slice() {
        let item = item.bytes();
        put(&mut bytes, &(item.len() as u16).to_le_bytes());
        put(&mut bytes, item);
    }
    bytes
}

/// What follows the fields.
#[tactic(auto, unfolding(crate::specs::Spelling::payload))]
fn payload_of(body: &Body) -> Payload
    ensures value { result.items ≡ payload body.now }
    ensures fits { IsBody body.now }
{
    match body {
        Body::ConnectionRequest(content) | Body::ConnectionResponse(content) => opening(content),
        Body::DisconnectionRequest { detail, reason } => {
            let mut bytes = ArrayVec::new();
            put(&mut bytes, &detail.to_le_bytes());
            put(&mut bytes, &reason.to_le_bytes());
            bytes
        }
        Body::Data(content) | Body::RetransmittedData(content) => items(content),
        Body::RetransmissionRequest | Body::RetransmissionResponse | Body::Heartbeat => {
            ArrayVec::new()
        }
    }
}

/// The fields before a payload of so many bytes.
#[tactic(auto, unfolding(crate::specs::Spelling::fields))]
fn fields_of(pdu: &Pdu, payload_length: u16) -> [u8; FIELDS_LENGTH]
    requires { payload_length + 36 < 65536 }
    ensures value { result ≡ fields pdu.now payload_length }
    ensures fits { IsBody pdu.now.body → IsPdu pdu.now }
{
    let Pdu {
        receiver,
        sender,
        sequence_number,
        confirmed_sequence_number,
        time_stamp,
        confirmed_time_stamp,
        body,
    } = pdu;
    let mut fields = [0; FIELDS_LENGTH];
    LittleEndian::write_u16(&mut fields[0..2], payload_length + 36);
    LittleEndian::write_u16(&mut fields[2..4], number_of(body));
    LittleEndian::write_u32(&mut fields[4..8], *receiver);
    LittleEndian::write_u32(&mut fields[8..12], *sender);
    LittleEndian::write_u32(&mut fields[12..16], *sequence_number);
    LittleEndian::write_u32(&mut fields[16..20], *confirmed_sequence_number);
    LittleEndian::write_u32(&mut fields[20..24], *time_stamp);
    LittleEndian::write_u32(&mut fields[24..28], *confirmed_time_stamp);
    fields
}

/// The fields, the payload and the code of both.
#[tactic(auto, unfolding(crate::specs::Spelling::writing, crate::specs::Spelling::text))]
fn spelled(key: &Key, pdu: &Pdu) -> Datagram
    ensures value { result.items ≡ writing key.now pdu.now }
    ensures fits { IsPdu pdu.now }
{
    let payload = payload_of(&pdu.body);
    let mut datagram = Datagram::new();
    put(&mut datagram, &fields_of(pdu, payload.len() as u16));
    put(&mut datagram, &payload);
    let code = code_of(key, &datagram);
    put(&mut datagram, &code);
    datagram
}

/// The one spelling of a PDU under a key.
pub fn write(key: &Key, pdu: &Pdu) -> Datagram
    ensures value { result.items ≡ writing key.now pdu.now }
    ensures fits { IsPdu pdu.now }
    // How many bytes it has.
    ensures least { 36 ≤ length result.items }
    ensures most { length result.items ≤ 225 }
    // It is intact, and read as this PDU again.
    ensures intact { IsIntact key.now result.items }
    ensures read_again { reading key.now result.items ≡ Ok pdu.now }
{
    spelled(key, pdu)
}
