//! Bytes to values.

ghost use Rattle.std.specs.Prelude.{◌≡◌, ◌≤◌, IfOk, IfErr, Ok, Err, length};
ghost use Rattle.rasta_pdu.specs.Faults.{IsFault};
ghost use Rattle.rasta_pdu.specs.PduRead.{Gives, body_of, disconnection_of, item_of, items_of, nothing_of, opening_of, pdu_of, reading};
ghost use Rattle.rasta_pdu.specs.Spelling.{writing};
ghost use Rattle.rasta_pdu.specs.Values.{IsPdu};
ghost use Rattle.rasta_pdu.specs.declared.fault.PduFault.{PduFault};
ghost use Rattle.rasta_pdu.specs.declared.pdu.Pdu.{Pdu};

use crate::body::{Body, Opening};
use crate::fault::PduFault;
use crate::item::Item;
use crate::items::{Items, MOST};
use crate::key::Key;
use crate::numbers::{u16_at, u32_at};
use crate::pdu::Pdu;
use crate::safety_code::{FIELDS_LENGTH, text};
use crate::types;
use arrayvec::ArrayVec;

/// Version, window and reserved bytes.
#[tactic(auto, unfolding(crate::specs::PduRead::opening_of))]
fn opening(payload: &[u8]) -> Result<Opening, PduFault>
    ensures { result ≡ opening_of payload.now }
{
    if payload.len() != types::OPENING_LENGTH {
        return Err(PduFault::Body);
    }
    let mut version = [0; 4];
    let mut reserved = [0; 8];
    let (front, _) = payload.split_at(4);
    let (_, back) = payload.split_at(6);
    version.copy_from_slice(front);
    reserved.copy_from_slice(back);
    Ok(Opening {
        version,
        window: u16_at(4, payload),
        reserved,
    })
}

/// Detail and reason.
#[tactic(auto, unfolding(crate::specs::PduRead::disconnection_of))]
fn disconnection(payload: &[u8]) -> Result<Body, PduFault>
    ensures { result ≡ disconnection_of payload.now }
{
    if payload.len() != types::DISCONNECTION_LENGTH {
        return Err(PduFault::Body);
    }
    Ok(Body::DisconnectionRequest {
        detail: u16_at(0, payload),
        reason: u16_at(2, payload),
    })
}

/// A type without payload.
#[tactic(auto, unfolding(crate::specs::PduRead::nothing_of))]
fn nothing(body: Body, payload: &[u8]) -> Result<Body, PduFault>
    ensures { result ≡ nothing_of body payload.now }
{
    if !payload.is_empty() {
        return Err(PduFault::Body);
    }
    Ok(body)
}

/// The item at the front, and the bytes after it.
#[tactic(auto, unfolding(crate::specs::PduRead::item_of))]
fn item(bytes: &[u8]) -> Result<(Item, &[u8]), PduFault>
    ensures { Gives (λ x. (x.0, x.1.now)) result (item_of bytes.now) }
{
    if bytes.len() < 2 {
        return Err(PduFault::Items);
    }
    let length = u16_at(0, bytes) as usize;
    let (_, rest) = bytes.split_at(2);
    if rest.len() < length {
        return Err(PduFault::Items);
    }
    let (front, rest) = rest.split_at(length);
    let item = Item::of(front).ok_or(PduFault::Items)?;
    Ok((item, rest))
}

/// One to three items.
fn items(payload: &[u8]) -> Result<Items, PduFault>
    ensures { result ≡ items_of payload.now }
{
    let mut held: ArrayVec<Item, MOST> = ArrayVec::new();
    let mut rest = payload;
    while !rest.is_empty() {
        if held.is_full() {
            return Err(PduFault::Items);
        }
        let (item, after) = item(rest)?;
        held.push(item);
        rest = after;
    }
    Items::held(held).ok_or(PduFault::Items)
}

/// What a PDU of a type carries.
#[tactic(auto, unfolding(crate::specs::PduRead::body_of))]
fn body(number: u16, payload: &[u8]) -> Result<Body, PduFault>
    ensures { result ≡ body_of number payload.now }
{
    match number {
        types::CONNECTION_REQUEST => Ok(Body::ConnectionRequest(opening(payload)?)),
        types::CONNECTION_RESPONSE => Ok(Body::ConnectionResponse(opening(payload)?)),
        types::RETRANSMISSION_REQUEST => nothing(Body::RetransmissionRequest, payload),
        types::RETRANSMISSION_RESPONSE => nothing(Body::RetransmissionResponse, payload),
        types::DISCONNECTION_REQUEST => disconnection(payload),
        types::HEARTBEAT => nothing(Body::Heartbeat, payload),
        types::DATA => Ok(Body::Data(items(payload)?)),
        types::RETRANSMITTED_DATA => Ok(Body::RetransmittedData(items(payload)?)),
        _ => Err(PduFault::BadType),
    }
}

/// The PDU of a text whose length and code are right.
#[tactic(auto, unfolding(crate::specs::PduRead::pdu_of))]
fn pdu(text: &[u8]) -> Result<Pdu, PduFault>
    requires { 28 ≤ length text.now }
    ensures { result ≡ pdu_of text.now }
{
    let (_, payload) = text.split_at(FIELDS_LENGTH);
    let body = body(u16_at(2, text), payload)?;
    Ok(Pdu {
        receiver: u32_at(4, text),
        sender: u32_at(8, text),
        sequence_number: u32_at(12, text),
        confirmed_sequence_number: u32_at(16, text),
        time_stamp: u32_at(20, text),
        confirmed_time_stamp: u32_at(24, text),
        body,
    })
}

/// The PDU of intact bytes, or the first fault.
#[tactic(auto, unfolding(crate::specs::PduRead::reading))]
fn read_value(key: &Key, bytes: &[u8]) -> Result<Pdu, PduFault>
    ensures { result ≡ reading key.now bytes.now }
{
    pdu(text(key, bytes)?)
}

/// The PDU that bytes spell under a key, or the first fault.
pub fn read(key: &Key, bytes: &[u8]) -> Result<Pdu, PduFault>
    // What it answers is a function of the key and the bytes.
    ensures value { result ≡ reading key.now bytes.now }
    // What is read is spelled so.
    ensures found { IfOk result (λ pdu. IsPdu pdu × (bytes.now ≡ writing key.now pdu)) }
    // What is spelled so is read.
    ensures only { (pdu : Pdu) → IsPdu pdu → bytes.now ≡ writing key.now pdu → result ≡ Ok pdu }
    // The fault is the one whose test is the first to fail, and there is one wherever a test fails.
    ensures fault { IfErr result (IsFault key.now bytes.now) }
    ensures each { (fault : PduFault) → IsFault key.now bytes.now fault → result ≡ Err fault }
{
    read_value(key, bytes)
}
