//! Bytes to telegrams.

ghost use Rattle.std.specs.Prelude.{◌≡◌, ◌+◌, ◌≤◌, Some, Ok, Err, IfOk, IfErr, length, take, drop};
ghost use Rattle.sci_telegram.specs.Faults.{IsFault};
ghost use Rattle.sci_telegram.specs.declared.message.Message.TheVariants as messages;
ghost use Rattle.sci_telegram.specs.TelegramRead.{aspect_in, message_in, name_spelled, payload_length, reading};
ghost use Rattle.sci_telegram.specs.Telegrams.{IsTelegram, writing};

use crate::codes::{agreement_at, aspect_at, occupancy_at, position_at, protocol_at, side_at};
use crate::fault::SciFault;
use crate::kind::{Kind, kind_at, payload_length};
use crate::message::{
    Aspect, DetectionMessage, Initialisation, Message, PointMessage, Protocol, SignalMessage,
};
use crate::name::{FIELD_LENGTH, Name};
use crate::telegram::Telegram;

/// How many bytes stand before the payload: protocol, type and two names.
pub(crate) const HEADER_LENGTH: usize = 43;

/// Where the names stand.
const SENDER: usize = 3;

const RECEIVER: usize = 23;

/// What stands behind an aspect.
pub(crate) const FILLER: [u8; 17] = [0xFF; 17];

/// The name whose field stands at a place.
fn name_at(place: usize, bytes: &[u8]) -> Option<Name>
    requires { place + 20 ≤ length bytes.now }
    ensures { result ≡ name_spelled (take 20 (drop place bytes.now)) }
{
    let (_, rest) = bytes.split_at(place);
    let (field, _) = rest.split_at(FIELD_LENGTH);
    Name::spelled(field)
}

/// An aspect and what stands behind it.
#[tactic(auto, unfolding(crate::specs::TelegramRead::aspect_in))]
fn aspect_in(payload: &[u8]) -> Option<Aspect>
    requires { length payload.now ≡ 18 }
    ensures { result ≡ aspect_in payload.now }
{
    let (front, filler) = payload.split_at(1);
    if filler != FILLER.as_slice() {
        return None;
    }
    aspect_at(front[0])
}

/// A message that belongs to the initialisation of a protocol.
fn initialising(protocol: Protocol, message: Initialisation) -> Option<Message>
    ensures { result ≡ Some (messages.Initialisation protocol message) }
{
    Some(Message::Initialisation(protocol, message))
}

/// What the telegram of a row carries.
#[tactic(auto, unfolding(crate::specs::TelegramRead::message_in))]
fn message_in(protocol: Protocol, kind: Kind, payload: &[u8]) -> Option<Message>
    requires { length payload.now ≡ payload_length kind }
    ensures { result ≡ message_in protocol kind payload.now }
{
    match kind {
        Kind::InitialisationRequest => {
            initialising(protocol, Initialisation::InitialisationRequest)
        }
        Kind::StartInitialisation => initialising(protocol, Initialisation::StartInitialisation),
        Kind::InitialisationCompleted => {
            initialising(protocol, Initialisation::InitialisationCompleted)
        }
        Kind::VersionCheck => {
            let version = payload[0];
            initialising(protocol, Initialisation::VersionCheck { version })
        }
        Kind::VersionAnswer => {
            let (agreement, version) = (agreement_at(payload[0])?, payload[1]);
            initialising(
                protocol,
                Initialisation::VersionAnswer { agreement, version },
            )
        }
        Kind::MovePoint => Some(Message::Point(PointMessage::MovePoint(side_at(payload[0])?))),
        Kind::PointPosition => Some(Message::Point(PointMessage::PointPosition(position_at(
            payload[0],
        )?))),
        Kind::Timeout => Some(Message::Point(PointMessage::Timeout)),
        Kind::IndicateAspect => Some(Message::Signal(SignalMessage::IndicateAspect(aspect_in(
            payload,
        )?))),
        Kind::IndicatedAspect => Some(Message::Signal(SignalMessage::IndicatedAspect(aspect_in(
            payload,
        )?))),
        Kind::OccupancyStatus => Some(Message::Detection(DetectionMessage::OccupancyStatus(
            occupancy_at(payload[0])?,
        ))),
    }
}

/// The telegram that bytes spell, or the first fault.
#[tactic(auto, unfolding(crate::specs::TelegramRead::reading, crate::specs::TelegramRead::telegram_in))]
fn read_value(bytes: &[u8]) -> Result<Telegram, SciFault>
    ensures { result ≡ reading bytes.now }
{
    if bytes.len() < HEADER_LENGTH {
        return Err(SciFault::Short);
    }
    let (_, payload) = bytes.split_at(HEADER_LENGTH);
    let protocol = protocol_at(bytes[0]).ok_or(SciFault::Protocol)?;
    let number = u16::from_le_bytes([bytes[1], bytes[2]]);
    let kind = kind_at(protocol, number).ok_or(SciFault::BadType)?;
    if payload.len() != payload_length(kind) {
        return Err(SciFault::Length);
    }
    let sender = name_at(SENDER, bytes).ok_or(SciFault::Name)?;
    let receiver = name_at(RECEIVER, bytes).ok_or(SciFault::Name)?;
    let message = message_in(protocol, kind, payload).ok_or(SciFault::Value)?;
    Ok(Telegram {
        sender,
        receiver,
        message,
    })
}

/// The telegram that bytes spell, or the first fault.
pub fn read(bytes: &[u8]) -> Result<Telegram, SciFault>
    // What it answers is a function of the bytes.
    ensures value { result ≡ reading bytes.now }
    // What is read is spelled so.
    ensures found { IfOk result (λ telegram. IsTelegram telegram × (bytes.now ≡ writing telegram)) }
    // What is spelled so is read.
    ensures only { (telegram : Telegram) → IsTelegram telegram → bytes.now ≡ writing telegram → result ≡ Ok telegram }
    // The fault is the one whose test is the first to fail, and there is one wherever a test fails.
    ensures fault { IfErr result (IsFault bytes.now) }
    ensures each { (fault : SciFault) → IsFault bytes.now fault → result ≡ Err fault }
{
    read_value(bytes)
}
