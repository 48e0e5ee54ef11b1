//! Telegrams to bytes.

ghost use Rattle.std.specs.Prelude.{◌≡◌, ◌+◌, ◌≤◌, ◌++◌, Ok, length};
ghost use Rattle.arrayvec.specs.ArrayVec.{array_vec_len};
ghost use Rattle.rasta_pdu.specs.Items.{IsItem};
ghost use Rattle.sci_telegram.specs.Messages.{aspect_payload, payload, type_number};
ghost use Rattle.sci_telegram.specs.TelegramRead.{reading};
ghost use Rattle.sci_telegram.specs.Telegrams.{IsMessage, IsTelegram, writing};

use crate::codes::{
    agreement_byte, aspect_byte, occupancy_byte, position_byte, protocol_byte, side_byte,
};
use crate::message::{
    Aspect, DetectionMessage, Initialisation, Message, PointMessage, SignalMessage,
};
use crate::reader::FILLER;
use crate::telegram::Telegram;
use crate::types;
use arrayvec::ArrayVec;
use rasta_pdu::Item;

/// The bytes of a payload: at most those of an aspect.
type Payload = ArrayVec<u8, 18>;

/// Appends bytes for which there is room.
fn put<const N: usize>(bytes: &mut ArrayVec<u8, N>, more: &[u8])
    requires { array_vec_len bytes.old + length more.now ≤ N }
    ensures { bytes.new.items ≡ bytes.old.items ++ more.now }
{
    let _ = bytes.try_extend_from_slice(more);
}

/// A payload of at most 18 bytes.
fn payload_from(bytes: &[u8]) -> Payload
    requires { length bytes.now ≤ 18 }
    ensures { result.items ≡ bytes.now }
{
    let mut payload = ArrayVec::new();
    put(&mut payload, bytes);
    payload
}

/// The type number.
fn number_of(message: &Message) -> u16
    ensures { result ≡ type_number message.now }
{
    match message {
        Message::Initialisation(_, message) => match message {
            Initialisation::InitialisationRequest => types::INITIALISATION_REQUEST,
            Initialisation::StartInitialisation => types::START_INITIALISATION,
            Initialisation::InitialisationCompleted => types::INITIALISATION_COMPLETED,
            Initialisation::VersionCheck { .. } => types::VERSION_CHECK,
            Initialisation::VersionAnswer { .. } => types::VERSION_ANSWER,
        },
        Message::Point(message) => match message {
            PointMessage::MovePoint(_) => types::MOVE_POINT,
            PointMessage::PointPosition(_) => types::POINT_POSITION,
            PointMessage::Timeout => types::TIMEOUT,
        },
        Message::Signal(message) => match message {
            SignalMessage::IndicateAspect(_) => types::INDICATE_ASPECT,
            SignalMessage::IndicatedAspect(_) => types::INDICATED_ASPECT,
        },
        Message::Detection(message) => match message {
            DetectionMessage::OccupancyStatus(_) => types::OCCUPANCY_STATUS,
        },
    }
}

/// An aspect and what stands behind it.
fn aspect_payload(aspect: Aspect) -> Payload
    ensures { result.items ≡ aspect_payload aspect }
{
    let mut payload = payload_from(&[aspect_byte(aspect)]);
    put(&mut payload, &FILLER);
    payload
}

/// What follows the names.
fn payload_of(message: &Message) -> Payload
    ensures value { result.items ≡ payload message.now }
    ensures fits { IsMessage message.now }
{
    match message {
        Message::Initialisation(_, message) => match message {
            Initialisation::InitialisationRequest => payload_from(&[]),
            Initialisation::StartInitialisation => payload_from(&[]),
            Initialisation::InitialisationCompleted => payload_from(&[]),
            Initialisation::VersionCheck { version } => payload_from(&[*version]),
            Initialisation::VersionAnswer { agreement, version } => {
                payload_from(&[agreement_byte(*agreement), *version])
            }
        },
        Message::Point(message) => match message {
            PointMessage::MovePoint(side) => payload_from(&[side_byte(*side)]),
            PointMessage::PointPosition(position) => payload_from(&[position_byte(*position)]),
            PointMessage::Timeout => payload_from(&[]),
        },
        Message::Signal(message) => match message {
            SignalMessage::IndicateAspect(aspect) => aspect_payload(*aspect),
            SignalMessage::IndicatedAspect(aspect) => aspect_payload(*aspect),
        },
        Message::Detection(message) => match message {
            DetectionMessage::OccupancyStatus(occupancy) => {
                payload_from(&[occupancy_byte(*occupancy)])
            }
        },
    }
}

/// The bytes of a telegram: at most 61, as in an item.
#[tactic(auto, unfolding(crate::specs::Telegrams::writing))]
fn bytes_of(telegram: &Telegram) -> ArrayVec<u8, 61>
    ensures value { result.items ≡ writing telegram.now }
    ensures fits { IsTelegram telegram.now }
{
    let mut bytes = ArrayVec::new();
    put(&mut bytes, &[protocol_byte(telegram.message.protocol())]);
    put(&mut bytes, &number_of(&telegram.message).to_le_bytes());
    put(&mut bytes, &telegram.sender.field());
    put(&mut bytes, &telegram.receiver.field());
    put(&mut bytes, &payload_of(&telegram.message));
    bytes
}

/// The one spelling of a telegram, which every link can carry.
#[tactic(auto, using(crate::proofs::Codec::writing_is_item, crate::proofs::Codec::writing_is_long, crate::proofs::Codec::read_again))]
pub fn write(telegram: &Telegram) -> Item
    ensures value { result ≡ writing telegram.now }
    ensures fits { IsTelegram telegram.now }
    // How many bytes it has.
    ensures item { IsItem result }
    ensures least { 43 ≤ length result }
    ensures most { length result ≤ 61 }
    // It is read as this telegram again.
    ensures read_again { reading result ≡ Ok telegram.now }
{
    Item::of(&bytes_of(telegram)).unwrap()
}
