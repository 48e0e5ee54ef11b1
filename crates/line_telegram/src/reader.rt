//! Bytes to telegrams of a line.

ghost use Rattle.std.specs.Prelude.{◌≡◌, ◌≤◌, IfSome, Some, length, slice_index};
ghost use Rattle.sci_telegram.specs.Names.{IsName};
ghost use Rattle.sci_telegram.specs.TelegramRead.{agreement_at};
ghost use Rattle.line_telegram.specs.declared.message.LineMessage.{LineMessage};
ghost use Rattle.line_telegram.specs.LineMessages.{message_in, reading, writing};

use crate::message::LineMessage;
use crate::writer::{ASK, CLEAR, GIVE, NO_TOKEN, QUERY, VERSION_ANSWER, VERSION_CHECK, bytes_of};
use line_laws::Item;
use sci_telegram::{Agreement, Name};

/// How many bytes stand before the payload.
const HEADER_LENGTH: usize = 43;

fn agreement_at(byte: u8) -> Option<Agreement>
    ensures { result ≡ agreement_at byte }
{
    match byte {
        1 => Some(Agreement::NoMatch),
        2 => Some(Agreement::Match),
        _ => None,
    }
}

/// The byte of a payload at a place, or 0.
fn byte_at(payload: &[u8], place: usize) -> u8
    ensures { result ≡ slice_index payload.now place }
{
    match payload.get(place) {
        Some(byte) => *byte,
        None => 0,
    }
}

/// What bytes would say if they were a telegram.
fn message_in(bytes: &[u8]) -> Option<LineMessage>
    requires { 43 ≤ length bytes.now }
    ensures { result ≡ message_in bytes.now }
{
    let (_, payload) = bytes.split_at(HEADER_LENGTH);
    match u16::from_le_bytes([bytes[1], bytes[2]]) {
        ASK => Some(LineMessage::Line(Item::Ask)),
        GIVE => Some(LineMessage::Line(Item::Give)),
        QUERY => Some(LineMessage::Line(Item::Query)),
        CLEAR => Some(LineMessage::Line(Item::Clear)),
        NO_TOKEN => Some(LineMessage::Line(Item::NoToken)),
        VERSION_CHECK => Some(LineMessage::VersionCheck {
            version: byte_at(payload, 0),
        }),
        VERSION_ANSWER => {
            let agreement = agreement_at(byte_at(payload, 0))?;
            Some(LineMessage::VersionAnswer {
                agreement,
                version: byte_at(payload, 1),
            })
        }
        _ => None,
    }
}

/// What this sender tells this receiver by these bytes.
fn read_value(sender: &Name, receiver: &Name, bytes: &[u8]) -> Option<LineMessage>
    ensures { result ≡ reading sender.now receiver.now bytes.now }
{
    if bytes.len() < HEADER_LENGTH {
        return None;
    }
    let message = message_in(bytes)?;
    if bytes_of(sender, receiver, message).as_slice() == bytes {
        Some(message)
    } else {
        None
    }
}

/// What this sender tells this receiver by these bytes, if they are a telegram of the two.
pub fn read(sender: &Name, receiver: &Name, bytes: &[u8]) -> Option<LineMessage>
    // What it answers is a function of the names and the bytes.
    ensures value { result ≡ reading sender.now receiver.now bytes.now }
    // What is read is spelled so.
    ensures found { IfSome result (λ message. bytes.now ≡ writing sender.now receiver.now message) }
    // What is spelled so is read.
    ensures only { (message : LineMessage) → IsName sender.now → IsName receiver.now → bytes.now ≡ writing sender.now receiver.now message → result ≡ Some message }
{
    read_value(sender, receiver, bytes)
}
