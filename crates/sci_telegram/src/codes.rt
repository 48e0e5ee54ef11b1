//! The bytes that stand for protocols and for the values of payloads (this profile), both ways.

ghost use Rattle.std.specs.Prelude.{◌≡◌};
ghost use Rattle.sci_telegram.specs.Messages.{agreement_byte, aspect_byte, occupancy_byte, position_byte, protocol_byte, side_byte};
ghost use Rattle.sci_telegram.specs.TelegramRead.{agreement_at, aspect_at, occupancy_at, position_at, protocol_at, side_at};

use crate::message::{Agreement, Aspect, Occupancy, Position, Protocol, Side};

const TRAIN_DETECTION: u8 = 0x20;

const LIGHT_SIGNAL: u8 = 0x30;

const POINT: u8 = 0x40;

const NO_MATCH: u8 = 1;

const MATCH: u8 = 2;

const RIGHT: u8 = 1;

const LEFT: u8 = 2;

const NO_END_POSITION: u8 = 3;

const STOP: u8 = 0x01;

const PROCEED: u8 = 0x04;

const SLOW: u8 = 0x06;

const CLEAR: u8 = 1;

const OCCUPIED: u8 = 2;

/// The first byte of a telegram.
pub(crate) fn protocol_byte(protocol: Protocol) -> u8
    ensures { result ≡ protocol_byte protocol }
{
    match protocol {
        Protocol::TrainDetection => TRAIN_DETECTION,
        Protocol::LightSignal => LIGHT_SIGNAL,
        Protocol::Point => POINT,
    }
}

pub(crate) fn protocol_at(byte: u8) -> Option<Protocol>
    ensures { result ≡ protocol_at byte }
{
    match byte {
        TRAIN_DETECTION => Some(Protocol::TrainDetection),
        LIGHT_SIGNAL => Some(Protocol::LightSignal),
        POINT => Some(Protocol::Point),
        _ => None,
    }
}

pub(crate) fn agreement_byte(agreement: Agreement) -> u8
    ensures { result ≡ agreement_byte agreement }
{
    match agreement {
        Agreement::NoMatch => NO_MATCH,
        Agreement::Match => MATCH,
    }
}

pub(crate) fn agreement_at(byte: u8) -> Option<Agreement>
    ensures { result ≡ agreement_at byte }
{
    match byte {
        NO_MATCH => Some(Agreement::NoMatch),
        MATCH => Some(Agreement::Match),
        _ => None,
    }
}

pub(crate) fn side_byte(side: Side) -> u8
    ensures { result ≡ side_byte side }
{
    match side {
        Side::Right => RIGHT,
        Side::Left => LEFT,
    }
}

pub(crate) fn side_at(byte: u8) -> Option<Side>
    ensures { result ≡ side_at byte }
{
    match byte {
        RIGHT => Some(Side::Right),
        LEFT => Some(Side::Left),
        _ => None,
    }
}

pub(crate) fn position_byte(position: Position) -> u8
    ensures { result ≡ position_byte position }
{
    match position {
        Position::Right => RIGHT,
        Position::Left => LEFT,
        Position::NoEndPosition => NO_END_POSITION,
    }
}

pub(crate) fn position_at(byte: u8) -> Option<Position>
    ensures { result ≡ position_at byte }
{
    match byte {
        RIGHT => Some(Position::Right),
        LEFT => Some(Position::Left),
        NO_END_POSITION => Some(Position::NoEndPosition),
        _ => None,
    }
}

pub(crate) fn aspect_byte(aspect: Aspect) -> u8
    ensures { result ≡ aspect_byte aspect }
{
    match aspect {
        Aspect::Stop => STOP,
        Aspect::Proceed => PROCEED,
        Aspect::Slow => SLOW,
    }
}

pub(crate) fn aspect_at(byte: u8) -> Option<Aspect>
    ensures { result ≡ aspect_at byte }
{
    match byte {
        STOP => Some(Aspect::Stop),
        PROCEED => Some(Aspect::Proceed),
        SLOW => Some(Aspect::Slow),
        _ => None,
    }
}

pub(crate) fn occupancy_byte(occupancy: Occupancy) -> u8
    ensures { result ≡ occupancy_byte occupancy }
{
    match occupancy {
        Occupancy::Clear => CLEAR,
        Occupancy::Occupied => OCCUPIED,
    }
}

pub(crate) fn occupancy_at(byte: u8) -> Option<Occupancy>
    ensures { result ≡ occupancy_at byte }
{
    match byte {
        CLEAR => Some(Occupancy::Clear),
        OCCUPIED => Some(Occupancy::Occupied),
        _ => None,
    }
}
