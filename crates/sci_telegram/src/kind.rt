//! The rows of the table of telegrams.

ghost use Rattle.std.specs.Prelude.{◌≡◌};
ghost use Rattle.sci_telegram.specs.TelegramRead.{kind_at, own_kind_at, payload_length};

use crate::message::Protocol;
use crate::types;

/// Which telegram it is, without what it carries.
#[derive(Clone, Copy)]
pub(crate) enum Kind {
    InitialisationRequest,
    StartInitialisation,
    InitialisationCompleted,
    VersionCheck,
    VersionAnswer,
    MovePoint,
    PointPosition,
    Timeout,
    IndicateAspect,
    IndicatedAspect,
    OccupancyStatus,
}

/// The row of a type number that one protocol alone has.
fn own_kind_at(protocol: Protocol, number: u16) -> Option<Kind>
    ensures { result ≡ own_kind_at protocol number }
{
    match protocol {
        Protocol::Point => match number {
            types::MOVE_POINT => Some(Kind::MovePoint),
            types::POINT_POSITION => Some(Kind::PointPosition),
            types::TIMEOUT => Some(Kind::Timeout),
            _ => None,
        },
        Protocol::LightSignal => match number {
            types::INDICATE_ASPECT => Some(Kind::IndicateAspect),
            types::INDICATED_ASPECT => Some(Kind::IndicatedAspect),
            _ => None,
        },
        Protocol::TrainDetection => match number {
            types::OCCUPANCY_STATUS => Some(Kind::OccupancyStatus),
            _ => None,
        },
    }
}

/// The row of a type number under a protocol.
#[tactic(auto, unfolding(crate::specs::TelegramRead::kind_at))]
pub(crate) fn kind_at(protocol: Protocol, number: u16) -> Option<Kind>
    ensures { result ≡ kind_at protocol number }
{
    match number {
        types::INITIALISATION_REQUEST => Some(Kind::InitialisationRequest),
        types::START_INITIALISATION => Some(Kind::StartInitialisation),
        types::INITIALISATION_COMPLETED => Some(Kind::InitialisationCompleted),
        types::VERSION_CHECK => Some(Kind::VersionCheck),
        types::VERSION_ANSWER => Some(Kind::VersionAnswer),
        _ => own_kind_at(protocol, number),
    }
}

/// How many bytes of payload the telegrams of a row have.
pub(crate) fn payload_length(kind: Kind) -> usize
    ensures { result ≡ payload_length kind }
{
    match kind {
        Kind::InitialisationRequest => 0,
        Kind::StartInitialisation => 0,
        Kind::InitialisationCompleted => 0,
        Kind::VersionCheck => 1,
        Kind::VersionAnswer => 2,
        Kind::MovePoint => 1,
        Kind::PointPosition => 1,
        Kind::Timeout => 0,
        Kind::IndicateAspect => ASPECT_LENGTH,
        Kind::IndicatedAspect => ASPECT_LENGTH,
        Kind::OccupancyStatus => 1,
    }
}

/// An aspect is one byte and 17 that say nothing.
const ASPECT_LENGTH: usize = 18;
