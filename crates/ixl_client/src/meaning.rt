//! What a telegram of the controller is to its connection.

ghost use Rattle.std.specs.Prelude.{◌≡◌};
ghost use Rattle.ixl_client.specs.Meaning.{meaning, meaning_of, initial_meaning, is_in_turn, is_in_version, report_meaning, state_in};

use crate::indication::{Indication, ObjectState};
use crate::peer::Peer;
use crate::stage::Stage;
use sci_telegram::{
    Agreement, Aspect, DetectionMessage, Initialisation, Message, PointMessage, Protocol,
    SLOW_SINCE, SignalMessage, Telegram,
};

/// What a telegram is to a connection, by what it says and how far the connection has come.
#[derive(Clone, Copy, Debug)]
pub(crate) enum Meaning {
    /// The controller has the client's version.
    Agrees,
    /// It has another version.
    Differs,
    /// The initialisation begins.
    Starts,
    /// The state of an object is told, in its turn.
    Indicates(Indication),
    /// The initialisation was completed.
    Completes,
    /// It comes out of the order.
    Violates,
}

/// The state of an object that a message tells, if it tells one.
fn state_in(message: &Message) -> Option<ObjectState>
    ensures { result ≡ state_in message.now }
{
    match message {
        Message::Signal(SignalMessage::IndicatedAspect(aspect)) => Some(ObjectState::Aspect(
            *aspect,
        )),
        Message::Point(PointMessage::PointPosition(position)) => Some(ObjectState::Position(
            *position,
        )),
        Message::Point(PointMessage::Timeout) => Some(ObjectState::Timeout),
        Message::Detection(DetectionMessage::OccupancyStatus(occupancy)) => Some(
            ObjectState::Occupancy(*occupancy),
        ),
        _ => None,
    }
}

/// Version 1 of the telegrams doesn't have the aspect slow.
fn is_in_version(version: u8, state: ObjectState) -> bool
    ensures { result ≡ is_in_version version state }
{
    match state {
        ObjectState::Aspect(Aspect::Slow) => version >= SLOW_SINCE,
        _ => true,
    }
}

/// Whether the state of the object at this place comes in its turn.
fn is_in_turn(peer: &Peer, place: usize, state: ObjectState, stage: Stage) -> bool
    ensures { result ≡ is_in_turn peer.now place state stage }
{
    match stage {
        Stage::AwaitsStatus(left) => place == peer.objects.len().saturating_sub(left)
            && !matches!(state, ObjectState::Timeout),
        Stage::Completed => !matches!(peer.protocol, Protocol::Point),
        Stage::AwaitsReport => true,
        _ => false,
    }
}

impl Meaning {
    fn of_report(
        peer: &Peer,
        place: Option<usize>,
        state: Option<ObjectState>,
        stage: Stage,
    ) -> Meaning
        ensures { result ≡ report_meaning peer.now place state stage }
    {
        match (place, state) {
            (Some(place), Some(state))
                if is_in_turn(peer, place, state, stage) && is_in_version(peer.version, state) =>
                Meaning::Indicates(Indication { place, state }),
            _ => Meaning::Violates,
        }
    }

    fn of_initialisation(peer: &Peer, initialisation: &Initialisation, stage: Stage) -> Meaning
        ensures { result ≡ initial_meaning peer.now initialisation.now stage }
    {
        match (initialisation, stage) {
            (Initialisation::VersionAnswer { agreement, version }, Stage::AwaitsAnswer) =>
                if matches!(agreement, Agreement::Match) && *version == peer.version {
                    Meaning::Agrees
                } else {
                    Meaning::Differs
                },
            (Initialisation::StartInitialisation, Stage::AwaitsStart) => Meaning::Starts,
            (Initialisation::InitialisationCompleted, Stage::AwaitsStatus(0)) => Meaning::Completes,
            _ => Meaning::Violates,
        }
    }

    #[tactic(auto, unfolding(crate::specs::Meaning::meaning))]
    pub(crate) fn of(peer: &Peer, telegram: &Telegram, stage: Stage) -> Meaning
        ensures { result ≡ meaning peer.now telegram.now stage }
    {
        if !peer.is_for_client(telegram) {
            return Meaning::Violates;
        }
        match &telegram.message {
            Message::Initialisation(_, initialisation) => if telegram.sender.bytes()
                == peer.name.bytes()
            {
                Meaning::of_initialisation(peer, initialisation, stage)
            } else {
                Meaning::Violates
            },
            message => Meaning::of_report(
                peer,
                peer.place_of(&telegram.sender),
                state_in(message),
                stage,
            ),
        }
    }
}
