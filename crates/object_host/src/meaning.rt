//! What a telegram is to a connection.

ghost use Rattle.std.specs.Prelude.{◌≡◌};
ghost use Rattle.object_host.specs.Meaning.{meaning};

use crate::stage::Stage;
use sci_telegram::{Initialisation, Message};

/// What a telegram is to a connection, by what it says and how far the connection has come.
#[derive(Clone, Copy, Debug)]
pub(crate) enum Meaning {
    /// The peer tells its version, which is to be answered.
    Checks(u8),
    /// The peer asks for the initialisation.
    Initialises,
    /// It goes to the object.
    Commands,
    /// It comes out of the order.
    Violates,
}

impl Meaning {
    pub(crate) fn of(message: &Message, stage: Stage) -> Meaning
        ensures { result ≡ meaning message.now stage }
    {
        match (message, stage) {
            (
                Message::Initialisation(_, Initialisation::VersionCheck { version }),
                Stage::AwaitsCheck,
            ) => Meaning::Checks(*version),
            (
                Message::Initialisation(_, Initialisation::InitialisationRequest),
                Stage::AwaitsRequest,
            ) => Meaning::Initialises,
            (Message::Initialisation(_, _), _) => Meaning::Violates,
            (_, Stage::Completed) => Meaning::Commands,
            _ => Meaning::Violates,
        }
    }
}
