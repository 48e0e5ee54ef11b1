//! What a controller is told to do.

ghost use Rattle.std.specs.Prelude.{◌≡◌};
ghost use Rattle.ixl_client.specs.Step.{message_of};

use sci_telegram::{Aspect, Message, PointMessage, Side, SignalMessage};

/// What a controller is told to do.
#[derive(Clone, Copy, Debug)]
pub enum Command {
    /// A signal is to show this aspect.
    Indicate(Aspect),
    /// A point is to move to this side.
    Move(Side),
}

impl Command {
    pub(crate) fn message(self) -> Message
        ensures { result ≡ message_of self }
    {
        match self {
            Command::Indicate(aspect) => Message::Signal(SignalMessage::IndicateAspect(aspect)),
            Command::Move(side) => Message::Point(PointMessage::MovePoint(side)),
        }
    }
}
