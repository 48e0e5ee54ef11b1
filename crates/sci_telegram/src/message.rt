//! What telegrams say, in the order of the table of telegrams (this profile).

ghost use Rattle.std.specs.Prelude.{◌≡◌};
ghost use Rattle.sci_telegram.specs.Messages.{protocol_of};

/// Which kind of object a telegram is about.
#[derive(Clone, Copy, Debug, PartialEq, Eq)]
pub enum Protocol {
    /// SCI-TDS: the sections of a detector.
    TrainDetection,
    /// SCI-LS: a light signal.
    LightSignal,
    /// SCI-P: a point.
    Point,
}

/// Whether both ends of a link speak one version.
#[derive(Clone, Copy, Debug, PartialEq, Eq)]
pub enum Agreement {
    NoMatch,
    Match,
}

/// A side of a point, as seen from its tip.
#[derive(Clone, Copy, Debug, PartialEq, Eq)]
pub enum Side {
    Right,
    Left,
}

/// Where a point lies.
#[derive(Clone, Copy, Debug, PartialEq, Eq)]
pub enum Position {
    Right,
    Left,
    /// It lies at neither side, as while it moves.
    NoEndPosition,
}

/// The version of the telegrams that first has the aspect slow.
pub const SLOW_SINCE: u8 = 2;

/// What a signal shows to a train.
#[derive(Clone, Copy, Debug, PartialEq, Eq)]
pub enum Aspect {
    Stop,
    Proceed,
    /// Proceed at low speed. Telegrams have it from version `SLOW_SINCE` on.
    Slow,
}

/// Whether a train is detected in a section.
#[derive(Clone, Copy, Debug, PartialEq, Eq)]
pub enum Occupancy {
    Clear,
    Occupied,
}

/// What every protocol has: the telegrams that begin a connection.
#[derive(Clone, Copy, Debug, PartialEq, Eq)]
pub enum Initialisation {
    InitialisationRequest,
    StartInitialisation,
    InitialisationCompleted,
    VersionCheck { version: u8 },
    VersionAnswer { agreement: Agreement, version: u8 },
}

/// What SCI-P has beside the initialisation.
#[derive(Clone, Copy, Debug, PartialEq, Eq)]
pub enum PointMessage {
    MovePoint(Side),
    PointPosition(Position),
    /// The commanded position wasn't reached in time.
    Timeout,
}

/// What SCI-LS has beside the initialisation.
#[derive(Clone, Copy, Debug, PartialEq, Eq)]
pub enum SignalMessage {
    IndicateAspect(Aspect),
    IndicatedAspect(Aspect),
}

/// What SCI-TDS has beside the initialisation.
#[derive(Clone, Copy, Debug, PartialEq, Eq)]
pub enum DetectionMessage {
    /// The sender's name is that of the section.
    OccupancyStatus(Occupancy),
}

/// What a telegram says, by its protocol.
#[derive(Clone, Copy, Debug, PartialEq, Eq)]
pub enum Message {
    Initialisation(Protocol, Initialisation),
    Point(PointMessage),
    Signal(SignalMessage),
    Detection(DetectionMessage),
}

impl Message {
    /// The protocol that has this message.
    pub fn protocol(&self) -> Protocol
        ensures { result ≡ protocol_of self.now }
    {
        match self {
            Message::Initialisation(protocol, _) => *protocol,
            Message::Point(_) => Protocol::Point,
            Message::Signal(_) => Protocol::LightSignal,
            Message::Detection(_) => Protocol::TrainDetection,
        }
    }
}
