//! The states of an end.

/// Whether an end is in a connection, and how far. What an end outside does is a matter of its clock.
#[derive(Clone, Copy, Debug)]
pub enum Phase {
    /// In no connection.
    Closed,
    /// The own request or response is sent, and nothing of the connection was taken after it.
    Start,
    Up,
    /// Up, and a PDU is missing: the link has asked for it.
    RetransmissionRequested,
    /// Up, and the missing PDUs are coming.
    RetransmissionRunning,
}

impl Phase {
    ghost use Rattle.std.specs.Prelude.{◌≡◌};
    ghost use Rattle.rasta_core_link.specs.State.{is_open, is_up};
    ghost use Rattle.rasta_core_link.specs.Clock.{open_state};

    pub(crate) fn is_open(self) -> bool
        ensures { result ≡ is_open self }
    {
        !matches!(self, Phase::Closed)
    }

    pub(crate) fn is_up(self) -> bool
        ensures { result ≡ is_up self }
    {
        !matches!(self, Phase::Closed | Phase::Start)
    }

    /// The state of an open link; a closed one is down where it isn't quiet.
    pub(crate) fn state(self) -> State
        ensures { result ≡ open_state self }
    {
        match self {
            Phase::Closed => State::Down,
            Phase::Start => State::Start,
            Phase::Up => State::Up,
            Phase::RetransmissionRequested => State::RetransmissionRequested,
            Phase::RetransmissionRunning => State::RetransmissionRunning,
        }
    }
}

/// The states of an end at a reading of its clock.
#[derive(Clone, Copy, Debug, PartialEq, Eq)]
pub enum State {
    /// Closed or created less than 6000 ms ago: it opens nothing and takes nothing.
    Quiet,
    /// In no connection, and ready for one.
    Down,
    /// A connection is opening.
    Start,
    Up,
    /// Up, and a PDU is missing: the link has asked for it.
    RetransmissionRequested,
    /// Up, and the missing PDUs are coming.
    RetransmissionRunning,
}
