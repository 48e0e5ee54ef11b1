//! How far a connection of a host has come.

ghost use Rattle.std.specs.Prelude.{◌≡◌};

/// How far the connection has come: the initialisation follows its opening, and commands are taken after it.
#[derive(Clone, Copy, Debug)]
pub(crate) enum Stage {
    /// The link is in no connection.
    Outside,
    /// The peer is to tell its version.
    AwaitsCheck,
    /// The peer is to ask for the initialisation.
    AwaitsRequest,
    /// The states of all objects were told: commands are taken, and reports are sent.
    Completed,
    /// The versions don't match: nothing more is taken.
    Refused,
}

impl Stage {
    ghost use Rattle.object_host.specs.Host.{is_completed, is_outside};

    pub(crate) fn is_outside(self) -> bool
        ensures { result ≡ is_outside self }
    {
        matches!(self, Stage::Outside)
    }

    pub(crate) fn is_completed(self) -> bool
        ensures { result ≡ is_completed self }
    {
        matches!(self, Stage::Completed)
    }
}
