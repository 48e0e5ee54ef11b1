//! How far the initialisation of a connection has come.

ghost use Rattle.std.specs.Prelude.{◌≡◌};

/// How far the connection has come: the initialisation follows its opening, and commands are sent after it.
#[derive(Clone, Copy, Debug)]
pub(crate) enum Stage {
    /// The link isn't up.
    Outside,
    /// The own version was told, and the controller is to tell its own.
    AwaitsAnswer,
    /// The initialisation was asked for.
    AwaitsStart,
    /// The initialisation goes on: this many objects have yet to tell their states.
    AwaitsStatus(usize),
    /// The initialisation was completed, and every move is answered.
    Completed,
    /// The initialisation was completed, and a move is not yet answered.
    AwaitsReport,
}

impl Stage {
    ghost use Rattle.ixl_client.specs.Client.{is_available, is_outside, is_ready};
    ghost use Rattle.ixl_client.specs.Step.{stage_after_command, stage_after_report};

    pub(crate) fn is_outside(self) -> bool
        ensures { result ≡ is_outside self }
    {
        matches!(self, Stage::Outside)
    }

    pub(crate) fn is_ready(self) -> bool
        ensures { result ≡ is_ready self }
    {
        matches!(self, Stage::Completed | Stage::AwaitsReport)
    }

    pub(crate) fn is_available(self) -> bool
        ensures { result ≡ is_available self }
    {
        matches!(self, Stage::Completed)
    }
}
