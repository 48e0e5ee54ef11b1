//! How far a move has come.

ghost use Rattle.std.specs.Prelude.{◌≡◌};
ghost use Rattle.point_ctl.specs.Drive.{is_at};

use crate::parameters::DRIVE_LIMIT;
use rasta_core::Millis;
use sci_telegram::{Position, Side};

/// How far the move that was taken last has come.
#[derive(Clone, Copy, Debug, PartialEq, Eq)]
pub(crate) enum Progress {
    /// Its final report was sent, or no move was taken since the last loss of the link.
    Answered,
    /// The point is driven to this side, since this clock reading in ms.
    Driving { side: Side, since: u64 },
    /// It needs no drive any more: the position is still to be reported.
    Arrived,
    /// The drive reached its limit: the timeout is still to be reported.
    TimedOut,
}

/// Whether a position is the end position at a side.
pub(crate) fn is_at(side: Side, position: Position) -> bool
    ensures { result ≡ is_at side position }
{
    match side {
        Side::Right => position == Position::Right,
        Side::Left => position == Position::Left,
    }
}

impl Progress {
    ghost use Rattle.point_ctl.specs.Drive.{answered, is_answered, limited, reached};

    /// Whether every move that was taken has been answered.
    pub(crate) fn is_answered(self) -> bool
        ensures { result ≡ is_answered self }
    {
        matches!(self, Progress::Answered)
    }

    /// A drive has ended at its limit.
    pub(crate) fn limited(self, now: Millis) -> Progress
        ensures { result ≡ limited now self }
    {
        match self {
            Progress::Driving { since, .. } if since.saturating_add(DRIVE_LIMIT) <= now => {
                Progress::TimedOut
            }
            progress => progress,
        }
    }

    /// A drive has ended where the commanded position is sensed.
    pub(crate) fn reached(self, position: Position) -> Progress
        ensures { result ≡ reached position self }
    {
        match self {
            Progress::Driving { side, .. } if is_at(side, position) => Progress::Arrived,
            progress => progress,
        }
    }

    /// A final report that was owed was sent.
    pub(crate) fn answered(self) -> Progress
        ensures { result ≡ answered self }
    {
        match self {
            Progress::Arrived | Progress::TimedOut => Progress::Answered,
            progress => progress,
        }
    }
}
