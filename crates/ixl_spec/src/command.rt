//! What an interlocking is told to do, and why it refuses.

use closings::{Named, PointId, RouteId, SectionId, Side, Thing};
use rasta_core::Millis;
use thiserror::Error;

/// How long an interlocking holds after its creation, in ms of its clock: it takes no request.
pub const HOLD_TIME: Millis = 6000;

/// What an interlocking is told to do.
#[derive(Clone, Copy, Debug)]
pub enum Command {
    /// To set a route.
    Request(RouteId),
    /// To cancel a route that is set.
    Cancel(RouteId),
    /// To take requests, cancels, releases and moves.
    Resume,
    /// To free a route that was cancelled and whose authority is ended, once the approach time is over.
    Release(RouteId),
    /// To move a point to a side.
    Move(PointId, Side),
    /// To close a thing, or a point at both sides.
    Close(Named),
    /// To open it.
    Open(Named),
}

/// Why a command is refused. The first test in this order that fails is told.
#[derive(Clone, Copy, Debug, PartialEq, Eq, Error)]
pub enum Refusal {
    /// The table has no such route.
    #[error("no such route")]
    UnknownRoute,
    /// Less than `HOLD_TIME` has passed since the interlocking was made.
    #[error("the interlocking holds")]
    Holding,
    /// It wasn't told to resume yet.
    #[error("the interlocking was not told to resume")]
    NotResumed,
    /// The route is set.
    #[error("the route is set")]
    AlreadySet,
    /// The first route of the table that blocks it.
    #[error("a set route blocks it")]
    Conflict(RouteId),
    /// The first section with a ready link whose last report is occupied; or the section of the point that was to be moved.
    #[error("a section is occupied")]
    NotClear(SectionId),
    /// The first required point that isn't available and isn't held at its side; or the point that was to be moved.
    #[error("a point isn't available")]
    PointUnavailable(PointId),
    /// The entry signal's link isn't ready, or it isn't at known stop.
    #[error("the signal isn't ready at known stop")]
    SignalUnavailable,
    /// A route that isn't set can't be cancelled or released.
    #[error("the route isn't set")]
    NotSet,
    /// A section of the route is unknown, or the section of the point that was to be moved.
    #[error("a section is unknown")]
    DetectionDown,
    /// The station has no such thing.
    #[error("no such thing")]
    NoSuchThing,
    /// The route isn't cancelled, or its authority wasn't given in this setting, or isn't ended.
    #[error("the route isn't cancelled with its authority ended")]
    NotEnded,
    /// The first closed thing that the route would use; or the point that was to be moved, at that side.
    #[error("a thing is closed")]
    Closed(Thing),
    /// The first set route that holds the point; or that isn't cancelled and uses what was to be closed, or awaits a point in it.
    #[error("a set route holds it")]
    Held(RouteId),
}

impl Refusal {
    ghost use Rattle.std.specs.Prelude.{◌≡◌};
    ghost use Rattle.ixl_spec.specs.Commands.{refusal_number};

    /// Its number, 1 to 14.
    pub fn number(self) -> u8
        ensures { result ≡ refusal_number self }
    {
        match self {
            Refusal::UnknownRoute => 1,
            Refusal::Holding => 2,
            Refusal::NotResumed => 3,
            Refusal::AlreadySet => 4,
            Refusal::Conflict(_) => 5,
            Refusal::NotClear(_) => 6,
            Refusal::PointUnavailable(_) => 7,
            Refusal::SignalUnavailable => 8,
            Refusal::NotSet => 9,
            Refusal::DetectionDown => 10,
            Refusal::NoSuchThing => 11,
            Refusal::NotEnded => 12,
            Refusal::Closed(_) => 13,
            Refusal::Held(_) => 14,
        }
    }
}
