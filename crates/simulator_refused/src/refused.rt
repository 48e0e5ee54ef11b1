//! Why an event isn't applied.

ghost use Rattle.std.specs.Prelude.{◌≡◌};

use thiserror::Error;

/// Why an event isn't applied. Nothing has changed then. The first test in this order that fails is told.
#[derive(Clone, Copy, Debug, PartialEq, Eq, Error)]
pub enum Refused {
    /// There is no such node, point or section, or there are other than one clock for each node.
    #[error("no such node")]
    NoSuchNode = 1,
    /// Intact bytes of which there is no copy that can still be delivered, or none to be lost.
    #[error("no such datagram was sent")]
    NeverSent = 2,
    /// A clock would leave true time by more than 1 in 1000.
    #[error("a clock drifts too far")]
    Drift = 3,
    /// The point isn't driven, or not to this side.
    #[error("the point isn't driven so")]
    NotDriven = 4,
    /// True time or a clock would pass 9000000000000000 microseconds.
    #[error("the clock is at its limit")]
    ClockLimit = 5,
    /// A growth was refused.
    #[error("out of memory")]
    OutOfMemory = 6,
}

impl Refused {
    ghost use Rattle.simulator_refused.specs.Refused.{number_of, numbered};

    /// Its number in answers, 1 to 6.
    pub fn number(self) -> u8
        ensures { result ≡ number_of self }
    {
        self as u8
    }

    /// The one of this number, if there is one.
    pub fn numbered(number: u64) -> Option<Refused>
        ensures { result ≡ numbered number }
    {
        match number {
            1 => Some(Refused::NoSuchNode),
            2 => Some(Refused::NeverSent),
            3 => Some(Refused::Drift),
            4 => Some(Refused::NotDriven),
            5 => Some(Refused::ClockLimit),
            6 => Some(Refused::OutOfMemory),
            _ => None,
        }
    }
}
