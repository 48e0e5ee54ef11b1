//! Why a node isn't made anew in all runs of a list.

use station_record::Refused;

/// Why a node isn't made anew in all runs of a list.
#[derive(Clone, Copy)]
pub(crate) enum Fault {
    OutOfMemory,
    /// A list begins otherwise than at rest.
    Event,
    /// A list has no request of a route, or ends before a node is made anew.
    Request,
    /// The station isn't safe.
    Unsafe,
    /// A command is held back out of the hold, or not in it.
    Hold,
    /// An event is refused that may not be.
    Refused(Refused),
}

impl Fault {
    /// What is told of it.
    pub(crate) fn text(self) -> &'static str {
        match self {
            Fault::OutOfMemory | Fault::Refused(Refused::OutOfMemory) => "out of memory",
            Fault::Event => "error: a list begins at rest",
            Fault::Request => "error: a request is wanted",
            Fault::Unsafe => "error: unsafe",
            Fault::Hold => "error: a command is held back out of the hold, or not in it",
            Fault::Refused(Refused::NoSuchNode) => "error: no such node",
            Fault::Refused(Refused::NeverSent) => "error: no such datagram was sent",
            Fault::Refused(Refused::Drift) => "error: a clock drifts too far",
            Fault::Refused(Refused::NotDriven) => "error: the point isn't driven so",
            Fault::Refused(Refused::ClockLimit) => "error: the clock is at its limit",
        }
    }
}
