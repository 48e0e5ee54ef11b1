//! How often what happened in the runs of a station.

/// What is counted.
#[derive(Clone, Copy)]
pub(crate) enum Count {
    Events,
    RoutesSet,
    /// Routes that were set while one of a conflicting route's sections was freed already and that route still set.
    SetBehind,
    ProceedsShown,
    SlowsShown,
    /// Events that left two signals or more at other than stop.
    TwoOpen,
    FellToStop,
    /// Moves, closings and openings by command that were accepted.
    MovedByHand,
    Closed,
    Opened,
    /// Routes that were freed once they were released.
    FreedReleased,
    /// Sections of routes that a train freed one by one.
    SectionsFreed,
    StationsAnewAtProceed,
    ControllersAnewAtProceed,
    Delivered,
    Lost,
    /// Events of nodes that aren't there.
    NoNode,
    NeverSent,
    Drifted,
    NotDriven,
    Repeated,
    PassedOver,
    Damaged,
    Misdirected,
    /// Runs in which all clocks went past a turn of the stamps.
    Turned,
}

/// How many things are counted.
const COUNTS: usize = 25;

/// How often what happened.
#[derive(Drop)]
pub(crate) struct Tally {
    counts: [usize; COUNTS],
}

impl Tally {
    pub(crate) fn new() -> Tally {
        Tally {
            counts: [0; COUNTS],
        }
    }

    /// How often it happened.
    pub(crate) fn of(&self, what: Count) -> usize {
        self.counts.get(what as usize).copied().unwrap_or(0)
    }

    /// It happened so many times more.
    pub(crate) fn add(&mut self, what: Count, times: usize) {
        if let Some(count) = self.counts.get_mut(what as usize) {
            *count = count.saturating_add(times);
        }
    }

    /// It happened once more.
    pub(crate) fn once_more(&mut self, what: Count) {
        self.add(what, 1);
    }
}
