//! What happened in the runs of a list.

use std::fmt;

/// How often what happened.
#[derive(Clone, Copy)]
pub(crate) struct Tally {
    pub(crate) runs: u64,
    /// Events after which the station was looked at.
    pub(crate) events: u64,
    /// Restarts at which a signal was open.
    pub(crate) open: u64,
    /// Runs in which a signal was open at the end.
    pub(crate) open_later: u64,
    /// Datagrams that were never sent so.
    pub(crate) unsent: u64,
    /// Points that weren't driven so.
    pub(crate) undriven: u64,
    /// Commands that came in the hold.
    pub(crate) held_back: u64,
}

impl Tally {
    /// Nothing has happened.
    pub(crate) fn new() -> Tally {
        Tally {
            runs: 0,
            events: 0,
            open: 0,
            open_later: 0,
            unsent: 0,
            undriven: 0,
            held_back: 0,
        }
    }
}

impl fmt::Display for Tally {
    fn fmt<W: fmt::Write>(&self, f: &mut fmt::Formatter<W>) -> fmt::Result {
        let (runs, events) = (self.runs, self.events);
        write!(f, "{runs} runs, {events} events, all safe; ")?;
        let (open, later) = (self.open, self.open_later);
        write!(f, "a signal open in {open} before, in {later} at the end; ")?;
        let (unsent, undriven, held) = (self.unsent, self.undriven, self.held_back);
        write!(f, "no 2 {unsent}, no 4 {undriven}, refused 2 {held}")
    }
}

/// One more.
pub(crate) fn count(number: &mut u64) {
    *number = number.saturating_add(1);
}
