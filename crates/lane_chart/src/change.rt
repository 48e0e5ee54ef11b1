//! What changes in a session, and what is done to the station from outside.

use crate::lane::{Lane, Seen};

/// A lane begins to show something.
#[derive(Clone, Copy)]
pub struct Change {
    /// The line of the session whose event changed it, counted from 1; 0 for what it shows at first.
    pub line: usize,
    /// True time after the event, in microseconds.
    pub time: u64,
    /// The lane.
    pub lane: Lane,
    /// What it shows from then on.
    pub seen: Seen,
}

/// A command is given, or a node is made anew.
pub struct Happening {
    /// The line of the session, counted from 1.
    pub line: usize,
    /// True time, in microseconds.
    pub time: u64,
    /// The node that is made anew, by its number; none where a command is given.
    pub node: Option<usize>,
    /// The event, and what was answered to it.
    pub words: String,
}

// Written by hand, so that it is proved and compiled here alone.
impl Drop for Happening {
    fn drop(self) {
        let Self {
            line: _,
            time: _,
            node: _,
            words: _,
        } = self;
    }
}
