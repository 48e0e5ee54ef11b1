//! What is looked at after each event.

use lane_chart::{Lane, Seen};

/// A lane that is followed, and what it showed last.
#[derive(Clone, Copy)]
pub(crate) struct Watch {
    pub(crate) lane: Lane,
    pub(crate) seen: Seen,
}
