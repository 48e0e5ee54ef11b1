//! What a line of a record tells of a lane.

use lane_chart::{Lane, Seen};

/// A lane shows this from now on.
#[derive(Clone, Copy)]
pub(crate) struct Told {
    pub(crate) lane: Lane,
    pub(crate) seen: Seen,
}
