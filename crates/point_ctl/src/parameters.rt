//! The parameters of a point. Times are in milliseconds of its own clock.

/// How long a move drives the point at most.
pub(crate) const DRIVE_LIMIT: u64 = 10000;
