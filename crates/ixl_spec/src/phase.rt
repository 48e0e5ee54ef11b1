//! How far a route is.

use rasta_core::Millis;

/// How far a route is.
#[derive(Clone, Copy, Debug)]
pub enum Phase {
    /// It isn't set.
    Free,
    /// It is set, and had no authority since.
    Waiting,
    /// It has authority, and its aspect was given.
    Proceeding,
    /// It has authority, and was withdrawn: stop was given, where its signal could be told.
    Withdrawn,
    /// Its authority ended at a clock reading. The first sections are freed, so many.
    Ended { clock: Millis, freed: usize },
}
