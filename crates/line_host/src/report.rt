//! What an end tells its station and its operator.

use line_end::Position;

/// What an end tells its station and its operator after a step.
#[derive(Clone, Copy, Debug, PartialEq, Eq)]
pub struct Report {
    /// Where the lock lies.
    pub lock: Position,
    /// The line is clear: nothing but this may have the station let a train onto it.
    pub clear: bool,
    /// The line's token is here.
    pub token: bool,
    /// The other end asks for it.
    pub asked: bool,
    /// The two ends are in touch, and have one version.
    pub joined: bool,
}
