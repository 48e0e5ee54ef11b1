//! What a station answers to an event.

use ixl_spec::Refusal;

/// The answer to an event that was applied.
#[derive(Clone, Copy, Debug, PartialEq, Eq)]
pub enum Answer {
    /// The event happened, and was no command.
    Done,
    /// The interlocking took the command.
    Accepted,
    /// The interlocking refused the command.
    Refused(Refusal),
}

/// What is told of an event that was applied.
#[derive(Clone, Copy, Debug)]
pub struct Reply {
    pub answer: Answer,
    /// How many datagrams were sent. They are the last of the bag.
    pub added: usize,
}
