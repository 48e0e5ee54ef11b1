//! How long a datagram may wait with its sender, and at its receiver.

/// How long a datagram waits at most between its step and its sending: less than so many milliseconds.
pub(crate) const LONGEST_WAIT: u64 = 500;

/// How long a datagram that is heard can have waited after the reading at which none was seen to wait, in milliseconds.
pub(crate) const LONGEST_IN_SOCKET: u64 = 400;

/// How long before that reading it can have come unseen, to a socket that wasn't found empty or to the hold: less than so many
/// milliseconds.
pub const LONGEST_UNSEEN: u64 = 90;
