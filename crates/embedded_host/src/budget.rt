//! The times of a loop, in milliseconds. A datagram may be heard for 2000 ms after the reading of the step that handed it out:
//! 500 of them pass at most until it leaves, and 400 in the socket of its receiver.

/// For how long it sends and hears nothing after its start, so that no datagram of an earlier life is on its way any more.
pub const QUIET_AT_FIRST: u64 = 2000;

/// How long a datagram waits at most between its step and its leaving: less than so many milliseconds.
pub const LONGEST_WAIT: u64 = 500;

/// How long a datagram that is heard can have waited in the socket, in milliseconds.
pub const LONGEST_IN_SOCKET: u64 = 400;
