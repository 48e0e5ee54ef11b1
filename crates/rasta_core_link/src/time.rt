//! Time: its unit, how often an end is called, how long a datagram lives, and how late a clock may be.

use crate::link::Millis;

/// How many microseconds a millisecond has.
pub const MICROS: u64 = 1000;

/// How often each end is called: in a round all that was sent comes, and each end ticks.
pub const ROUND: Millis = 10;

/// How many microseconds a round has.
pub const ROUND_MICROS: u64 = ROUND * MICROS;

/// How long the network may deliver a datagram, from its sending on, in milliseconds of true time.
pub const LIFETIME: Millis = 2000;

/// How long that is in microseconds.
pub const LIFETIME_MICROS: u64 = LIFETIME * MICROS;

/// The latest reading of a clock with which an end is made: some 285 years.
pub const LATEST_CLOCK: Millis = 9_000_000_000_000;

/// The greatest true time and the greatest clock, in microseconds: as late as `LATEST_CLOCK`.
pub const CLOCK_LIMIT: u64 = LATEST_CLOCK * MICROS;
