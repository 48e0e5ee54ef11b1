//! Why a call was refused.

/// Why a call was refused. A refused call changes nothing.
#[derive(Clone, Copy, PartialEq, Eq)]
pub enum Refusal {
    /// The reading is before one that an earlier call brought.
    ClockFell,
    /// Fewer than 2000 ms have passed since its start.
    TooSoon,
    /// What came may have waited for more than 400 ms before it was read.
    TooOld,
    /// The order of the last step isn't in force yet.
    NotInForce,
}
