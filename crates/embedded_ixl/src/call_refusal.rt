//! Why a call was refused.

/// Why a call was refused by the rules of the loop. A refused call changes nothing.
#[derive(Clone, Copy, PartialEq, Eq)]
pub enum CallRefusal {
    /// The reading is before one that an earlier call brought.
    ClockFell,
    /// Fewer than 2000 ms have passed since its start.
    TooSoon,
    /// What came may have waited for more than 400 ms before it was read.
    TooOld,
}
