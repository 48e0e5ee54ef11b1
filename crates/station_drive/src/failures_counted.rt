//! Which call fails, and how many failed.

ghost use Rattle.std.specs.Prelude.{◌≡◌};
ghost use Rattle.station_drive.specs.Told.{Counts};

use crate::NetFault;

/// Counts calls, of which one fails.
#[derive(Drop)]
pub(crate) struct Counting {
    /// How many calls were made.
    pub(crate) made: u64,
    /// Which call fails, counted from 1; none at 0.
    pub(crate) failing: u64,
    pub(crate) failed: u64,
}

impl Counting {
    /// A call is made. It tells whether this is the one that fails.
    pub(crate) fn make(&mut self) -> bool
        ensures { self.new.failed ≡ self.old.failed }
    {
        self.made = self.made.saturating_add(1);
        self.made == self.failing
    }

    /// A call fails. Where that can't be counted any more it answers otherwise.
    pub(crate) fn fail<T: Drop>(&mut self, otherwise: T) -> Result<T, NetFault>
        ensures { Counts result self.old.failed self.new.failed }
    {
        if self.failed == u64::MAX {
            return Ok(otherwise);
        }
        self.failed += 1;
        Err(NetFault::Failed)
    }
}
