//! A clock over memory.

use crate::Clock;
use std::alloc::Global;

/// A clock that goes on by the same step at each reading, in microseconds.
#[derive(Drop)]
pub struct SteppingClock {
    latest: u64,
    step: u64,
    readings: Vec<u64>,
    /// Whether memory was there for each reading.
    tells: bool,
}

impl SteppingClock {
    ghost use Rattle.std.specs.Prelude.{◌≡◌, [], Some};
    ghost use Rattle.station_drive.specs.Log.{so_far};

    /// A clock of which the first reading is a step after this time.
    pub fn new(alloc: Global, time: u64, step: u64) -> SteppingClock
        ensures { so_far result.tells result.readings.items ≡ Some [] }
    {
        SteppingClock {
            latest: time,
            step,
            readings: Vec::new(alloc),
            tells: true,
        }
    }

    /// What it read so far, oldest first, as far as it was kept.
    pub fn readings(&self) -> &[u64]
        ensures { result.now ≡ self.now.readings.items }
    {
        &self.readings
    }
}

impl Clock for SteppingClock {
    ghost use Rattle.station_drive.specs.Log.{so_far};

    ghost readings = { λ clock. so_far clock.tells clock.readings.items };

    ghost latest = { λ clock. clock.latest };

    fn read(&mut self) -> u64 {
        self.latest = self.latest.saturating_add(self.step);
        if self.readings.push(self.latest).is_err() {
            self.tells = false;
        }
        self.latest
    }
}
