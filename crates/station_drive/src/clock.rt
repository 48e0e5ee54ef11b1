//! The clock by which a station is driven.

/// A clock, in microseconds that don't fall.
pub trait Clock {
    ghost use Rattle.std.specs.Prelude.{◌≡◌, ◌≤◌, ℕ, List, [], ◌∷◌, Option, None};
    ghost use Rattle.station_drive.specs.Told.{Grows};

    /// What it read so far, where it tells that.
    ghost readings: { Self → Option (List ℕ) } = { λ _. None };

    /// What it read last.
    ghost latest: { Self → ℕ };

    /// Reads it. Each reading makes a round, so a clock of the real world waits here until the next one is due.
    fn read(&mut self) -> u64
        ensures rises { latest self.old ≤ result }
        ensures latest { latest self.new ≡ result }
        ensures told { Grows (readings self.old) (readings self.new) (result ∷ []) };

    /// Whether the run is to end before its time. It is asked after a round.
    fn is_stopped(&self) -> bool {
        false
    }
}
