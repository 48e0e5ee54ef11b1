//! The clock of a node's process.

ghost use Rattle.std.specs.Prelude.{◌≡◌, ◌-◌, ◌≤◌, IfErr, IfOk};
ghost use Rattle.std.specs.Duration.{as_nanos};
ghost use Rattle.node_network.specs.Clocks.{reading_behind};
ghost use Rattle.node_network.specs.declared.fault.OpenFault.TheVariants.{NoClock};

use crate::fault::OpenFault;
use node_drive::ROUND_MICROS;
use std::time::{Clock as Timer, Duration, Instant};

const NANOS_PER_MILLI: u128 = 1_000_000;

/// The clock of the machine, in milliseconds from a first reading on. Its readings don't fall.
#[derive(Drop)]
pub struct NodeClock<'a, T> {
    timer: &'a T,
    start: Instant,
    /// Its first reading.
    first: u64,
    /// What it read last.
    latest: u64,
    /// When the next round is due, in microseconds since the start.
    due: u64,
}

impl<'a, T: Timer> NodeClock<'a, T> {
    /// A clock that starts now, with this reading.
    pub fn start(timer: &'a T, first: u64) -> Result<NodeClock<'a, T>, OpenFault>
        ensures first { IfOk result (λ clock. clock.first ≡ first) }
        ensures latest { IfOk result (λ clock. clock.latest ≡ first) }
        ensures fault { IfErr result (λ fault. fault ≡ NoClock) }
    {
        let Ok(start) = Instant::now(timer) else {
            return Err(OpenFault::NoClock);
        };
        Ok(NodeClock {
            timer,
            start,
            first,
            latest: first,
            due: 0,
        })
    }

    /// Waits until the next round is due, the first one not.
    pub(crate) fn rest(&mut self)
        ensures first { self.new.first ≡ self.old.first }
        ensures latest { self.new.latest ≡ self.old.latest }
    {
        let left = self.due.saturating_sub(self.micros());
        if left > 0 {
            self.timer.sleep(Duration::from_micros(left));
        }
        self.due = self.micros().saturating_add(ROUND_MICROS);
    }

    /// The microseconds since its start. Where the machine's clock can't be read, the round is due.
    fn micros(&self) -> u64 {
        match self.start.elapsed(self.timer) {
            Ok(elapsed) => u64::try_from(elapsed.as_micros()).unwrap_or(self.due),
            Err(_) => self.due,
        }
    }

    /// What it read last.
    pub(crate) fn latest(&self) -> u64
        ensures { result ≡ self.now.latest }
    {
        self.latest
    }

    /// Reads it. Where the machine's clock goes back or can't be read, it stands.
    pub(crate) fn read(&mut self) -> u64
        ensures first { self.new.first ≡ self.old.first }
        ensures latest { self.new.latest ≡ result }
        ensures rises { self.old.latest ≤ result }
    {
        if let Ok(elapsed) = self.start.elapsed(self.timer) {
            self.latest = reading_behind(self.first, self.latest, elapsed);
        }
        self.latest
    }
}

/// The reading so long after the first, or the latest where that is greater.
fn reading_behind(first: u64, latest: u64, elapsed: Duration) -> u64
    ensures { result ≡ reading_behind first latest (as_nanos elapsed) }
{
    let millis = elapsed.as_nanos() / NANOS_PER_MILLI;
    let now = u64::try_from(u128::from(first) + millis).unwrap_or(u64::MAX);
    if now < latest { latest } else { now }
}
