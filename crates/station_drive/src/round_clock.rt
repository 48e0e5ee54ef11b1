//! The clock of the machine.

ghost use Rattle.std.specs.Prelude.{◌≡◌, ◌-◌, ◌≤◌, IfOk};

use crate::Clock;
use replay_lines::ROUND_MICROS;
use std::io;
use std::time::{Clock as Timer, Duration, Instant};

/// The clock of the machine, in microseconds since it was started. A reading waits until a round is due, the first one not.
#[derive(Drop)]
pub struct RoundClock<'a, T> {
    timer: &'a T,
    start: Instant,
    /// What it read last.
    latest: u64,
    /// When the next reading is due.
    due: u64,
}

impl<'a, T: Timer> RoundClock<'a, T> {
    /// A clock that starts now.
    pub fn start(timer: &'a T) -> io::Result<RoundClock<'a, T>>
        ensures { IfOk result (λ clock. clock.latest ≡ 0) }
    {
        Ok(RoundClock {
            timer,
            start: Instant::now(timer)?,
            latest: 0,
            due: 0,
        })
    }

    /// The microseconds since its start. Where the machine's clock goes back or can't be read, it stands.
    fn now(&self) -> u64
        ensures { self.now.latest ≤ result }
    {
        match self.start.elapsed(self.timer) {
            Ok(elapsed) => {
                let micros = u64::try_from(elapsed.as_micros()).unwrap_or(self.latest);
                self.latest.max(micros)
            }
            Err(_) => self.latest,
        }
    }

    /// Waits until the next round is due.
    fn wait(&self) {
        let left = micros_until(self.due, self.now());
        if left > 0 {
            self.timer.sleep(Duration::from_micros(left));
        }
    }
}

/// How many microseconds a moment lies ahead.
fn micros_until(moment: u64, now: u64) -> u64
    ensures { result ≡ moment - now }
{
    moment.saturating_sub(now)
}

impl<'a, T: Timer> Clock for RoundClock<'a, T> {
    ghost latest = { λ clock. clock.latest };

    fn read(&mut self) -> u64 {
        self.wait();
        self.latest = self.now();
        self.due = self.latest.saturating_add(ROUND_MICROS);
        self.latest
    }
}
