//! A clock that shows how far a run has come.

ghost use Rattle.std.specs.Prelude.{◌≡◌};

use station_panel::station_drive::Clock;
use std::io::Eprint;

/// How many microseconds a second has.
const SECOND: u64 = 1_000_000;

/// A clock that shows on standard error how many seconds have passed since its first reading, at each further second.
#[derive(Drop)]
pub(crate) struct Watched<'a, C, P> {
    clock: C,
    shown_on: &'a P,
    /// What it read first.
    first: Option<u64>,
    /// How many seconds were shown last.
    seconds: u64,
    /// Whether anything is shown.
    shows: bool,
}

impl<'a, C: Clock, P: Eprint> Watched<'a, C, P> {
    /// A clock that goes as this one, and shows its seconds where that is wanted.
    pub(crate) fn new(clock: C, shown_on: &'a P, shows: bool) -> Watched<'a, C, P>
        ensures { result.clock ≡ clock }
    {
        Watched {
            clock,
            shown_on,
            first: None,
            seconds: 0,
            shows,
        }
    }

    /// Shows how many seconds have passed at a reading, if it is another number than the one shown last.
    fn show(&mut self, reading: u64)
        ensures { self.new.clock ≡ self.old.clock }
    {
        let Some(first) = self.first else {
            self.first = Some(reading);
            return;
        };
        let seconds = reading.saturating_sub(first) / SECOND;
        if self.shows && seconds != self.seconds {
            self.seconds = seconds;
            // Where this can't be written, nothing is lost.
            let _ = eprint!(self.shown_on; "{seconds} s\r");
        }
    }

    /// Takes away the seconds that were shown. Where a line was written over them since, that one stays.
    pub(crate) fn end(&self) {
        if self.seconds > 0 {
            let _ = eprint!(self.shown_on; "      \r");
        }
    }
}

impl<'a, C: Clock, P: Eprint> Clock for Watched<'a, C, P> {
    ghost readings = { λ watched. C.readings watched.clock };

    ghost latest = { λ watched. C.latest watched.clock };

    fn read(&mut self) -> u64 {
        let reading = self.clock.read();
        self.show(reading);
        reading
    }

    fn is_stopped(&self) -> bool {
        self.clock.is_stopped()
    }
}
