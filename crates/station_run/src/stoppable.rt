//! A clock that a file stops.

use run_files::StopFile;
use station_panel::station_drive::{Clock, RoundClock};
use std::fs::Files;
use std::io;
use std::time::Clock as Timer;

/// A clock of rounds. It tells that the run is to end where a file is there.
#[derive(Drop)]
pub(crate) struct Stoppable<'a, R> {
    clock: RoundClock<'a, R>,
    stop: StopFile<'a, R>,
    latest: u64,
}

impl<'a, R: Files + Timer> Stoppable<'a, R> {
    /// Starts the clock, with the path of the file, if one is to stop it.
    pub(crate) fn start(rt: &'a R, stop_file: Option<&'a str>) -> io::Result<Stoppable<'a, R>> {
        Ok(Stoppable {
            clock: RoundClock::start(rt)?,
            stop: StopFile::new(rt, stop_file),
            latest: 0,
        })
    }
}

impl<'a, R: Files + Timer> Clock for Stoppable<'a, R> {
    ghost latest = { λ stoppable. stoppable.latest };

    fn read(&mut self) -> u64 {
        let reading = self.clock.read();
        if self.latest < reading {
            self.latest = reading;
        }
        self.latest
    }

    fn is_stopped(&self) -> bool {
        self.stop.is_there()
    }
}
