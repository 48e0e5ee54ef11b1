//! How far a run has come.

ghost use Rattle.std.specs.Prelude.{◌≡◌, ◌-◌, length};
ghost use Rattle.station_drive.specs.Rounds.{drive_after, drives_after, passed, run_after};

use crate::waiting_lines::WaitingLines;
use control_table::{PointId, Side};
use replay_lines::MICROS;
use simulator_event::Station;
use std::marker::Model;

/// A point was driven to one side at the ends of rounds, one after another up to the last.
#[derive(Clone, Copy, Debug)]
pub(crate) struct Drive {
    pub(crate) side: Side,
    /// The clock at the first of these rounds, in microseconds.
    pub(crate) since: u64,
}

/// How far a run has come.
pub struct Course<'a> {
    /// The clock when it began, in microseconds.
    pub(crate) first: u64,
    /// The clock at the last round.
    pub(crate) reading: u64,
    /// The lines of the script that weren't applied.
    pub(crate) left: WaitingLines<'a>,
    /// Of each point, how it was driven at the end of the last round.
    pub(crate) drives: Vec<Option<Drive>>,
}

// Written by hand, so that it is proved and compiled here alone.
impl Drop for Course<'_> {
    fn drop(self) {
        let Self {
            first: _,
            reading: _,
            left: _,
            drives: _,
        } = self;
    }
}

impl<'a> Model for Course<'a> {
    ghost use Rattle.station_drive.specs.Inside.{waiting};
    ghost use Rattle.station_drive.specs.Rounds.{RunSoFar};

    ghost Value = { RunSoFar };

    ghost view = { λ c. record { first = c.first; reading = c.reading; left = waiting c.left.applied c.left.lines.now; drives = c.drives.items } };
}

impl Course<'_> {
    /// How many whole milliseconds a reading of the clock lies after the first.
    pub fn passed(&self, reading: u64) -> u64
        ensures { result ≡ passed self.now reading }
    {
        reading.saturating_sub(self.first) / MICROS
    }

    /// How many microseconds a reading of the clock lies after that of the last round.
    pub(crate) fn elapsed(&self, reading: u64) -> u64
        ensures { result ≡ reading - self.now.reading }
    {
        reading.saturating_sub(self.reading)
    }

    /// The run has come further, by a round at a reading of the clock that left a station so.
    pub(crate) fn go_on<S: Station>(&mut self, station: &S, reading: u64)
        requires { length self.old.drives ≡ length (S.site station.now).points }
        ensures { self.new ≡ run_after S.does (S.state station.now) self.old reading }
    {
        self.left = self.left.after(self.passed(reading));
        self.reading = reading;
        see_drives(station, &mut self.drives, reading);
    }
}

/// At the end of a round it is seen which points are driven.
fn see_drives<S: Station>(station: &S, drives: &mut [Option<Drive>], reading: u64)
    requires { length drives.old ≡ length (S.site station.now).points }
    ensures { drives.new ≡ drives_after reading (S.does.driven (S.state station.now)) 0 drives.old }
{
    for place in 0..drives.len() {
        drives[place] = drive_after(reading, station.driven(PointId(place)), drives[place]);
    }
}

/// The drive of a point at the end of a round, by that at the end of the round before.
fn drive_after(reading: u64, driven: Option<Side>, before: Option<Drive>) -> Option<Drive>
    ensures { result ≡ drive_after reading driven before }
{
    match (driven, before) {
        (Some(side), Some(before)) if side == before.side => Some(before),
        (Some(side), _) => Some(Drive {
            side,
            since: reading,
        }),
        (None, _) => None,
    }
}
