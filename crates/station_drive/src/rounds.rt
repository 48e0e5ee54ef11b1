//! The rounds by which a station is driven.

ghost use Rattle.std.specs.Prelude.{◌≡◌, ◌≤◌, IfOk, OnErr, OnOk, length};
ghost use Rattle.station_drive.specs.Drives.{beginning};
ghost use Rattle.station_drive.specs.Engines.{EngineBreaksRound, EngineCutOff, EngineDriven, EngineMakesRound};
ghost use Rattle.station_drive.specs.Rounds.{run_after};

use crate::clock::Clock;
use crate::course::Course;
use crate::datagrams::Datagrams;
use crate::engine::Engine;
use crate::fault::DriveFault;
use crate::waiting_lines::WaitingLines;
use simulator_event::{Event, Station};
use std::alloc::AllocError;
use std::io::Write;

impl<S: Station, N, W: Write> Engine<S, N, W> {
    /// A run begins: no line of the script was applied, and no point was seen driven.
    pub fn begin<'a>(
        &self,
        script: &'a [(u64, Event)],
        first: u64,
    ) -> Result<Course<'a>, AllocError>
        ensures { IfOk result (λ course. course ≡ beginning (S.site self.now.station) script.now first) }
    {
        let points = self.station.table().layout().points().len();
        Ok(Course {
            first,
            reading: first,
            left: WaitingLines::of(script),
            drives: vec![in self.alloc; None; points]?,
        })
    }
}

impl<S: Station, N: Datagrams, W: Write> Engine<S, N, W> {
    /// Drives the station for so many milliseconds by a clock. After a first reading of the clock each further one makes a round,
    /// up to and with the first that is so much later. The script's times are milliseconds since the first reading. A line that
    /// isn't due holds up none after it. Where the clock tells that the run is to end, it ends with a round, and answers for how many
    /// milliseconds it went on: it is then the same as one that was to go on for so long.
    pub fn drive<C: Clock>(
        &mut self,
        clock: &mut C,
        script: &[(u64, Event)],
        for_ms: u64,
    ) -> Result<u64, DriveFault>
        ensures time { IfOk result (λ passed. passed ≤ for_ms) }
        ensures done { IfOk result (λ passed. EngineDriven S.Station N.Datagrams script.now passed (C.readings clock.old) (C.readings clock.new) self.old self.new) }
        // It ends with a fault exactly as it would have ended without, but cut off.
        ensures stopped { OnErr result (EngineCutOff S.Station N.Datagrams script.now for_ms (C.readings clock.old) (C.readings clock.new) self.old self.new) }
    {
        let first = clock.read();
        let mut course = self.begin(script, first)?;
        let mut most = 0;
        for _ in 0..u64::MAX {
            let reading = clock.read();
            self.round(&mut course, reading, &[], &[])?;
            let passed = course.passed(reading);
            if passed >= for_ms {
                return Ok(for_ms);
            }
            if passed > most && clock.is_stopped() {
                return Ok(passed);
            }
            most = later(most, passed);
        }
        // No record is so long.
        Err(DriveFault::WriteFailed)
    }

    /// A round at a clock reading, in which these events are asked for beside the script. A point that is jammed doesn't reach an
    /// end position, however long it is driven. The record is flushed at its end.
    pub fn round(
        &mut self,
        course: &mut Course<'_>,
        reading: u64,
        asked: &[Event],
        jammed: &[bool],
    ) -> Result<(), DriveFault>
        requires { length course.old.drives ≡ length (S.site self.old.station).points }
        ensures done { OnOk result (EngineMakesRound S.Station N.Datagrams course.old reading asked.now jammed.now self.old self.new) }
        ensures course { OnOk result (course.new ≡ run_after S.does (S.state self.new.station) course.old reading) }
        ensures stopped { OnErr result (EngineBreaksRound S.Station N.Datagrams course.old reading asked.now jammed.now self.old self.new) }
        ensures unmoved { OnErr result (course.new ≡ course.old) }
    {
        self.pass(course.elapsed(reading))?;
        self.hear_all()?;
        self.apply_due(&course.left, course.passed(reading))?;
        self.apply_asked(asked)?;
        self.reach_all(&course.drives, jammed, reading)?;
        self.tick_all()?;
        self.flush()?;
        course.go_on(&self.station, reading);
        Ok(())
    }
}

/// The later of two moments.
fn later(one: u64, other: u64) -> u64
    ensures one { one ≤ result }
    ensures other { other ≤ result }
{
    if one < other { other } else { one }
}
