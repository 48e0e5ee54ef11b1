//! The other events of a round: time, the script, what is asked for, points that reach their end positions, and ticks.

ghost use Rattle.std.specs.Prelude.{◌≡◌, [], ◌∷◌, length, map, OnErr, OnOk, ℕ};
ghost use Rattle.replay_lines.specs.Names.{node_names};
ghost use Rattle.station_drive.specs.Doings.{Applying};
ghost use Rattle.station_drive.specs.Engines.{EnginePerforms, EngineStops};
ghost use Rattle.station_drive.specs.Inside.{waiting};
ghost use Rattle.station_drive.specs.Rounds.{due, end_position, is_jammed, reach, reaches, ticks, time_passes, unless_jammed};

use crate::course::Drive;
use crate::datagrams::Datagrams;
use crate::engine::Engine;
use crate::fault::DriveFault;
use crate::waiting_lines::{WaitingLines, waits};
use control_table::{PointId, Position, Side};
use simulator_event::{ClockSteps, Event, NodeId, Station};
use std::io::Write;

// After how many microseconds of drive a point has reached its end position.
const WAY: u64 = 500_000;

impl<S: Station, N: Datagrams, W: Write> Engine<S, N, W> {
    /// Time goes on, in microseconds, at equal rates.
    pub(crate) fn pass(&mut self, elapsed: u64) -> Result<(), DriveFault>
        ensures done { OnOk result (EnginePerforms S.Station N.Datagrams (Applying (time_passes (S.site self.old.station) elapsed) ∷ []) self.old self.new) }
        ensures stopped { OnErr result (EngineStops S.Station N.Datagrams (Applying (time_passes (S.site self.old.station) elapsed) ∷ []) self.old self.new) }
    {
        let nodes = self.nodes();
        let clocks = ClockSteps::of(vec![in self.alloc; elapsed; nodes]?);
        self.perform(&Event::Time { elapsed, clocks })
    }

    /// Applies the lines of a script that are due: those that wait and whose milliseconds have passed, in their order.
    pub(crate) fn apply_due(
        &mut self,
        script: &WaitingLines<'_>,
        passed: u64,
    ) -> Result<(), DriveFault>
        ensures done { OnOk result (EnginePerforms S.Station N.Datagrams (map Applying (due passed (waiting script.now.applied script.now.lines.now))) self.old self.new) }
        ensures stopped { OnErr result (EngineStops S.Station N.Datagrams (map Applying (due passed (waiting script.now.applied script.now.lines.now))) self.old self.new) }
    {
        for place in 0..script.lines.len() {
            let (time, event) = &script.lines[place];
            if passed < *time {
                if script.in_order {
                    return Ok(());
                }
            } else if waits(script.applied, *time) {
                self.perform(event)?;
            }
        }
        Ok(())
    }

    /// Applies what is asked for, in order.
    pub(crate) fn apply_asked(&mut self, asked: &[Event]) -> Result<(), DriveFault>
        ensures done { OnOk result (EnginePerforms S.Station N.Datagrams (map Applying asked.now) self.old self.new) }
        ensures stopped { OnErr result (EngineStops S.Station N.Datagrams (map Applying asked.now) self.old self.new) }
    {
        for place in 0..asked.len() {
            self.perform(&asked[place])?;
        }
        Ok(())
    }

    /// The points that were driven for their whole way reach their end positions, but those that are jammed.
    pub(crate) fn reach_all(
        &mut self,
        drives: &[Option<Drive>],
        jammed: &[bool],
        reading: u64,
    ) -> Result<(), DriveFault>
        ensures done { OnOk result (EnginePerforms S.Station N.Datagrams (map Applying (reaches jammed.now reading 0 drives.now)) self.old self.new) }
        ensures stopped { OnErr result (EngineStops S.Station N.Datagrams (map Applying (reaches jammed.now reading 0 drives.now)) self.old self.new) }
    {
        for (place, drive) in drives.iter().enumerate() {
            self.reach(
                PointId(place),
                unless_jammed(jammed, place, *drive),
                reading,
            )?;
        }
        Ok(())
    }

    /// A point reaches its end position, if it was driven for its whole way.
    fn reach(
        &mut self,
        point: PointId,
        drive: Option<Drive>,
        reading: u64,
    ) -> Result<(), DriveFault>
        ensures done { OnOk result (EnginePerforms S.Station N.Datagrams (map Applying (reach reading point.0 drive)) self.old self.new) }
        ensures stopped { OnErr result (EngineStops S.Station N.Datagrams (map Applying (reach reading point.0 drive)) self.old self.new) }
    {
        match drive {
            Some(drive) if reading.saturating_sub(drive.since) >= WAY => {
                let position = end_position(drive.side);
                self.perform(&Event::Reach { point, position })
            }
            _ => Ok(()),
        }
    }

    /// Each node ticks, in order.
    pub(crate) fn tick_all(&mut self) -> Result<(), DriveFault>
        ensures done { OnOk result (EnginePerforms S.Station N.Datagrams (map Applying (ticks (length (node_names (S.site self.old.station))))) self.old self.new) }
        ensures stopped { OnErr result (EngineStops S.Station N.Datagrams (map Applying (ticks (length (node_names (S.site self.old.station))))) self.old self.new) }
    {
        for node in 0..self.nodes() {
            self.perform(&Event::Tick(NodeId(node)))?;
        }
        Ok(())
    }
}

/// The drive of a point; none where it is jammed.
fn unless_jammed(jammed: &[bool], place: usize, drive: Option<Drive>) -> Option<Drive>
    ensures { result ≡ unless_jammed jammed.now place drive }
{
    if is_jammed(jammed, place) {
        None
    } else {
        drive
    }
}

fn is_jammed(jammed: &[bool], place: usize) -> bool
    ensures { result ≡ is_jammed jammed.now place }
{
    match jammed.get(place) {
        Some(is_jammed) => *is_jammed,
        None => false,
    }
}

/// The end position of a point at a side.
fn end_position(side: Side) -> Position
    ensures { result ≡ end_position side }
{
    match side {
        Side::Right => Position::Right,
        Side::Left => Position::Left,
    }
}
