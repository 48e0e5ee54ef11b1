//! A station and its script, ready to run.

ghost use Rattle.std.specs.Prelude.{◌≡◌, ◌≤◌, ◌++◌, List, ℕ, codes, IfErr, IfOk, IsErr, OnErr, OnOk, length};
ghost use Rattle.std.specs.Io.KnownBytes.{Appends};
ghost use Rattle.station_record.specs.replay.replay_lines.Names.{node_names};
ghost use Rattle.station_record.specs.replay.simulator.World.{IsPicture};
ghost use Rattle.station_record.specs.replay.station_check.Failures.{Explained, IsLate, Leaves};
ghost use Rattle.station_run.specs.Inside.{of_drive};
ghost use Rattle.station_run.specs.Runs.{CanRun, ExplainsTexts, IsPrepared};
ghost use Rattle.station_run.specs.StationRuns.{HasEnded, HasRun};
ghost use Rattle.station_record.specs.replay.World.{played};

use station_panel::station_drive::{Clock, Datagrams, DriveFault, Engine};
use station_record::replay::{first_world, played_worlds_are_safe, read_script};
use station_record::{Event, Failure, World, table_of, tell};
use std::alloc::Global;
use std::io::Write;
use std::marker::Model;

/// A station and its script, ready to run.
#[derive(Drop)]
pub struct Prepared {
    pub(crate) station: World,
    pub(crate) script: Vec<(u64, Event)>,
}

/// A new station of a layout, with a script for it. Both texts are judged, the layout first.
pub fn prepare(alloc: Global, layout: &str, script: &str) -> Result<Prepared, Failure>
    ensures prepared { IfOk result (λ all. IsPrepared layout.now script.now (played all.station) all.script.items) }
    ensures faulty { (CanRun layout.now script.now → ⊥) → IsErr result }
    ensures explains { IfErr result (ExplainsTexts layout.now script.now) }
{
    played_worlds_are_safe();
    let table = table_of(alloc, layout)?;
    let script = read_script(alloc, &table, script)?;
    let station = first_world(alloc, table)?;
    Ok(Prepared { station, script })
}

impl Prepared {
    /// How many nodes the station has.
    pub fn nodes(&self) -> usize
        ensures { result ≡ length (node_names self.now.station.sited.site) }
    {
        self.station.table().layout().nodes()
    }

    /// The station over a network, with a record of its events.
    pub fn over<N, W: Write>(self, alloc: Global, net: N, recorder: W) -> StationRun<N, W>
        ensures { result ≡ record { engine = record { station = self.station; net = net; text = W.contents recorder }; script = self.script.items } }
    {
        let Prepared { station, script } = self;
        let engine = Engine {
            alloc,
            station,
            net,
            recorder,
        };
        StationRun { engine, script }
    }
}

/// A station with its script, over a network and with a record of its events.
#[derive(Drop)]
pub struct StationRun<N, W: Write> {
    pub(crate) engine: Engine<World, N, W>,
    pub(crate) script: Vec<(u64, Event)>,
}

impl<N, W: Write> Model for StationRun<N, W> {
    ghost use Rattle.std.specs.Coded.{codes};
    ghost use Rattle.control_table.specs.bit_row.Places.{places_code};
    ghost use Rattle.station_run.specs.StationRuns.{StationRunView};

    ghost Value = { StationRunView N };

    ghost coded = { Prim.hlevel (codes, places_code, N.code) };

    ghost view = { λ r. record { engine = r.engine; script = r.script.items } };
}

impl<N, W: Write> StationRun<N, W> {
    /// Its network and its recorder, which are handed back.
    pub fn into_outside(self) -> (N, W)
        ensures net { result.0 ≡ self.engine.net }
        ensures text { W.contents result.1 ≡ self.engine.text }
    {
        let StationRun { engine, script: _ } = self;
        engine.into_outside()
    }
}

impl<N: Datagrams, W: Write> StationRun<N, W> {
    /// Drives the station for so many milliseconds of the clock, or until the clock tells that it is to end, records its events, and
    /// writes its last picture to `out`. The status is 0, or 1 where anything failed; `err` is then told why, unless the picture couldn't be written.
    pub fn run<C: Clock, O: Write, E: Write>(
        &mut self,
        clock: &mut C,
        for_ms: u64,
        out: &mut O,
        err: &mut E,
    ) -> u8
        ensures status { result ≤ 1 }
        ensures done { result ≡ 0 → HasRun N.Datagrams for_ms (C.readings clock.old) (C.readings clock.new) self.old self.new (O.contents out.old) (O.contents out.new) }
        ensures silent { result ≡ 0 → err.new ≡ err.old }
        ensures told { result ≡ 1 → Explained (HasEnded N.Datagrams for_ms (C.readings clock.old) (C.readings clock.new) self.old self.new) result out.old out.new (E.contents err.old) (E.contents err.new) }
    {
        match self.go(clock, for_ms, out) {
            Ok(()) => 0,
            Err(failure) => tell(&failure, err),
        }
    }

    /// Drives the station, and writes its last picture.
    fn go<C: Clock, O: Write>(
        &mut self,
        clock: &mut C,
        for_ms: u64,
        out: &mut O,
    ) -> Result<(), Failure>
        ensures done { OnOk result (HasRun N.Datagrams for_ms (C.readings clock.old) (C.readings clock.new) self.old self.new (O.contents out.old) (O.contents out.new)) }
        ensures failed { IfErr result (λ failure. HasEnded N.Datagrams for_ms (C.readings clock.old) (C.readings clock.new) self.old self.new failure × Leaves failure out.old out.new) }
    {
        match self.engine.drive(clock, &self.script, for_ms) {
            Ok(_) => {}
            Err(fault) => return Err(of_drive(fault)),
        }
        write_picture(&self.engine, out)
    }
}

/// Why a station doesn't run on whose drive ended before its time.
fn of_drive(fault: DriveFault) -> Failure
    ensures { result ≡ of_drive fault }
{
    match fault {
        DriveFault::OutOfMemory => Failure::OutOfMemory,
        DriveFault::WriteFailed => Failure::CannotRun,
    }
}

/// Writes the picture of the station of an engine.
fn write_picture<N, W: Write, O: Write>(
    engine: &Engine<World, N, W>,
    out: &mut O,
) -> Result<(), Failure>
    ensures done { OnOk result ((picture : List ℕ) × IsPicture engine.now.station.sited engine.now.station.run picture × Appends (O.contents out.old) (O.contents out.new) (picture ++ codes "\n")) }
    ensures failed { IfErr result (λ failure. IsLate failure × Leaves failure out.old out.new) }
{
    let picture = engine.station.picture(engine.alloc)?;
    out.writeln(picture.as_str())?;
    out.flush()?;
    Ok(())
}
