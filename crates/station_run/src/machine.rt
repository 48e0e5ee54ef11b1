//! What `station run` does.

ghost use Rattle.std.specs.IoError.{error_kind};
ghost use Rattle.std.specs.Prelude.{◌≡◌, ◌≤◌, ℕ, IfErr, IfOk};
ghost use Rattle.station_record.specs.replay.World.{played};
ghost use Rattle.station_record.specs.replay.station_check.Failures.{Explained};
ghost use Rattle.station_run.specs.Inside.{IsOfMachine, IsOfRun, IsOfSystem, of_opening};
ghost use Rattle.station_run.specs.Runs.{CanRun, Explains, IsWhole, RunsSomehow};

use crate::panel_record::PanelRecord;
use crate::prepared::{StationRun, prepare};
use crate::stoppable::Stoppable;
use crate::watched::Watched;
use run_files::{RecordFile, RunFiles, record_file};
use station_panel::station_drive::{Clock, OpenFault, Sockets};
use station_record::{Failure, tell};
use std::fs::Files;
use std::io;
use std::io::{BufWriter, Eprint, Write};
use std::net::Net;
use std::time::Clock as Timer;

/// What `station run` is asked: the texts of the layout and the script, where the record goes and in which parts, for how many
/// milliseconds, and which file ends it before.
#[derive(Clone, Copy, Debug)]
pub struct RunOptions<'a> {
    pub layout: &'a str,
    pub script: &'a str,
    /// The path of the record.
    pub record: &'a str,
    pub for_ms: u64,
    pub files: RunFiles<'a>,
}

/// What a run uses of the machine.
#[derive(Drop)]
pub(crate) struct Machine<'a, R: Files + AllocGlobal> {
    pub(crate) sockets: Sockets,
    pub(crate) recorder: BufWriter<RecordFile<'a, R>>,
    pub(crate) clock: Stoppable<'a, R>,
}

/// Drives a new station of a layout over sockets for some time, by a script, records its events, and writes its last picture
/// to `out`. A file that is there ends it before its time; it is then the same as one that was to run for so long. The texts are
/// judged before the sockets are opened, and the sockets are opened before the record is made. The status is 0, or 1 where anything failed; `err` is then told why, unless the picture couldn't be written. Where it is
/// wanted, the seconds that have passed are shown on standard error.
pub fn run<R: Files + Net + Timer + Eprint + AllocGlobal, O: Write, E: Write>(
    rt: &R,
    asked: &RunOptions<'_>,
    out: &mut O,
    err: &mut E,
    progress: bool,
) -> u8
    ensures status { result ≤ 1 }
    ensures done { result ≡ 0 → (passed : ℕ) × (passed ≤ asked.now.for_ms) × IsWhole asked.now.layout.now asked.now.script.now passed (O.contents out.old) (O.contents out.new) }
    ensures faulty { (CanRun asked.now.layout.now asked.now.script.now → ⊥) → (result ≡ 1) × (out.new ≡ out.old) }
    ensures silent { result ≡ 0 → err.new ≡ err.old }
    // Only a beginning of the line was told where a write to `err` failed.
    ensures explains { result ≡ 1 → Explained (Explains asked.now.layout.now asked.now.script.now) result out.old out.new (E.contents err.old) (E.contents err.new) }
{
    let prepared = match prepare(rt.alloc(), asked.layout, asked.script) {
        Ok(prepared) => prepared,
        Err(failure) => return tell(&failure, err),
    };
    match open(rt, prepared.nodes(), asked.record, asked.files) {
        Ok(
            Machine {
                sockets,
                recorder,
                clock,
            },
        ) => {
            let station = prepared.over(rt.alloc(), sockets, recorder);
            let clock = Watched::new(clock, rt, progress);
            run_watched(station, clock, asked.for_ms, out, err)
        }
        Err(failure) => {
            drop(prepared);
            tell(&failure, err)
        }
    }
}

/// Why a run doesn't begin whose sockets can't be opened.
fn of_opening(fault: OpenFault) -> Failure
    ensures { result ≡ of_opening fault }
{
    match fault {
        OpenFault::OutOfMemory => Failure::OutOfMemory,
        OpenFault::NoSocket => Failure::CannotRun,
    }
}

/// Why a run doesn't begin to which the system refuses something.
fn of_system(error: io::Error) -> Failure
    ensures { IsOfSystem (error_kind error) result }
{
    if error.kind() == io::ErrorKind::OutOfMemory {
        Failure::OutOfMemory
    } else {
        Failure::CannotRun
    }
}

/// Opens the sockets of so many nodes, then the record, and starts a clock.
pub(crate) fn open<'a, R: Files + Net + Timer + AllocGlobal>(
    rt: &'a R,
    nodes: usize,
    record: &str,
    files: RunFiles<'a>,
) -> Result<Machine<'a, R>, Failure>
    ensures { IfErr result IsOfMachine }
{
    let sockets = Sockets::open(rt, rt.alloc(), nodes).map_err(of_opening)?;
    let (recorder, clock) = begin(rt, record, files).map_err(of_system)?;
    Ok(Machine {
        sockets,
        recorder,
        clock,
    })
}

/// What a panel uses of the machine.
#[derive(Drop)]
pub(crate) struct PanelMachine<'a> {
    pub(crate) sockets: Sockets,
    pub(crate) recorder: PanelRecord<'a>,
    pub(crate) clock: Stoppable<'a, HostRuntime>,
}

/// Opens the sockets of a panel, then its record, and starts its clock.
pub(crate) fn open_panel<'a>(
    rt: &'a HostRuntime,
    nodes: usize,
    record: &str,
    files: RunFiles<'a>,
) -> Result<PanelMachine<'a>, Failure>
    ensures { IfErr result IsOfMachine }
{
    let Machine {
        sockets,
        recorder,
        clock,
    } = open(rt, nodes, record, files)?;
    Ok(PanelMachine {
        sockets,
        recorder: PanelRecord::of(recorder),
        clock,
    })
}

/// A record, and a clock that a file stops.
type Begun<'a, R> = (BufWriter<RecordFile<'a, R>>, Stoppable<'a, R>);

/// Makes the record, and starts a clock.
fn begin<'a, R: Files + Timer + AllocGlobal>(
    rt: &'a R,
    record: &str,
    files: RunFiles<'a>,
) -> io::Result<Begun<'a, R>> {
    let file = record_file(rt, record, files.record_size)?;
    let recorder = BufWriter::new(rt.alloc(), file)?;
    let clock = Stoppable::start(rt, files.stop_file)?;
    Ok((recorder, clock))
}

/// Drives a station over sockets by a clock that is watched.
fn run_watched<W: Write + Drop, C: Clock + Drop, P: Eprint, O: Write, E: Write>(
    station: StationRun<Sockets, W>,
    clock: Watched<'_, C, P>,
    for_ms: u64,
    out: &mut O,
    err: &mut E,
) -> u8
    ensures status { result ≤ 1 }
    ensures done { result ≡ 0 → (passed : ℕ) × (passed ≤ for_ms) × RunsSomehow (played station.engine.station) station.script passed (O.contents out.old) (O.contents out.new) }
    ensures silent { result ≡ 0 → err.new ≡ err.old }
    ensures told { result ≡ 1 → Explained IsOfRun result out.old out.new (E.contents err.old) (E.contents err.new) }
{
    let (mut station, mut clock) = (station, clock);
    let status = station.run(&mut clock, for_ms, out, err);
    clock.end();
    drop(station);
    status
}
