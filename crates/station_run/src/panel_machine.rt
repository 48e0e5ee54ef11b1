//! What `station panel` does.

ghost use Rattle.std.specs.Prelude.{◌≡◌, ◌≤◌, [], IfErr, IsOk, OnOk};
ghost use Rattle.station_panel.specs.Opened.{page_of};
ghost use Rattle.station_record.specs.replay.station_check.Failures.{Failed};
ghost use Rattle.station_run.specs.Inside.{IsOfRun};
ghost use Rattle.station_run.specs.Panels.{IsAttended, IsAttendedSomehow, IsPanel};
ghost use Rattle.station_run.specs.Runs.{CanRun, Explains};

use crate::machine::{PanelMachine, open_panel};
use crate::pictured_world::PicturedWorld;
use crate::prepared::{StationRun, prepare};
use crate::stoppable::Stoppable;
use run_files::RunFiles;
use station_panel::station_drive::{Clock, Datagrams, Engine, Sockets};
use station_panel::{Ending, Listens, Loopback, PanelFault, PanelOptions, serve};
use station_record::{Failure, tell};
use std::fs::Files;
use std::io::Write;
use std::net::Net;
use std::random::RandomSource;
use std::time::Clock as Timer;

/// Attends a panel of a new station of a layout: its nodes run over sockets, as `run` has them, each event is recorded, and a
/// browser of this machine gets a page with which the station is operated. Its files are as those of a run: it ends with its time, or
/// where a file is there that ends it. The address of the page is written to `out`, and at the end a word of why, if it is neither of these. The status is 0, or 1 where anything failed; `err` is then
/// told why.
pub fn panel<'a, O: Write, E: Write>(
    rt: &'a HostRuntime,
    asked: &PanelOptions<'_>,
    files: RunFiles<'a>,
    out: &mut O,
    err: &mut E,
) -> u8
    ensures status { result ≤ 1 }
    ensures done { result ≡ 0 → IsPanel (page_of asked.now.page) asked.now.limits }
    ensures faulty { (CanRun asked.now.page.layout.now [] → ⊥) → (result ≡ 1) × (out.new ≡ out.old) }
    ensures silent { result ≡ 0 → err.new ≡ err.old }
    // Only a beginning of the line was told where a write to `err` failed.
    ensures explains { result ≡ 1 → Failed (Explains asked.now.page.layout.now []) result (E.contents err.old) (E.contents err.new) }
{
    let prepared = match prepare(rt.alloc(), asked.page.layout, "") {
        Ok(prepared) => prepared,
        Err(failure) => return tell(&failure, err),
    };
    match open_panel(rt, prepared.nodes(), asked.page.record, files) {
        Ok(
            PanelMachine {
                sockets,
                recorder,
                clock,
            },
        ) => {
            let station = prepared.over(rt.alloc(), sockets, recorder);
            attend_browsers(rt, station, clock, asked, out, err)
        }
        Err(failure) => {
            drop(prepared);
            tell(&failure, err)
        }
    }
}

/// Attends a panel of a station over sockets, and listens for browsers of this machine.
fn attend_browsers<'a, R: Files + Net + Timer + RandomSource, W: Write + Drop, O: Write, E: Write>(
    rt: &R,
    station: StationRun<Sockets, W>,
    clock: Stoppable<'a, R>,
    asked: &PanelOptions<'_>,
    out: &mut O,
    err: &mut E,
) -> u8
    ensures status { result ≤ 1 }
    ensures done { result ≡ 0 → IsAttendedSomehow (page_of asked.now.page) asked.now.limits station.engine.station }
    ensures silent { result ≡ 0 → err.new ≡ err.old }
    ensures told { result ≡ 1 → Failed IsOfRun result (E.contents err.old) (E.contents err.new) }
{
    let mut clock = clock;
    match Loopback::open(rt, asked.page.port) {
        Ok(mut listener) => {
            let Attended { ended, recorder } = station.attend(
                rt,
                &mut clock,
                &mut listener,
                asked,
                out,
            );
            drop(listener);
            drop(recorder);
            match ended {
                Ok(()) => 0,
                Err(failure) => tell(&failure, err),
            }
        }
        Err(_) => {
            drop(station);
            tell(&Failure::CannotRun, err)
        }
    }
}

/// How a panel was attended, and its record, which is handed back.
#[derive(Drop)]
pub struct Attended<W> {
    pub ended: Result<(), Failure>,
    pub recorder: W,
}

impl<N: Datagrams + Drop, W: Write> StationRun<N, W> {
    /// Attends a panel of the station, by a clock, with a listener for browsers. It writes what `panel` writes.
    pub fn attend<R: RandomSource, C: Clock, L: Listens, O: Write>(
        self,
        rt: &R,
        clock: &mut C,
        listener: &mut L,
        asked: &PanelOptions<'_>,
        out: &mut O,
    ) -> Attended<W>
        ensures done { OnOk result.ended (IsAttended N.Datagrams (page_of asked.now.page) asked.now.limits self.engine (C.readings clock.old) (C.readings clock.new) (W.contents result.recorder)) }
        ensures told { IfErr result.ended IsOfRun }
    {
        let StationRun { engine, script: _ } = self;
        let (alloc, station, net, recorder) = engine.into_parts();
        let engine = Engine {
            alloc,
            station: PicturedWorld(station),
            net,
            recorder,
        };
        let served = serve(rt, engine, clock, listener, asked, out);
        Attended {
            ended: tell_ending(served.ended, out),
            recorder: served.recorder,
        }
    }
}

/// Tells why a panel ended, unless it is that its time is over, or that it was stopped.
fn tell_ending<O: Write>(ended: Result<Ending, PanelFault>, out: &mut O) -> Result<(), Failure>
    ensures well { IsOk result → IsOk ended }
    ensures why { IfErr result IsOfRun }
{
    let told = match ended {
        Ok(Ending::TimeIsOver | Ending::Stopped) => Ok(()),
        Ok(Ending::MemoryIsFull) => {
            out.writeln("stopped: the datagrams take all memory that they may")
        }
        Err(PanelFault::OutOfMemory) => return Err(Failure::OutOfMemory),
        Err(PanelFault::CannotRun) => return Err(Failure::CannotRun),
    };
    match told {
        Ok(()) => Ok(()),
        Err(_) => Err(Failure::NotWritten),
    }
}
