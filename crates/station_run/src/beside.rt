//! A panel is played beside something else in the same process, as the page on which its station is drawn: that is attended at each
//! reading of the panel's clock.

ghost use Rattle.std.specs.Prelude.{◌≡◌, [], IsErr, OnOk, true};
ghost use Rattle.station_panel.specs.Opened.{page_of};
ghost use Rattle.station_run.specs.Panels.{IsAttendedSomehow, IsPanel};
ghost use Rattle.station_run.specs.Runs.{CanRun};

use crate::machine::{PanelMachine, open_panel};
use crate::panel_machine::Attended;
use crate::prepared::{Prepared, StationRun, prepare};
use run_files::RunFiles;
use station_panel::station_drive::{Clock, RoundClock, Sockets};
use station_panel::{Listens, PanelOptions};
use station_record::Failure;
use std::io;
use std::io::Write;
use std::random::RandomSource;
use std::time::Clock as Timer;

/// What stands beside a panel in the same process.
pub trait Beside {
    ghost use Rattle.std.specs.Prelude.{◌≡◌, Bool};

    /// Whether a panel beside it is to begin, where none is, or to end.
    ghost turns: { Self → Bool };

    /// Attends it at a reading of a clock, in microseconds. It doesn't wait.
    fn attend(&mut self, reading: u64);

    /// Whether a panel beside it is to begin, where none is, or to end.
    fn is_turning(&self) -> bool
        ensures { result ≡ turns self.now };
}

/// Attends something alone, in each round of a clock, until a panel is to begin beside it.
pub fn attend_alone<R: Timer, B: Beside>(rt: &R, beside: &mut B) -> io::Result<()>
    ensures { OnOk result (B.turns beside.new ≡ true) }
{
    let mut clock = RoundClock::start(rt)?;
    for _ in 0..u64::MAX {
        beside.attend(clock.read());
        if beside.is_turning() {
            return Ok(());
        }
    }
    // Nothing stands so long.
    Err(io::Error::from(io::ErrorKind::TimedOut))
}

/// The clock of a panel, at each reading of which what stands beside the panel is attended, and which that may stop.
#[derive(Drop)]
struct SharedClock<C, B> {
    clock: C,
    beside: B,
}

impl<C: Clock, B: Beside> Clock for SharedClock<C, B> {
    ghost readings = { λ shared. C.readings shared.clock };

    ghost latest = { λ shared. C.latest shared.clock };

    fn read(&mut self) -> u64 {
        let reading = self.clock.read();
        self.beside.attend(reading);
        reading
    }

    fn is_stopped(&self) -> bool {
        self.clock.is_stopped() || self.beside.is_turning()
    }
}

/// How a panel ended, and what stood beside it, which is handed back.
#[derive(Drop)]
pub struct PlayedBeside<B> {
    pub ended: Result<(), Failure>,
    pub beside: B,
}

/// Attends a panel of a new station of a layout as `panel` does, with a listener for its browsers, beside something that is attended
/// at each reading of the panel's clock and may end it.
pub fn panel_beside<'a, L: Listens, B: Beside + Drop, O: Write>(
    rt: &'a HostRuntime,
    asked: &PanelOptions<'_>,
    listener: &mut L,
    beside: B,
    out: &mut O,
) -> PlayedBeside<B>
    ensures done { OnOk result.ended (IsPanel (page_of asked.now.page) asked.now.limits) }
    ensures faulty { (CanRun asked.now.page.layout.now [] → ⊥) → IsErr result.ended × (out.new ≡ out.old) }
{
    match prepare(rt.alloc(), asked.page.layout, "") {
        Ok(prepared) => attend_prepared(rt, prepared, asked, listener, beside, out),
        Err(fault) => PlayedBeside {
            ended: Err(fault),
            beside,
        },
    }
}

/// Attends a panel of a station that is prepared.
fn attend_prepared<'a, L: Listens, B: Beside + Drop, O: Write>(
    rt: &'a HostRuntime,
    prepared: Prepared,
    asked: &PanelOptions<'_>,
    listener: &mut L,
    beside: B,
    out: &mut O,
) -> PlayedBeside<B>
    ensures { OnOk result.ended (IsAttendedSomehow (page_of asked.now.page) asked.now.limits prepared.station) }
{
    // The record stands in one file, and no file ends the panel.
    let files = RunFiles {
        record_size: None,
        stop_file: None,
    };
    match open_panel(rt, prepared.nodes(), asked.page.record, files) {
        Ok(
            PanelMachine {
                sockets,
                recorder,
                clock,
            },
        ) => {
            let station = prepared.over(rt.alloc(), sockets, recorder);
            let clock = SharedClock { clock, beside };
            attend_shared(rt, station, clock, asked, listener, out)
        }
        Err(failure) => {
            drop(prepared);
            PlayedBeside {
                ended: Err(failure),
                beside,
            }
        }
    }
}

/// Attends a panel of a station over sockets, by a clock that is shared with what stands beside it.
fn attend_shared<
    R: RandomSource,
    C: Clock + Drop,
    B: Beside + Drop,
    W: Write + Drop,
    L: Listens,
    O: Write,
>(
    rt: &R,
    station: StationRun<Sockets, W>,
    clock: SharedClock<C, B>,
    asked: &PanelOptions<'_>,
    listener: &mut L,
    out: &mut O,
) -> PlayedBeside<B>
    ensures { OnOk result.ended (IsAttendedSomehow (page_of asked.now.page) asked.now.limits station.engine.station) }
{
    let mut clock = clock;
    let Attended { ended, recorder } = station.attend(rt, &mut clock, listener, asked, out);
    drop(recorder);
    let SharedClock { clock: _, beside } = clock;
    PlayedBeside { ended, beside }
}
