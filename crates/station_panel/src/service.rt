//! A panel of a station, from its desk to its end.

ghost use Rattle.std.specs.Prelude.{◌≡◌, [], IfOk, IsErr, OnErr, length};
ghost use Rattle.panel_desk.specs.node_lines.replay_lines.Names.{node_names};
ghost use Rattle.panel_desk.specs.StandingOrders.{none_standing};
ghost use Rattle.station_drive.specs.Drives.{beginning};
ghost use Rattle.station_panel.specs.DisturbedNetwork.{disturbance, undisturbed};
ghost use Rattle.station_panel.specs.Faults.{no_faults};
ghost use Rattle.station_panel.specs.Opened.{IsOpened, page_of};
ghost use Rattle.station_panel.specs.Served.{IsAttended, IsBroken, IsServed, IsServedShort, seen_engine};

use crate::disturbed::Disturbed;
use crate::ending::{Ending, Limits, PanelFault};
use crate::faults::Faults;
use crate::memory::Memory;
use crate::noting::Noting;
use crate::panel::Panel;
use crate::picture_shown::places;
use panel_connections::{Listens, tell_address};
use panel_desk::run_numbers::Numbers;
use panel_desk::{AuxiliaryCounts, Desk, PageAsked, Pictured, StandingOrders, open_desk};
use station_drive::{Clock, Course, Datagrams, Engine, Station};
use std::alloc::{AllocError, Global};
use std::io::Write;
use std::random::RandomSource;

/// What `station panel` is asked: its page, and up to when it is attended.
#[derive(Clone, Copy)]
pub struct PanelOptions<'a> {
    pub page: PageAsked<'a>,
    pub limits: Limits,
}

/// How a panel ended, and its record, which is handed back.
#[derive(Drop)]
pub struct Served<W> {
    pub ended: Result<Ending, PanelFault>,
    pub recorder: W,
}

/// A station with its network and its desk.
#[derive(Drop)]
struct Room<S, N> {
    station: Noting<S>,
    net: Disturbed<N>,
    desk: Desk,
}

/// Serves a panel of the station of an engine, by a clock, with a listener for browsers. Its desk is made, the address of its page
/// is written to `out`, and it is attended up to its limits: after a first reading of the clock each further one makes a turn.
pub fn serve<
    S: Station + Pictured + Drop,
    N: Datagrams + Drop,
    C: Clock,
    W: Write,
    R: RandomSource,
    L: Listens,
    O: Write,
>(
    rt: &R,
    engine: Engine<S, N, W>,
    clock: &mut C,
    listener: &mut L,
    asked: &PanelOptions<'_>,
    out: &mut O,
) -> Served<W>
    ensures done { IfOk result.ended (IsServed S.Station N.Datagrams S.Pictured (page_of asked.now.page) asked.now.limits engine (C.readings clock.old) (C.readings clock.new) (W.contents result.recorder)) }
    ensures stopped { OnErr result.ended (IsServedShort S.Station N.Datagrams S.Pictured (page_of asked.now.page) asked.now.limits engine (C.readings clock.old) (W.contents result.recorder)) }
{
    let (alloc, station, net, recorder) = engine.into_parts();
    let page = &asked.page;
    let ended = open_room(rt, alloc, station, net, page);
    let Room { station, net, desk } = match ended {
        Ok(room) => room,
        Err(fault) => return not_begun(fault, recorder),
    };
    if let Err(error) = tell_address(page.port, out) {
        return not_begun(PanelFault::from(error), recorder);
    }
    let engine = Engine {
        alloc,
        station,
        net,
        recorder,
    };
    attend_engine(rt, engine, desk, clock, listener, asked.limits)
}

/// A panel didn't begin.
fn not_begun<W>(fault: PanelFault, recorder: W) -> Served<W>
    ensures fault { IsErr result.ended }
    ensures recorder { result.recorder ≡ recorder }
{
    Served {
        ended: Err(fault),
        recorder,
    }
}

/// Attends a panel with a desk up to its limits. After a first reading of the clock each further one makes a turn.
fn attend_engine<
    S: Station + Pictured + Drop,
    N: Datagrams + Drop,
    C: Clock,
    W: Write,
    R: RandomSource,
    L: Listens,
>(
    rt: &R,
    engine: Engine<Noting<S>, Disturbed<N>, W>,
    desk: Desk,
    clock: &mut C,
    listener: &mut L,
    limits: Limits,
) -> Served<W>
    ensures done { IfOk result.ended (IsAttended S.Station N.Datagrams S.Pictured limits (seen_engine engine) desk (C.readings clock.old) (C.readings clock.new) (W.contents result.recorder)) }
    ensures stopped { OnErr result.ended (IsBroken S.Station N.Datagrams S.Pictured limits (seen_engine engine) desk (C.readings clock.old) (W.contents result.recorder)) }
{
    let first = clock.read();
    let Beginning {
        course,
        faults,
        orders,
        numbers,
    } = match begin(&engine, first) {
        Ok(all) => all,
        Err(_) => {
            let (_, recorder) = engine.into_outside();
            return not_begun(PanelFault::OutOfMemory, recorder);
        }
    };
    let commands = Vec::new(engine.alloc);
    let mut panel = Panel {
        engine,
        course,
        desk,
        faults,
        orders,
        counts: AuxiliaryCounts::none(),
        commands,
        memory: Memory::new(),
        numbers,
    };
    let ended = match panel.attend(rt, clock, listener, limits) {
        Ok(ending) => Ok(ending),
        Err(fault) => Err(PanelFault::from(fault)),
    };
    Served {
        ended,
        recorder: panel.into_recorder(),
    }
}

/// How a run of a panel begins.
#[derive(Drop)]
struct Beginning<'a> {
    course: Course<'a>,
    faults: Faults,
    orders: StandingOrders,
    numbers: Numbers,
}

/// How a run of a panel begins at a first reading of the clock: nothing is disturbed, no route is automatic or waits, and nothing was
/// counted.
fn begin<'a, S: Station, N, W: Write>(
    engine: &Engine<S, N, W>,
    first: u64,
) -> Result<Beginning<'a>, AllocError>
    ensures course { IfOk result (λ all. all.course ≡ beginning (S.site engine.now.station) [] first) }
    ensures orders { IfOk result (λ all. all.orders ≡ none_standing (length (S.site engine.now.station).routes)) }
    ensures faults { IfOk result (λ all. all.faults ≡ no_faults (length (node_names (S.site engine.now.station))) (length (S.site engine.now.station).points)) }
{
    let layout = engine.station.table().layout();
    let faults = Faults::none(engine.alloc, layout.nodes(), layout.points().len())?;
    let orders = StandingOrders::none(engine.alloc, layout.routes().len())?;
    let numbers = Numbers::none(engine.alloc)?;
    let course = engine.begin(&[], first)?;
    Ok(Beginning {
        course,
        faults,
        orders,
        numbers,
    })
}

/// Makes the desk of a station, and its network.
fn open_room<R: RandomSource, S: Station + Pictured + Drop, N: Drop>(
    rt: &R,
    alloc: Global,
    station: S,
    net: N,
    page: &PageAsked<'_>,
) -> Result<Room<S, N>, PanelFault>
    ensures station { IfOk result (λ room. room.station.station ≡ station) }
    ensures net { IfOk result (λ room. disturbance room.net ≡ undisturbed (S.site station) net) }
    ensures desk { IfOk result (λ room. IsOpened (S.site station) (S.lines station) (page_of page.now) room.desk) }
{
    let table = station.table().copy(alloc)?;
    let desk = open_desk(rt, alloc, table, places(alloc, &station)?, page)?;
    let net = Disturbed::of(alloc, net, station.table().layout())?;
    Ok(Room {
        station: Noting::of(alloc, station),
        net,
        desk,
    })
}
