//! What `station draw` does: a page on which a station is drawn is served, and where that is asked for, a panel of it beside the page.

use crate::drawn_file::DrawnFile;
use crate::{MEMORY, RECORD, VERSION};
use draw_desk::{
    Connections, Desk, Listens, Loopback, PageDrawn, PanelAsked, open_desk, tell_address,
};
use station_layout::plan_text;
use station_run::{
    Beside, Failure, Limits, PageAsked, PanelOptions, PlayedBeside, attend_alone, panel_beside,
    tell,
};
use std::io;

/// The most bytes of a layout.
const LONGEST: usize = 1_048_576;

/// How many microseconds a millisecond has.
const MILLI: u64 = 1000;

/// A drawing with the connections of its browsers.
#[derive(Drop)]
struct DrawingRoom<'a> {
    rt: &'a HostRuntime,
    listener: Loopback,
    connections: Connections<<Loopback as Listens>::Stream>,
    desk: Desk<DrawnFile<'a>>,
    /// What was read last of the clock by which it is attended, and how many microseconds it has stood: a clock begins again with each
    /// panel.
    reading: u64,
    stood: u64,
}

impl<'a> Beside for DrawingRoom<'a> {
    ghost use Rattle.draw_desk.specs.Opened.{is_turning};

    ghost turns = { λ room. is_turning room.desk.stage };

    fn attend(&mut self, reading: u64) {
        let passed = reading.saturating_sub(self.reading);
        self.stood = self.stood.saturating_add(passed);
        self.reading = reading;
        self.connections.serve(
            self.rt,
            self.rt.alloc(),
            &mut self.listener,
            &mut self.desk,
            self.stood / MILLI,
        );
    }

    fn is_turning(&self) -> bool {
        self.desk.is_turning()
    }
}

/// Serves a page on which the layout in a file is drawn, until the process ends. The status is 1 where it can't be served.
pub(crate) fn draw_file(rt: &HostRuntime, file: &str, port: u16) -> u8 {
    let Ok(listener) = Loopback::open(rt, port) else {
        // Where this can't be written, the status has to do.
        let _ = eprintln!(rt; "cannot open port {port}");
        return 1;
    };
    match open_room(rt, file, port, listener) {
        Ok(room) => stand(rt, room),
        Err(_) => tell(&Failure::CannotRun, &mut rt.stderr()),
    }
}

/// Opens the page, and tells where it is.
fn open_room<'a>(
    rt: &'a HostRuntime,
    file: &'a str,
    port: u16,
    listener: Loopback,
) -> io::Result<DrawingRoom<'a>> {
    let page = draw_desk::page(rt.alloc())?;
    let asked = PageDrawn {
        page: page.as_str(),
        file,
        version: VERSION,
        port,
    };
    let desk = open_desk(rt, rt.alloc(), &asked, DrawnFile::new(rt, file))?;
    tell_address(port, &mut rt.stdout())?;
    Ok(DrawingRoom {
        rt,
        listener,
        connections: Connections::with_bodies(rt.alloc(), LONGEST),
        desk,
        reading: 0,
        stood: 0,
    })
}

/// Attends the page, and each panel that is asked for.
fn stand<'a>(rt: &'a HostRuntime, room: DrawingRoom<'a>) -> u8 {
    let mut room = room;
    for _ in 0..u64::MAX {
        if attend_alone(rt, &mut room).is_err() {
            return tell(&Failure::CannotRun, &mut rt.stderr());
        }
        room = play(rt, room);
    }
    0
}

/// Plays the panel that is asked for, until it ends.
fn play<'a>(rt: &'a HostRuntime, room: DrawingRoom<'a>) -> DrawingRoom<'a> {
    let mut room = room;
    let asked = room.desk.begin_panel();
    let listener = room.desk.outside.take_listener();
    if let (Some(asked), Some(listener)) = (asked, listener) {
        room = play_panel(rt, &asked, listener, room);
    }
    room.desk.end_panel();
    room
}

/// Plays a panel of a text. Where it doesn't run, that is told, and the page goes on.
fn play_panel<'a>(
    rt: &'a HostRuntime,
    panel: &PanelAsked,
    listener: Loopback,
    room: DrawingRoom<'a>,
) -> DrawingRoom<'a> {
    let layout = panel.text.as_str();
    let mut plan = Vec::new(rt.alloc());
    let status = plan_text(rt.alloc(), layout, None, None, &mut plan, &mut rt.stderr());
    if status != 0 {
        return room;
    }
    let page = PageAsked {
        layout,
        plan: str::from_utf8(&plan).unwrap_or(""),
        page: panel_page::page(),
        version: VERSION,
        port: panel.port,
        kind: "world",
        record: RECORD,
    };
    let limits = Limits {
        for_ms: u64::MAX,
        memory: MEMORY,
    };
    let asked = PanelOptions { page, limits };
    let mut listener = listener;
    let PlayedBeside {
        ended,
        beside: room,
    } = panel_beside(rt, &asked, &mut listener, room, &mut rt.stdout());
    if let Err(failure) = &ended {
        tell(failure, &mut rt.stderr());
    }
    room
}
