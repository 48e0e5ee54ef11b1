//! Panels of an interlocking's node, over memory: what the node tells is brought, and what is asked of it is kept.

use crate::panel_bench::{Asks, Sevens, Visit, Visits, count, has, page};
use crate::run_bench::SMALL;
use control_table::Checked;
use node_panel::{Heard, Room, attend_node};
use station_node::node_network::MemoryOutside;
use station_panel::{Pictured, StandingOrders, open_desk};
use station_run::table_of;
use std::alloc::Global;
use std::cell::RefCell;
use std::process::Abort;

/// What the node tells, what is asked of it meanwhile, and up to which reading.
type Stage = (&'static [&'static str], &'static [Visit], u64);

/// A panel of the small station's node.
#[derive(Drop)]
struct Seat<'a> {
    outside: MemoryOutside,
    room: Room<'a>,
}

/// A panel whose node is joined in its first turn.
fn panel_joined<'a>(rt: &impl Abort, alloc: Global, table: &'a Checked) -> Seat<'a> {
    let layout = table.layout();
    let heard = Heard::nothing(alloc, layout).expect(rt, "nothing heard");
    let orders = StandingOrders::none(alloc, layout.routes().len()).expect(rt, "no orders");
    let mut lines = heard.picture(alloc).expect(rt, "a picture");
    orders.add_lines(&mut lines).expect(rt, "lines of orders");
    let own = small_table(rt, alloc);
    let desk = open_desk(&Sevens, alloc, own, lines.len(), &page(8080)).expect(rt, "a desk");
    let mut outside = MemoryOutside::new(alloc, 0, 10);
    outside.listen();
    let room = Room {
        table,
        heard,
        orders,
        desk,
    };
    Seat { outside, room }
}

/// The table of the small station.
fn small_table(rt: &impl Abort, alloc: Global) -> Checked {
    table_of(alloc, SMALL).expect(rt, "a table")
}

/// Attends a panel for a stage, and answers what browsers were told.
fn attend(rt: &impl Abort, alloc: Global, seat: &mut Seat<'_>, stage: &Stage) -> Vec<u8> {
    let (lines, visits, until) = *stage;
    for line in lines {
        seat.outside.bring_line(line).expect(rt, "a line");
    }
    let told = RefCell::new(Vec::new(alloc));
    attend_until(
        rt,
        alloc,
        seat,
        &mut Visits::new(alloc, visits, &told),
        until,
    );
    told.try_replace(Vec::new(alloc))
        .expect(rt, "what was told")
}

/// Attends a panel up to a reading, for the browsers of a listener.
fn attend_until(
    rt: &impl Abort,
    alloc: Global,
    seat: &mut Seat<'_>,
    visits: &mut Visits<'_>,
    until: u64,
) {
    let attended = attend_node(
        &Sevens,
        alloc,
        &mut seat.outside,
        visits,
        &mut seat.room,
        until,
    );
    assert!(rt; attended.is_ok());
}

/// Whether the next line that was asked of the node is this.
fn asks(rt: &impl Abort, seat: &mut Seat<'_>, line: &str) -> bool {
    seat.outside
        .take_written()
        .is_some_and(|written| written.as_str() == line)
}

/// All that stands is told, the operator resumes, and sets a route.
const JOINED: Stage = (
    &[
        "link S1 ready",
        "link P1 ready",
        "section GA clear",
        "section GP unknown",
        "point P1 left",
        "signal S1 stop -",
        "indicates S1 stop",
        "route R2 free",
        "waiting for resume",
        "what no node tells",
    ],
    &[
        (1, Asks::Get("/state?after=0")),
        (2, Asks::Post("resume")),
        (3, Asks::Post("set R2")),
        (4, Asks::Post("occupy GA")),
    ],
    200,
);

/// The route comes, and all are cancelled.
const SET: Stage = (
    &[
        "accepted",
        "accepted",
        "route R2 set",
        "signal S1 proceed R2",
        "indicates S1 proceed",
    ],
    &[
        (1, Asks::Get("/state?after=0")),
        (2, Asks::Post("cancel all")),
        (3, Asks::Post("set R1")),
    ],
    400,
);

/// A command is refused, and a link is lost.
const LOST: Stage = (
    &["accepted", "refused 5 R2", "link S1 lost"],
    &[(1, Asks::Get("/state?after=0"))],
    600,
);

/// The node has gone.
const GONE: Stage = (&[], &[(2, Asks::Get("/state?after=0"))], 800);

#[test]
fn a_panel_shows_what_a_node_tells(rt: HostRuntime) {
    let table = small_table(&rt, rt.alloc());
    let mut seat = panel_joined(&rt, rt.alloc(), &table);
    let told = attend(&rt, rt.alloc(), &mut seat, &JOINED);
    assert!(rt; has(&told, "link IXL1 ready") && has(&told, "link S1 ready"));
    assert!(rt; has(&told, "section GP unknown") && has(&told, "indicates S1 stop"));
    assert!(rt; has(&told, "indicates S3 unknown") && has(&told, "ixl resume"));
    assert!(rt; count(&told, "202") == 3);
    assert!(rt; asks(&rt, &mut seat, "numbers"));
    assert!(rt; asks(&rt, &mut seat, "resume") && asks(&rt, &mut seat, "set R2"));
    assert!(rt; seat.outside.take_written().is_none());
    let told = attend(&rt, rt.alloc(), &mut seat, &SET);
    assert!(rt; has(&told, "ixl ready") && has(&told, "set R2 = accepted"));
    assert!(rt; has(&told, "signal S1 proceed R2") && has(&told, "indicates S1 proceed"));
    assert!(rt; has(&told, "not taken here"));
    assert!(rt; asks(&rt, &mut seat, "cancel all") && asks(&rt, &mut seat, "set R1"));
}

/// Numbers are told, and looked at; they are asked for once in 10 s.
const COUNTED: Stage = (
    &[
        "number links_up - 2",
        "number closings_taken_total time 3",
        "number nothing - 3",
    ],
    &[(1, Asks::Get("/metrics"))],
    10_300,
);

#[test]
fn a_panel_serves_the_numbers_of_its_node(rt: HostRuntime) {
    let table = small_table(&rt, rt.alloc());
    let mut seat = panel_joined(&rt, rt.alloc(), &table);
    attend(&rt, rt.alloc(), &mut seat, &JOINED);
    let told = attend(&rt, rt.alloc(), &mut seat, &COUNTED);
    assert!(rt; has(&told, "content-type: text/plain; version=0.0.4"));
    assert!(rt; asks(&rt, &mut seat, "numbers"));
    assert!(rt; asks(&rt, &mut seat, "resume") && asks(&rt, &mut seat, "set R2"));
    assert!(rt; asks(&rt, &mut seat, "numbers"));
    assert!(rt; seat.outside.take_written().is_none());
    let told = attend(&rt, rt.alloc(), &mut seat, &LOOKED_AT);
    assert!(rt; has(&told, "zendurai_links_up 2"));
    assert!(rt; has(&told, "zendurai_closings_taken_total{reason=\"time\"} 3"));
    assert!(rt; !has(&told, "zendurai_memory_bytes"));
    seat.outside.close();
    attend(&rt, rt.alloc(), &mut seat, &GONE);
    let told = attend(&rt, rt.alloc(), &mut seat, &LOOKED_AT);
    assert!(rt; !has(&told, "zendurai_links_up"));
}

/// The numbers are looked at.
const LOOKED_AT: Stage = (&[], &[(1, Asks::Get("/metrics"))], 10_400);

#[test]
fn a_panel_knows_nothing_of_a_node_that_has_gone(rt: HostRuntime) {
    let table = small_table(&rt, rt.alloc());
    let mut seat = panel_joined(&rt, rt.alloc(), &table);
    attend(&rt, rt.alloc(), &mut seat, &JOINED);
    attend(&rt, rt.alloc(), &mut seat, &SET);
    let told = attend(&rt, rt.alloc(), &mut seat, &LOST);
    assert!(rt; has(&told, "set R1 = refused 5 R2"));
    assert!(rt; has(&told, "link S1 lost") && has(&told, "indicates S1 unknown"));
    seat.outside.close();
    let told = attend(&rt, rt.alloc(), &mut seat, &GONE);
    assert!(rt; has(&told, "link IXL1 lost") && has(&told, "signal S1 stop -"));
}

/// What is closed, released and counted is told. A node tells a point with its side.
const CLOSED: Stage = (
    &[
        "closed GA",
        "closed P1 right",
        "closed S3",
        "open S3",
        "closed R1",
        "closed P1",
        "route R2 set",
        "route R2 released",
        "counted open 3",
    ],
    &[(2, Asks::Get("/state?after=0"))],
    200,
);

#[test]
fn a_panel_shows_what_is_closed(rt: HostRuntime) {
    let table = small_table(&rt, rt.alloc());
    let mut seat = panel_joined(&rt, rt.alloc(), &table);
    let told = attend(&rt, rt.alloc(), &mut seat, &CLOSED);
    assert!(rt; has(&told, "closed-section GA yes") && has(&told, "closed-section GP no"));
    assert!(rt; has(&told, "closed-right P1 yes") && has(&told, "closed-left P1 no"));
    assert!(rt; has(&told, "closed-signal S3 no") && has(&told, "closed-route R1 yes"));
    assert!(rt; has(&told, "released R2 yes") && has(&told, "released R1 no"));
    assert!(rt; has(&told, "counted 0 3"));
}

/// All is clear and ready. One route is automatic, and another that conflicts with it waits.
const STANDING: Stage = (
    &[
        "link S1 ready",
        "link P1 ready",
        "link D1 ready",
        "section GA clear",
        "section GP clear",
        "section G1 clear",
        "section G2 clear",
    ],
    &[(2, Asks::Post("automatic R2")), (3, Asks::Post("queue R1"))],
    500,
);

/// The automatic one is set.
const SET_BY_ITSELF: Stage = (
    &["accepted", "route R2 set"],
    &[(2, Asks::Get("/state?after=0"))],
    1000,
);

/// A train has passed over it.
const PASSED: Stage = (&["route R2 free"], &[], 1500);

/// The other is set. Then all are cancelled.
const CANCELLED: Stage = (
    &["accepted", "route R1 set"],
    &[
        (2, Asks::Get("/state?after=0")),
        (3, Asks::Post("cancel all")),
    ],
    2000,
);

/// Nothing is set any more.
const FREE: Stage = (
    &["accepted", "route R1 free"],
    &[(2, Asks::Get("/state?after=0"))],
    4000,
);

#[test]
fn a_panel_sets_routes_by_itself(rt: HostRuntime) {
    let table = small_table(&rt, rt.alloc());
    let mut seat = panel_joined(&rt, rt.alloc(), &table);
    attend(&rt, rt.alloc(), &mut seat, &STANDING);
    assert!(rt; asks(&rt, &mut seat, "numbers") && asks(&rt, &mut seat, "set R2"));
    assert!(rt; seat.outside.take_written().is_none());
    let told = attend(&rt, rt.alloc(), &mut seat, &SET_BY_ITSELF);
    assert!(rt; has(&told, "automatic R2 yes") && has(&told, "waits R2 -"));
    assert!(rt; has(&told, "waits R1 1") && has(&told, "set R2 = accepted"));
    assert!(rt; seat.outside.take_written().is_none());
    attend(&rt, rt.alloc(), &mut seat, &PASSED);
    assert!(rt; asks(&rt, &mut seat, "set R1") && seat.outside.take_written().is_none());
    let told = attend(&rt, rt.alloc(), &mut seat, &CANCELLED);
    assert!(rt; has(&told, "waits R1 -") && has(&told, "waits R2 1"));
    assert!(rt; asks(&rt, &mut seat, "cancel all"));
    let told = attend(&rt, rt.alloc(), &mut seat, &FREE);
    assert!(rt; has(&told, "automatic R2 no") && has(&told, "waits R2 -"));
    assert!(rt; seat.outside.take_written().is_none());
}
