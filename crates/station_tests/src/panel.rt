//! Panels of the small station: over memory, where requests come in known rounds and their answers are kept, and over the loopback
//! interface.

use crate::panel_bench::{Asks, Sevens, Visit, Visits, count, has, page};
use crate::run_bench::{SMALL, is_same};
use station_panel::station_drive::{MemoryNetwork, SteppingClock};
use station_panel::{Limits, Listens, Loopback};
use station_run::{Attended, PanelOptions, prepare};
use std::alloc::Global;
use std::cell::RefCell;
use std::io::{Read, Write};
use std::net::{Net, TcpStream};
use std::process::Abort;

/// What a panel is asked in a test, at a port.
fn asked<'a>(port: u16, for_ms: u64) -> PanelOptions<'a> {
    PanelOptions {
        page: page(port),
        limits: Limits {
            for_ms,
            memory: 1 << 30,
        },
    }
}

/// What a panel over memory left: its answers, and its record.
#[derive(Drop)]
struct Left {
    told: Vec<u8>,
    record: Vec<u8>,
}

/// Attends a panel of the small station over memory for so many milliseconds, with these visits.
fn attend(rt: &impl Abort, alloc: Global, visits: &'static [Visit], for_ms: u64) -> Left {
    let told = RefCell::new(Vec::new(alloc));
    let mut listener = Visits::new(alloc, visits, &told);
    let attended = attend_small(rt, alloc, &mut listener, &asked(8080, for_ms));
    assert!(rt; attended.ended.is_ok());
    Left {
        told: told
            .try_replace(Vec::new(alloc))
            .expect(rt, "what was told"),
        record: attended.recorder,
    }
}

/// Attends a panel of the small station over memory, for the browsers of a listener.
fn attend_small<L: Listens>(
    rt: &impl Abort,
    alloc: Global,
    listener: &mut L,
    asked: &PanelOptions<'_>,
) -> Attended<Vec<u8>> {
    let prepared = prepare(alloc, SMALL, "").expect(rt, "a station");
    let station = prepared.over(alloc, MemoryNetwork::new(alloc, 0), Vec::new(alloc));
    let mut clock = SteppingClock::new(alloc, 0, 10_000);
    let mut out = Vec::new(alloc);
    station.attend(&Sevens, &mut clock, listener, asked, &mut out)
}

/// Each refusal, and what stands in its place where nothing is wrong.
const REFUSED: &[Visit] = &[
    (1, Asks::Get("/")),
    (1, Asks::Get("/station")),
    (1, Asks::Get("/state?after=0")),
    (2, Asks::Get("/metrics")),
    (2, Asks::Get("/favicon.ico")),
    (2, Asks::Get("/command")),
    (2, Asks::Get("/state?after=x")),
    (2, Asks::Post("let all trains go")),
    (
        3,
        Asks::Other("GET / HTTP/1.1\r\nHost: evil.example\r\n\r\n"),
    ),
    (
        3,
        Asks::Other(
            "POST /command HTTP/1.1\r\nHost: 127.0.0.1:8080\r\nOrigin: http://evil.example\r\nX-Token: 506381209866536711-506381209866536711\r\nContent-Length: 6\r\n\r\nresume",
        ),
    ),
    (
        3,
        Asks::Other(
            "POST /command HTTP/1.1\r\nHost: 127.0.0.1:8080\r\nOrigin: http://127.0.0.1:8080\r\nX-Token: guess\r\nContent-Length: 6\r\n\r\nresume",
        ),
    ),
    (4, Asks::Post("occupy GA")),
];

#[test]
fn each_request_has_its_status(rt: HostRuntime) {
    let left = attend(&rt, rt.alloc(), REFUSED, 200);
    assert!(rt; count(&left.told, "200") == 4);
    assert!(rt; has(&left.told, "zendurai_rounds_total "));
    assert!(rt; count(&left.told, "404") == 1);
    assert!(rt; count(&left.told, "405") == 1);
    assert!(rt; count(&left.told, "400") == 2);
    assert!(rt; count(&left.told, "403") == 3);
    assert!(rt; count(&left.told, "202") == 1);
    assert!(rt; has(&left.told, "<p>the page</p>"));
    assert!(rt; has(&left.record, "occupy GA = ok"));
    assert!(rt; !has(&left.record, "resume"));
}

/// A route is set to proceed and cancelled, a link is cut and mended, and the interlocking is made anew.
const SESSION: &[Visit] = &[
    (650, Asks::Post("resume")),
    (700, Asks::Post("set R2")),
    (850, Asks::Get("/state?after=0")),
    (860, Asks::Post("cancel R2")),
    (870, Asks::Post("set R2")),
    (900, Asks::Post("cut S1")),
    (1150, Asks::Get("/state?after=860")),
    (1160, Asks::Post("mend S1")),
    (1170, Asks::Post("restart IXL1 0 1")),
    (1180, Asks::Get("/state?after=1160")),
    (1185, Asks::Get("/metrics")),
];

#[test]
fn a_session_of_requests_replays_as_the_same(rt: HostRuntime) {
    let left = attend(&rt, rt.alloc(), SESSION, 12_000);
    assert!(rt; count(&left.told, "202") == 7);
    assert!(rt; has(&left.told, "shows S1 proceed"));
    assert!(rt; has(&left.told, "set R2 = accepted"));
    assert!(rt; has(&left.told, "cut S1 yes"));
    assert!(rt; has(&left.told, "link S1 lost"));
    assert!(rt; has(&left.told, "ixl holding"));
    assert!(rt; has(&left.told, "zendurai_commands_total{answer=\"accepted\"} "));
    assert!(rt;
        has(
            &left.told,
            "zendurai_commands_total{answer=\"refused_3\"} 0"
        )
    );
    assert!(rt; has(&left.record, "set R2 = accepted"));
    assert!(rt; has(&left.record, "cancel R2 = accepted"));
    assert!(rt; has(&left.record, "restart IXL1 0 1 = ok"));
    assert!(rt; is_same(rt.alloc(), &left.record));
}

/// What is answered over the loopback interface to a request for the page.
fn page_over_loopback(rt: &(impl Abort + Net), alloc: Global) -> Vec<u8> {
    let mut listener = Loopback::open(rt, 0).expect(rt, "a listener");
    let address = listener.address().expect(rt, "its address");
    let mut browser = TcpStream::connect(rt, address).expect(rt, "a connection");
    let port = address.port();
    let request = format!(in alloc; "GET / HTTP/1.1\r\nHost: 127.0.0.1:{port}\r\n\r\n");
    let request = request.expect(rt, "a request");
    browser
        .write_all(request.as_bytes())
        .expect(rt, "it is sent");
    let attended = attend_small(rt, alloc, &mut listener, &asked(port, 100));
    assert!(rt; attended.ended.is_ok());
    let mut told = Vec::new(alloc);
    browser.read_to_end(&mut told).expect(rt, "an answer");
    told
}

#[test]
fn the_page_is_served_over_the_loopback_interface(rt: HostRuntime) {
    let told = page_over_loopback(&rt, rt.alloc());
    assert!(rt; count(&told, "200") == 1);
    assert!(rt; has(&told, "<p>the page</p>"));
}
