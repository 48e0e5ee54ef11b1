//! The numbers that an operator may look at: their lines, Prometheus' text, and what a node tells that is asked.

use crate::run_bench::SMALL;
use node_kinds::Keeping;
use node_kinds::node_drive::NodeId;
use node_kinds::node_drive::node_lines::AuxiliaryCounts;
use node_kinds::run_numbers::{
    Fate, NumberText, Numbers, NumbersTold, ROWS, Reason, Row, metrics_text, read_number,
};
use station_node::node_network::MemoryOutside;
use station_node::{NodeRun, run_node};
use station_run::table_of;
use std::alloc::Global;
use std::process::Abort;

/// What three numbers come to.
const TEXT: &str = "# HELP zendurai_links_up Links that are ready.
# TYPE zendurai_links_up gauge
zendurai_links_up 10
# HELP zendurai_datagrams_total Datagrams that came, by what their link said of them.
# TYPE zendurai_datagrams_total counter
zendurai_datagrams_total{verdict=\"taken\"} 18446744073709551615
zendurai_datagrams_total{verdict=\"stale\"} 4
";

/// A disconnection request for silence, without a right safety code.
const CLOSING: [u8; 40] = [
    40, 0, 72, 24, 1, 0, 0, 0, 2, 0, 0, 0, 3, 0, 0, 0, 4, 0, 0, 0, 5, 0, 0, 0, 6, 0, 0, 0, 0, 0, 3,
    0, 0, 0, 0, 0, 0, 0, 0, 0,
];

#[test]
fn each_number_is_told_and_read_again(rt: HostRuntime) {
    let alloc = rt.alloc();
    for place in 0..ROWS.len() {
        let row = ROWS[place];
        let text = NumberText { row, value: 7 };
        let line = format!(in alloc; "{text}").expect(&rt, "a line");
        assert!(rt; row.place() == place);
        assert!(rt; matches!(read_number(line.as_str()), Ok((same, 7)) if same == row));
    }
    assert!(rt; read_number("number links_up - x").is_err());
    assert!(rt; read_number("number links_up stale 1").is_err());
    assert!(rt; read_number("number links_up - 1 1").is_err());
}

#[test]
fn numbers_are_written_as_prometheus_reads_them(rt: HostRuntime) {
    let mut told = NumbersTold::nothing(rt.alloc()).expect(&rt, "nothing told");
    told.tell(Row::LinksUp, 10);
    told.tell(Row::Datagrams(Fate::Taken), u64::MAX);
    told.tell(Row::Datagrams(Fate::Stale), 4);
    let copy = told.copy(rt.alloc()).expect(&rt, "a copy");
    let text = metrics_text(rt.alloc(), &copy).expect(&rt, "a text");
    assert!(rt; text.as_str() == TEXT);
    told.forget();
    assert!(rt; told.value(Row::LinksUp).is_none());
}

#[test]
fn what_datagrams_say_is_counted(rt: HostRuntime) {
    let mut numbers = Numbers::none(rt.alloc()).expect(&rt, "no numbers");
    numbers.note_sent(&CLOSING);
    numbers.note_taken(&CLOSING);
    numbers.note_sent(&[1, 2, 3]);
    assert!(rt; numbers.value(Row::ClosingsSent(Reason::Time)) == 1);
    assert!(rt; numbers.value(Row::ClosingsTaken(Reason::Time)) == 1);
    numbers.begin(100);
    numbers.begin(119);
    numbers.begin(139);
    assert!(rt; numbers.value(Row::Rounds) == 3);
    assert!(rt; numbers.value(Row::RoundsLate) == 1);
}

/// What the interlocking of the small station tells within 100 ms of these lines and a datagram that isn't intact.
fn told_by(rt: &impl Abort, alloc: Global, lines: &[&str]) -> MemoryOutside {
    let table = table_of(alloc, SMALL).expect(rt, "a table");
    let mut outside = MemoryOutside::new(alloc, 0, 10);
    outside
        .bring(Some(NodeId(1)), &CLOSING)
        .expect(rt, "a datagram");
    for line in lines {
        outside.bring_line(line).expect(rt, "a line");
    }
    let asked = NodeRun {
        first: 1,
        for_ms: 50,
        keeping: Keeping::Nothing,
        counts: AuxiliaryCounts::none(),
    };
    assert!(rt; run_node(alloc, table, NodeId(0), asked, &mut outside).is_ok());
    outside.listen();
    outside
}

/// More lines than a node tells in a test.
const LINES: usize = 1000;

/// How many of the lines that were told begin so.
fn count(outside: &mut MemoryOutside, beginning: &str) -> usize {
    let mut found = 0usize;
    for _ in 0..LINES {
        let Some(line) = outside.take_written() else {
            break;
        };
        if line.as_str().starts_with(beginning) {
            found = found.saturating_add(1);
        }
    }
    found
}

#[test]
fn a_node_tells_no_number_unasked(rt: HostRuntime) {
    let mut outside = told_by(&rt, rt.alloc(), &["resume", "set R1", "numbers 1"]);
    assert!(rt; count(&mut outside, "number") == 0);
}

#[test]
fn a_node_tells_the_numbers_that_it_is_asked_for(rt: HostRuntime) {
    let asked = ["resume", "set R1", "numbers"];
    let mut outside = told_by(&rt, rt.alloc(), &asked);
    assert!(rt; count(&mut outside, "number ") == 36);
    let mut outside = told_by(&rt, rt.alloc(), &asked);
    assert!(rt; count(&mut outside, "number commands_total refused_2 2") == 1);
    let mut outside = told_by(&rt, rt.alloc(), &asked);
    assert!(rt; count(&mut outside, "number links_up - 0") == 1);
}
