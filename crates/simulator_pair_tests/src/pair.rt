//! Runs of a pair whose times and answers were worked out by hand.

use crate::bench::Start::{New, Up};
use crate::bench::Step::{
    Does, EndIs, Flows, HasSent, IsConfirmed, IsLost, IsPdu, IsTime, Refuses, Shows,
};
use crate::bench::What::{CutDelivery, Delivery, Line, Loss, Noise, Restart};
use crate::bench::{Bench, Script, event};
use arrayvec::ArrayString;
use simulator_pair::Aspect::{Proceed, Stop};
use simulator_pair::Refused;
use simulator_pair::Role::{Client, Server};

const SCRIPTS: &[Script] = &[
    (
        "a lost item is asked for and comes again before the later one",
        Up,
        &[
            Does(Line("give C 04")),
            Does(Line("give C 01")),
            HasSent(5),
            Does(Loss(3)),
            Does(Delivery(Server, 4)),
            EndIs(Server, true, 0, 0),
            Does(Delivery(Client, 5)),
            HasSent(10),
            Does(Delivery(Server, 6)),
            Shows(Stop),
            Does(Delivery(Server, 7)),
            Shows(Proceed),
            Does(Delivery(Server, 8)),
            Shows(Stop),
            Does(Delivery(Server, 9)),
            Shows(Stop),
            EndIs(Server, true, 0, 2),
            IsConfirmed(Client, 0),
            Does(Line("give S 09")),
            Does(Delivery(Client, 10)),
            IsConfirmed(Client, 2),
            IsPdu(3, (6240, 2, 0)),
            IsPdu(4, (6240, 3, 0)),
            IsPdu(5, (6212, 1, 1)),
            IsPdu(6, (6213, 4, 1)),
            IsPdu(7, (6241, 5, 1)),
            IsPdu(8, (6241, 6, 1)),
            IsPdu(9, (6220, 7, 1)),
            IsPdu(10, (6240, 2, 7)),
        ],
    ),
    (
        "old datagrams change nothing at a signal that restarted",
        Up,
        &[
            Does(Line("give C 04")),
            Flows(10),
            IsTime(6_040_000),
            Shows(Proceed),
            Does(Line("restart S 0 0")),
            IsTime(6_040_000),
            Shows(Stop),
            Does(Line("time 1960000")),
            IsTime(8_000_000),
            HasSent(4),
            Does(Delivery(Server, 0)),
            Does(Delivery(Server, 2)),
            Does(Delivery(Server, 3)),
            Shows(Stop),
            EndIs(Server, false, 0, 1),
            HasSent(4),
        ],
    ),
    (
        "no clock of a client passes its limit",
        New,
        &[
            Refuses(Restart(Client, 9_000_000_000_001), Refused::ClockLimit),
            Does(Line("time 1")),
            Does(Line("restart C 9000000000000 0")),
            Refuses(Line("time 1"), Refused::ClockLimit),
            IsTime(1),
        ],
    ),
    (
        "no clock of a server passes its limit",
        New,
        &[
            Refuses(Restart(Server, 9_000_000_000_001), Refused::ClockLimit),
            Does(Line("time 1")),
            Does(Line("restart S 9000000000000 0")),
            Refuses(Line("time 1"), Refused::ClockLimit),
            IsTime(1),
        ],
    ),
    (
        "a datagram is delivered until it is 2000 ms old",
        New,
        &[
            Flows(6000),
            HasSent(1),
            Does(Line("time 2000000")),
            Does(Delivery(Server, 0)),
            HasSent(2),
            Does(Line("time 1")),
            Refuses(Delivery(Server, 0), Refused::NeverSent),
            HasSent(2),
        ],
    ),
    (
        "bytes that are not for an end or damaged change nothing",
        New,
        &[
            Flows(6000),
            Does(Delivery(Client, 0)),
            Does(CutDelivery(Client, 0)),
            Does(CutDelivery(Server, 0)),
            Does(Noise(Client, &[])),
            Does(Noise(Server, &[])),
            Does(Noise(Client, &[0; 512])),
            Does(Noise(Server, &[0; 512])),
            EndIs(Client, false, 0, 0),
            EndIs(Server, false, 0, 0),
            HasSent(1),
            IsTime(6_000_000),
            Shows(Stop),
        ],
    ),
    (
        "the oldest copy is lost first",
        New,
        &[
            Refuses(Line("lose 00"), Refused::NeverSent),
            Does(Line("restart C 0 0")),
            Does(Line("time 6000000")),
            Does(Line("tick C")),
            Does(Line("restart C 0 0")),
            Does(Line("time 6000000")),
            Does(Line("tick C")),
            HasSent(2),
            Does(Loss(0)),
            IsLost(0, true),
            IsLost(1, false),
            Does(Loss(0)),
            IsLost(0, true),
            IsLost(1, true),
            Refuses(Loss(1), Refused::NeverSent),
            Refuses(Delivery(Server, 1), Refused::NeverSent),
        ],
    ),
];

#[test]
fn runs_of_a_pair_come_out_as_worked_out(rt: HostRuntime) {
    for script in SCRIPTS {
        Bench::new(&rt, rt.alloc()).plays(&rt, script);
    }
}

/// Three of the events are refused, and at most one of all others lacks memory.
#[test]
fn a_run_goes_on_after_refusals_and_where_memory_is_lacking(rt: HostRuntime) {
    let mut bench = Bench::new(&rt, rt.alloc());
    let events = [
        event(&rt, "time 1000 C=2000"),
        event(&rt, "time 1000"),
        event(&rt, "restart S 0 0"),
        event(&rt, "lose 00"),
        event(&rt, "time 1000"),
        event(&rt, "restart C 0 0"),
        event(&rt, "time 9000000000000000"),
        event(&rt, "time 1000"),
    ];
    let first = bench.runs(&events);
    let accepted = first.saturating_add(bench.runs(&events));
    let passed = bench.time();
    assert!(rt; accepted >= 9, "there is memory");
    assert!(rt; matches!((accepted, passed), (10, 6000) | (9, 5000 | 6000)));
    assert!(rt; bench.does(&rt, &event(&rt, "time 1000")));
    assert!(rt; bench.time() == passed.saturating_add(1000));
}

/// The text of a refusal, in a place of its own.
fn text_of(why: Refused) -> ArrayString<64> {
    use std::fmt::Write;
    let mut text = ArrayString::new();
    let _ = write!(text, "{why}");
    text
}

#[test]
fn refusals_have_their_numbers_and_texts(rt: HostRuntime) {
    for (why, number, text) in [
        (Refused::NeverSent, 2, "no such datagram was sent"),
        (Refused::Drift, 3, "a clock drifts too far"),
        (Refused::ClockLimit, 5, "the clock is at its limit"),
        (Refused::OutOfMemory, 6, "out of memory"),
    ] {
        assert!(rt; why.number() == number);
        assert!(rt; text_of(why).as_str() == text);
    }
}
