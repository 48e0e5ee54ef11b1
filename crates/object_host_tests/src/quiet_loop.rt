//! A signal's controller in a loop in which nothing comes but the wrong things.

use embedded_host::{Embedded, Refusal};
use object_host::Parties;
use rasta_core::{Millis, Start, State};
use rasta_pdu::Key;
use sci_telegram::{Aspect, Name};
use signal_ctl::Signal;
use std::alloc::Global;
use std::process::Abort;

fn name(rt: &impl Abort, text: &[u8]) -> Name {
    Name::of(text).expect(rt, "a name")
}

fn started(rt: &impl Abort, alloc: Global) -> Embedded<Signal> {
    let parties = Parties {
        own: 2,
        partner: 1,
        own_name: name(rt, b"S1"),
        peer_name: name(rt, b"IXL1"),
        key: Key([0x6745_2301, 0xEFCD_AB89, 0x98BA_DCFE, 0x1032_5476]),
    };
    let start = Start {
        first_sequence_number: 7,
        now: 1000,
    };
    Embedded::new(alloc, parties, start, Signal::new(), 2).expect(rt, "there is memory")
}

/// What a loop calls.
#[derive(Clone, Copy)]
enum Call {
    Empty,
    Hear,
    Tick,
    Ask,
    Done,
    Next,
}

/// Makes a call, and answers why it was refused, where it was.
fn refusal_of(signal: &mut Embedded<Signal>, call: Call, now: Millis) -> Option<Refusal> {
    let answer = match call {
        Call::Empty => signal.empty(now),
        Call::Hear => signal.hear(now, b"none"),
        Call::Tick => signal.tick(now),
        Call::Ask => signal.ask(now),
        Call::Next => signal.next(now).map(|_| ()),
        Call::Done => {
            signal.done();
            Ok(())
        }
    };
    answer.err()
}

/// Calls in their order, and why each is refused, where it is.
const CALLS: [(Call, Millis, Option<Refusal>); 13] = [
    (Call::Hear, 2999, Some(Refusal::TooSoon)),
    (Call::Hear, 3000, Some(Refusal::TooOld)),
    (Call::Tick, 3000, None),
    (Call::Tick, 2999, Some(Refusal::ClockFell)),
    (Call::Next, 3000, Some(Refusal::NotInForce)),
    (Call::Ask, 3000, None),
    (Call::Done, 3000, None),
    (Call::Next, 3000, None),
    (Call::Empty, 3000, None),
    (Call::Hear, 3400, None),
    (Call::Hear, 3401, Some(Refusal::TooOld)),
    (Call::Ask, 3400, None),
    (Call::Done, 3400, None),
];

#[test]
fn what_a_loop_without_a_partner_is_answered(rt: HostRuntime) {
    let mut signal = started(&rt, rt.alloc());
    for (place, (call, now, refusal)) in CALLS.into_iter().enumerate() {
        assert!(rt; refusal_of(&mut signal, call, now) == refusal, "{place}");
    }
    assert!(rt; matches!(signal.next(3400), Ok(None)));
    assert!(rt; signal.object().shown(3400) == Aspect::Stop);
    assert!(rt; matches!(signal.link(9000), State::Down));
}
