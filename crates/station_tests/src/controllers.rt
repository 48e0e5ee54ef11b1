//! Controllers that answer an interlocking or a client.

use control_table::Name;
use md4::STANDARD;
use object_host::{Controller, Hosted, Input, Parties};
use station_run::{Datagram, Key, Millis, Start};
use std::alloc::Global;
use std::process::Abort;

pub(crate) const KEY: Key = Key(STANDARD);

/// The identity of the interlocking.
pub(crate) const STATION: u32 = 1;

/// When all nodes are made: links can be opened 6000 ms later.
pub(crate) const MADE_AT: Millis = 94000;

pub(crate) const OPENED_AT: Millis = 100000;

/// How each end begins.
pub(crate) const FIRST: Start = Start {
    first_sequence_number: 0,
    now: MADE_AT,
};

/// How many datagrams a step hands out at most in these tests.
pub(crate) const MANY: usize = 64;

pub(crate) fn name(rt: &impl Abort, text: &str) -> Name {
    Name::of(text.as_bytes()).expect(rt, "a name")
}

/// A controller with this name and identity, which has version 1.
pub(crate) fn hosted<C: Controller>(
    rt: &impl Abort,
    alloc: Global,
    named: (&str, u32),
    object: C,
) -> Hosted<C> {
    let parties = Parties {
        own: named.1,
        partner: STATION,
        own_name: name(rt, named.0),
        peer_name: name(rt, "IXL1"),
        key: KEY,
    };
    let made = Hosted::new(alloc, parties, FIRST, object, 1);
    made.expect(rt, "there is memory")
}

/// Datagrams reach a controller, and what it answers is added.
pub(crate) fn answer<C: Controller>(
    rt: &impl Abort,
    controller: &mut Hosted<C>,
    now: Millis,
    said: &[Datagram],
    answers: &mut Vec<Datagram>,
) {
    for datagram in said {
        assert!(rt; controller.may_step(now));
        controller.step(now, Input::Datagram(datagram));
        collect(rt, controller, answers);
    }
}

/// What a controller handed out is added to its answers.
fn collect<C: Controller>(
    rt: &impl Abort,
    controller: &mut Hosted<C>,
    answers: &mut Vec<Datagram>,
) {
    for _ in 0..MANY {
        let Some(answer) = controller.take_first() else {
            break;
        };
        assert!(rt; answers.push(answer).is_ok());
    }
}
