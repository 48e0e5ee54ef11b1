//! What closes a client's link after the handshake, and by which reason.

use crate::controllers::{FIRST, KEY, MANY, OPENED_AT, STATION, answer, hosted, name};
use control_table::sci_telegram::Protocol;
use control_table::{Aspect, Occupancy};
use ixl_client::{Client, Command, Indications, Peer};
use object_host::{Controller, Hosted};
use signal_ctl::Signal;
use station_run::{Datagram, Outbox};
use std::alloc::Global;
use std::mem;
use std::process::Abort;
use tds_ctl::Detection;

/// The identity of the controller.
const CONTROLLER: u32 = 2;

/// What a client expects of its controller: a protocol, a version, and objects in this order.
type Expected = (Protocol, u8, &'static [&'static str]);

const SIGNAL: Expected = (Protocol::LightSignal, 1, &["OC1"]);

/// The controller has version 1, and says that the versions don't match.
const OTHER_VERSION: Expected = (Protocol::LightSignal, 2, &["OC1"]);

/// The controller tells of GA first.
const OTHER_ORDER: Expected = (Protocol::TrainDetection, 1, &["GP", "GA"]);

/// The type of a disconnection request, which stands after the length of a PDU. After its stamps stand a detail, 0, and the
/// reason, of two bytes each.
const DISCONNECTION: [u8; 2] = [0x48, 0x18];

/// What a client's step is about.
enum Step<'a> {
    Tick,
    Command(Command),
    Datagram(&'a [u8]),
}

/// A client and a controller at the two ends of a link, both at the clock at which it opens.
#[derive(Drop)]
struct Bench<C: Controller> {
    alloc: Global,
    client: Client,
    controller: Hosted<C>,
    /// What the client handed out and the controller hasn't received yet.
    said: Vec<Datagram>,
    indications: Indications,
    /// How many indications the client heard.
    heard: usize,
}

fn client(rt: &impl Abort, alloc: Global, expected: Expected) -> Client {
    let (protocol, version, named) = expected;
    let mut objects = Vec::new(alloc);
    for object in named {
        assert!(rt; objects.push(name(rt, object)).is_ok());
    }
    let peer = Peer {
        protocol,
        version,
        own_name: name(rt, "IXL1"),
        name: name(rt, "OC1"),
        objects,
    };
    let made = Client::new(alloc, STATION, CONTROLLER, KEY, peer, FIRST);
    made.expect(rt, "there is memory")
}

impl<C: Controller> Bench<C> {
    /// The client opens the link, and so many times both hear what the other one said.
    fn opened(rt: &impl Abort, alloc: Global, expected: Expected, object: C, times: usize) -> Self {
        let mut bench = Bench {
            alloc,
            client: client(rt, alloc, expected),
            controller: hosted(rt, alloc, ("OC1", CONTROLLER), object),
            said: Vec::new(alloc),
            indications: Indications::new(),
            heard: 0,
        };
        bench.steps(rt, Step::Tick);
        for _ in 0..times {
            bench.exchanges(rt);
        }
        bench
    }

    /// A step of the client. What it hands out is on its way.
    fn steps(&mut self, rt: &impl Abort, step: Step<'_>) {
        let mut outbox = Outbox::for_links(self.alloc, 1).expect(rt, "there is memory");
        assert!(rt; self.client.may_step(OPENED_AT));
        self.client.settle(OPENED_AT);
        match step {
            Step::Tick => self.client.tick(OPENED_AT, &mut outbox),
            Step::Command(command) => self.client.command(OPENED_AT, command, &mut outbox),
            Step::Datagram(datagram) => {
                let heard = &mut self.indications;
                self.client.receive(OPENED_AT, datagram, &mut outbox, heard);
                self.heard = self.heard.saturating_add(heard.as_slice().len());
            }
        }
        self.sends(rt, outbox)
    }

    fn sends(&mut self, rt: &impl Abort, mut outbox: Outbox) {
        for _ in 0..MANY {
            let Some(datagram) = outbox.take_first() else {
                break;
            };
            assert!(rt; self.said.push(datagram).is_ok());
        }
    }

    /// What the client said reaches the controller, and what that answers reaches the client.
    fn exchanges(&mut self, rt: &impl Abort) {
        let said = mem::replace(&mut self.said, Vec::new(self.alloc));
        let mut answers = Vec::new(self.alloc);
        answer(rt, &mut self.controller, OPENED_AT, &said, &mut answers);
        for datagram in &answers {
            self.steps(rt, Step::Datagram(datagram));
        }
    }

    fn is_up(&self) -> bool {
        self.client.link().is_up(OPENED_AT)
    }

    fn is_ready(&self) -> bool {
        self.client.is_ready()
    }

    /// The last datagram that the client handed out closes the link with this reason.
    fn closes(&mut self, rt: &impl Abort, reason: u8) {
        assert!(rt; !self.is_up() && !self.is_ready());
        let datagram = self.said.pop().expect(rt, "a datagram");
        assert!(rt; datagram.get(2..4) == Some(&DISCONNECTION));
        assert!(rt; datagram.get(28..32) == Some(&[0, 0, reason, 0]));
    }
}

#[test]
fn another_version_closes_the_link_with_reason_4(rt: HostRuntime) {
    let rt = &rt;
    let mut bench = Bench::opened(rt, rt.alloc(), OTHER_VERSION, Signal::new(), 1);
    assert!(rt; bench.is_up());
    bench.exchanges(rt);
    bench.closes(rt, 4);
}

#[test]
fn states_in_another_order_close_the_link_with_reason_1(rt: HostRuntime) {
    let rt = &rt;
    let sections = [
        (name(rt, "GA"), Occupancy::Occupied),
        (name(rt, "GP"), Occupancy::Clear),
    ];
    let detection = Detection::new(&sections);
    let mut bench = Bench::opened(rt, rt.alloc(), OTHER_ORDER, detection, 3);
    assert!(rt; bench.heard == 0);
    bench.closes(rt, 1);
}

/// Of 21 aspects without an answer the last finds the window full.
#[test]
fn a_full_window_closes_the_link_with_reason_5(rt: HostRuntime) {
    let rt = &rt;
    let mut bench = Bench::opened(rt, rt.alloc(), SIGNAL, Signal::new(), 8);
    for _ in 0..20 {
        bench.steps(rt, Step::Command(Command::Indicate(Aspect::Stop)));
        assert!(rt; bench.is_ready());
    }
    bench.steps(rt, Step::Command(Command::Indicate(Aspect::Stop)));
    bench.closes(rt, 5);
}
