//! An interlocking's end of a link and an object controller at the other, at one clock, and scripts of what both say.

use crate::output::{Observed, Output};
use object_host::{Hosted, Input, Parties, Sense};
use rasta_core::{Inbox, Link, Millis, Outbox, Start};
use rasta_pdu::{Body, Datagram, Item, Items, Key};
use sci_telegram::{Initialisation, Message, Name, Telegram, read, write};
use std::alloc::Global;
use std::process::Abort;

const KEY: Key = Key([1, 2, 3, 4]);

/// The identities of the interlocking and of the controller.
const STATION: u32 = 1;

const CONTROLLER: u32 = 2;

/// When both ends are made: they can open 6000 ms later.
const MADE_AT: Millis = 94000;

pub(crate) const OPENED_AT: Millis = 100000;

/// How many datagrams a step hands out at most in these tests.
const MANY: usize = 64;

/// How far a script's ends have come where it begins. A controller has a version of the telegrams.
#[derive(Clone, Copy)]
pub(crate) enum Outset {
    Made(u8),
    /// The station opened a connection at 100000.
    Connected(u8),
    /// The initialisation was completed at 100000, and what the station heard of it was looked at.
    Ready(u8),
}

/// What happens at a clock reading, or what is so there.
#[derive(Clone, Copy)]
pub(crate) enum Step {
    Connects,
    /// The station sends a telegram.
    Says(Message),
    /// It sends one in these names of a sender and a receiver.
    SaysAs(&'static str, &'static str, Message),
    /// It sends these bytes as an item.
    SaysBytes(&'static [u8]),
    /// What the station said reaches the controller.
    ToController,
    /// What the controller said reaches the station.
    ToStation,
    /// What either said reaches the other, and what that says in answer.
    Exchanges,
    /// The station's heartbeat, which confirms what it has heard, reaches the controller.
    Confirms,
    /// The controller's clock goes on, or a contact of its object changes.
    Ticks,
    Senses(Sense),
    /// So many ticks of both, 300 ms apart, keep the link up.
    KeepsUp(u64),
    /// The oldest telegram that the station heard and that wasn't looked at yet is this one of this sender.
    Hears(&'static str, Message),
    HearsNoMore,
    /// What the station heard so far isn't looked at.
    Forgets,
    /// What the station said reaches the controller, which hands out one datagram: it closes the link with this reason.
    Refuses(u16),
    /// The controller handed out one datagram that the station hasn't received. It carries this item alone.
    Answers(&'static [u8]),
    /// How many items the controller has given in its connection, how many of them it knows as taken, and how many datagrams
    /// it handed out that the station hasn't received.
    HasGiven(u64),
    KnowsTaken(u64),
    HandsOut(usize),
    Has(Output),
}

/// A clock reading, and what happens there.
pub(crate) type Row = (Millis, Step);

/// What is shown, from where on, and how.
pub(crate) type Script = (&'static str, Outset, &'static [Row]);

/// Both ends, and what each has said.
#[derive(Drop)]
pub(crate) struct Bench<C: Observed> {
    station: Link,
    outbox: Outbox,
    inbox: Inbox,
    hosted: Hosted<C>,
    /// What the controller handed out and the station hasn't received yet.
    sent: Vec<Datagram>,
    /// What the station heard, oldest first.
    heard: Vec<Telegram>,
}

pub(crate) fn name(rt: &impl Abort, text: &str) -> Name {
    Name::of(text.as_bytes()).expect(rt, "a name")
}

/// The item of 1 to 61 bytes.
fn item(rt: &impl Abort, bytes: &[u8]) -> Item {
    Item::of(bytes).expect(rt, "1 to 61 bytes")
}

fn telegram(rt: &impl Abort, sender: &str, receiver: &str, message: Message) -> Telegram {
    Telegram {
        sender: name(rt, sender),
        receiver: name(rt, receiver),
        message,
    }
}

fn hosted<C: Observed>(rt: &impl Abort, alloc: Global, object: C, version: u8) -> Hosted<C> {
    let parties = Parties {
        own: CONTROLLER,
        partner: STATION,
        own_name: name(rt, "OC1"),
        peer_name: name(rt, "IXL1"),
        key: KEY,
    };
    let start = Start {
        first_sequence_number: 0,
        now: MADE_AT,
    };
    let made = Hosted::new(alloc, parties, start, object, version);
    made.expect(rt, "there is memory")
}

fn station(rt: &impl Abort, alloc: Global) -> Link {
    let made = Link::client(alloc, STATION, CONTROLLER, KEY, 0, MADE_AT);
    made.expect(rt, "there is memory")
}

fn read_telegram(rt: &impl Abort, item: &Item) -> Telegram {
    read(item.bytes()).expect(rt, "a telegram")
}

/// A script that begins with this object comes out as it says.
pub(crate) fn play<C: Observed>(rt: &impl Abort, alloc: Global, object: C, script: &Script) {
    let (name, start, rows) = *script;
    let mut bench = Bench::begun(rt, alloc, object, start);
    bench.plays(rt, name, rows)
}

impl<C: Observed> Bench<C> {
    fn made(rt: &impl Abort, alloc: Global, object: C, version: u8) -> Bench<C> {
        Bench {
            station: station(rt, alloc),
            outbox: Outbox::for_links(alloc, 1).expect(rt, "there is memory"),
            inbox: Inbox::new(),
            hosted: hosted(rt, alloc, object, version),
            sent: Vec::new(alloc),
            heard: Vec::new(alloc),
        }
    }

    /// Both ends, as a script begins with them.
    fn begun(rt: &impl Abort, alloc: Global, object: C, start: Outset) -> Bench<C> {
        let (Outset::Made(version) | Outset::Connected(version) | Outset::Ready(version)) = start;
        let mut bench = Bench::made(rt, alloc, object, version);
        if !matches!(start, Outset::Made(_)) {
            bench.connects(rt);
        }
        if matches!(start, Outset::Ready(_)) {
            bench.initialises(rt, version);
        }
        bench
    }

    /// Each row of a script is so.
    fn plays(&mut self, rt: &impl Abort, name: &str, rows: &[Row]) {
        for (place, row) in rows.iter().enumerate() {
            let (now, step) = *row;
            self.happens(rt, now, step);
            assert!(rt; self.is_so(rt, now, step), "{name}: row {place}, at {now}");
        }
    }

    fn happens(&mut self, rt: &impl Abort, now: Millis, step: Step) {
        match step {
            Step::Connects => self.connects(rt),
            Step::Says(message) => self.tells(rt, now, "IXL1", "OC1", message),
            Step::SaysAs(sender, receiver, message) => {
                self.tells(rt, now, sender, receiver, message)
            }
            Step::SaysBytes(bytes) => self.says(rt, now, &item(rt, bytes)),
            Step::ToController | Step::Refuses(_) => self.to_controller(rt, now),
            Step::ToStation => self.to_station(rt, now),
            Step::Exchanges => self.exchanges(rt, now),
            Step::Confirms => self.confirms(rt, now),
            Step::Ticks => self.steps(rt, now, Input::Tick),
            Step::Senses(sense) => self.steps(rt, now, Input::Sense(sense)),
            Step::KeepsUp(turns) => self.keeps_up(rt, now, turns),
            Step::Forgets => self.heard.clear(),
            _ => {}
        }
    }

    /// Whether what a step says of both ends is so; of what happens nothing is said.
    fn is_so(&mut self, rt: &impl Abort, now: Millis, step: Step) -> bool {
        match step {
            Step::Hears(sender, message) => self.hears(rt, sender, message),
            Step::HearsNoMore => self.heard.is_empty(),
            Step::Refuses(reason) => self.closes(rt, now, reason),
            Step::Answers(bytes) => {
                let items = Items::one(item(rt, bytes));
                self.hands_out(rt, Body::Data(items))
            }
            Step::HasGiven(items) => self.hosted.link().given() == items,
            Step::KnowsTaken(items) => self.hosted.link().confirmed() == items,
            Step::HandsOut(datagrams) => self.sent.len() == datagrams,
            Step::Has(output) => self.hosted.object().has(now, output),
            _ => true,
        }
    }

    fn connects(&mut self, rt: &impl Abort) {
        assert!(rt; self.station.may_step(OPENED_AT));
        assert!(rt; self.outbox.has_room());
        assert!(rt; self.station.open(OPENED_AT, &mut self.outbox));
        self.exchanges(rt, OPENED_AT);
        assert!(rt; self.hosted.link().is_up(OPENED_AT));
    }

    fn initialises(&mut self, rt: &impl Abort, version: u8) {
        let protocol = self.hosted.object().protocol();
        for what in [
            Initialisation::VersionCheck { version },
            Initialisation::InitialisationRequest,
        ] {
            let message = Message::Initialisation(protocol, what);
            self.tells(rt, OPENED_AT, "IXL1", "OC1", message);
            self.exchanges(rt, OPENED_AT);
        }
        self.heard.clear();
    }

    /// The station sends a telegram.
    fn tells(
        &mut self,
        rt: &impl Abort,
        now: Millis,
        sender: &str,
        receiver: &str,
        message: Message,
    ) {
        let item = write(&telegram(rt, sender, receiver, message));
        self.says(rt, now, &item)
    }

    fn says(&mut self, rt: &impl Abort, now: Millis, item: &Item) {
        assert!(rt; self.station.may_step(now));
        assert!(rt; self.outbox.has_room());
        assert!(rt; self.station.send(now, item, &mut self.outbox).is_ok());
    }

    fn confirms(&mut self, rt: &impl Abort, now: Millis) {
        assert!(rt; self.station.may_step(now));
        assert!(rt; self.outbox.has_room());
        self.station.tick(now, &mut self.outbox);
        self.to_controller(rt, now)
    }

    /// A step of the controller.
    fn steps(&mut self, rt: &impl Abort, now: Millis, input: Input) {
        assert!(rt; self.hosted.may_step(now));
        self.hosted.step(now, input);
        for _ in 0..MANY {
            if !self.collects(rt) {
                break;
            }
        }
    }

    /// Whether the last step of the controller handed out one more datagram, which is on its way then.
    fn collects(&mut self, rt: &impl Abort) -> bool {
        match self.hosted.take_first() {
            Some(datagram) => {
                assert!(rt; self.sent.push(datagram).is_ok());
                true
            }
            None => false,
        }
    }

    fn to_controller(&mut self, rt: &impl Abort, now: Millis) {
        for _ in 0..MANY {
            let Some(datagram) = self.outbox.take_first() else {
                break;
            };
            self.steps(rt, now, Input::Datagram(&datagram));
        }
    }

    fn to_station(&mut self, rt: &impl Abort, now: Millis) {
        for _ in 0..MANY {
            if self.sent.is_empty() {
                break;
            }
            let datagram = self.sent.remove(0);
            self.receives(rt, now, &datagram);
            self.notes(rt);
        }
    }

    fn receives(&mut self, rt: &impl Abort, now: Millis, datagram: &[u8]) {
        assert!(rt; self.station.may_step(now));
        assert!(rt; self.outbox.has_room());
        self.station
            .receive(now, datagram, &mut self.outbox, &mut self.inbox);
    }

    /// The items that the last datagram brought are heard.
    fn notes(&mut self, rt: &impl Abort) {
        for item in self.inbox.as_slice() {
            assert!(rt; self.heard.push(read_telegram(rt, item)).is_ok());
        }
    }

    fn exchanges(&mut self, rt: &impl Abort, now: Millis) {
        self.to_controller(rt, now);
        self.to_station(rt, now);
        self.to_controller(rt, now)
    }

    fn keeps_up(&mut self, rt: &impl Abort, from: Millis, turns: u64) {
        let mut now = from;
        for _ in 0..turns {
            now = now.saturating_add(300);
            self.confirms(rt, now);
            self.steps(rt, now, Input::Tick);
            self.to_station(rt, now)
        }
    }

    fn hears(&mut self, rt: &impl Abort, sender: &str, message: Message) -> bool {
        assert!(rt; !self.heard.is_empty(), "it heard a telegram");
        self.heard.remove(0) == telegram(rt, sender, "IXL1", message)
    }

    /// The last step handed out one datagram, which has this body.
    fn hands_out(&mut self, rt: &impl Abort, body: Body) -> bool {
        assert!(rt; self.sent.len() == 1);
        let pdu = rasta_pdu::read(&KEY, &self.sent.remove(0));
        pdu.expect(rt, "a PDU").body == body
    }

    /// The last step closed the link with this reason.
    fn closes(&mut self, rt: &impl Abort, now: Millis, reason: u16) -> bool {
        let request = Body::DisconnectionRequest { detail: 0, reason };
        !self.hosted.link().is_up(now) && self.hands_out(rt, request)
    }
}
