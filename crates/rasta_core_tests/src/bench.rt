//! One end with the identity 2, whose partner's PDUs are made by hand, and scripts of what comes to it and what it does. What
//! takes memory is done again where it is lacking, so the tests also hold with any one allocation refused.

use crate::wire::{item, read_pdu, written};
use rasta_core_link::{Inbox, Link, Millis, Outbox, Reason, SendFault, State, Verdict};
use rasta_pdu::{Body, Datagram, Items, Key, Opening, Pdu};
use std::alloc::Global;
use std::process::Abort;

const KEY: Key = Key([1, 2, 3, 4]);

/// The first sequence number of the end under test.
pub(crate) const FIRST: u32 = 100;

/// What a PDU carries. An item of a script is one byte.
#[derive(Clone, Copy)]
pub(crate) enum Content {
    Request([u8; 4]),
    Response,
    Ask,
    Answer,
    Disconnection(u16),
    Heartbeat,
    Data(u8),
    Again(u8),
}

/// A request of this version of the protocol.
pub(crate) const REQUEST: Content = Content::Request(*b"0303");

/// The numbers of the last PDU that was looked at, and how many bytes it takes.
#[derive(Clone, Copy)]
struct Told {
    number: u32,
    confirms: u32,
    stamp: u32,
    returns: u32,
    length: usize,
}

/// A number by which an end is judged.
#[derive(Clone, Copy)]
pub(crate) enum Figure {
    Given,
    Taken,
    Confirmed,
    AliveUntil,
    QuietUntil,
    /// How many datagrams weren't looked at yet.
    Waiting,
    /// Those of the last PDU that was looked at.
    Number,
    Confirms,
    Stamp,
    Returns,
    Length,
}

/// What happens to an end at a clock reading, or what is so there.
#[derive(Clone, Copy)]
pub(crate) enum Step {
    /// A PDU of the partner comes, and this becomes of it. It is told by its sequence number and the one that it confirms, and by
    /// both stamps.
    Hears((u32, u32), (u32, u32), Content, Verdict),
    /// The same of a PDU with this receiver and this sender.
    HearsOf((u32, u32), (u32, u32), (u32, u32), Content, Verdict),
    HearsBytes(&'static [u8], Verdict),
    /// It opens, or doesn't.
    Opens(bool),
    Ticks,
    /// It is given an item to send, which has this fault.
    Sends(u8, Option<SendFault>),
    Closes(Reason),
    /// The oldest datagram that wasn't looked at yet is a PDU of this content.
    Tells(Content),
    TellsNoMore,
    /// The last datagram brought this item alone.
    Brought(u8),
    IsIn(State),
    IsUp(bool),
    Has(Figure, u64),
}

/// A clock reading, and what happens there.
pub(crate) type Row = (Millis, Step);

/// How an end stands where a script begins.
#[derive(Clone, Copy)]
pub(crate) enum Start {
    /// A server that was made at 0.
    Server,
    /// A client that was made at 0, with this first sequence number.
    Client(u32),
    /// A server that took a request at 10000 and sent its response.
    Starting,
    /// A server that is up since 10010, and expects the number 7.
    Up,
}

/// What is shown, of which end, and how.
pub(crate) type Script = (&'static str, Start, &'static [Row]);

/// A server takes a request, and sends its response.
const STARTING: &[Row] = &[
    (
        10000,
        Step::Hears((5, 0), (500, 0), REQUEST, Verdict::Taken),
    ),
    (10000, Step::Tells(Content::Response)),
];

/// Then it takes a heartbeat.
const UP: &[Row] = &[
    (
        10010,
        Step::Hears((6, FIRST), (510, 10000), Content::Heartbeat, Verdict::Taken),
    ),
    (10010, Step::TellsNoMore),
    (10010, Step::IsIn(State::Up)),
];

/// An end, what it hands out and what it took last.
#[derive(Drop)]
pub(crate) struct Bench {
    link: Link,
    outbox: Outbox,
    inbox: Inbox,
    told: Told,
}

/// What a connection begins with, and nothing is wrong with.
const OPENING: Opening = Opening {
    version: *b"0303",
    window: 20,
    reserved: [0; 8],
};

/// An item of one byte.
fn one(rt: &impl Abort, byte: u8) -> Items {
    Items::one(item(rt, &[byte]))
}

fn body(rt: &impl Abort, content: Content) -> Body {
    match content {
        Content::Request(version) => Body::ConnectionRequest(Opening { version, ..OPENING }),
        Content::Response => Body::ConnectionResponse(OPENING),
        Content::Ask => Body::RetransmissionRequest,
        Content::Answer => Body::RetransmissionResponse,
        Content::Disconnection(reason) => Body::DisconnectionRequest { detail: 0, reason },
        Content::Heartbeat => Body::Heartbeat,
        Content::Data(byte) => Body::Data(one(rt, byte)),
        Content::Again(byte) => Body::RetransmittedData(one(rt, byte)),
    }
}

/// A PDU with this receiver and this sender, these numbers and these stamps.
fn datagram(
    rt: &impl Abort,
    ends: (u32, u32),
    numbers: (u32, u32),
    stamps: (u32, u32),
    content: Content,
) -> Datagram {
    let pdu = Pdu {
        receiver: ends.0,
        sender: ends.1,
        sequence_number: numbers.0,
        confirmed_sequence_number: numbers.1,
        time_stamp: stamps.0,
        confirmed_time_stamp: stamps.1,
        body: body(rt, content),
    };
    written(&KEY, &pdu)
}

/// An end that was made at 0, if there is memory for it.
fn made(alloc: Global, start: Start) -> Option<Bench> {
    let link = match start {
        Start::Client(first) => Link::client(alloc, 2, 1, KEY, first, 0),
        _ => Link::server(alloc, 2, 1, KEY, FIRST, 0),
    };
    let told = Told {
        number: 0,
        confirms: 0,
        stamp: 0,
        returns: 0,
        length: 0,
    };
    match (link, Outbox::for_links(alloc, 1)) {
        (Ok(link), Ok(outbox)) => Some(Bench {
            link,
            outbox,
            inbox: Inbox::new(),
            told,
        }),
        _ => None,
    }
}

/// An end, led to where a script begins.
fn begun(rt: &impl Abort, alloc: Global, start: Start) -> Bench {
    let mut bench = match made(alloc, start) {
        Some(bench) => bench,
        None => made(alloc, start).expect(rt, "there is memory"),
    };
    if matches!(start, Start::Starting | Start::Up) {
        bench.plays(rt, "a server starts", STARTING);
    }
    if matches!(start, Start::Up) {
        bench.plays(rt, "it is up", UP);
    }
    bench
}

/// Each script comes out as it says.
pub(crate) fn play(rt: &impl Abort, alloc: Global, scripts: &[Script]) {
    for script in scripts {
        let (name, start, rows) = *script;
        begun(rt, alloc, start).plays(rt, name, rows);
    }
}

impl Bench {
    fn hears(&mut self, rt: &impl Abort, now: Millis, bytes: &[u8]) -> Verdict {
        assert!(rt; self.link.may_step(now));
        assert!(rt; self.outbox.has_room());
        self.link
            .receive(now, bytes, &mut self.outbox, &mut self.inbox)
    }

    /// Does what a step says that is no PDU, and answers whether it came out so.
    fn acts(&mut self, rt: &impl Abort, now: Millis, step: Step) -> bool {
        assert!(rt; self.link.may_step(now));
        assert!(rt; self.outbox.has_room());
        match step {
            Step::Opens(opens) => return self.link.open(now, &mut self.outbox) == opens,
            Step::Sends(byte, fault) => {
                let sent = self.link.send(now, &item(rt, &[byte]), &mut self.outbox);
                return sent.err() == fault;
            }
            Step::Closes(why) => self.link.close(now, why, &mut self.outbox),
            _ => self.link.tick(now, &mut self.outbox),
        }
        true
    }

    /// Whether the oldest datagram that it handed out and that wasn't looked at yet has this content.
    fn tells(&mut self, rt: &impl Abort, content: Content) -> bool {
        let first = self.outbox.take_first();
        let datagram = first.expect(rt, "it hands out a datagram");
        let pdu = read_pdu(&KEY, &datagram).expect(rt, "it can be read");
        self.told = Told {
            number: pdu.sequence_number,
            confirms: pdu.confirmed_sequence_number,
            stamp: pdu.time_stamp,
            returns: pdu.confirmed_time_stamp,
            length: datagram.len(),
        };
        pdu.body == body(rt, content)
    }

    fn brought(&self, byte: u8) -> bool {
        let items = self.inbox.as_slice();
        match items.first() {
            Some(item) => items.len() == 1 && item.bytes() == [byte].as_slice(),
            None => false,
        }
    }

    fn figure(&self, figure: Figure) -> u64 {
        match figure {
            Figure::Given => self.link.given(),
            Figure::Taken => self.link.taken(),
            Figure::Confirmed => self.link.confirmed(),
            Figure::AliveUntil => self.link.alive_until(),
            Figure::QuietUntil => self.link.quiet_until(),
            Figure::Waiting => self.outbox.len() as u64,
            Figure::Number => u64::from(self.told.number),
            Figure::Confirms => u64::from(self.told.confirms),
            Figure::Stamp => u64::from(self.told.stamp),
            Figure::Returns => u64::from(self.told.returns),
            Figure::Length => self.told.length as u64,
        }
    }

    /// Does what a step says, and answers whether it came out so.
    fn is_so(&mut self, rt: &impl Abort, now: Millis, step: Step) -> bool {
        match step {
            Step::Hears(numbers, stamps, content, verdict) => {
                let bytes = datagram(rt, (2, 1), numbers, stamps, content);
                self.hears(rt, now, &bytes) == verdict
            }
            Step::HearsOf(ends, numbers, stamps, content, verdict) => {
                let bytes = datagram(rt, ends, numbers, stamps, content);
                self.hears(rt, now, &bytes) == verdict
            }
            Step::HearsBytes(bytes, verdict) => self.hears(rt, now, bytes) == verdict,
            Step::Opens(_) | Step::Ticks | Step::Sends(..) | Step::Closes(_) => {
                self.acts(rt, now, step)
            }
            Step::Tells(content) => self.tells(rt, content),
            Step::TellsNoMore => self.outbox.is_empty(),
            Step::Brought(byte) => self.brought(byte),
            Step::IsIn(state) => self.link.state(now) == state,
            Step::IsUp(up) => self.link.is_up(now) == up,
            Step::Has(figure, number) => self.figure(figure) == number,
        }
    }

    /// Each row of a script is so.
    fn plays(&mut self, rt: &impl Abort, name: &str, rows: &[Row]) {
        for (place, row) in rows.iter().enumerate() {
            let (now, step) = *row;
            assert!(rt; self.is_so(rt, now, step), "{name}: row {place}, at {now}");
        }
    }
}
