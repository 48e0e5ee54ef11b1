//! A pair under test, and scripts of what happens to it and what is so then. Every event is given again where memory is lacking,
//! so that the scripts also hold with any one allocation refused.

use rasta_pdu::{Body, Key, read};
use simulator_pair::{Aspect, Bytes, Pair, PairAnswer, PairEvent, Refused, Role, Sent};
use simulator_pair_text::{PairLine, read_line};
use std::alloc::Global;
use std::process::Abort;

/// How many milliseconds a round of a flow has.
const ROUND_MILLIS: u64 = 10;

/// An event. A datagram is named by its place among all that were sent.
#[derive(Clone, Copy)]
pub(crate) enum What {
    /// The event of a line.
    Line(&'static str),
    /// A datagram reaches an end.
    Delivery(Role, usize),
    /// All of a datagram but its last byte reaches an end.
    CutDelivery(Role, usize),
    /// These bytes reach an end.
    Noise(Role, &'static [u8]),
    /// A datagram is lost.
    Loss(usize),
    /// An end is made anew with this clock, in milliseconds.
    Restart(Role, u64),
}

/// What happens to a pair, or what is so then.
#[derive(Clone, Copy)]
pub(crate) enum Step {
    /// An event happens; an item is taken.
    Does(What),
    Refuses(What, Refused),
    /// It goes on by so many milliseconds in rounds of ten: what stood in the bag is delivered, then both timers run.
    Flows(u64),
    HasSent(usize),
    IsLost(usize, bool),
    /// A datagram has this type, sequence number and confirmed sequence number.
    IsPdu(usize, (u16, u32, u32)),
    /// True time, in microseconds.
    IsTime(u64),
    Shows(Aspect),
    /// Whether an end is up, and how many items it was given and took.
    EndIs(Role, bool, usize, usize),
    /// How many items of an end are known as taken.
    IsConfirmed(Role, u64),
}

/// How a pair stands where a script begins.
#[derive(Clone, Copy)]
pub(crate) enum Start {
    New,
    /// Both ends are up: the client opened at 6000 ms and was up at 6020, the server at 6030.
    Up,
}

/// What is shown, from where on, and how.
pub(crate) type Script = (&'static str, Start, &'static [Step]);

/// A pair, and how many of its datagrams were tried by a flow.
#[derive(Drop)]
pub(crate) struct Bench {
    pair: Pair,
    tried: usize,
}

fn bytes_of(bytes: &[u8]) -> Bytes {
    let mut copy = Bytes::new();
    let _ = copy.try_extend_from_slice(bytes);
    copy
}

/// The event that a line says.
pub(crate) fn event(rt: &impl Abort, line: &str) -> PairEvent {
    let event = match read_line(line) {
        Ok(PairLine::Event(event)) => Some(event),
        _ => None,
    };
    event.expect(rt, "it says an event")
}

/// The number of a type of PDU; 0 of one that no test asks for.
fn type_of(body: &Body) -> u16 {
    match body {
        Body::RetransmissionRequest => 6212,
        Body::RetransmissionResponse => 6213,
        Body::Heartbeat => 6220,
        Body::Data(_) => 6240,
        Body::RetransmittedData(_) => 6241,
        _ => 0,
    }
}

impl Bench {
    /// A new pair; where memory is lacking it is asked for once more.
    pub(crate) fn new(rt: &impl Abort, alloc: Global) -> Bench {
        let pair = match Pair::new(alloc) {
            Ok(pair) => pair,
            Err(_) => Pair::new(alloc).expect(rt, "there is memory"),
        };
        Bench { pair, tried: 0 }
    }

    fn apply_once(&mut self, event: &PairEvent) -> Result<PairAnswer, Refused> {
        match self.pair.apply(event) {
            Ok(reply) => Ok(reply.answer),
            Err(why) => Err(why),
        }
    }

    /// Applies an event; where memory is lacking nothing has changed, and the same event is given once more.
    fn apply(&mut self, rt: &impl Abort, event: &PairEvent) -> Result<PairAnswer, Refused> {
        let first = self.apply_once(event);
        if !matches!(first, Err(Refused::OutOfMemory)) {
            return first;
        }
        let again = self.apply_once(event);
        assert!(rt;
            !matches!(again, Err(Refused::OutOfMemory)),
            "there is memory"
        );
        again
    }

    /// Whether an event happens; an item has to be taken.
    pub(crate) fn does(&mut self, rt: &impl Abort, event: &PairEvent) -> bool {
        matches!(
            self.apply(rt, event),
            Ok(PairAnswer::Done | PairAnswer::Given(Ok(())))
        )
    }

    /// Applies events one after the other, and answers how many were accepted.
    pub(crate) fn runs(&mut self, events: &[PairEvent]) -> usize {
        self.pair.run(events)
    }

    pub(crate) fn time(&self) -> u64 {
        self.pair.time()
    }

    fn sent(&self, rt: &impl Abort, index: usize) -> &Sent {
        self.pair.sent().get(index).expect(rt, "it was sent")
    }

    /// The bytes of what was sent as this datagram.
    fn datagram(&self, rt: &impl Abort, index: usize) -> Bytes {
        bytes_of(self.sent(rt, index).bytes())
    }

    fn event(&self, rt: &impl Abort, what: What) -> PairEvent {
        match what {
            What::Line(line) => event(rt, line),
            What::Delivery(end, index) => PairEvent::Deliver(end, self.datagram(rt, index)),
            What::CutDelivery(end, index) => {
                let mut bytes = self.datagram(rt, index);
                let _ = bytes.pop();
                PairEvent::Deliver(end, bytes)
            }
            What::Noise(end, bytes) => PairEvent::Deliver(end, bytes_of(bytes)),
            What::Loss(index) => PairEvent::Lose(self.datagram(rt, index)),
            What::Restart(end, clock) => PairEvent::Restart {
                end,
                clock,
                first_sequence_number: 0,
            },
        }
    }

    fn is_pdu(&self, rt: &impl Abort, index: usize, of: (u16, u32, u32)) -> bool {
        let key = Key(md4::STANDARD);
        let pdu = read(&key, self.sent(rt, index).bytes()).expect(rt, "it can be read");
        let (sequence_number, confirmed) = (pdu.sequence_number, pdu.confirmed_sequence_number);
        (type_of(&pdu.body), sequence_number, confirmed) == of
    }

    fn end_is(&self, end: Role, is_up: bool, given: usize, taken: usize) -> bool {
        self.pair.is_up(end) == is_up
            && self.pair.given(end).len() == given
            && self.pair.taken(end).len() == taken
    }

    /// A datagram reaches its receiver, unless it is lost or too old.
    fn passes_on(&mut self, rt: &impl Abort, index: usize) {
        let sent = self.sent(rt, index);
        if sent.is_lost() {
            return;
        }
        let receiver = match sent.sender() {
            Role::Server => Role::Client,
            Role::Client => Role::Server,
        };
        let event = PairEvent::Deliver(receiver, bytes_of(sent.bytes()));
        let _ = self.apply(rt, &event);
    }

    /// A round of a flow: what no flow has tried yet is passed on.
    fn round(&mut self, rt: &impl Abort) {
        let end = self.pair.sent().len();
        assert!(rt; self.does(rt, &event(rt, "time 10000")));
        for index in self.tried..end {
            self.passes_on(rt, index);
        }
        self.tried = end;
        assert!(rt; self.does(rt, &event(rt, "tick C")));
        assert!(rt; self.does(rt, &event(rt, "tick S")));
    }

    fn flows(&mut self, rt: &impl Abort, millis: u64) -> bool {
        for _ in 0..millis / ROUND_MILLIS {
            self.round(rt);
        }
        true
    }

    /// Does what a step says, and answers whether it came out so.
    fn is_so(&mut self, rt: &impl Abort, step: Step) -> bool {
        match step {
            Step::Does(what) => {
                let event = self.event(rt, what);
                self.does(rt, &event)
            }
            Step::Refuses(what, why) => {
                let event = self.event(rt, what);
                self.apply(rt, &event).err() == Some(why)
            }
            Step::Flows(millis) => self.flows(rt, millis),
            Step::HasSent(count) => self.pair.sent().len() == count,
            Step::IsLost(index, is_lost) => self.sent(rt, index).is_lost() == is_lost,
            Step::IsPdu(index, of) => self.is_pdu(rt, index, of),
            Step::IsTime(micros) => self.time() == micros,
            Step::Shows(lamp) => self.pair.shown() == lamp,
            Step::EndIs(end, is_up, given, taken) => self.end_is(end, is_up, given, taken),
            Step::IsConfirmed(end, items) => self.pair.confirmed(end) == items,
        }
    }

    /// A script comes out as it says.
    pub(crate) fn plays(&mut self, rt: &impl Abort, script: &Script) {
        let (name, start, steps) = *script;
        if matches!(start, Start::Up) {
            self.flows(rt, 6030);
        }
        for (place, step) in steps.iter().enumerate() {
            assert!(rt; self.is_so(rt, *step), "{name}: step {place}");
        }
    }
}
