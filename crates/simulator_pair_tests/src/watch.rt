//! The sentences of the theorem, evaluated on what a pair stores.

use crate::events::{TURN, can_arrive, partner};
use rasta_core::MICROS;
use simulator_pair::{
    Aspect, Item, Pair, PairAnswer, PairEvent, PairReply, Refused, Role, SendFault, Sent,
};
use std::process::Abort;

/// How fresh an item is that is taken, in microseconds.
const FRESHNESS: u64 = 1_802_000;

const PROCEED: u8 = 0x04;

const STOP: u8 = 0x01;

/// The types of a connection request, 6200, and of a retransmission response, 6213, as their bytes stand in a datagram.
const REQUEST: [u8; 2] = [0x38, 0x18];

const ANSWER: [u8; 2] = [0x45, 0x18];

/// What was seen of an end.
#[derive(Clone, Copy)]
struct EndSeen {
    /// The connection that it entered last.
    connection: Option<usize>,
    is_up: bool,
    given: usize,
    taken: usize,
    confirmed: u64,
}

/// What was seen of a pair.
#[derive(Clone, Copy)]
pub(crate) struct Watch {
    client: EndSeen,
    server: EndSeen,
    sent: usize,
    lamp: Aspect,
    /// The clocks of the client and of the server, in microseconds.
    clocks: [u64; 2],
    /// How many datagrams were sent when the server last left a connection, or was made anew.
    left: usize,
}

/// Which end it is.
fn is_client(end: Role) -> bool {
    matches!(end, Role::Client)
}

fn is_same(one: Role, other: Role) -> bool {
    is_client(one) == is_client(other)
}

/// Whether a datagram has this type.
fn is_of_type(sent: &Sent, wanted: [u8; 2]) -> bool {
    matches!(sent.bytes(), [_, _, first, second, ..] if [*first, *second] == wanted)
}

/// Each end sends something as it enters a connection: so it was last in that of the datagram that it sent last.
fn last_connection(pair: &Pair, end: Role) -> Option<usize> {
    for sent in pair.sent().iter().rev() {
        if is_same(sent.sender(), end) {
            return Some(sent.connection());
        }
    }
    None
}

fn look_at(pair: &Pair, end: Role) -> EndSeen {
    EndSeen {
        connection: last_connection(pair, end),
        is_up: pair.is_up(end),
        given: pair.given(end).len(),
        taken: pair.taken(end).len(),
        confirmed: pair.confirmed(end),
    }
}

/// The copy that a delivery of these bytes delivers: the newest that can be delivered.
fn delivered<'a>(pair: &'a Pair, bytes: &[u8]) -> Option<&'a Sent> {
    for sent in pair.sent().iter().rev() {
        if can_arrive(pair, sent) && sent.bytes() == bytes {
            return Some(sent);
        }
    }
    None
}

/// Whether an item is this byte alone.
fn is_byte(item: &Item, byte: u8) -> bool {
    item.bytes() == [byte].as_slice()
}

/// The last aspect among some items, stop where there is none.
fn last_aspect(items: &[Item]) -> Aspect {
    for item in items.iter().rev() {
        if is_byte(item, PROCEED) {
            return Aspect::Proceed;
        }
        if is_byte(item, STOP) {
            return Aspect::Stop;
        }
    }
    Aspect::Stop
}

/// Whether an item proceed was taken after the last stop among the first of these.
fn has_later_proceed(given: &[Item], taken: &[Item], confirmed: usize) -> bool {
    let mut behind = 0;
    for (index, item) in given.iter().enumerate() {
        if index < confirmed && is_byte(item, STOP) {
            behind = index + 1;
        }
    }
    for item in taken.iter().skip(behind) {
        if is_byte(item, PROCEED) {
            return true;
        }
    }
    behind == 0
}

/// What is counted of all runs.
#[derive(Clone, Copy)]
pub(crate) enum Count {
    TakenByClient,
    TakenByServer,
    Confirmed,
    Connections,
    Answers,
    Restarts,
    Closes,
    WindowFull,
    ProceedShown,
    ProceedFell,
    NeverSent,
    Drift,
    ClockLimit,
    /// How often the stamp of an end wrapped while both were up.
    Turns,
}

/// How often what happened in all runs.
#[derive(Clone, Copy)]
pub(crate) struct Tally {
    counts: [usize; 14],
}

impl Tally {
    pub(crate) fn new() -> Tally {
        Tally { counts: [0; 14] }
    }

    /// It happened so many times more.
    fn add(&mut self, what: Count, times: usize) {
        if let Some(count) = self.counts.get_mut(what as usize) {
            *count = count.saturating_add(times);
        }
    }

    pub(crate) fn of(&self, what: Count) -> usize {
        self.counts.get(what as usize).copied().unwrap_or(0)
    }
}

impl Watch {
    pub(crate) fn new(pair: &Pair) -> Watch {
        Watch {
            client: look_at(pair, Role::Client),
            server: look_at(pair, Role::Server),
            sent: pair.sent().len(),
            lamp: pair.shown(),
            clocks: [0, 0],
            left: 0,
        }
    }

    fn of(&self, end: Role) -> EndSeen {
        match end {
            Role::Client => self.client,
            Role::Server => self.server,
        }
    }

    /// Whether the server left a connection in an event, or was made anew.
    fn server_left(&self, now: &Watch, event: &PairEvent) -> bool {
        match event {
            PairEvent::Restart { end, .. } => !is_client(*end),
            PairEvent::Close(Role::Server, _) => now.sent > self.sent,
            _ => self.server.is_up && !now.server.is_up,
        }
    }

    /// Looks at a pair after an event, and asserts what holds of it.
    pub(crate) fn look(
        &mut self,
        rt: &impl Abort,
        pair: &Pair,
        event: &PairEvent,
        answer: Result<PairReply, Refused>,
        tally: &mut Tally,
    ) {
        let mut now = Watch::new(pair);
        now.left = self.left;
        now.clocks = self.clocks;
        match answer {
            Ok(reply) => {
                now.clocks = clocks_after(self.clocks, event);
                if self.server_left(&now, event) {
                    now.left = now.sent;
                }
                self.happened(rt, &now, pair, event, reply);
                self.count(&now, pair, event, reply, tally);
            }
            Err(why) => count_refusal(why, tally),
        }
        connection_is_safe(rt, &now, pair);
        lamp_is_due(rt, &now, pair);
        *self = now;
    }

    fn happened(
        &self,
        rt: &impl Abort,
        now: &Watch,
        pair: &Pair,
        event: &PairEvent,
        reply: PairReply,
    ) {
        for end in [Role::Client, Role::Server] {
            let receives = matches!(event, PairEvent::Deliver(who, _) if is_same(*who, end));
            if !receives {
                self.takes_nothing(rt, now, end);
            }
        }
        assert!(rt; Some(now.sent) == self.sent.checked_add(reply.added));
        match (event, reply.answer) {
            (PairEvent::Deliver(end, bytes), _) => self.takes_rightly(rt, now, pair, *end, bytes),
            (PairEvent::Give(end, _), PairAnswer::Given(answer)) => {
                let more = now.of(*end).given.checked_sub(self.of(*end).given);
                assert!(rt; more == Some(usize::from(answer.is_ok())));
            }
            _ => {}
        }
    }

    /// An end to which nothing was delivered takes nothing, and enters no connection but as a client that opens.
    fn takes_nothing(&self, rt: &impl Abort, now: &Watch, end: Role) {
        let (old, new) = (self.of(end), now.of(end));
        if old.connection == new.connection {
            assert!(rt; old.taken == new.taken);
        } else {
            assert!(rt; is_client(end));
            assert!(rt; (new.given, new.taken) == (0, 0));
        }
        assert!(rt; new.confirmed <= old.confirmed);
        assert!(rt; old.is_up || !new.is_up);
    }

    /// An end takes only from a datagram of the connection that it is in then, items only from a fresh one, and a
    /// server enters a connection by a request that was sent after it last left one.
    fn takes_rightly(&self, rt: &impl Abort, now: &Watch, pair: &Pair, end: Role, bytes: &[u8]) {
        let (old, new) = (self.of(end), now.of(end));
        let enters = old.connection != new.connection;
        let items = if enters {
            new.taken > 0
        } else {
            new.taken != old.taken
        };
        let takes = enters || items || new.confirmed > old.confirmed || new.is_up && !old.is_up;
        if !takes {
            return;
        }
        let copy = delivered(pair, bytes).expect(rt, "it takes only what was sent");
        assert!(rt; Some(copy.connection()) == new.connection);
        assert!(rt; !is_same(copy.sender(), end));
        assert!(rt; !items || pair.time().saturating_sub(copy.at()) < FRESHNESS);
        if enters {
            assert!(rt; !is_client(end) && is_of_type(copy, REQUEST));
            assert!(rt; copy.connection() >= self.left);
            assert!(rt; old.connection < new.connection);
        }
    }

    /// Counts the stamps that wrapped while both ends were up.
    fn count_turns(&self, now: &Watch, tally: &mut Tally) {
        let ([old_client, old_server], [client, server]) = (self.clocks, now.clocks);
        if self.client.is_up && self.server.is_up {
            tally.add(Count::Turns, turns(old_client, client));
            tally.add(Count::Turns, turns(old_server, server));
        }
    }

    fn count(
        &self,
        now: &Watch,
        pair: &Pair,
        event: &PairEvent,
        reply: PairReply,
        tally: &mut Tally,
    ) {
        for sent in pair.sent().iter().skip(self.sent) {
            if is_of_type(sent, ANSWER) {
                tally.add(Count::Answers, 1);
            }
        }
        if self.server.connection != now.server.connection {
            tally.add(Count::Connections, 1);
        }
        let client = now.client.taken.saturating_sub(self.client.taken);
        tally.add(Count::TakenByClient, client);
        let server = now.server.taken.saturating_sub(self.server.taken);
        tally.add(Count::TakenByServer, server);
        let (old, new) = (self.client.confirmed, now.client.confirmed);
        tally.add(Count::Confirmed, new.saturating_sub(old) as usize);
        match (self.lamp, now.lamp) {
            (Aspect::Stop, Aspect::Proceed) => tally.add(Count::ProceedShown, 1),
            (Aspect::Proceed, Aspect::Stop) => tally.add(Count::ProceedFell, 1),
            _ => {}
        }
        match (event, reply.answer) {
            (PairEvent::Restart { .. }, _) => tally.add(Count::Restarts, 1),
            (PairEvent::Time { .. }, _) => self.count_turns(now, tally),
            (PairEvent::Close(..), _) => tally.add(Count::Closes, 1),
            (_, PairAnswer::Given(Err(SendFault::WindowFull))) => tally.add(Count::WindowFull, 1),
            _ => {}
        }
    }
}

/// Both clocks after an event.
fn clocks_after(clocks: [u64; 2], event: &PairEvent) -> [u64; 2] {
    let [client, server] = clocks;
    match event {
        PairEvent::Time {
            of_client,
            of_server,
            ..
        } => [
            client.saturating_add(*of_client),
            server.saturating_add(*of_server),
        ],
        PairEvent::Restart {
            end: Role::Client,
            clock,
            ..
        } => [clock.saturating_mul(MICROS), server],
        PairEvent::Restart {
            end: Role::Server,
            clock,
            ..
        } => [client, clock.saturating_mul(MICROS)],
        _ => clocks,
    }
}

/// How often the stamps of a clock began anew as time passed.
fn turns(old: u64, new: u64) -> usize {
    let turn = TURN * MICROS;
    (new / turn).saturating_sub(old / turn) as usize
}

fn count_refusal(why: Refused, tally: &mut Tally) {
    match why {
        Refused::NeverSent => tally.add(Count::NeverSent, 1),
        Refused::Drift => tally.add(Count::Drift, 1),
        Refused::ClockLimit => tally.add(Count::ClockLimit, 1),
        Refused::NoSuchNode | Refused::NotDriven | Refused::OutOfMemory => {}
    }
}

/// In a connection that is the last of both ends: what each took is a beginning of what the other gave, and no more is
/// held for confirmed; and where a stop is, the lamp shows proceed only by a later one.
fn connection_is_safe(rt: &impl Abort, now: &Watch, pair: &Pair) {
    if now.client.connection.is_none() || now.client.connection != now.server.connection {
        return;
    }
    for end in [Role::Client, Role::Server] {
        let (given, taken) = (pair.given(end), pair.taken(partner(end)));
        assert!(rt; given.starts_with(taken));
        assert!(rt; now.of(end).confirmed <= taken.len() as u64);
    }
    let confirmed = now.client.confirmed as usize;
    if now.lamp == Aspect::Proceed {
        assert!(rt;
            has_later_proceed(
                pair.given(Role::Client),
                pair.taken(Role::Server),
                confirmed
            )
        );
    }
}

/// Whether the client sent something in a connection so lately that its partner may still be in it.
fn is_lately_heard(pair: &Pair, connection: Option<usize>) -> bool {
    for sent in pair.sent().iter().rev() {
        if is_client(sent.sender()) && Some(sent.connection()) == connection {
            return pair.time().saturating_sub(sent.at()) < FRESHNESS;
        }
    }
    false
}

/// The lamp shows the last aspect that the server took in the connection that it is in, and stop outside; and proceed
/// only where the client sent something in this connection less than 1802 ms before.
fn lamp_is_due(rt: &impl Abort, now: &Watch, pair: &Pair) {
    let due = if now.server.is_up {
        last_aspect(pair.taken(Role::Server))
    } else {
        Aspect::Stop
    };
    assert!(rt; now.lamp == due);
    if due == Aspect::Proceed {
        assert!(rt; is_lately_heard(pair, now.server.connection));
    }
}
