//! What a node takes from its networks.

ghost use Rattle.std.specs.Prelude.{◌≡◌, ◌+◌, ◌<◌, nat_lt, IfOk, IfSome, is_some, length, map, not, replicate, slice_get};
ghost use Rattle.datagram_hold.specs.Intake.{emptied, first_ready, forgotten, found_empty, given, held_by, is_fresh, new_hold, since, taken_by_it, taken_from};

use crate::incoming::Incoming;
use crate::network::Network;
use crate::sender_hold::SenderHold;
use rasta_pdu::Received;
use std::alloc::{AllocError, Global};
use std::marker::Model;

/// What a node takes from its networks: the holds of all senders, each by its place, and what was seen of each network. Clauses see it
/// as an `IntakeState`. Its memory is taken as it is made.
///
/// Each datagram counts from the reading before the last call that found its network empty, so it came later. What two sockets hand
/// out is bounded so in age, whatever waits in either.
#[derive(Drop)]
pub struct Intake {
    /// What the clock read last.
    latest: u64,
    /// What it had read before the last call that found a network empty.
    first: u64,
    second: u64,
    holds: Vec<SenderHold>,
}

impl Model for Intake {
    ghost use Rattle.datagram_hold.specs.Intake.{IntakeState};

    ghost Value = { IntakeState };

    ghost view = { λ i. record { latest = i.latest; first = i.first; second = i.second; holds = i.holds.items } };
}

impl Intake {
    /// An intake of so many senders, from none of which anything came, whose holds last for so many milliseconds. No network was found
    /// empty.
    pub fn new(alloc: Global, senders: usize, millis: u64) -> Result<Intake, AllocError>
        ensures { IfOk result (λ intake. intake ≡ record { latest = 0; first = 0; second = 0; holds = replicate senders (new_hold millis) }) }
    {
        let mut holds = Vec::new(alloc);
        for _ in 0..senders {
            holds.push(SenderHold::new(millis))?;
        }
        Ok(Intake {
            latest: 0,
            first: 0,
            second: 0,
            holds,
        })
    }

    /// The clock was read.
    pub fn note_reading(&mut self, reading: u64)
        ensures { self.new ≡ record self.old { latest = reading } }
    {
        self.latest = reading;
    }

    /// A call found a network empty.
    pub fn note_empty(&mut self, network: Network)
        ensures { self.new ≡ found_empty network self.old }
    {
        match network {
            Network::First => self.first = self.latest,
            Network::Second => self.second = self.latest,
        }
    }

    /// Whether each network was found empty less than so many milliseconds before the latest reading.
    pub fn is_fresh(&self, millis: u64) -> bool
        ensures { result ≡ is_fresh millis self.now }
    {
        is_less(self.latest, self.first, millis) && is_less(self.latest, self.second, millis)
    }

    /// What the clock read last.
    pub fn latest(&self) -> u64
        ensures { result ≡ self.now.latest }
    {
        self.latest
    }

    /// Whether a network was found empty less than so many milliseconds before the latest reading.
    pub fn is_fresh_in(&self, network: Network, millis: u64) -> bool
        ensures { result ≡ nat_lt self.now.latest (since network self.now + millis) }
    {
        is_less(self.latest, self.since(network), millis)
    }

    /// Whether nothing is handed out at a reading.
    pub fn has_none(&self, now: u64) -> bool
        ensures { result ≡ not (is_some (first_ready now self.now.holds)) }
    {
        first_ready(now, self.holds.as_slice()).is_none()
    }

    /// A datagram of the sender at a place came from a network. It answers what of this sender is handed out at once. Where there is
    /// no such sender it waits for nothing.
    #[tactic(auto, using(crate::proofs::Intakes::from_no_sender))]
    pub fn take(&mut self, network: Network, place: usize, bytes: Received) -> Option<Incoming>
        ensures handed { result ≡ (taken_from network place bytes.items self.old).0 }
        ensures after { self.new ≡ (taken_from network place bytes.items self.old).1 }
    {
        let at = self.since(network);
        let incoming = Incoming::new(at, place, network, bytes);
        if place < self.holds.len() {
            self.take_at(place, incoming)
        } else {
            Some(incoming)
        }
    }

    /// The sender at a place takes a datagram.
    fn take_at(&mut self, place: usize, incoming: Incoming) -> Option<Incoming>
        requires { place < length self.old.holds }
        ensures handed { result ≡ (taken_by_it place incoming self.old.holds (slice_get self.old.holds place)).0 }
        ensures after { self.new ≡ record self.old { holds = (taken_by_it place incoming self.old.holds (slice_get self.old.holds place)).1 } }
    {
        let hold = &mut self.holds[place];
        hold.take(incoming)
    }

    /// The next datagram that is handed out at a reading, if there is one, with the place of its sender.
    pub fn next(&mut self, now: u64) -> Option<(usize, Incoming)>
        ensures handed { result ≡ (given now self.old).0 }
        ensures after { self.new ≡ (given now self.old).1 }
    {
        let place = first_ready(now, self.holds.as_slice())?;
        let hold = &mut self.holds[place];
        match hold.next(now) {
            Some(incoming) => Some((place, incoming)),
            None => None,
        }
    }

    /// Drops all that waits, and answers how many that were.
    pub fn forget(&mut self) -> u64
        ensures count { result ≡ held_by self.old.holds }
        ensures after { self.new ≡ forgotten self.old }
    {
        let count = held_by(self.holds.as_slice());
        forget_all(&mut self.holds);
        count
    }

    /// After which reading what waits in a network came.
    fn since(&self, network: Network) -> u64
        ensures { result ≡ since network self.now }
    {
        match network {
            Network::First => self.first,
            Network::Second => self.second,
        }
    }
}

/// Whether a reading is less than so long after another.
fn is_less(reading: u64, other: u64, millis: u64) -> bool
    ensures { result ≡ nat_lt reading (other + millis) }
{
    reading < other || reading - other < millis
}

/// How many wait in these holds.
fn held_by(holds: &[SenderHold]) -> u64
    ensures { result ≡ held_by holds.now }
{
    match holds.split_first() {
        Some((hold, others)) => hold.held().saturating_add(held_by(others)),
        None => 0,
    }
}

/// Drops what waits in these holds.
fn forget_all(holds: &mut [SenderHold])
    ensures { holds.new ≡ map emptied holds.old }
{
    for hold in holds.iter_mut() {
        hold.forget();
    }
}

/// The first sender whose hold hands out something at a reading.
fn first_ready(now: u64, holds: &[SenderHold]) -> Option<usize>
    ensures place { result ≡ first_ready now holds.now }
    ensures within { IfSome result (λ place. place < length holds.now) }
{
    let (hold, others) = holds.split_first()?;
    if hold.has_next(now) {
        return Some(0);
    }
    match first_ready(now, others) {
        Some(place) => Some(1 + place),
        None => None,
    }
}
