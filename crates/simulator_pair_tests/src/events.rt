//! Events as a hostile world would have them.

use chance::Chance;
use rasta_core::MICROS;
use simulator_pair::{Bytes, Item, Pair, PairEvent, Reason, Role, Sent};

/// How long a datagram can be delivered, in microseconds.
const LIFETIME: u64 = 2_000_000;

/// After so many milliseconds the stamps of a clock begin anew.
pub(crate) const TURN: u64 = 1 << 32;

/// How many turns a clock has at most: it stays below 9000000000000 ms.
const TURNS: u32 = 2095;

/// A run of events: which datagrams it has delivered in their turn.
#[derive(Drop)]
pub(crate) struct Hostile {
    chance: Chance,
    delivered: usize,
}

/// The other end.
pub(crate) fn partner(end: Role) -> Role {
    match end {
        Role::Client => Role::Server,
        Role::Server => Role::Client,
    }
}

/// Whether a datagram can be delivered: it isn't lost, and not too old.
pub(crate) fn can_arrive(pair: &Pair, sent: &Sent) -> bool {
    !sent.is_lost() && pair.time().saturating_sub(sent.at()) <= LIFETIME
}

fn copied(bytes: &[u8]) -> Bytes {
    let mut copy = Bytes::new();
    let _ = copy.try_extend_from_slice(bytes);
    copy
}

impl Hostile {
    pub(crate) fn seeded(seed: u64) -> Hostile {
        Hostile {
            chance: Chance::seeded(seed),
            delivered: 0,
        }
    }

    /// What happens next.
    pub(crate) fn next(&mut self, pair: &Pair) -> PairEvent {
        match self.chance.below(2000) {
            0..=199 => self.give(),
            200..=599 => PairEvent::Tick(self.end()),
            600..=999 => self.time(pair),
            1000..=1959 => self.deliver(pair),
            1960..=1993 => self.lose(pair),
            1994..=1996 => PairEvent::Close(self.end(), self.reason()),
            _ => self.restart(pair),
        }
    }

    fn end(&mut self) -> Role {
        if self.chance.once_in(2) {
            Role::Client
        } else {
            Role::Server
        }
    }

    /// An item: proceed, stop, or some bytes.
    fn give(&mut self) -> PairEvent {
        let length = 1 + self.chance.below(61);
        let mut bytes = Bytes::new();
        for _ in 0..length {
            let _ = bytes.try_push(self.chance.byte());
        }
        let aspect: &[u8] = match self.chance.below(3) {
            0 => &[0x04],
            1 => &[0x01],
            _ => bytes.as_slice(),
        };
        let item = Item::of(aspect).unwrap_or_default();
        PairEvent::Give(self.end(), item)
    }

    /// Time goes on, in long steps where an end is down; and sometimes a clock leaves it.
    fn time(&mut self, pair: &Pair) -> PairEvent {
        let is_up = pair.is_up(Role::Client) && pair.is_up(Role::Server);
        let most = if self.chance.once_in(600) {
            7_000_000
        } else if is_up {
            30_000
        } else {
            700_000
        };
        let elapsed = self.chance.below(most);
        PairEvent::Time {
            elapsed: u64::from(elapsed),
            of_client: self.drifted(elapsed),
            of_server: self.drifted(elapsed),
        }
    }

    /// A clock that goes on by at most one in a thousand more or less, or, now and then, by more.
    fn drifted(&mut self, elapsed: u32) -> u64 {
        let most = elapsed / 1000;
        let drift = self.chance.below(2 * most + 1);
        let within = u64::from(elapsed) + u64::from(drift) - u64::from(most);
        if self.chance.once_in(60) {
            2 * within + 1
        } else {
            within
        }
    }

    /// Most often the next datagram in its turn, else some other again; and sometimes damaged, or at its own sender.
    fn deliver(&mut self, pair: &Pair) -> PairEvent {
        let index = if self.chance.once_in(4) {
            self.recent(pair)
        } else {
            self.in_turn(pair)
        };
        let Some(sent) = pair.sent().get(index) else {
            return PairEvent::Deliver(self.end(), self.noise());
        };
        let receiver = if self.chance.once_in(30) {
            sent.sender()
        } else {
            partner(sent.sender())
        };
        PairEvent::Deliver(receiver, self.perhaps_damaged(sent))
    }

    /// The place of the first datagram that had no turn yet and can be delivered.
    fn in_turn(&mut self, pair: &Pair) -> usize {
        let count = pair.sent().len();
        let mut found = count;
        for (index, sent) in pair.sent().iter().enumerate().skip(self.delivered) {
            if can_arrive(pair, sent) {
                found = index;
                break;
            }
        }
        self.delivered = found.saturating_add(1).min(count);
        found
    }

    /// The place of a datagram that was sent: mostly one of the last.
    fn recent(&mut self, pair: &Pair) -> usize {
        let back = match self.chance.below(10) {
            0 => self.chance.word() as usize,
            1..=3 => self.chance.below(100) as usize,
            _ => self.chance.below(8) as usize,
        };
        let count = pair.sent().len();
        let back = back.checked_rem(count).unwrap_or(0);
        count.saturating_sub(back + 1)
    }

    /// Bytes that never were a datagram.
    fn noise(&mut self) -> Bytes {
        let mut bytes = Bytes::new();
        for _ in 0..self.chance.below(60) {
            let _ = bytes.try_push(self.chance.byte());
        }
        bytes
    }

    /// The bytes of a datagram; sometimes one of them is another, or the end is missing.
    fn perhaps_damaged(&mut self, sent: &Sent) -> Bytes {
        let mut bytes = copied(sent.bytes());
        let place = self.chance.below(300) as usize;
        match self.chance.below(24) {
            0 => bytes.truncate(place),
            1 => {
                let other = self.chance.byte();
                if let Some(byte) = bytes.get_mut(place) {
                    *byte = other;
                }
            }
            _ => {}
        }
        bytes
    }

    fn lose(&mut self, pair: &Pair) -> PairEvent {
        let index = self.recent(pair);
        match pair.sent().get(index) {
            Some(sent) => PairEvent::Lose(copied(sent.bytes())),
            None => PairEvent::Lose(self.noise()),
        }
    }

    fn reason(&mut self) -> Reason {
        match self.chance.below(6) {
            0 => Reason::User,
            1 => Reason::State,
            2 => Reason::Sequence,
            3 => Reason::Time,
            4 => Reason::Version,
            _ => Reason::Window,
        }
    }

    /// An end is made anew: with the clock and the number that it once had, or others; with numbers or stamps that are
    /// about to wrap, or a clock that is past its limit.
    fn restart(&mut self, pair: &Pair) -> PairEvent {
        let clock = match self.chance.below(12) {
            0..=3 => 0,
            4..=6 => pair.time() / MICROS,
            7..=8 => self.before_a_turn(),
            9 => u64::from(self.chance.word()) * 2,
            _ => u64::MAX - u64::from(self.chance.word()),
        };
        let first_sequence_number = match self.chance.below(3) {
            0 => 0,
            1 => u32::MAX - self.chance.below(20),
            _ => self.chance.word(),
        };
        PairEvent::Restart {
            end: self.end(),
            clock,
            first_sequence_number,
        }
    }

    /// A clock whose stamp wraps soon after the end may open again: for the first time, or for some later one.
    fn before_a_turn(&mut self) -> u64 {
        let turns = if self.chance.once_in(2) {
            1
        } else {
            1 + self.chance.below(TURNS)
        };
        TURN * u64::from(turns) - u64::from(5000 + self.chance.below(5000))
    }

    /// The events with which a run begins: both ends are made anew with a clock just below a turn of the stamps.
    pub(crate) fn begin(&mut self) -> [PairEvent; 2] {
        let [client, server] = [self.before_a_turn(), self.before_a_turn()];
        [
            PairEvent::Restart {
                end: Role::Client,
                clock: client,
                first_sequence_number: self.chance.word(),
            },
            PairEvent::Restart {
                end: Role::Server,
                clock: server,
                first_sequence_number: self.chance.word(),
            },
        ]
    }
}
