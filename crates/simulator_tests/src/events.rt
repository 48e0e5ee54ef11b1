//! Events of a station as a hostile world would have them.

ghost use Rattle.std.specs.Prelude.{◌<◌};

use crate::tally::{Count, Tally};
use crate::trains::Train;
use chance::Chance;
use simulator::{
    Aspect, Checked, ClockSteps, Command, Event, MICROS, NodeId, Occupancy, PointId, Position,
    RawDatagram, Role, RouteId, SectionId, SentOn, Side, Snapshot, World,
};
use std::alloc::{AllocError, Global};

/// How long a datagram can be delivered, in microseconds.
const LIFETIME: u64 = 2_000_000;

/// After so many milliseconds the stamps of a clock begin anew.
const TURN: u64 = 1 << 32;

/// The greatest clock that a node can be given, in milliseconds.
const GREATEST_CLOCK: u64 = 9_000_000_000_000;

/// By how many microseconds time goes on at most, as a rule: so little that every node is ticked in time.
const LONGEST_STEP: u32 = 30_000;

/// After so many microseconds a route that was released is free.
const RELEASED: u32 = 121_000_000;

/// How many trains run at once at most.
const TRAINS: usize = 4;

/// A run of events: which datagrams it has delivered in their turn, which node it ticked last, how the clocks of the
/// nodes drift, where the trains are, and whether somebody operates the station through failures.
#[derive(Drop)]
pub(crate) struct Hostile {
    pub(crate) chance: Chance,
    pub(crate) delivered: usize,
    ticked: usize,
    drifts: u64,
    trains: [Option<Train>; TRAINS],
    pub(crate) operates: bool,
}

/// The node that a datagram is for: the interlocking is the client of every link.
pub(crate) fn receiver(sent: &SentOn<'_>) -> NodeId {
    match sent.sender {
        Role::Client => NodeId(sent.link.saturating_add(1)),
        Role::Server => NodeId(0),
    }
}

/// Whether a signal shows more than stop.
pub(crate) fn is_open(seen: &Snapshot) -> bool {
    for shown in seen.shows.as_slice() {
        if shown.0 != Aspect::Stop {
            return true;
        }
    }
    false
}

impl Hostile {
    pub(crate) fn seeded(seed: u64) -> Hostile {
        let mut chance = Chance::seeded(seed);
        let (low, high) = (u64::from(chance.word()), u64::from(chance.word()));
        Hostile {
            chance,
            delivered: 0,
            ticked: 0,
            drifts: low | high << 32,
            trains: [None; TRAINS],
            operates: false,
        }
    }

    /// A place below this one.
    pub(crate) fn place(&mut self, limit: usize) -> usize {
        self.chance.place(limit)
    }

    /// What happens next.
    pub(crate) fn next(
        &mut self,
        alloc: Global,
        world: &World,
        seen: &Snapshot,
        tally: &mut Tally,
    ) -> Result<Event, AllocError> {
        let table = world.table();
        match self.chance.below(10_000) {
            0..=4299 => self.deliver_in_turn(alloc, world, tally),
            4300..=7099 => Ok(self.tick(table)),
            7100..=8599 => self.time(alloc, table),
            8600..=8899 => self.deliver_again(alloc, world, tally),
            8900..=8919 => self.lose(alloc, world),
            8920..=9219 => Ok(self.command(table)),
            9220..=9749 => Ok(self.train(table, seen)),
            9750..=9974 => Ok(self.reach(seen)),
            9975..=9984 => Ok(self.occupy(table)),
            _ => Ok(self.perhaps_restart(world, seen)),
        }
    }

    /// Mostly the next node in order, and at times any number.
    fn tick(&mut self, table: &Checked) -> Event {
        let nodes = table.layout().nodes();
        if self.chance.once_in(20) {
            return Event::Tick(NodeId(self.place(nodes.saturating_add(1))));
        }
        self.ticked = self.ticked.saturating_add(1);
        if self.ticked >= nodes {
            self.ticked = 0;
        }
        Event::Tick(NodeId(self.ticked))
    }

    /// Time goes on; and at times a clock goes on by too much.
    fn time(&mut self, alloc: Global, table: &Checked) -> Result<Event, AllocError> {
        let nodes = table.layout().nodes();
        let most = match self.chance.below(6000) {
            0 => 7_000_000,
            1..=3 => 1_500_000,
            4..=60 => 400_000,
            _ => LONGEST_STEP,
        };
        let elapsed = if self.operates && self.chance.once_in(400) {
            RELEASED
        } else {
            self.chance.below(most)
        };
        let mut clocks = Vec::new(alloc);
        for node in 0..nodes {
            clocks.push(self.of_clock(node, elapsed))?;
        }
        Ok(Event::Time {
            elapsed: u64::from(elapsed),
            clocks: ClockSteps::of(clocks),
        })
    }

    /// How far the clock of a node goes on. One clock in four always lags as much as it may, one always leads, one keeps
    /// true time, and one wanders.
    fn of_clock(&mut self, node: usize, elapsed: u32) -> u64 {
        let most = elapsed / 1000;
        let place = u32::try_from(node).unwrap_or(0).wrapping_mul(2);
        let turned = self.drifts.rotate_left(place);
        let lead = match turned % 4 {
            0 => 0,
            1 => most,
            2 => most.saturating_mul(2),
            _ => self.chance.below(most.saturating_mul(2).saturating_add(1)),
        };
        let within = (u64::from(elapsed) + u64::from(lead)).saturating_sub(u64::from(most));
        if self.chance.once_in(2000) {
            within.saturating_mul(2).saturating_add(1)
        } else {
            within
        }
    }

    /// The next datagram that had no turn yet and can be delivered; a few are passed over. Where there is none, time
    /// goes on.
    fn deliver_in_turn(
        &mut self,
        alloc: Global,
        world: &World,
        tally: &mut Tally,
    ) -> Result<Event, AllocError> {
        let network = world.network();
        let mut next = self.delivered;
        for place in self.delivered..network.len() {
            next = place.saturating_add(1);
            let Some(sent) = network.get(place) else {
                continue;
            };
            if sent.is_lost || world.time().saturating_sub(sent.at) > LIFETIME {
                continue;
            }
            if self.chance.once_in(400) {
                tally.once_more(Count::PassedOver);
                continue;
            }
            self.delivered = next;
            return self.delivery(alloc, world, &sent, tally);
        }
        self.delivered = next;
        self.time(alloc, world.table())
    }

    /// One of the last datagrams, once more or out of turn; or bytes that never were one.
    fn deliver_again(
        &mut self,
        alloc: Global,
        world: &World,
        tally: &mut Tally,
    ) -> Result<Event, AllocError> {
        let place = self.recent(world);
        let is_noise = self.chance.once_in(40);
        match world.network().get(place) {
            Some(sent) => {
                if is_noise {
                    return self.deliver_noise(alloc, world);
                }
                tally.once_more(Count::Repeated);
                self.delivery(alloc, world, &sent, tally)
            }
            None => self.deliver_noise(alloc, world),
        }
    }

    /// The delivery of bytes that never were a datagram.
    fn deliver_noise(&mut self, alloc: Global, world: &World) -> Result<Event, AllocError> {
        let node = NodeId(self.place(world.table().layout().nodes()));
        let bytes = self.noise(alloc)?;
        Ok(Event::Deliver { node, bytes })
    }

    /// The delivery of a datagram, now and then damaged or to another node than the one that it is for.
    fn delivery(
        &mut self,
        alloc: Global,
        world: &World,
        sent: &SentOn<'_>,
        tally: &mut Tally,
    ) -> Result<Event, AllocError> {
        let mut node = receiver(sent);
        if self.chance.once_in(300) {
            tally.once_more(Count::Misdirected);
            node = NodeId(self.place(world.table().layout().nodes()));
        }
        let mut bytes = Vec::from_slice(alloc, sent.bytes)?;
        if self.chance.once_in(300) {
            tally.once_more(Count::Damaged);
            self.damage(&mut bytes);
        }
        Ok(Event::Deliver {
            node,
            bytes: RawDatagram::of(bytes),
        })
    }

    /// One byte is another, or the end is missing.
    fn damage(&mut self, bytes: &mut Vec<u8>) {
        let place = self.place(bytes.len());
        let other = self.chance.byte();
        if self.chance.once_in(4) {
            bytes.truncate(place);
        } else if let Some(byte) = bytes.get_mut(place) {
            *byte = other;
        }
    }

    /// Bytes that never were a datagram.
    fn noise(&mut self, alloc: Global) -> Result<RawDatagram, AllocError> {
        let mut bytes = Vec::new(alloc);
        for _ in 0..self.chance.below(60) {
            bytes.push(self.chance.byte())?;
        }
        Ok(RawDatagram::of(bytes))
    }

    /// The place of a datagram that was sent: mostly one of the last.
    fn recent(&mut self, world: &World) -> usize {
        let count = world.network().len();
        let back = match self.chance.below(40) {
            0 => self.place(count),
            1..=9 => self.place(200),
            _ => self.place(12),
        };
        count.saturating_sub(back.saturating_add(1))
    }

    fn lose(&mut self, alloc: Global, world: &World) -> Result<Event, AllocError> {
        let place = self.recent(world);
        match world.network().get(place) {
            Some(sent) => Ok(Event::Lose(RawDatagram::of(Vec::from_slice(alloc, sent.bytes)?))),
            None => Ok(Event::Lose(self.noise(alloc)?)),
        }
    }

    /// A command, or a section that is occupied or cleared.
    pub(crate) fn incident(&mut self, table: &Checked) -> Event {
        if self.chance.once_in(2) {
            self.command(table)
        } else {
            self.occupy(table)
        }
    }

    /// Mostly a route is requested, at times one that the table lacks.
    fn command(&mut self, table: &Checked) -> Event {
        let routes = table.layout().routes().len();
        let route = RouteId(self.place(routes));
        if self.operates && self.chance.once_in(3) {
            return Event::Request(self.operation(table));
        }
        Event::Request(match self.chance.below(40) {
            0 => Command::Request(RouteId(routes)),
            1..=3 => Command::Cancel(route),
            4..=9 => Command::Resume,
            _ => Command::Request(route),
        })
    }

    /// A train goes on; where none is, one comes to a signal that shows more than stop.
    fn train(&mut self, table: &Checked, seen: &Snapshot) -> Event {
        let slot = self.place(TRAINS);
        let Some(mut train) = self.trains.get(slot).copied().flatten() else {
            let coming = self.coming(seen);
            self.put(slot, coming);
            return self.tick(table);
        };
        let moved = train.proceed(table);
        let is_gone = train.has_left(table);
        self.put(slot, if is_gone { None } else { Some(train) });
        match moved {
            Some((section, occupancy)) => Event::Occupy { section, occupancy },
            None => self.tick(table),
        }
    }

    /// What is at a place of the trains from now on.
    fn put(&mut self, slot: usize, train: Option<Train>) {
        if let Some(place) = self.trains.get_mut(slot) {
            *place = train;
        }
    }

    /// A train to one of the signals that show more than stop.
    fn coming(&mut self, seen: &Snapshot) -> Option<Train> {
        let place = self.place(seen.held.as_slice().len());
        let held = seen.held.as_slice().get(place)?;
        let shown = seen.shows.as_slice().get(held.signal.0)?;
        if shown.0 == Aspect::Stop {
            return None;
        }
        Some(Train::to(held.route))
    }

    /// A section is seen occupied for no reason, or clear again.
    fn occupy(&mut self, table: &Checked) -> Event {
        let section = SectionId(self.place(table.layout().sections().len()));
        let occupancy = if self.chance.once_in(10) {
            Occupancy::Occupied
        } else {
            Occupancy::Clear
        };
        Event::Occupy { section, occupancy }
    }

    /// A point comes to lie, mostly where it is driven to.
    fn reach(&mut self, seen: &Snapshot) -> Event {
        let count = seen.driven.as_slice().len();
        let first = self.place(count);
        let mut point = PointId(first);
        let mut position = Position::Right;
        for place in 0..count {
            if let Some(Some(side)) = seen.driven.as_slice().get(place) {
                point = PointId(place);
                position = match side {
                    Side::Right => Position::Right,
                    Side::Left => Position::Left,
                };
                if place >= first {
                    break;
                }
            }
        }
        if self.chance.once_in(12) {
            position = Position::NoEndPosition;
        }
        if self.chance.once_in(30) {
            position = Position::Left;
        }
        Event::Reach { point, position }
    }

    /// A node is made anew; mostly only where a signal shows more than stop, since that is the dangerous moment.
    fn perhaps_restart(&mut self, world: &World, seen: &Snapshot) -> Event {
        let nodes = world.table().layout().nodes();
        if !is_open(seen) && !self.chance.once_in(24) {
            return self.tick(world.table());
        }
        let node = if self.chance.once_in(3) {
            0
        } else {
            self.place(nodes)
        };
        self.restart(world, node)
    }

    /// A node is made anew: with the clock and the number that it once had, or others; with stamps or numbers that are
    /// about to wrap, or a clock that is past its limit.
    fn restart(&mut self, world: &World, node: usize) -> Event {
        let clock = match self.chance.below(16) {
            0..=5 => 0,
            6..=9 => world.time() / MICROS,
            10..=13 => self.before_a_turn(),
            14 => u64::from(self.chance.word()) * 2,
            _ => GREATEST_CLOCK + 1,
        };
        let first_sequence_number = match self.chance.below(3) {
            0 => 0,
            1 => u32::MAX - self.chance.below(20),
            _ => self.chance.word(),
        };
        Event::Restart {
            node: NodeId(node),
            clock,
            first_sequence_number,
        }
    }

    /// A clock whose stamp wraps some seconds after the node's links may open again.
    fn before_a_turn(&mut self) -> u64 {
        TURN - u64::from(7000 + self.chance.below(13_000))
    }

    /// A run that begins with clocks near a turn makes each node anew with such a one first.
    pub(crate) fn begin(&mut self, node: usize) -> Event {
        Event::Restart {
            node: NodeId(node),
            clock: self.before_a_turn(),
            first_sequence_number: self.chance.word(),
        }
    }
}
