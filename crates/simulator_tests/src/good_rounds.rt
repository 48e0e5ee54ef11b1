//! Good rounds, as a flow of time has them: 10 ms pass, all that was sent and not tried yet comes, in order, each node is called,
//! and points come to lie.

use crate::events::receiver;
use simulator::{ClockSteps, Event, NodeId, PointId, Position, RawDatagram, Refused, Side, World};
use std::alloc::Global;
use std::process::Abort;

/// How many microseconds a round has.
const ROUND: u64 = 10_000;

/// How many points a station has at most.
const POINTS: usize = 32;

/// At the ends of how many rounds one after the other a point is found driven to a side before it comes to lie there.
const ROUNDS_DRIVEN: u8 = 50;

/// How far good rounds have come.
#[derive(Clone, Copy)]
pub(crate) struct GoodRounds {
    /// How many of the datagrams that were sent they have gone past.
    pub(crate) passed: usize,
    /// To which side each point was found driven, and at the ends of how many rounds.
    drives: [(Option<Side>, u8); POINTS],
    /// How many there were.
    pub(crate) count: u32,
    /// After which of them a link wasn't ready last.
    pub(crate) unready: u32,
}

/// So many microseconds pass, on all clocks alike.
pub(crate) fn pass(rt: &impl Abort, alloc: Global, nodes: usize, elapsed: u64) -> Event {
    let steps = vec![in alloc; elapsed; nodes].expect(rt, "there is memory");
    Event::Time {
        elapsed,
        clocks: ClockSteps::of(steps),
    }
}

/// The delivery of the datagram at a place, unless it is lost.
fn delivery(rt: &impl Abort, alloc: Global, world: &World, place: usize) -> Option<Event> {
    let sent = world.network().get(place)?;
    if sent.is_lost {
        return None;
    }
    let bytes = Vec::from_slice(alloc, sent.bytes).expect(rt, "there is memory");
    Some(Event::Deliver {
        node: receiver(&sent),
        bytes: RawDatagram::of(bytes),
    })
}

/// Whether the link to each controller is ready at the interlocking.
fn are_ready(world: &World) -> bool {
    let field = world.interlocking().field();
    for place in 0..world.table().layout().nodes() {
        let is_signal_ready = place >= field.signals() || field.is_signal_ready(place);
        let is_point_ready = place >= field.points() || field.is_point_ready(place);
        let is_detector_ready = place >= field.detectors() || field.is_detector_ready(place);
        if !(is_signal_ready && is_point_ready && is_detector_ready) {
            return false;
        }
    }
    true
}

impl GoodRounds {
    pub(crate) fn new() -> GoodRounds {
        GoodRounds {
            passed: 0,
            drives: [(None, 0); POINTS],
            count: 0,
            unready: 0,
        }
    }

    /// Makes a round.
    pub(crate) fn round(&mut self, rt: &impl Abort, alloc: Global, world: &mut World) {
        let sent = world.network().len();
        let nodes = world.table().layout().nodes();
        happen(rt, world, &pass(rt, alloc, nodes, ROUND));
        self.deliver(rt, alloc, world, sent);
        for node in 0..nodes {
            happen(rt, world, &Event::Tick(NodeId(node)));
        }
        self.reach(rt, world);
        self.count = self.count.saturating_add(1);
        if !are_ready(world) {
            self.unready = self.count;
        }
    }

    /// What was sent up to here, and no round has gone past, comes.
    fn deliver(&mut self, rt: &impl Abort, alloc: Global, world: &mut World, sent: usize) {
        for place in self.passed..sent {
            if let Some(event) = delivery(rt, alloc, world, place) {
                happen(rt, world, &event);
            }
        }
        self.passed = sent;
    }

    /// Points come to lie that were found driven for long enough, and it is noted which ones are driven.
    fn reach(&mut self, rt: &impl Abort, world: &mut World) {
        for place in 0..POINTS {
            let point = PointId(place);
            let (side, rounds) = self.drives[place];
            if rounds >= ROUNDS_DRIVEN {
                happen(
                    rt,
                    world,
                    &Event::Reach {
                        point,
                        position: position_at(side),
                    },
                );
            }
            let found = driven(world, point);
            let is_alike = found.is_some() && found == side;
            self.drives[place] = (
                found,
                if is_alike {
                    rounds.saturating_add(1)
                } else {
                    1
                },
            );
        }
    }
}

/// The end position at a side.
fn position_at(side: Option<Side>) -> Position {
    match side {
        Some(Side::Right) => Position::Right,
        Some(Side::Left) => Position::Left,
        None => Position::NoEndPosition,
    }
}

/// The side to which a point is driven.
fn driven(world: &World, point: PointId) -> Option<Side> {
    if point.0 < world.table().layout().points().len() {
        world.driven(point)
    } else {
        None
    }
}

/// An event happens, or is refused.
pub(crate) fn happen(rt: &impl Abort, world: &mut World, event: &Event) {
    let answer = world.apply(event);
    assert!(rt; !matches!(answer, Err(Refused::OutOfMemory)));
}
