//! What is seen of a station after each event, and what is asked of it.

use crate::events::is_open;
use crate::promise::{are_alike, are_lately_heard, aspect_of, is_kept};
use crate::tally::{Count, Tally};
use simulator::{Answer, Aspect, Command, Event, NodeId, Refused, Reply, RouteId, Snapshot, World};
use std::process::Abort;

/// What was seen of a station.
#[derive(Drop)]
pub(crate) struct Watch {
    pub(crate) seen: Snapshot,
    sent: usize,
    time: u64,
    /// The routes that are set, a bit for each.
    set: u64,
    /// The set routes that were cancelled.
    cancelled: u64,
    /// Those of them that were released.
    released: u64,
}

/// The bit of a route.
fn bit(route: usize) -> u64 {
    let place = u32::try_from(route).unwrap_or(u64::BITS);
    1u64.checked_shl(place).unwrap_or(0)
}

/// The routes that are set.
fn set_routes(world: &World) -> u64 {
    let mut set = 0;
    for place in 0..world.table().layout().routes().len() {
        if world.is_set(RouteId(place)) {
            set |= bit(place);
        }
    }
    set
}

/// Whether a route conflicts with one of these.
fn conflicts(world: &World, route: RouteId, set: u64) -> bool {
    let table = world.table();
    let routes = table.layout().routes().len();
    for place in 0..routes {
        let is_other = place != route.0 && set & bit(place) != 0;
        if is_other && route.0 < routes && table.conflict(route, RouteId(place)) {
            return true;
        }
    }
    false
}

/// How many sections a route has.
fn section_count(world: &World, route: usize) -> usize {
    let table = world.table();
    if route < table.layout().routes().len() {
        table.sections(RouteId(route)).len()
    } else {
        0
    }
}

/// How many sections these routes have.
fn sections_of(world: &World, routes: u64) -> usize {
    let mut count: usize = 0;
    for route in 0..64 {
        if routes & bit(route) != 0 {
            count = count.saturating_add(section_count(world, route));
        }
    }
    count
}

/// Whether what is seen of a station is safe, and keeps the promise.
fn is_promise_kept(world: &World, seen: &Snapshot) -> bool {
    world.safe() && is_kept(world.table(), seen) && are_lately_heard(world, seen)
}

/// Counts an event that couldn't happen.
fn count_refused(why: Refused, tally: &mut Tally) {
    match why {
        Refused::NoSuchNode => tally.once_more(Count::NoNode),
        Refused::NeverSent => tally.once_more(Count::NeverSent),
        Refused::Drift => tally.once_more(Count::Drifted),
        Refused::NotDriven => tally.once_more(Count::NotDriven),
        _ => {}
    }
}

impl Watch {
    pub(crate) fn new(world: &World) -> Watch {
        Watch {
            seen: world.snapshot(),
            sent: world.network().len(),
            time: world.time(),
            set: set_routes(world),
            cancelled: 0,
            released: 0,
        }
    }

    /// Looks at a station after an event, and asserts what holds of it.
    pub(crate) fn look(
        &mut self,
        rt: &impl Abort,
        world: &World,
        event: &Event,
        answer: Result<Reply, Refused>,
        tally: &mut Tally,
    ) {
        let seen = world.snapshot();
        assert!(rt; is_promise_kept(world, &seen));
        tally.once_more(Count::Events);
        match answer {
            Ok(reply) => {
                assert!(rt; Some(world.network().len()) == self.sent.checked_add(reply.added));
                self.count(world, &seen, event, reply.answer, tally);
            }
            Err(why) => {
                assert!(rt; self.is_unchanged(world, &seen));
                assert!(rt; why != Refused::OutOfMemory);
                count_refused(why, tally);
            }
        }
        self.seen = seen;
        self.sent = world.network().len();
        self.time = world.time();
    }

    /// Whether all is as it was seen before.
    fn is_unchanged(&self, world: &World, seen: &Snapshot) -> bool {
        are_alike(&self.seen, seen)
            && self.sent == world.network().len()
            && self.time == world.time()
            && self.set == set_routes(world)
    }

    fn count(
        &mut self,
        world: &World,
        seen: &Snapshot,
        event: &Event,
        answer: Answer,
        tally: &mut Tally,
    ) {
        self.count_shown(seen, tally);
        match event {
            Event::Request(command) => self.count_command(world, *command, answer, tally),
            Event::Restart { node, .. } => self.count_restart(*node, tally),
            Event::Deliver { .. } => tally.once_more(Count::Delivered),
            Event::Lose(_) => tally.once_more(Count::Lost),
            _ => {}
        }
        self.count_freed(world, event, tally);
    }

    /// Counts the routes that were set, and notes those that were cancelled.
    fn count_command(
        &mut self,
        world: &World,
        command: Command,
        answer: Answer,
        tally: &mut Tally,
    ) {
        if answer != Answer::Accepted {
            return;
        }
        match command {
            Command::Request(route) => {
                tally.once_more(Count::RoutesSet);
                if conflicts(world, route, self.set) {
                    tally.once_more(Count::SetBehind);
                }
            }
            Command::Cancel(route) => self.cancelled |= bit(route.0),
            Command::Release(route) => self.released |= bit(route.0),
            Command::Move(_, _) => tally.once_more(Count::MovedByHand),
            Command::Close(_) => tally.once_more(Count::Closed),
            Command::Open(_) => tally.once_more(Count::Opened),
            Command::Resume => {}
        }
    }

    /// Counts the signals whose aspect changed.
    fn count_shown(&self, seen: &Snapshot, tally: &mut Tally) {
        let mut open: usize = 0;
        for (signal, shown) in seen.shows.as_slice().iter().enumerate() {
            if shown.0 != Aspect::Stop {
                open = open.saturating_add(1);
            }
            match (aspect_of(&self.seen, signal), shown.0) {
                (Aspect::Stop, Aspect::Proceed) => tally.once_more(Count::ProceedsShown),
                (Aspect::Stop, Aspect::Slow) => tally.once_more(Count::SlowsShown),
                (Aspect::Proceed | Aspect::Slow, Aspect::Stop) => {
                    tally.once_more(Count::FellToStop);
                }
                _ => {}
            }
        }
        if open >= 2 {
            tally.once_more(Count::TwoOpen);
        }
    }

    /// Counts the nodes that are made anew while a signal shows more than stop.
    fn count_restart(&self, node: NodeId, tally: &mut Tally) {
        if is_open(&self.seen) {
            tally.once_more(if node.0 == 0 {
                Count::StationsAnewAtProceed
            } else {
                Count::ControllersAnewAtProceed
            });
        }
    }

    /// Counts the sections of the routes that are no longer set, not of those that were cancelled, and those that were released: none
    /// that the interlocking lost as it was made anew.
    fn count_freed(&mut self, world: &World, event: &Event, tally: &mut Tally) {
        let now = set_routes(world);
        if !matches!(event, Event::Restart { .. }) {
            let freed = self.set & !now & !self.cancelled;
            tally.add(Count::SectionsFreed, sections_of(world, freed));
            if self.set & !now & self.released != 0 {
                tally.once_more(Count::FreedReleased);
            }
        }
        self.cancelled &= now;
        self.released &= now;
        self.set = now;
    }
}
