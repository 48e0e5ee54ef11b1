//! Stations that were treated badly, and what good rounds make of them.
//!
//! A new station goes through a hostile list, drawn from a seed. Good rounds follow, and:
//!
//! - Each link is ready by a bound and stays so, while commands and occupancies go on until the bound. What is looked at is the
//!   interlocking's client. It completes its initialisation last, and doesn't stay ready without its controller.
//! - All sections are cleared, and each route that is set is cancelled. Where that doesn't free it, a train runs over it.
//! - Each route in turn is accepted, and its signal shows its aspect by a bound. A train frees it, or it is cancelled. Then its
//!   signal is at stop, its authority is ended, and it is free, each by a bound.

use crate::events::Hostile;
use crate::good_rounds::{GoodRounds, happen, pass};
use crate::layouts::{HALDEN, JUNCTION, SMALL};
use crate::promise::aspect_of;
use crate::station::{station, word};
use crate::tally::Tally;
use crate::trains::{Train, moves_on};
use simulator::{Answer, Aspect, Command, Event, Occupancy, Reply, RouteId, SectionId, World};
use std::alloc::Global;
use std::process::Abort;

/// How many lists each station has in the gate. A list's seed is its number.
const LISTS: u64 = 100;

/// How many events a list has.
const EVENTS: usize = 3000;

/// Between good rounds something is commanded, occupied or cleared, where the station is busy: about once in so many.
const CALM: u32 = 5;

/// For so long an interlocking that was made holds, in microseconds.
const HOLD: u64 = 6_000_000;

/// In so many rounds after the hold the links of a new station are ready.
const BEGINNING: u32 = 12;

/// After this good round, and all that follow, each link is ready.
const READY: u32 = 1564;

/// In so many rounds the aspect of a route that was accepted shows.
const SHOWN: u32 = 53;

/// In so many rounds the signal of a route that was cancelled shows stop.
const STOP: u32 = 1;

/// In so many rounds its authority is ended, and it is free where no section was occupied.
const FREE: u32 = 2;

/// In so many rounds a change of a section is reported.
const REPORTED: u32 = 33;

/// So many rounds stand between two moves of a train.
const MOVE: u32 = 4;

/// The slowest link of a station's lists is ready no sooner than after this round.
const SLOW: u32 = 1200;

/// What came of the lists of a station. Of what takes time the slowest is kept, in good rounds.
#[derive(Clone, Copy, Debug)]
struct Recoveries {
    lists: u32,
    /// From the first good round until all links were ready for good.
    ready: u32,
    /// From a request to the route's aspect.
    shown: u32,
    /// From a cancel to each of the three.
    stop: u32,
    ended: u32,
    free: u32,
    /// Routes that a list left set.
    left_over: u32,
    /// Routes that were set, each in its turn, and trains that ran.
    routes: u32,
    trains: u32,
}

/// Before the first list.
const NOTHING: Recoveries = Recoveries {
    lists: 0,
    ready: 0,
    shown: 0,
    stop: 0,
    ended: 0,
    free: 0,
    left_over: 0,
    routes: 0,
    trains: 0,
};

/// What has to come for a route.
#[derive(Clone, Copy)]
enum Wish {
    /// Its signal shows its aspect.
    Aspect,
    /// Its signal shows stop.
    Stop,
    /// Its authority is ended.
    Ended,
    /// It isn't set.
    Free,
}

/// A station in good rounds.
#[derive(Drop)]
struct Course {
    alloc: Global,
    world: World,
    rounds: GoodRounds,
    hostile: Hostile,
    /// Whether commands and occupancies come between the rounds.
    is_busy: bool,
    found: Recoveries,
}

impl Course {
    /// Makes so many rounds.
    fn play(&mut self, rt: &impl Abort, rounds: u32) {
        for _ in 0..rounds {
            if self.is_busy && self.hostile.chance.once_in(CALM) {
                let event = self.hostile.incident(self.world.table());
                happen(rt, &mut self.world, &event);
            }
            self.rounds.round(rt, self.alloc, &mut self.world);
        }
    }

    /// The events of a list. What follows begins with all that no good round has gone past, or with what wasn't delivered in its
    /// turn.
    fn suffer(&mut self, rt: &impl Abort) {
        let mut tally = Tally::new();
        for _ in 0..EVENTS {
            let seen = self.world.snapshot();
            let event = self
                .hostile
                .next(self.alloc, &self.world, &seen, &mut tally);
            happen(rt, &mut self.world, &event.expect(rt, "there is memory"));
        }
        if self.hostile.chance.once_in(2) {
            self.rounds.passed = self.hostile.delivered;
        }
        self.rounds.count = 0;
        self.rounds.unready = 0;
    }

    /// Gives a command that has to be accepted.
    fn command(&mut self, rt: &impl Abort, command: Command) {
        let answer = self.world.apply(&Event::Request(command));
        assert!(rt;
            matches!(
                answer,
                Ok(Reply {
                    answer: Answer::Accepted,
                    ..
                })
            )
        );
    }

    /// Whether something has come for a route.
    fn has_come(&self, wish: Wish, route: RouteId) -> bool {
        let Some(row) = self.world.table().layout().routes().get(route.0) else {
            return false;
        };
        let seen = self.world.snapshot();
        match wish {
            Wish::Aspect => aspect_of(&seen, row.entry().0) == row.aspect(),
            Wish::Stop => aspect_of(&seen, row.entry().0) == Aspect::Stop,
            Wish::Ended => !seen.held.as_slice().iter().any(|held| held.route == route),
            Wish::Free => !self.is_set(route),
        }
    }

    /// Whether a route is set.
    fn is_set(&self, route: RouteId) -> bool {
        route.0 < self.world.table().layout().routes().len() && self.world.is_set(route)
    }

    /// Makes rounds until it has come for a route, and tells how many. It has to come in so many.
    fn wait(&mut self, rt: &impl Abort, wish: Wish, route: RouteId, most: u32) -> u32 {
        for rounds in 0..most {
            if self.has_come(wish, route) {
                return rounds;
            }
            self.play(rt, 1);
        }
        assert!(rt; self.has_come(wish, route));
        most
    }

    /// The links of a new station come up, in every second list with stamps that soon wrap.
    fn begin(&mut self, rt: &impl Abort) {
        let nodes = self.world.table().layout().nodes();
        let anew = if self.hostile.chance.once_in(2) {
            nodes
        } else {
            0
        };
        for node in 0..anew {
            happen(rt, &mut self.world, &self.hostile.begin(node));
        }
        happen(rt, &mut self.world, &pass(rt, self.alloc, nodes, HOLD));
        self.play(rt, BEGINNING);
        self.command(rt, Command::Resume);
    }

    /// The station begins, goes through its list, recovers, and each route comes and goes.
    fn go_through(&mut self, rt: &impl Abort) {
        self.begin(rt);
        self.suffer(rt);
        self.is_busy = true;
        self.play(rt, READY);
        self.is_busy = false;
        self.command(rt, Command::Resume);
        self.clear_all(rt);
        self.free_all(rt);
        self.play(rt, SHOWN);
        self.try_all(rt);
        self.found.ready = self.found.ready.max(self.rounds.unready.saturating_add(1));
        self.found.lists = self.found.lists.saturating_add(1);
        assert!(rt; self.found.ready <= READY);
    }

    /// All sections are cleared, and reported so.
    fn clear_all(&mut self, rt: &impl Abort) {
        let occupancy = Occupancy::Clear;
        for place in 0..self.world.table().layout().sections().len() {
            let section = SectionId(place);
            happen(rt, &mut self.world, &Event::Occupy { section, occupancy });
        }
        self.play(rt, REPORTED);
    }

    /// Each route that is set is cancelled. Where that doesn't free it, a train runs over it.
    fn free_all(&mut self, rt: &impl Abort) {
        for place in 0..self.world.table().layout().routes().len() {
            if self.is_set(RouteId(place)) {
                self.found.left_over = self.found.left_over.saturating_add(1);
                self.cancel(rt, RouteId(place));
                self.play(rt, FREE);
            }
            if self.is_set(RouteId(place)) {
                self.run_train(rt, RouteId(place));
            }
        }
    }

    /// A route is cancelled. Its signal falls to stop, and its authority ends. Tells after how many rounds.
    fn cancel(&mut self, rt: &impl Abort, route: RouteId) -> u32 {
        self.command(rt, Command::Cancel(route));
        let stop = self.wait(rt, Wish::Stop, route, STOP);
        let more = self.wait(rt, Wish::Ended, route, FREE.saturating_sub(stop));
        let ended = stop.saturating_add(more);
        self.found.stop = self.found.stop.max(stop);
        self.found.ended = self.found.ended.max(ended);
        ended
    }

    /// A train runs over a route, and frees it.
    fn run_train(&mut self, rt: &impl Abort, route: RouteId) {
        let mut train = Train::to(route);
        for _ in 0..moves_on(self.world.table(), route) {
            if let Some((section, occupancy)) = train.proceed(self.world.table()) {
                happen(rt, &mut self.world, &Event::Occupy { section, occupancy });
            }
            self.play(rt, MOVE);
        }
        self.wait(rt, Wish::Free, route, REPORTED);
        self.found.trains = self.found.trains.saturating_add(1);
    }

    /// Each route in turn comes and goes.
    fn try_all(&mut self, rt: &impl Abort) {
        for place in 0..self.world.table().layout().routes().len() {
            self.try_route(rt, RouteId(place));
        }
    }

    /// A route is set, and its aspect shows and stays. Then a train runs over it, or it is cancelled.
    fn try_route(&mut self, rt: &impl Abort, route: RouteId) {
        self.command(rt, Command::Request(route));
        let shown = self.wait(rt, Wish::Aspect, route, SHOWN);
        self.found.shown = self.found.shown.max(shown);
        self.found.routes = self.found.routes.saturating_add(1);
        self.play(rt, MOVE);
        self.wait(rt, Wish::Aspect, route, 0);
        if self.hostile.chance.once_in(4) {
            self.run_train(rt, route);
            return;
        }
        let ended = self.cancel(rt, route);
        let more = self.wait(rt, Wish::Free, route, FREE.saturating_sub(ended));
        self.found.free = self.found.free.max(ended.saturating_add(more));
    }
}

/// A new station goes through the list of a seed.
fn recover(rt: &impl Abort, alloc: Global, text: &str, seed: u64, found: Recoveries) -> Recoveries {
    let mut course = Course {
        alloc,
        world: station(rt, alloc, text),
        rounds: GoodRounds::new(),
        hostile: Hostile::seeded(seed),
        is_busy: false,
        found,
    };
    course.go_through(rt);
    course.found
}

/// New stations go through so many lists.
fn recover_all(rt: &impl Abort, alloc: Global, text: &str, first: u64, lists: u64) -> Recoveries {
    let mut found = NOTHING;
    for seed in first..first.saturating_add(lists) {
        found = recover(rt, alloc, text, seed, found);
    }
    found
}

/// New stations recover from lists, as many as the words of the program ask for, and it is told what came of them.
fn recover_and_tell(rt: &HostRuntime, abort: &impl Abort, text: &str, lists: u64) -> Recoveries {
    let first = word(rt, 2).unwrap_or(1);
    let lists = word(rt, 3).unwrap_or(lists);
    let found = recover_all(abort, rt.alloc(), text, first, lists);
    // Where this can't be written, the test goes on.
    let _ = println!(rt; "{found:?}");
    found
}

/// Much happens in the lists, and the slowest of each comes as late as it may; links take long.
fn expect(rt: &impl Abort, found: Recoveries) {
    assert!(rt; found.ready >= SLOW);
    assert!(rt; found.shown == SHOWN && found.stop == STOP);
    assert!(rt; found.ended == FREE && found.free == FREE);
    assert!(rt; found.left_over >= found.lists / 2 && found.trains >= found.lists);
}

#[test]
fn the_small_station_recovers(rt: HostRuntime) {
    let found = recover_and_tell(&rt, &rt, SMALL, LISTS);
    expect(&rt, found);
}

#[test]
fn the_junction_recovers(rt: HostRuntime) {
    let found = recover_and_tell(&rt, &rt, JUNCTION, LISTS);
    expect(&rt, found);
}

#[test]
fn halden_recovers(rt: HostRuntime) {
    let found = recover_and_tell(&rt, &rt, HALDEN, LISTS);
    expect(&rt, found);
}
