//! Hostile runs of whole stations, each from its own seed; in every third one somebody releases routes, moves points, and closes and
//! opens things.

use crate::events::Hostile;
use crate::layouts::{JUNCTION, LOOP, SMALL};
use crate::station::{station, word};
use crate::tally::{Count, Tally};
use crate::watch::Watch;
use simulator::{Event, World};
use std::alloc::Global;
use std::process::Abort;

/// How many events a run has.
const EVENTS: usize = 8000;

/// How many runs each station has, where the words of the program don't ask for others; a run's seed is its number.
const RUNS: u64 = 42;

/// After so many microseconds of true time every clock that began near a turn has gone past it.
const PAST_THE_TURN: u64 = 21_000_000;

/// An event happens to a station, or is refused, and what it leaves is looked at.
fn apply(rt: &impl Abort, world: &mut World, event: &Event, watch: &mut Watch, tally: &mut Tally) {
    let answer = world.apply(event);
    watch.look(rt, world, event, answer, tally);
}

/// Every node is made anew with a clock whose stamp soon wraps.
fn begin_near_a_turn(
    rt: &impl Abort,
    world: &mut World,
    hostile: &mut Hostile,
    watch: &mut Watch,
    tally: &mut Tally,
) {
    for node in 0..world.table().layout().nodes() {
        apply(rt, world, &hostile.begin(node), watch, tally);
    }
}

/// The next event of a run happens to its station.
fn go_on(
    rt: &impl Abort,
    alloc: Global,
    world: &mut World,
    hostile: &mut Hostile,
    watch: &mut Watch,
    tally: &mut Tally,
) {
    let event = hostile.next(alloc, world, &watch.seen, tally);
    let event = event.expect(rt, "there is memory");
    apply(rt, world, &event, watch, tally);
}

/// All events of a run, which are drawn from its seed, happen to a station, and after each one it is looked at. In every second
/// run all clocks begin just below a turn of the stamps.
fn go_through(rt: &impl Abort, alloc: Global, world: &mut World, seed: u64, tally: &mut Tally) {
    let mut hostile = Hostile::seeded(seed);
    hostile.operates = seed % 3 == 0;
    let mut watch = Watch::new(world);
    if seed % 2 == 0 {
        begin_near_a_turn(rt, world, &mut hostile, &mut watch, tally);
    }
    for _ in 0..EVENTS {
        go_on(rt, alloc, world, &mut hostile, &mut watch, tally);
    }
    if seed % 2 == 0 && world.time() > PAST_THE_TURN {
        tally.once_more(Count::Turned);
    }
}

/// A run of a new station.
fn hostile_run(rt: &impl Abort, alloc: Global, text: &str, seed: u64, tally: &mut Tally) {
    let mut world = station(rt, alloc, text);
    go_through(rt, alloc, &mut world, seed, tally);
}

/// Runs of a station, and how often what happened in them.
fn hostile_runs(rt: &impl Abort, alloc: Global, text: &str, first: u64, runs: u64) -> Tally {
    let mut tally = Tally::new();
    for seed in first..first.saturating_add(runs) {
        hostile_run(rt, alloc, text, seed, &mut tally);
    }
    tally
}

/// Much happened: each count is at least so great.
fn expect(rt: &impl Abort, tally: &Tally, counts: &[(Count, usize)]) {
    for (count, least) in counts {
        assert!(rt; tally.of(*count) >= *least, "less than {least}");
    }
}

/// The network and the clocks are hostile in the runs of every station.
const MISCHIEF: [(Count, usize); 14] = [
    (Count::Events, 300_000),
    (Count::Lost, 200),
    (Count::Repeated, 3000),
    (Count::PassedOver, 50),
    (Count::Damaged, 80),
    (Count::Misdirected, 80),
    (Count::Delivered, 20_000),
    (Count::NoNode, 100),
    (Count::NeverSent, 200),
    (Count::Drifted, 50),
    (Count::NotDriven, 500),
    (Count::MovedByHand, 10),
    (Count::Closed, 50),
    (Count::Opened, 300),
];

/// A station is safe in its runs, in which so much happened.
fn is_safe(rt: &HostRuntime, abort: &impl Abort, text: &str, counts: &[(Count, usize)]) {
    let first = word(rt, 2).unwrap_or(1);
    let runs = word(rt, 3).unwrap_or(RUNS);
    let tally = hostile_runs(abort, rt.alloc(), text, first, runs);
    expect(abort, &tally, &MISCHIEF);
    expect(abort, &tally, counts);
}

#[test]
fn the_small_station_is_safe_in_hostile_runs(rt: HostRuntime) {
    let counts = [
        (Count::Turned, 10),
        (Count::RoutesSet, 120),
        (Count::ProceedsShown, 100),
        (Count::FellToStop, 100),
        (Count::SectionsFreed, 120),
        (Count::FreedReleased, 5),
        (Count::SetBehind, 30),
        (Count::StationsAnewAtProceed, 5),
        (Count::ControllersAnewAtProceed, 8),
    ];
    is_safe(&rt, &rt, SMALL, &counts);
}

#[test]
fn the_junction_is_safe_in_hostile_runs(rt: HostRuntime) {
    let counts = [
        (Count::RoutesSet, 120),
        (Count::ProceedsShown, 100),
        (Count::TwoOpen, 500),
        (Count::FellToStop, 100),
        (Count::SectionsFreed, 150),
        (Count::SetBehind, 15),
        (Count::StationsAnewAtProceed, 8),
        (Count::ControllersAnewAtProceed, 15),
    ];
    is_safe(&rt, &rt, JUNCTION, &counts);
}

#[test]
fn slow_routes_are_safe_in_hostile_runs(rt: HostRuntime) {
    let counts = [
        (Count::RoutesSet, 120),
        (Count::ProceedsShown, 20),
        (Count::SlowsShown, 60),
        (Count::TwoOpen, 500),
        (Count::FellToStop, 80),
        (Count::SectionsFreed, 150),
        (Count::SetBehind, 5),
        (Count::StationsAnewAtProceed, 8),
        (Count::ControllersAnewAtProceed, 15),
    ];
    is_safe(&rt, &rt, LOOP, &counts);
}
