//! Hostile runs, each from its own seed.

use crate::events::Hostile;
use crate::watch::{Count, Tally, Watch};
use simulator_pair::Pair;
use std::alloc::Global;
use std::process::Abort;

/// How many events a run has.
const EVENTS: usize = 20_000;

/// How many runs there are; a run's seed is its number.
const RUNS: u64 = 20;

/// Runs a pair through events drawn from a seed, and looks at it after each one. In every second run both clocks begin
/// just below a turn of the stamps.
fn hostile_run(rt: &impl Abort, alloc: Global, seed: u64, tally: &mut Tally) {
    let mut pair = Pair::new(alloc).expect(rt, "there is memory");
    let mut hostile = Hostile::seeded(seed);
    let mut watch = Watch::new(&pair);
    if seed % 2 == 0 {
        for event in hostile.begin() {
            let answer = pair.apply(&event);
            watch.look(rt, &pair, &event, answer, tally);
        }
    }
    for _ in 0..EVENTS {
        let event = hostile.next(&pair);
        let answer = pair.apply(&event);
        watch.look(rt, &pair, &event, answer, tally);
    }
}

/// How often what has to happen in all runs, that they show something.
const LEAST: &[(Count, usize)] = &[
    (Count::TakenByClient, 3000),
    (Count::TakenByServer, 3000),
    (Count::Confirmed, 3000),
    (Count::Connections, 300),
    (Count::Answers, 300),
    (Count::Restarts, 200),
    (Count::Closes, 200),
    (Count::WindowFull, 300),
    (Count::ProceedShown, 500),
    (Count::ProceedFell, 500),
    (Count::NeverSent, 10_000),
    (Count::Drift, 1000),
    (Count::ClockLimit, 30),
    (Count::Turns, 5),
];

#[test]
fn the_sentences_hold_of_hostile_runs(rt: HostRuntime) {
    let mut tally = Tally::new();
    for seed in 1..=RUNS {
        hostile_run(&rt, rt.alloc(), seed, &mut tally);
    }
    for (place, row) in LEAST.iter().enumerate() {
        let (what, least) = *row;
        let count = tally.of(what);
        assert!(rt; count >= least, "row {place}: {count} of {least}");
    }
}
