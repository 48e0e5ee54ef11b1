//! What rounds of 100 ms have come to: time goes on, what was sent before arrives, every node is called, and points come to
//! lie.

use crate::restarts::worlds::driven;
use control_table::{PointId, Position, Side};
use station_record::{ClockSteps, Event, World};
use std::alloc::{AllocError, Global};

/// How many milliseconds a round has.
pub(crate) const ROUND: u64 = 100;

/// How many microseconds a round has.
const ROUND_MICROS: u64 = 100_000;

/// How many points a station has at most.
pub(crate) const POINTS: usize = 32;

/// At the ends of how many rounds one after the other a point is found driven before it comes to lie.
const ROUNDS_DRIVEN: u8 = 5;

/// How far the rounds of a station have come.
#[derive(Clone, Copy)]
pub(crate) struct Rounds {
    /// How many of the datagrams that were sent they have gone past.
    pub(crate) passed: usize,
    /// At the ends of how many rounds one after the other each point was found driven to the left.
    left: [u8; POINTS],
    /// And to the right.
    right: [u8; POINTS],
}

impl Rounds {
    /// No round was made on a station.
    pub(crate) fn new() -> Rounds {
        Rounds {
            passed: 0,
            left: [0; POINTS],
            right: [0; POINTS],
        }
    }

    /// A round ends: it is noted which points are driven.
    pub(crate) fn rest(&mut self, world: &World) {
        for place in 0..POINTS {
            let side = driven(world, PointId(place));
            self.left[place] = next(self.left[place], matches!(side, Some(Side::Left)));
            self.right[place] = next(self.right[place], matches!(side, Some(Side::Right)));
        }
    }

    /// That a point comes to lie, if it was found driven for long enough.
    pub(crate) fn reach(&self, place: usize) -> Option<Event> {
        let point = PointId(place);
        let position = if *self.left.get(place)? >= ROUNDS_DRIVEN {
            Position::Left
        } else if *self.right.get(place)? >= ROUNDS_DRIVEN {
            Position::Right
        } else {
            return None;
        };
        Some(Event::Reach { point, position })
    }
}

/// At the ends of how many rounds a point was found driven to a side, after one more.
fn next(rounds: u8, is_driven: bool) -> u8 {
    if is_driven {
        rounds.saturating_add(1)
    } else {
        0
    }
}

/// The time of a round, at equal rates.
pub(crate) fn time(alloc: Global, nodes: usize) -> Result<Event, AllocError> {
    let steps = vec![in alloc; ROUND_MICROS; nodes]?;
    Ok(Event::Time {
        elapsed: ROUND_MICROS,
        clocks: ClockSteps::of(steps),
    })
}
