//! What is played, and what has to be seen of it.

use crate::node_stories::plant::{Plant, Played};
use crate::node_stories::script::{
    APPROACH_ROUNDS, APPROACH_UNKNOWN, DONE_NO_MORE, DROWNED, FLOODED, MADE_ANEW, MADE_ANEW_ROUNDS,
    NEVER_DONE, PROCEED, PROCEED_ROUNDS, REST, Row, SILENT_ROUNDS, STOPPED_1_S, STOPPED_3_S,
    STOPPED_30_S, STOPPED_30_S_ROUNDS, TWO_RESTARTS, TWO_RESTARTS_ROUNDS,
};
use crate::node_stories::station::{D1, INTERLOCKING, P1, S1, S3, S4, Station};

/// How many milliseconds two rounds of a station at rest are apart.
const REST_STEP: u64 = 10;

/// How many calls of the network fail, each in a run of its own.
const FAILING: u64 = 300;

/// A story: what happens in it, to which node where the script has one chosen, for how many rounds it is played, and what is seen.
#[derive(Clone, Copy)]
struct Story {
    is_over_sockets: bool,
    script: &'static [Row],
    chosen: usize,
    rounds: u64,
    seen: &'static str,
}

/// To proceed and to stop.
const TO_PROCEED: Story = Story {
    is_over_sockets: false,
    script: PROCEED,
    chosen: INTERLOCKING,
    rounds: PROCEED_ROUNDS,
    seen: "R1 free, R1 set, P1 none, P1 right, S1 proceed, S1 stop, R1 free",
};

/// Two nodes are made anew.
const RESTARTS: Story = Story {
    script: TWO_RESTARTS,
    rounds: TWO_RESTARTS_ROUNDS,
    seen: "R1 free, R1 set, P1 none, P1 right, S1 proceed, S1 anew, S1 stop, R1 free, R1 set, S1 proceed, IXL1 anew, R1 free, S1 stop, R1 set, S1 proceed, S1 stop, R1 free",
    ..TO_PROCEED
};

/// The interlocking is made anew at proceed.
const RESTART: Story = Story {
    script: MADE_ANEW,
    rounds: MADE_ANEW_ROUNDS,
    seen: "R1 free, R1 set, P1 none, P1 right, S1 proceed, IXL1 anew, R1 free, S1 stop, R1 set, S1 proceed, S1 stop, R1 free",
    ..TO_PROCEED
};

/// A signal that shows proceed is stopped for so long that its lamp falls. It hears nothing that may be too old, and its link comes
/// back.
const STOPPED: Story = Story {
    script: STOPPED_3_S,
    rounds: MADE_ANEW_ROUNDS,
    seen: "R1 free, R1 set, P1 none, P1 right, S1 proceed, S1 stop, S1 late, R1 free, R1 set, S1 proceed, S1 stop, R1 free",
    ..TO_PROCEED
};

/// It is stopped for less, or flooded: its lamp falls once it has heard nothing for long.
const DEAFENED: Story = Story {
    script: STOPPED_1_S,
    seen: "R1 free, R1 set, P1 none, P1 right, S1 proceed, S1 late, S1 stop, R1 free, R1 set, S1 proceed, S1 stop, R1 free",
    ..STOPPED
};

/// Those in which datagrams wait for long.
const LATE_DATAGRAMS: &[Story] = &[
    STOPPED,
    Story {
        script: STOPPED_30_S,
        rounds: STOPPED_30_S_ROUNDS,
        ..STOPPED
    },
    DEAFENED,
    Story {
        script: FLOODED,
        ..DEAFENED
    },
    Story {
        script: DROWNED,
        ..DEAFENED
    },
];

/// The same over sockets.
const OVER_SOCKETS: Story = Story {
    is_over_sockets: true,
    ..RESTARTS
};

/// Those that are played, each once.
const STORIES: &[Story] = &[
    TO_PROCEED,
    RESTARTS,
    OVER_SOCKETS,
    // The detector is made anew at proceed, and the approach lock of its route passes.
    Story {
        script: APPROACH_UNKNOWN,
        rounds: APPROACH_ROUNDS,
        seen: "R1 free, R1 set, P1 none, P1 right, S1 proceed, D1 anew, S1 stop, R1 free, R1 set, S1 proceed, S1 stop, R1 free",
        ..TO_PROCEED
    },
    Story {
        script: NEVER_DONE,
        rounds: SILENT_ROUNDS,
        seen: "R1 free",
        ..TO_PROCEED
    },
    Story {
        script: DONE_NO_MORE,
        rounds: SILENT_ROUNDS,
        seen: "R1 free, R1 set, P1 none, P1 right, S1 proceed, S1 stop",
        ..TO_PROCEED
    },
    RESTART,
    Story {
        chosen: S1,
        seen: "R1 free, R1 set, P1 none, P1 right, S1 proceed, S1 anew, S1 stop, R1 free, R1 set, S1 proceed, S1 stop, R1 free",
        ..RESTART
    },
    Story {
        chosen: S3,
        seen: "R1 free, R1 set, P1 none, P1 right, S1 proceed, S3 anew, S1 stop, R1 free, R1 set, S1 proceed, S1 stop, R1 free",
        ..RESTART
    },
    Story {
        chosen: S4,
        seen: "R1 free, R1 set, P1 none, P1 right, S1 proceed, S4 anew, S1 stop, R1 free, R1 set, S1 proceed, S1 stop, R1 free",
        ..RESTART
    },
    Story {
        chosen: P1,
        seen: "R1 free, R1 set, P1 none, P1 right, S1 proceed, P1 anew, S1 stop, R1 free, R1 set, S1 proceed, S1 stop, R1 free",
        ..RESTART
    },
    Story {
        chosen: D1,
        seen: "R1 free, R1 set, P1 none, P1 right, S1 proceed, D1 anew, S1 stop",
        ..RESTART
    },
];

/// Whether of each story is seen what it says.
pub(crate) fn stories_are_seen(station: Station<'_>) -> bool {
    all_are_seen(station, STORIES)
}

/// The same of the one over sockets.
pub(crate) fn stories_over_sockets_are_seen(station: Station<'_>) -> bool {
    all_are_seen(station, &[OVER_SOCKETS])
}

/// The same of those in which datagrams wait for long.
pub(crate) fn nothing_old_is_heard(station: Station<'_>) -> bool {
    all_are_seen(station, LATE_DATAGRAMS)
}

fn all_are_seen(station: Station<'_>, stories: &[Story]) -> bool {
    let mut well = true;
    for story in stories {
        let played = Played {
            is_over_sockets: story.is_over_sockets,
            chosen: story.chosen,
            ..Played::new(story.script)
        };
        well = is_seen(station, played, story.rounds, story.seen) && well;
    }
    well
}

/// Whether the same is seen of the first story where a call of the network fails, each in a run of its own.
pub(crate) fn calls_that_fail_change_nothing(station: Station<'_>) -> bool {
    for before in 0..FAILING {
        let played = Played {
            failing: before.saturating_add(1),
            ..Played::new(PROCEED)
        };
        if !is_seen(station, played, PROCEED_ROUNDS, TO_PROCEED.seen) {
            return false;
        }
    }
    true
}

/// Plays a station for so many rounds. It tells whether just this is seen.
fn is_seen(station: Station<'_>, played: Played, rounds: u64, wanted: &str) -> bool {
    let mut plant = Plant::new(station, played);
    plant.play(rounds);
    plant.seen.is(station.rt, wanted)
}

/// Whether the station rests for so many rounds. Each link is told as lost once, before it is ready.
pub(crate) fn rests(station: Station<'_>, rounds: u64) -> bool {
    let played = Played {
        step: REST_STEP,
        ..Played::new(REST)
    };
    let mut plant = Plant::new(station, played);
    plant.play(rounds);
    plant.seen.is(station.rt, "R1 free") && plant.seen.has_links(5, 5)
}
