//! What an end does by its clock.

use crate::bench::Content::{Disconnection, Heartbeat, Response};
use crate::bench::Figure::{AliveUntil, QuietUntil, Returns, Stamp};
use crate::bench::Step::{Closes, Has, Hears, IsIn, IsUp, Opens, Tells, TellsNoMore, Ticks};
use crate::bench::{REQUEST, Script, Start, play};
use rasta_core_link::Verdict::{Quiet, Stale, Taken};
use rasta_core_link::{Reason, State};

const BY_THE_CLOCK: &[Script] = &[
    (
        "a silent partner is lost after 1800 ms, and met again 6000 ms later",
        Start::Up,
        &[
            (11799, IsUp(true)),
            (11800, IsUp(false)),
            (12500, Ticks),
            (12500, TellsNoMore),
            (12500, Has(AliveUntil, 11800)),
            (12500, Has(QuietUntil, 17800)),
            (17799, Hears((5, 0), (500, 0), REQUEST, Quiet)),
            (17800, Hears((5, 0), (500, 0), REQUEST, Taken)),
        ],
    ),
    (
        "a heartbeat goes out 300 ms after the last PDU",
        Start::Up,
        &[
            (10299, Ticks),
            (10299, TellsNoMore),
            (10300, Ticks),
            (10300, Tells(Heartbeat)),
            (10300, Has(Stamp, 10300)),
            (10300, Has(Returns, 510)),
            (10599, Ticks),
            (10599, TellsNoMore),
        ],
    ),
    (
        "a server in start sends no heartbeat",
        Start::Starting,
        &[
            (10300, Ticks),
            (11799, Ticks),
            (11799, TellsNoMore),
            (11799, IsIn(State::Start)),
        ],
    ),
    (
        "a client in start sends no heartbeat",
        Start::Client(100),
        &[
            (6000, Opens(true)),
            (6000, Tells(REQUEST)),
            (7799, Ticks),
            (7799, TellsNoMore),
            (7799, IsIn(State::Start)),
        ],
    ),
    (
        "a stamp from after the turn is no older than one before it",
        Start::Server,
        &[
            (4_294_967_000, Hears((5, 0), (500, 0), REQUEST, Taken)),
            (4_294_967_000, Tells(Response)),
            (4_294_967_400, Hears((6, 100), (510, 100), Heartbeat, Taken)),
            (4_294_967_400, Has(AliveUntil, 4_294_969_196)),
        ],
    ),
    (
        "a stamp from before the last one is stale, also at the turn",
        Start::Server,
        &[
            (4_294_967_000, Hears((5, 0), (500, 0), REQUEST, Taken)),
            (4_294_967_000, Tells(Response)),
            (
                4_294_967_400,
                Hears((6, 100), (510, 4_294_966_999), Heartbeat, Stale),
            ),
            (4_294_967_400, Has(AliveUntil, 4_294_968_800)),
        ],
    ),
    (
        "a stamp from the future is stale, also at the turn",
        Start::Server,
        &[
            (4_294_967_000, Hears((5, 0), (500, 0), REQUEST, Taken)),
            (4_294_967_000, Tells(Response)),
            (4_294_967_400, Hears((6, 100), (510, 105), Heartbeat, Stale)),
            (4_294_967_400, Has(AliveUntil, 4_294_968_800)),
        ],
    ),
];

#[test]
fn what_an_end_does_by_its_clock(rt: HostRuntime) {
    play(&rt, rt.alloc(), BY_THE_CLOCK)
}

/// Each reason is told by its number; a partner that is silent for too long is told nothing.
const CLOSES: &[Script] = &[
    (
        "a close for the user tells 0",
        Start::Up,
        &[
            (10020, Closes(Reason::User)),
            (10020, Tells(Disconnection(0))),
            (10020, TellsNoMore),
            (10020, Has(QuietUntil, 16020)),
        ],
    ),
    (
        "a close for a wrong state tells 1",
        Start::Up,
        &[
            (10020, Closes(Reason::State)),
            (10020, Tells(Disconnection(1))),
            (10020, TellsNoMore),
            (10020, Has(QuietUntil, 16020)),
        ],
    ),
    (
        "a close for used up numbers tells 2",
        Start::Up,
        &[
            (10020, Closes(Reason::Sequence)),
            (10020, Tells(Disconnection(2))),
            (10020, TellsNoMore),
            (10020, Has(QuietUntil, 16020)),
        ],
    ),
    (
        "a close for a silent partner tells nothing",
        Start::Up,
        &[
            (10020, Closes(Reason::Time)),
            (10020, TellsNoMore),
            (10020, Has(QuietUntil, 16020)),
        ],
    ),
    (
        "a close for another version tells 4",
        Start::Up,
        &[
            (10020, Closes(Reason::Version)),
            (10020, Tells(Disconnection(4))),
            (10020, TellsNoMore),
            (10020, Has(QuietUntil, 16020)),
        ],
    ),
    (
        "a close for another window tells 5",
        Start::Up,
        &[
            (10020, Closes(Reason::Window)),
            (10020, Tells(Disconnection(5))),
            (10020, TellsNoMore),
            (10020, Has(QuietUntil, 16020)),
        ],
    ),
];

#[test]
fn a_close_tells_its_reason_where_there_is_one_to_tell(rt: HostRuntime) {
    play(&rt, rt.alloc(), CLOSES)
}
