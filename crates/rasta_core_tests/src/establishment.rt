//! How a connection opens, and what is refused there.

use crate::bench::Content::{Ask, Disconnection, Heartbeat, Request, Response};
use crate::bench::Figure::{Confirms, Length, Number, Waiting};
use crate::bench::Step::{Has, Hears, IsIn, Opens, Tells, TellsNoMore};
use crate::bench::{REQUEST, Script, Start, play};
use rasta_core_link::State;
use rasta_core_link::Verdict::{BadConfirm, Discarded, Taken, WrongState};

const GREATEST: u32 = 4294967295;

const OPENINGS: &[Script] = &[
    (
        "a request of another version closes with reason 4",
        Start::Server,
        &[
            (10000, IsIn(State::Down)),
            (10000, Hears((5, 0), (500, 0), Request(*b"0302"), Taken)),
            (10000, Has(Waiting, 1)),
            (10000, Tells(Disconnection(4))),
            (10000, Has(Confirms, 5)),
            (10000, Has(Length, 40)),
            (15999, IsIn(State::Quiet)),
            (16000, IsIn(State::Down)),
        ],
    ),
    (
        "a copy of the opening request is discarded, and another request closes",
        Start::Up,
        &[
            (10020, Hears((5, 0), (500, 0), REQUEST, Discarded)),
            (10020, TellsNoMore),
            (10020, Hears((5, 0), (501, 0), REQUEST, WrongState)),
            (10020, Tells(Disconnection(1))),
        ],
    ),
    (
        "a request with the stamp of the opening one and another number closes",
        Start::Up,
        &[
            (10020, Hears((6, 0), (500, 0), REQUEST, WrongState)),
            (10020, Tells(Disconnection(1))),
        ],
    ),
    (
        "a client opens once it is down, and is up by the response to its request",
        Start::Client(GREATEST),
        &[
            (5999, Opens(false)),
            (6000, Opens(true)),
            (6000, Tells(REQUEST)),
            (6000, Has(Number, GREATEST as u64)),
            (
                6010,
                Hears((70, GREATEST - 1), (900, 6000), Response, BadConfirm),
            ),
            (6010, Hears((70, GREATEST), (900, 6000), Response, Taken)),
            (6010, IsIn(State::Up)),
            (6010, Tells(Heartbeat)),
            (6010, Has(Number, 0)),
            (6010, Has(Confirms, 70)),
        ],
    ),
    (
        "a response that returns another stamp is refused",
        Start::Client(100),
        &[
            (6000, Opens(true)),
            (6000, Tells(REQUEST)),
            (6010, Hears((70, 100), (900, 5999), Response, BadConfirm)),
            (6010, IsIn(State::Start)),
            (6010, Hears((70, 100), (900, 6001), Response, BadConfirm)),
            (6010, IsIn(State::Start)),
            (6010, TellsNoMore),
        ],
    ),
    (
        "a server in start is not asked for anything again",
        Start::Starting,
        &[
            (10010, Hears((6, 100), (510, 10000), Ask, WrongState)),
            (10010, Tells(Disconnection(1))),
            (10010, TellsNoMore),
        ],
    ),
    (
        "nor by a later number",
        Start::Starting,
        &[
            (10010, Hears((8, 100), (510, 10000), Ask, WrongState)),
            (10010, Tells(Disconnection(1))),
            (10010, TellsNoMore),
        ],
    ),
];

#[test]
fn connections_open_and_are_refused(rt: HostRuntime) {
    play(&rt, rt.alloc(), OPENINGS)
}
