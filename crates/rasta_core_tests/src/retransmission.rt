//! An end that misses a PDU, and one that repeats its items.

use crate::bench::Content::{Again, Answer, Ask, Data, Disconnection, Heartbeat};
use crate::bench::Figure::{Confirmed, Confirms, Given, Number, Waiting};
use crate::bench::Step::{Brought, Has, Hears, IsIn, Sends, Tells, TellsNoMore, Ticks};
use crate::bench::{Figure, Script, Start, play};
use rasta_core_link::Verdict::{Asked, BadConfirm, Discarded, Taken, WrongState};
use rasta_core_link::{SendFault, State};

const MISSED_AND_REPEATED: &[Script] = &[
    (
        "a later PDU is asked for again, and nothing of it is used",
        Start::Up,
        &[
            (10030, Hears((8, 100), (520, 10000), Data(2), Asked)),
            (10030, Tells(Ask)),
            (10030, Has(Confirms, 6)),
            (10040, Hears((7, 100), (515, 10000), Data(1), Discarded)),
            (10040, Has(Figure::Taken, 0)),
        ],
    ),
    (
        "missing items come once each, in their order",
        Start::Up,
        &[
            (10030, Hears((8, 100), (520, 10000), Data(2), Asked)),
            (10030, Tells(Ask)),
            (10040, Hears((7, 100), (515, 10000), Data(1), Discarded)),
            (10050, Hears((9, 101), (540, 10030), Answer, Taken)),
            (10050, Hears((10, 101), (540, 10030), Again(1), Taken)),
            (10050, Brought(1)),
            (10050, Hears((11, 101), (540, 10030), Again(2), Taken)),
            (10050, Brought(2)),
            (10050, Hears((12, 101), (540, 10030), Heartbeat, Taken)),
            (10050, IsIn(State::Up)),
            (10050, Has(Figure::Taken, 2)),
            (10330, Ticks),
            (10330, Tells(Heartbeat)),
            (10330, Has(Confirms, 12)),
        ],
    ),
    (
        "repeated items are confirmed by their new numbers",
        Start::Up,
        &[
            (10020, Sends(1, None)),
            (10020, Sends(2, None)),
            (10030, Hears((7, 100), (530, 10000), Ask, Taken)),
            (10030, Tells(Data(1))),
            (10030, Tells(Data(2))),
            (10030, Tells(Answer)),
            (10030, Tells(Again(1))),
            (10030, Has(Number, 104)),
            (10030, Tells(Again(2))),
            (10030, Tells(Heartbeat)),
            (10030, TellsNoMore),
            (10040, Hears((8, 103), (540, 10030), Heartbeat, Taken)),
            (10040, Has(Confirmed, 0)),
            (10040, Hears((9, 104), (540, 10030), Heartbeat, Taken)),
            (10040, Has(Confirmed, 1)),
            (10040, Hears((10, 106), (540, 10030), Heartbeat, Taken)),
            (10040, Has(Confirmed, 2)),
        ],
    ),
    (
        "a number confirmed once is the least that can be confirmed",
        Start::Up,
        &[
            (10020, Sends(1, None)),
            (10030, Hears((7, 101), (530, 10020), Heartbeat, Taken)),
            (10040, Hears((8, 100), (540, 10020), Heartbeat, BadConfirm)),
            (10040, Hears((8, 101), (540, 10020), Heartbeat, Taken)),
        ],
    ),
    (
        "a repeated item that was not asked for closes",
        Start::Up,
        &[
            (10020, Hears((7, 100), (520, 10000), Again(1), WrongState)),
            (10020, Tells(Disconnection(1))),
            (10020, Has(Figure::Taken, 0)),
        ],
    ),
    (
        "the window is full at 20 items",
        Start::Up,
        &[
            (10020, Sends(1, None)),
            (10020, Sends(1, None)),
            (10020, Sends(1, None)),
            (10020, Sends(1, None)),
            (10020, Sends(1, None)),
            (10020, Sends(1, None)),
            (10020, Sends(1, None)),
            (10020, Sends(1, None)),
            (10020, Sends(1, None)),
            (10020, Sends(1, None)),
            (10020, Sends(1, None)),
            (10020, Sends(1, None)),
            (10020, Sends(1, None)),
            (10020, Sends(1, None)),
            (10020, Sends(1, None)),
            (10020, Sends(1, None)),
            (10020, Sends(1, None)),
            (10020, Sends(1, None)),
            (10020, Sends(1, None)),
            (10020, Sends(1, None)),
            (10020, Sends(1, Some(SendFault::WindowFull))),
            (10020, Has(Waiting, 20)),
            (10030, Hears((7, 101), (530, 10020), Heartbeat, Taken)),
            (10030, Has(Confirmed, 1)),
            (10030, Sends(1, None)),
            (10030, Has(Given, 21)),
        ],
    ),
];

#[test]
fn what_is_missed_and_repeated(rt: HostRuntime) {
    play(&rt, rt.alloc(), MISSED_AND_REPEATED)
}
