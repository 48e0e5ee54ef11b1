//! The order of the tests.

use crate::bench::Content::{Answer, Disconnection, Heartbeat};
use crate::bench::Step::{HearsBytes, HearsOf, Tells, TellsNoMore};
use crate::bench::{Script, Start, play};
use rasta_core_link::Verdict::{
    BadConfirm, NotForMe, OutOfRange, Quiet, Stale, Unreadable, WrongSender, WrongState,
};
use rasta_pdu::PduFault;

const IN_THEIR_ORDER: &[Script] = &[
    (
        "the first test that fails is the verdict",
        Start::Up,
        &[
            (10020, HearsBytes(&[0; 35], Unreadable(PduFault::TooShort))),
            (
                10020,
                HearsOf((3, 9), (208, 99), (520, 9999), Answer, NotForMe),
            ),
            (
                10020,
                HearsOf((2, 9), (208, 99), (520, 9999), Answer, WrongSender),
            ),
            (
                10020,
                HearsOf((2, 1), (208, 99), (520, 9999), Answer, OutOfRange),
            ),
            (
                10020,
                HearsOf((2, 1), (207, 99), (520, 9999), Answer, Stale),
            ),
            (
                10020,
                HearsOf((2, 1), (207, 99), (520, 10021), Answer, Stale),
            ),
            (
                10020,
                HearsOf((2, 1), (207, 99), (520, 10020), Answer, BadConfirm),
            ),
            (
                10020,
                HearsOf((2, 1), (207, 101), (520, 10020), Answer, BadConfirm),
            ),
            (10020, TellsNoMore),
            (
                10020,
                HearsOf((2, 1), (207, 100), (520, 10020), Answer, WrongState),
            ),
            (10020, Tells(Disconnection(1))),
        ],
    ),
    (
        "outside a connection only the identities are tested before the state",
        Start::Server,
        &[
            (
                5999,
                HearsOf((3, 1), (900, 900), (520, 9999), Heartbeat, NotForMe),
            ),
            (
                5999,
                HearsOf((2, 1), (900, 900), (520, 9999), Heartbeat, Quiet),
            ),
            (
                6000,
                HearsOf((2, 1), (900, 900), (520, 9999), Heartbeat, WrongState),
            ),
            (6000, TellsNoMore),
        ],
    ),
];

#[test]
fn which_test_comes_first(rt: HostRuntime) {
    play(&rt, rt.alloc(), IN_THEIR_ORDER)
}
