//! What happens in a story, and when.

use crate::node_stories::station::{D1, INTERLOCKING, S1};

/// What happens before a round.
#[derive(Clone, Copy)]
pub(crate) enum Act {
    /// The operator says a line.
    Say(&'static str),
    /// A node is made anew.
    MakeAnew(usize),
    /// The node is made anew with which the story is played.
    MakeChosenAnew,
    /// The equipment of a node doesn't say any more that an order is in force.
    Silence(usize),
    /// A node isn't called for so many rounds.
    Stop(usize, u64),
    /// From now on so many datagrams come to a node in each round, from the address of the interlocking.
    Flood(usize, usize),
}

/// Before which round what happens. Rounds are 40 ms apart.
pub(crate) type Row = (u64, Act);

/// A route is set, and cancelled again.
pub(crate) const PROCEED: &[Row] = &[
    (170, Act::Say("resume")),
    (180, Act::Say("set R1")),
    (230, Act::Say("cancel all")),
];

/// For how many rounds it is played.
pub(crate) const PROCEED_ROUNDS: u64 = 250;

/// The signal that shows proceed is made anew, and then the interlocking.
pub(crate) const TWO_RESTARTS: &[Row] = &[
    (170, Act::Say("resume")),
    (180, Act::Say("set R1")),
    (230, Act::MakeAnew(S1)),
    (800, Act::Say("cancel all")),
    (810, Act::Say("set R1")),
    (860, Act::MakeAnew(INTERLOCKING)),
    (1430, Act::Say("resume")),
    (1440, Act::Say("set R1")),
    (1490, Act::Say("cancel all")),
];

pub(crate) const TWO_RESTARTS_ROUNDS: u64 = 1510;

/// A node is made anew at proceed. Later the route is set once more.
pub(crate) const MADE_ANEW: &[Row] = &[
    (170, Act::Say("resume")),
    (180, Act::Say("set R1")),
    (230, Act::MakeChosenAnew),
    (790, Act::Say("resume")),
    (800, Act::Say("cancel all")),
    (810, Act::Say("set R1")),
    (860, Act::Say("cancel all")),
];

pub(crate) const MADE_ANEW_ROUNDS: u64 = 880;

/// The lamp's equipment never says that an order is in force.
pub(crate) const NEVER_DONE: &[Row] = &[
    (0, Act::Silence(S1)),
    (170, Act::Say("resume")),
    (180, Act::Say("set R1")),
];

/// It doesn't any more once the lamp shows proceed.
pub(crate) const DONE_NO_MORE: &[Row] = &[
    (170, Act::Say("resume")),
    (180, Act::Say("set R1")),
    (230, Act::Silence(S1)),
];

pub(crate) const SILENT_ROUNDS: u64 = 300;

/// The same for the detector. The route's approach isn't known to be clear then, so its approach lock has to pass, which takes 120 s.
pub(crate) const APPROACH_UNKNOWN: &[Row] = &[
    (170, Act::Say("resume")),
    (180, Act::Say("set R1")),
    (230, Act::MakeAnew(D1)),
    (800, Act::Say("cancel all")),
    (3850, Act::Say("set R1")),
    (3900, Act::Say("cancel all")),
];

pub(crate) const APPROACH_ROUNDS: u64 = 3920;

/// A route is set so late that each controller is ready, also one that was made later than the interlocking.
pub(crate) const LATE: &[Row] = &[
    (600, Act::Say("resume")),
    (610, Act::Say("set R1")),
    (660, Act::Say("cancel all")),
];

pub(crate) const LATE_ROUNDS: u64 = 680;

/// Nothing happens but that the hold ends.
pub(crate) const REST: &[Row] = &[(1000, Act::Say("resume"))];

/// The signal that shows proceed isn't called for so many rounds. Later the route is set once more.
pub(crate) const STOPPED_1_S: &[Row] = &[
    (170, Act::Say("resume")),
    (180, Act::Say("set R1")),
    (230, Act::Stop(S1, 25)),
    (800, Act::Say("cancel all")),
    (810, Act::Say("set R1")),
    (860, Act::Say("cancel all")),
];

pub(crate) const STOPPED_3_S: &[Row] = &[
    (170, Act::Say("resume")),
    (180, Act::Say("set R1")),
    (230, Act::Stop(S1, 75)),
    (800, Act::Say("cancel all")),
    (810, Act::Say("set R1")),
    (860, Act::Say("cancel all")),
];

pub(crate) const STOPPED_30_S: &[Row] = &[
    (170, Act::Say("resume")),
    (180, Act::Say("set R1")),
    (230, Act::Stop(S1, 750)),
    (1500, Act::Say("cancel all")),
    (1510, Act::Say("set R1")),
    (1560, Act::Say("cancel all")),
];

pub(crate) const STOPPED_30_S_ROUNDS: u64 = 1580;

/// Datagrams come to the signal from a partner's address: more than a round takes.
pub(crate) const FLOODED: &[Row] = &[
    (170, Act::Say("resume")),
    (180, Act::Say("set R1")),
    (230, Act::Flood(S1, 100)),
    (330, Act::Flood(S1, 0)),
    (800, Act::Say("cancel all")),
    (810, Act::Say("set R1")),
    (860, Act::Say("cancel all")),
];

/// The same, so many that a round can't throw them away.
pub(crate) const DROWNED: &[Row] = &[
    (170, Act::Say("resume")),
    (180, Act::Say("set R1")),
    (230, Act::Flood(S1, 4200)),
    (300, Act::Flood(S1, 0)),
    (800, Act::Say("cancel all")),
    (810, Act::Say("set R1")),
    (860, Act::Say("cancel all")),
];
