//! Whether each of two networks still brings what the partners of a node send: what came over each, and when it is told that one is
//! lost, or back.
#![tactic(auto)]

mod laws;
mod link_watch;
mod network_watch;
mod path_seen;

pub use laws::{
    back_is_told_after_lost, each_silence_is_told, lost_is_told_of_silence_alone,
    watches_are_as_worked_by_hand,
};
pub use link_watch::{LinkUse, LinkWatch};
pub use network_watch::{NetworkWatch, Telling};
pub use path_seen::{News, PathSeen, SILENCE};

// What crates above need of the crates below.
pub use datagram_hold::Network;
