//! The hold: what came ahead of its turn waits for those before it, so that networks of unequal delay don't make a link ask for what
//! is on its way.
#![tactic(auto)]

mod incoming;
mod intake;
mod laws;
mod network;
mod sender_hold;
mod sequence;

pub use incoming::Incoming;
pub use intake::Intake;
pub use laws::{
    a_hold_of_0_holds_nothing, holds_are_as_worked_by_hand, holds_last_as_long, nothing_is_lost,
    nothing_is_older, nothing_waits_for_long, the_deadline_is_the_first,
    what_is_handed_out_leaves_no_gap, what_isnt_ahead_is_handed_out_at_once,
};
pub use network::Network;
pub use sender_hold::{MOST_HELD, SenderHold};
pub use sequence::number_of;
