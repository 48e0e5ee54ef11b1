//! Recovery of a link: however two ends have been treated, they are up a bounded time after the network became good. Safety
//! stands in `rasta_core`; it is kept by two ends that never come up, too.
#![tactic(auto)]

mod asking;
mod at_work;
mod below;
mod coming_up;
mod falling;
mod first_round;
mod heartbeats;
mod lasting;
mod rounds;
mod windows;

pub use asking::{ends_ask_in_turn, two_that_wait_are_answered};
pub use at_work::{good_rounds_are_at_work, two_ends_at_work_come_up, two_ends_at_work_hand_over};
pub use coming_up::{gaps_are_rare, gaps_are_short, two_ends_come_up, wrong_clients_never_come_up};
pub use falling::nothing_falls;
pub use first_round::two_ends_come_up_whatever_comes_first;
pub use heartbeats::{
    clients_at_work_confirm, clients_at_work_speak, quiet_clients_confirm_at_once,
    servers_at_work_confirm, servers_at_work_speak, two_ends_at_work_confirm,
    what_servers_take_at_work_confirms,
};
pub use lasting::{what_was_given_before_is_confirmed, what_was_sent_long_ago_is_confirmed};
pub use rounds::good_rounds_may_happen;
pub use windows::{what_a_server_takes_confirms, what_is_taken_confirms};
