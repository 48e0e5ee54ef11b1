//! How old what an end of a link doesn't know can be: laws of *caught up*, over every list of events of two ends.
#![tactic(auto)]

mod below;
mod each_link;
mod exact_order;
mod knowledge;
mod starved;

pub use each_link::each_link_knows_all;
pub use exact_order::{items_are_repeated_in_retransmissions, order_is_exact};
pub use knowledge::who_is_caught_up_knows_all;
pub use starved::{a_retransmission_does_not_count, a_starved_end_stays_up};
