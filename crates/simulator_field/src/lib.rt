//! The field of a station: true time, the network with every datagram that was sent, and the object controllers with
//! their exact clocks.
#![tactic(auto)]

mod bag;
mod clocked_controller;
mod controller_steps;
mod copies_found;
mod datagrams_sent;
mod entry;
mod field;
mod field_anew;
mod first_field;
mod network;
mod new_controller;
mod sent_on;
mod stay;
mod time_passed;

pub use bag::Bag;
pub use clocked_controller::{ClockedController, MOST_SENT};
pub use field::Field;
pub use network::Network;
pub use new_controller::{new_detector, new_point, new_signal};
pub use sent_on::SentOn;
