//! The connections of browsers, which are read and answered once a round. There are few of them, none waits, and one without a
//! whole request for 5 s is closed.
#![tactic(auto)]

mod connections;
mod listener;
mod peer;

pub use connections::Connections;
pub use listener::{Listens, Loopback, tell_address};
