//! One end of a link after RaSTA (DIN VDE V 0831-200), without sockets or a clock of its own: each call is
//! given a clock reading, and hands out datagrams. No call on a made link takes memory.
#![tactic(auto)]

mod admission;
mod calls;
mod clock;
mod establishment;
mod fault;
mod header;
mod identity;
mod laws;
mod link;
mod outbox;
mod parameters;
mod phase;
mod reason;
mod reception;
mod time;
mod transmission;
mod verdict;
mod window;

pub use fault::SendFault;
pub use identity::{Identity, Role, Start};
pub use laws::full_connection_closes;
pub use link::{Link, Millis};
pub use outbox::Outbox;
pub use parameters::QUIET_TIME;
pub use phase::State;
pub use reason::Reason;
pub use reception::Inbox;
pub use time::{CLOCK_LIMIT, LATEST_CLOCK, LIFETIME, LIFETIME_MICROS, MICROS, ROUND, ROUND_MICROS};
pub use verdict::Verdict;
