//! A simulator of one link: two ends, the network between them, their clocks, and a lamp that the server keeps.
#![tactic(auto)]

mod application;
mod bag;
mod event;
mod lamp;
mod node;
mod pair;
mod parts;
mod worked;

pub use bag::Bag;
pub use event::{Bytes, PairAnswer, PairEvent, PairReply};
pub use pair::Pair;
pub use rasta_core::{Reason, Role, SendFault, Sent};
pub use rasta_pdu::Item;
pub use signal_ctl::Aspect;
pub use simulator_refused::Refused;
pub use worked::worked_runs;
