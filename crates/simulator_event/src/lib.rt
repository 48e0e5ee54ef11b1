//! What happens to a station, what it answers, what is seen of it at a moment, and when that is safe. And what a station is that
//! is played.
#![tactic(auto)]

mod event;
mod readings;
mod reply;
mod safe;
mod snapshot;
mod station;

pub use event::Event;
pub use ixl_spec::control_table::layout::NodeId;
pub use readings::{ClockSteps, RawDatagram};
pub use reply::{Answer, Reply};
pub use simulator_refused::Refused;
pub use snapshot::{Held, Shown, Snapshot, Stands};
pub use station::{Outgoing, Station};
