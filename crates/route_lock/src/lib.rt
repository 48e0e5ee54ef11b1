//! What the set routes of a station lock: their entry signals, sections and points.
#![tactic(auto)]

mod laws;
mod locks;
mod rows;

pub use laws::{whole_routes_do_not_conflict, whole_routes_hold_what_they_require};
pub use locks::{LockFault, Locks};
