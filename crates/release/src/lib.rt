//! When a train's passage frees the sections of a route, and when the approach to its signal lets it go.
#![tactic(auto)]

mod approach;
mod passage;

pub use approach::{APPROACH_TIME, Approach};
pub use passage::Passage;
