//! Why an event isn't applied, to a station or to a pair of ends.
#![tactic(auto)]

mod refused;

pub use refused::Refused;
