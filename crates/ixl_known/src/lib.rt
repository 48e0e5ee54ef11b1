//! The controllers of a station as its interlocking knows them: of each its client, and what was given and heard in the
//! present connection; and what is known of sections and points.
#![tactic(auto)]

mod field;
mod field_clock;
mod known_detector;
mod known_point;
mod known_signal;
mod node;
mod orders;
mod reports_heard;
mod rows;
mod views;

pub use field::Field;
pub use known_detector::{KnownDetector, is_told_occupied};
pub use known_point::KnownPoint;
pub use known_signal::KnownSignal;
pub use node::Node;
