//! The layout of a railway: stations, each with a layout of its own, and the lines between them. What is wrong with one is told
//! all at once, each fault at its place.
#![tactic(auto)]

mod end_faults;
mod ends;
mod fault;
mod faults;
mod found;
mod ids;
mod laws;
mod line;
mod railway;
mod rules;
mod steps;
mod text;
mod values;
mod way;
mod written;

pub use fault::{Place, RailwayFault, TextFault};
pub use found::{Found, RailwayStation};
pub use ids::StationId;
pub use laws::each_line_is_locked;
pub use line::{Line, LineEnd};
pub use railway::{Railway, Refused};
pub use text::{is_railway, read_text};
pub use written::{WrittenEnd, WrittenLine, WrittenRailway, WrittenStation};

// What crates above need of the crates below.
pub use control_table;
