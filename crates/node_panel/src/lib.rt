//! A signaller's panel of an interlocking that runs as a process of its own: it is joined to its node by the lines of an operator, shows
//! what the node tells, and asks of it what a browser asks for.
#![tactic(auto)]

mod asking;
mod attendance;
mod closed_heard;
mod command;
mod failure;
mod heard;
mod hearing;
mod known_read;
mod laws;
mod noted;
mod pictured;
mod stoppable;
mod told;

pub use attendance::{Room, attend_node};
pub use command::{NodePanelOptions, panel_of_node};
pub use heard::Heard;
pub use laws::{closings_of_the_process_are_heard, lines_are_read_again, numbers_are_heard};
pub use told::{ClosingsTold, Told, read_told};
