//! The process of a node, from its first call to its last: it waits for its field equipment, makes its node, lets it live, and tells
//! the equipment to rest. By the files that a command names, or by a record of what came to it. And the file of what is closed, which
//! outlives the process of an interlocking.
#![tactic(auto)]

mod command;
mod controllers;
mod digest;
mod failure;
mod laws;
mod lives;
mod numbered;
mod process;
mod replay;
mod resident;
mod stoppable;
mod takeover;
mod with_file;

pub use command::{NodeOptions, run};
pub use digest::layout_digest;
pub use laws::{
    a_keep_makes_these_calls, what_is_found_is_told_first, what_surely_is_closed_is_found,
    what_surely_was_counted_is_found, what_was_kept_last_is_found,
};
pub use process::{NodeRun, run_node};
pub use replay::replay_node_text;
pub use with_file::WithFile;

// What crates above need of the crates below.
pub use closings_file;
pub use node_network;
pub use whole_file;
