//! The host of an end of a line: its link, the greeting with which a connection begins, the end itself, and its file.
//! Where the token came or went, or the lock moved, the file is kept before anything of the step leaves; where that
//! fails nothing leaves, and the end is over.
#![tactic(auto)]

mod input;
mod laws;
mod line_host;
mod parties;
mod report;
mod talk;

pub use input::Input;
pub use laws::{looks_are_moves, unjoined_end_is_unlinked, what_left_was_on_disk};
pub use line_end::{Position, Seen, Side};
pub use line_file::{FileFault, Name};
pub use line_host::LineHost;
pub use parties::Parties;
pub use rasta_core::{Millis, Start};
pub use report::Report;
pub use whole_file::{NotKept, Place};
