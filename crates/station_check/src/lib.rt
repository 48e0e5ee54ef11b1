//! What `station check` reports of a layout's text; and every failure of a command, with the line that it tells, what it leaves of
//! the output, and its status.
#![tactic(auto)]

mod check;
mod failure;
mod report;
mod table;

pub use check::check_text;
pub use failure::{Failure, tell};
pub use table::table_of;

// What crates above need of the crates below.
pub use node_addresses::{AddressesFault, Network, Networks, read_addresses, read_networks};
