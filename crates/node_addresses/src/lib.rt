//! The addresses file of a station: an IP address and a port for each of its nodes.
#![tactic(auto)]

mod address_read;
mod fault;
mod keys;
mod network;
mod networks;
mod text;

pub use fault::AddressesFault;
pub use network::Network;
pub use networks::{Networks, read_networks};
pub use text::read_addresses;

// What crates above need of the crates below.
pub use replay_lines::SessionFault;
