//! Captures of datagrams as files that Wireshark reads: the format pcapng, with raw packets of IPv4 that hold UDP.
#![tactic(auto)]

mod block;
mod checksum;
mod fault;
mod internet;
mod journey;
mod laws;
mod node_end;
mod out_file;

pub use block::{begin, push_datagram};
pub use fault::{CaptureFault, fault_line};
pub use journey::{Endpoint, Journey, MOST_BYTES};
pub use laws::carries_go_around;
pub use node_end::end_of;
pub use out_file::write_file;
