//! What the process of a node has outside: a socket of its own, the clock of the machine, and its lines on the standard streams or
//! over a connection. And the same over memory, and what records say of it. And what an operator of a node has outside.
#![tactic(auto)]

mod caller;
mod calling_lines;
mod connection_lines;
mod entry;
mod fault;
mod laws;
mod line_buffer;
mod line_input;
mod line_output;
mod lines;
mod log;
mod machine;
mod memory;
mod network_socket;
mod networks_seen;
mod node_clock;
mod node_socket;
mod other_end;
mod record_lines;
mod recorded;
mod replayed;
mod shares;
mod stream_lines;
mod stream_waited;

pub use caller::Caller;
pub use entry::{Entry, entry_line};
pub use fault::OpenFault;
pub use laws::{lines_come_in_any_pieces, lines_come_one_by_one};
pub use lines::Lines;
pub use log::OutsideCall;
pub use machine::Machine;
pub use memory::MemoryOutside;
pub use networks_seen::NetworksSeen;
pub use node_clock::NodeClock;
pub use node_socket::{LONGEST_HOLD, NodeSocket};
pub use recorded::Recorded;
pub use replayed::Replayed;
pub use stream_waited::WaitedStream;

// What crates above need of the crates below.
pub use network_watch::NetworkWatch;
