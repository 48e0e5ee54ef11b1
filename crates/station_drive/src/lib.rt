//! The engine by which a station runs over datagrams: rounds, in which time goes on, each node hears, the lines of a script
//! that are due and what is asked for are applied, points reach their end positions, and each node ticks. Every event is
//! applied, recorded, and what it adds is sent. And its networks and clocks: loopback sockets with the clock of the machine, and
//! a network and a clock over memory.
#![tactic(auto)]

mod calls_told;
mod clock;
mod course;
mod datagrams;
mod datagrams_heard;
mod datagrams_waiting;
mod engine;
mod events;
mod events_performed;
mod failures_counted;
mod fault;
mod laws;
mod log;
mod memory_clock;
mod network;
mod port;
mod round_clock;
mod rounds;
mod sockets;
mod waiting_lines;

pub use calls_told::calls_are_told_in_their_order;
pub use clock::Clock;
pub use course::Course;
pub use datagrams::{Datagrams, NetFault};
pub use engine::Engine;
pub use fault::DriveFault;
pub use laws::no_line_that_is_due_is_left;
pub use log::NetCall;
pub use memory_clock::SteppingClock;
pub use network::MemoryNetwork;
pub use round_clock::RoundClock;
pub use sockets::{OpenFault, Sockets};

// What crates above need of the crates below.
pub use replay_lines::Received;
pub use simulator_event;
pub use simulator_event::{Outgoing, Station};
