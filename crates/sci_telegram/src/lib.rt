//! The telegrams between an interlocking and its object controllers, in the manner of EULYNX SCI-P,
//! SCI-LS and SCI-TDS: each has one spelling in bytes. Nothing here takes memory.
#![tactic(auto)]

mod codes;
mod fault;
mod kind;
mod laws;
mod message;
mod name;
mod reader;
mod telegram;
mod types;
mod words;
mod writer;

pub use fault::SciFault;
pub use laws::{first_fault_is_read, one_spelling_each, read_was_written, written_is_read};
pub use message::{
    Agreement, Aspect, DetectionMessage, Initialisation, Message, Occupancy, PointMessage,
    Position, Protocol, SLOW_SINCE, Side, SignalMessage,
};
pub use name::Name;
pub use reader::read;
pub use telegram::Telegram;
pub use writer::write;
