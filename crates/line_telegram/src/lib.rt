//! The telegrams between the two ends of a line. Each has one spelling in bytes, in the manner of the other telegrams:
//! protocol, type, sender, receiver, payload. An end reads what its one partner says, and nothing else.
#![tactic(auto)]

mod greeting;
mod laws;
mod message;
mod reader;
mod writer;

pub use greeting::{Greeting, Heard, Stage};
pub use laws::{
    ends_of_one_version_agree, items_come_after_agreement, one_spelling_each, written_is_read,
};
pub use message::LineMessage;
pub use reader::read;
pub use writer::write;
