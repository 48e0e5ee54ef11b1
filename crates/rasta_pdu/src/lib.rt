//! The PDUs of a link after RaSTA (DIN VDE V 0831-200): each has one spelling in bytes, which ends with
//! a safety code under the key of the network. Nothing here takes memory.
#![tactic(auto)]

mod body;
mod fault;
mod header;
mod item;
mod items;
mod key;
mod laws;
mod numbers;
mod pdu;
mod reader;
mod safety_code;
mod types;
mod writer;

pub use body::{Body, Opening};
pub use fault::PduFault;
pub use header::{is_request, receiver_of, sender_of};
pub use item::Item;
pub use items::Items;
pub use key::Key;
pub use laws::{
    intact_is_tested, one_spelling_each, read_was_written, the_first_fault_is_told,
    the_sender_is_told, written_is_read,
};
pub use pdu::Pdu;
pub use reader::read;
pub use safety_code::is_intact;
pub use writer::{Datagram, LONGEST_DATAGRAM, Received, write};
