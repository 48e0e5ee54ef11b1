//! Datagrams in words: a line for each, with its ends, its type, its numbers and stamps, and its telegrams.
#![tactic(auto)]

mod datagram;
mod decode;
mod item;
mod laws;
mod message;
mod node;
mod word_table;

pub use datagram::datagram_words;
pub use decode::decode_text;
pub use laws::telegrams_are_read_back;
