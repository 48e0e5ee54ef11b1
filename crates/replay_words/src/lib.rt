//! Lines, words, numbers and bytes of event files, and a text written as far as a writer takes it.
#![tactic(auto)]

mod cut;
mod fault;
mod laws;
mod read;
mod writer;

pub use cut::{Lines, Words, event_and_answer, is_passed_over, name_and_number};
pub use fault::{Fault, both};
pub use laws::{
    a_name_and_its_number_are_parted_again, a_number_is_read_again, bytes_are_read_again,
    joined_words_are_read_again,
};
pub use read::{Bytes, decimal, hex_word, hexadecimal, hexadecimal_or_none};
pub use writer::write_as_taken;
