//! The file of an end of a line: which line and which end it is of, whether the line's token is here, and where the
//! lock lies. It is there whole or not at all.
#![tactic(auto)]

mod end_file;
mod fault;
mod laws;
mod reader;
mod writer;

pub use end_file::{beginning, found, keep};
pub use fault::FileFault;
pub use laws::{cut_off_is_told, no_text_is_of_two_ends, written_is_read};
pub use line_end::{Kept, Position, Side};
pub use reader::read;
pub use sci_telegram::Name;
pub use whole_file::{NotKept, Place};
pub use writer::{Text, write};
