//! The texts of files and readers, up to a length: what doesn't end doesn't fill the memory.
#![tactic(auto)]

mod fault;
mod files;
mod limits;
mod readers;

pub use fault::TextFault;
pub use files::file_text;
pub use limits::Content;
pub use readers::{input_text, text_up_to};
