//! The lines of `pair`, what each answers, and its command line.
#![tactic(auto)]

mod answer;
mod command;
mod failure;
mod line;
mod picture;
mod print;
mod run;
mod text;

pub use clap::Error;
pub use command::{Asked, is_memory, read_words, status};
pub use failure::{Failure, tell};
pub use line::{PairLine, read_line};
pub use print::pair_text;
pub use text::{LineFault, judge};
