//! The command line of `station`: its words, its help texts, what they ask for, and the files that they name.
#![tactic(auto)]

mod command;
mod command_table;
mod failure;
mod files;
mod line;
mod line_words;
mod request;
mod texts;

pub use clap::Error;
pub use command::{is_memory, read_words};
pub use failure::Failure;
pub use files::{files_of, input_once, lines_of, record_texts_of, text_of, texts_of};
pub use line_words::words;
pub use request::{
    Approach, BeginLineArguments, CaptureArguments, ChartArguments, CheckArguments,
    DatagramArguments, DrawArguments, NodeArguments, PanelArguments, PlanArguments, Request,
    RoutesArguments, RunArguments, SessionArguments, SimArguments, TableArguments, USUAL_HOLD,
};

// What crates above need of the crates below.
pub use run_files::RunFiles;
