//! A line that begins: the files of its two ends are written, so that the first end has the token, the second none, and both locks lie
//! at the left. However that goes, no second token comes.
#![tactic(auto)]

mod asked;
mod both_files;
mod laws;
mod named_line;
mod names;
mod sight;
mod typed_words;

pub use asked::{Asked, NotBegun, Refusal};
pub use both_files::begin;
pub use laws::{
    begin_makes_these_events, begun_line_has_both_files, kept_second_file_has_no_token,
    no_second_token_comes, no_two_ends_have_one_file,
};
pub use named_line::{NoLine, line_named};
pub use names::end_file_name;
pub use sight::{There, look};
pub use typed_words::confirmation;

// What crates above need of the crates below.
pub use line_file::{Name, NotKept, Place, Side};
pub use railway_check::railway_layout::{
    WrittenEnd, WrittenLine, WrittenRailway, WrittenStation, is_railway, read_text,
};
pub use railway_check::{Verdict, layout_file, railway_verdict, text_verdict};
