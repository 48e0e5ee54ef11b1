//! What `station check` tells of a railway: what its check tells of each station's layout, and what is wrong with its lines, each
//! fault once and in order.
#![tactic(auto)]

mod entry_words;
mod fault_lines;
mod faulty_text;
mod files;
mod laws;
mod place_words;
mod railway;
mod station_texts;
mod summary;
mod verdict;

pub use faulty_text::text_verdict;
pub use files::layout_file;
pub use laws::each_fault_is_told;
pub use railway::railway_verdict;
pub use verdict::Verdict;

// What crates above need of the crates below.
pub use railway_layout;
