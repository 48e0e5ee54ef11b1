//! The files of a run: a record in parts, each of whole lines, which are read again as one text; and a file that ends the run by being
//! there.
#![tactic(auto)]

mod asked;
mod disk_parts;
mod in_parts;
mod laws;
mod line_ends;
mod names;
mod part_files;
mod parts_read;
mod piece;
mod stop_file;

pub use asked::RunFiles;
pub use disk_parts::{DiskParts, RecordFile, file_there, record_file};
pub use in_parts::InParts;
pub use laws::{
    a_part_is_longer_by_its_last_line_alone, all_but_the_last_end_with_a_line, parts_are_read_again,
};
pub use part_files::PartFiles;
pub use parts_read::{JoinFault, PartsFault, add_part, with_further_parts};
pub use stop_file::StopFile;
