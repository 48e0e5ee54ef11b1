//! A file that is there whole or not at all, however its process ends: it is written under another name, synced, put
//! in the place of the old one, and then its folder is synced.
#![tactic(auto)]

mod call;
mod disk_place;
mod kept_file;
mod laws;
mod memory_place;
mod place;

pub use call::{Call, NotKept};
pub use disk_place::DiskPlace;
pub use kept_file::keep;
pub use laws::{keep_makes_these_moves, what_is_found_was_kept, what_leaves_is_on_disk};
pub use memory_place::MemoryPlace;
pub use place::Place;
