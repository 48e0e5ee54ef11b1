//! The file of what is closed of a station: it begins with the digest of the layout, says how many auxiliary commands were counted,
//! has a line for each closed thing, and ends in `end`. So a closing and a count outlive a restart. A file that says less than that
//! closes all track.
#![tactic(auto)]

mod fault;
mod found;
mod keeper;
mod laws;
mod reader;
mod unkept;
mod writer;

pub use closings::{Auxiliary, AuxiliaryCounts, BitRow, Closings, Layout, Named, Thing};
pub use fault::FileFault;
pub use found::Found;
pub use keeper::Keeper;
pub use laws::{
    a_keep_makes_these_moves, closed_until_it_is_opened, cut_off_is_told,
    no_text_is_of_two_layouts, what_is_counted_is_found, what_is_kept_is_found, written_is_read,
};
pub use unkept::Unkept;
pub use whole_file::{NotKept, Place};
