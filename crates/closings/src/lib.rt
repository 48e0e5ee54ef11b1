//! What of a station is closed: sections, points at a side, signals and routes, and the words by which lines name them.
#![tactic(auto)]

mod auxiliary;
mod closed;
mod laws;
mod thing;
mod words;

pub use auxiliary::{Auxiliary, AuxiliaryCounts};
pub use closed::Closings;
pub use laws::{
    a_command_changes_what_it_names_alone, a_name_names_what_has_it, all_track_is_closed,
    what_either_closes_is_closed, what_is_listed_is_there_and_closed, words_are_read_again,
    words_say_what_is_there,
};
pub use thing::{Named, Thing};
pub use words::{side_said, side_word};

// What crates above need of the crate below.
pub use control_table;
pub use control_table::layout::{Layout, PointId, RouteId, SectionId, SignalId};
pub use control_table::sci_telegram::Side;
pub use control_table::{BitRow, Checked};
