//! An end of a line: who has the line's token, where the lock lies, and what is known of the partner's part. A step
//! tells what is to be written to the end's file before anything of it is given to the link or told to the station.
#![tactic(auto)]

mod kept;
mod laws;
mod line_end;
mod output;
mod rules;
mod seen;

pub use kept::Kept;
pub use laws::{
    empty_comes_by_clear, lock_comes_by_drive_and_token, lock_moves_only_where_driven,
    token_comes_by_give_or_none, unlinked_end_is_silent, what_has_changed_is_written,
    what_is_said_is_true,
};
pub use line_end::LineEnd;
pub use line_laws::{Item, Position, Side};
pub use output::Output;
pub use seen::Seen;
