//! A line as it runs: the processes of its two ends, each with a clock and a file, and the network between them. What an
//! end sees of its station is handed in, so nothing of a station stands here.
#![tactic(auto)]

mod end_run;
mod ending;
mod flying;
mod laws;
mod line_world;
mod names;
mod time;

pub use ending::Ending;
pub use flying::Flying;
pub use laws::{at_most_one_token, both_locks_are_never_right, clear_was_clear};
pub use line_end::Kept;
pub use line_host::{Input, Millis, Name, Position, Report, Seen, Side, Start};
pub use line_world::{LineWorld, MOST_SENT};
pub use names::{EndName, LineNames, VERSION};
