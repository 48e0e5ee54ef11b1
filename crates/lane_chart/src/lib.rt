//! The chart of a session over true time: rows of signals, points, sections, routes, links and nodes, each with what it
//! shows from change to change, and the commands and restarts above them.
#![tactic(auto)]

mod axis;
mod change;
mod drawn;
mod happening_marks;
mod lane;
mod laws;
mod legend;
mod marks;
mod picture;
mod row_list;
mod row_marks;
mod scale;
mod scene;
mod spans;
mod style;
mod subject;
mod words;

pub use change::{Change, Happening};
pub use drawn::{DrawnRow, drawn_rows};
pub use lane::{Kind, Lane, Progress, Readiness, Seen};
pub use laws::{bands_show_what_was_seen_last, identities_stand_once};
pub use picture::chart;
pub use scale::Window;
pub use spans::Span;
pub use subject::{Row, Sort, Subject};
