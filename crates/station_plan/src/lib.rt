//! The track plan of a layout: what is drawn of it, where that lies, and its picture.
#![tactic(auto)]

mod chains;
mod columns;
mod courses;
mod directions;
mod drawn_lines;
mod drawn_plan;
mod element_marks;
mod extent;
mod groups;
mod heights;
mod labels;
mod laws;
mod levels;
mod links;
mod lists;
mod main_legs;
mod marks;
mod notes;
mod numbers;
mod paper;
mod placed;
mod places;
mod ranks;
mod rows;
mod section_marks;
mod seen_words;
mod shown;
mod signal_marks;
mod sketch;
mod strands;
mod style;
mod subjects;
mod thing;
mod thing_list;
mod units;
mod widths;
mod yard;

pub use drawn_lines::DrawnLine;
pub use drawn_plan::{plan, plan_by_hand};
pub use laws::{identities_differ, subjects_stand_once};
pub use places::{route_place, signal_place};
pub use shown::{Seen, Shown};
pub use thing::{Subject, Thing};
pub use thing_list::things;
