//! A point: the drive that a move begins, and the one final report that answers it.
#![tactic(auto)]

mod drive;
mod laws;
mod parameters;
mod point;
mod progress;

pub use drive::Drive;
pub use laws::{
    answers_each_move_once, answers_what_was_commanded, drives_for_a_move, reports_standing_still,
    stands_still,
};
pub use point::Point;
