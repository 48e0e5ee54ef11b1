//! What a controlled object was told, shows and reports over a link is what was commanded there: laws for every lawful
//! object and every list of what can happen to a client, a host and their datagrams.
#![tactic(auto)]

mod controllers;
mod hosts;

pub use controllers::{
    point_makes_a_step, point_reports_its_moves, signal_shows_what_was_told,
    steps_find_what_was_reported,
};
pub use hosts::{step_takes_and_gives, told_is_given, what_is_taken_is_acted_on};
