//! The part of an object controller that every kind of field object shares: what an object is told and
//! answers, and the law that makes it restrictive whatever its own program does.
#![tactic(auto)]

mod commands;
mod controller;
mod host;
mod host_step;
mod hosted;
mod initialisation;
mod input;
mod laws;
mod meaning;
mod parties;
mod report;
mod reports;
mod sense;
mod stage;

pub use controller::Controller;
pub use hosted::Hosted;
pub use input::Input;
pub use laws::{
    own_calls_open_nothing, step_is_calls, step_is_told_to_the_object, step_settles_first,
    step_tells_what_was_taken, steps_keep_a_host,
};
pub use parties::Parties;
pub use report::Report;
pub use sense::Sense;
