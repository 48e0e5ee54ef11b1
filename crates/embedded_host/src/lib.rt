//! An object controller inside a program's own loop: the rules of the loop, on which the promise of a station of processes stands,
//! are kept here, whoever calls.
#![tactic(auto)]

pub mod budget;
mod embedded;
mod laws;
mod refusal;

pub use embedded::Embedded;
pub use laws::{
    a_refusal_has_its_cause, calls_are_inputs, loops_are_as_worked_by_hand, one_that_starts_rests,
    the_equipment_follows_a_beginning, the_equipment_follows_what_counts,
    what_is_heard_waited_briefly, what_leaves_counts, what_leaves_is_in_force_and_fresh,
};
pub use refusal::Refusal;
