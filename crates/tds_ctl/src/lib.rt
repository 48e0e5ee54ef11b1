//! A detector: its sections, and the changes that it still has to report.
#![tactic(auto)]

mod detection;
mod laws;
mod section;
mod sections;

pub use detection::Detection;
pub use laws::{
    owes_each_change_until_it_is_sent, owes_nothing_but_changes, tells_every_state,
    tells_present_states,
};
