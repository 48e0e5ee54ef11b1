//! The interlocking of a station: which routes are set, when a point is moved, and when a signal may show more than stop.
#![tactic(auto)]

mod approaches_seen;
mod authority;
mod authority_end;
mod cancel_rule;
mod commands;
mod datagrams_heard;
mod field_known;
mod idle_routes;
mod input;
mod interlocking;
mod laws;
mod operation_refusals;
mod operations;
mod passage;
mod point_moves;
mod proceed_rule;
mod refusals;
mod six_rules;
mod step;
mod withdrawal;

pub use field_known::is_approach_clear;
pub use input::{Input, Reply};
pub use interlocking::Interlocking;
pub use ixl_state::ixl_spec::{Command, Refusal};
pub use laws::{requests_are_accepted_where_admissible, steps_may_follow_at_later_clocks};
pub use six_rules::apply_rules;
