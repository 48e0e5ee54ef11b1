//! The machine of a station with trains: routes, sections, points, trains and deadlines as numbers, with no link, node or
//! telegram. After every list of its moves no two trains are in one section, and no point moves under a train.
#![tactic(auto)]

mod laws;
mod runs;

pub use laws::{invariant_is_kept, lists_of_moves_compose, promise_follows, trains_are_kept_apart};
pub use runs::{
    bounds_are_exact, each_premise_on_trains_is_needed, each_rule_is_needed,
    trains_follow_one_another, what_links_give_is_needed,
};
