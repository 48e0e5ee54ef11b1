//! The two ends of a line, and their laws: two stations are joined by one track that is run in both directions, and
//! each has a controller at its end of the line. At most one end has the line's token, the two locks never lie at the
//! right at once, and an end that tells its station *clear* knows that the line was clear. The definition of an end's
//! step stands here; the laws are of two ends over links of which nothing is known but their order and connections.
#![tactic(auto)]

mod laws;
mod runs;
mod words;

pub use laws::{
    at_most_one_token, both_locks_are_never_right, clear_was_clear, files_are_kept,
    invariant_is_kept, locked_end_has_the_token, moves_follow_one_another,
};
pub use runs::{
    both_may_ask, clear_is_told_when_both_are, each_rule_of_clear_is_needed,
    each_rule_of_the_token_is_needed, lost_token_is_made_again, right_parts_make_the_step,
    token_is_handed_over, token_outlives_the_link,
};
pub use words::{Item, Position, QueryOut, Side};
