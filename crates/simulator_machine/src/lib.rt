//! The machine between the datagrams of a station and its promise: signals, points, routes and the interlocking's hold,
//! with no clock, no network and no numbers of datagrams. The promise holds after every list of its moves.
#![tactic(auto)]

mod chains;
mod laws;
mod runs;

pub use chains::{
    equal_numbers_are_same, lists_of_moves_compose, moves_of_each_are_moves,
    moves_of_links_are_moves, moves_of_one_are_moves,
};
pub use laws::{
    invariant_is_kept, known_points_are_settled, known_stop_is_dark, promise_follows,
    promise_holds, restarts_freeze_held_routes,
};
pub use runs::{
    each_premise_is_needed, each_rule_is_needed, routes_are_cleared_after_restarts,
    some_runs_show_aspects,
};
