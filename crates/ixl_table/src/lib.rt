//! The control table of a station, as the rules of an interlocking read it: a row for each route, and where each section
//! is reported. What the set routes lock follows from how far each of them is.
#![tactic(auto)]

mod laws;
mod need;
mod reporters;
mod row;
mod table;

pub use laws::{
    points_are_held_by_phase, points_are_held_by_phase_at_a_side, points_are_held_by_some_phase,
    routes_block_by_phase, set_routes_lock_sections, the_first_blocking_route_is_told_by_phase,
};
pub use need::Need;
pub use row::Row;
pub use table::Table;
