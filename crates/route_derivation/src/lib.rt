//! The control table that follows from a layout: one route for each way that a train can take from a signal to
//! the next one.
#![tactic(auto)]

mod approach;
mod derived;
mod fault;
mod impossible;
mod lacking;
mod laws;
mod names;
mod partial;
mod passage;
mod route_parts;
mod rule;
mod search;
mod sides;
mod slow;
mod topology;

pub use approach::approach_of;
pub use control_table;
pub use derived::{DerivedRoute, all_signals, derive};
pub use fault::Underived;
pub use impossible::{Hindrance, ImpossibleWay, impossible_ways};
pub use lacking::{has_way, lacking_routes};
pub use laws::{
    derived_routes_lead_different_ways, derived_tables_are_sound, hindered_ways_are_impossible,
    sound_routes_are_derived,
};
pub use rule::ApproachRule;
pub use slow::SlowLegs;
