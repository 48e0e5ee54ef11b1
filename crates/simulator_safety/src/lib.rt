//! The headline: after every list of events that can happen to a station, each snapshot of it is safe. There is no code here
//! but laws.
#![tactic(auto)]

mod changes;
mod clocks;
mod detectors;
mod ends;
mod events;
mod far_ends;
mod first;
mod flight;
mod headline;
mod networks;
mod points;
mod reached;
mod representations;
mod signals;
mod steps;
mod worlds;

pub use changes::changes_are_represented;
pub use clocks::{
    restarts_of_interlockings_are_represented, time_keeps_representations,
    time_of_true_clocks_keeps_representations,
};
pub use detectors::{events_at_detectors_are_represented, losses_are_represented};
pub use ends::{
    calls_give_and_take_at_the_ends, clients_are_seen_at_their_ends, peers_with_names_are_read,
};
pub use events::controllers_events_are_represented;
pub use far_ends::{clients_are_alone_after_quiet, far_ends_are_known, reports_made_are_heard};
pub use first::{new_interlockings_are_just_made, stations_begin_represented};
pub use flight::{
    aspects_in_flight_are_of_held_routes, items_are_read_off_the_datagrams,
    points_of_held_routes_are_at_rest, what_is_taken_was_in_flight,
};
pub use headline::{
    every_event_is_represented, every_world_is_reached_by_moves, every_world_is_safe,
    every_world_of_true_clocks_is_safe, lists_of_events_go_on,
};
pub use networks::{networks_follow_their_worlds, networks_pass_time};
pub use points::events_at_points_are_represented;
pub use reached::reached_worlds_are_safe;
pub use representations::{represented_worlds_are_safe, represented_worlds_are_seen};
pub use signals::events_at_signals_are_represented;
pub use steps::steps_of_interlockings_are_represented;
pub use worlds::{held_pairs_are_held_routes, seen_stations_are_safe};
