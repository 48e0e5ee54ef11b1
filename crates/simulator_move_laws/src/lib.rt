//! What the links, the controllers and the interlocking of a station do is lists of moves of its machine: each step, the passing of a
//! clock, each restart. And what the machine reads of items. There is no code here but laws.
#![tactic(auto)]

mod client_knowledge;
mod datagrams;
mod ends;
mod interlockings;
mod items;
mod lawful;
mod lists_of_calls;
mod moves;
mod on_tick;
mod parts;
mod places;
mod points;
mod rules;
mod seen;
mod signals;
mod steps;
mod what_stays;

pub use client_knowledge::clients_know_throughout;
pub use datagrams::datagrams_are_moves;
pub use ends::lawful_ends_are_fit;
pub use interlockings::{
    controllers_change_nothing_seen, courses_are_moves, held_routes_are_seen,
    passing_time_is_moves, restarts_are_moves, steps_are_moves, steps_are_seen,
};
pub use items::{items_join, written_items_are_read};
pub use lawful::{lawful_links_stay_lawful, lawful_worlds_pass_time, lawful_worlds_stay_lawful};
pub use lists_of_calls::{
    calls_may_follow_calls, calls_of_a_client_are_told, calls_of_a_server_are_moves,
    calls_of_a_server_are_sent, clients_ask_where_they_begin, servers_enter_once,
};
pub use moves::{events_are_moves, links_are_represented};
pub use on_tick::ticks_are_moves;
pub use parts::clients_fit_behind_each_part;
pub use places::{flows_are_in_order, representations_tell_the_connection};
pub use points::{
    driven_points_are_seen_driven, points_begin_seen, points_pass_time_and_restart,
    points_stay_elsewhere, steps_of_points_are_moves,
};
pub use rules::rules_are_moves;
pub use seen::{made_interlockings_are_seen, tables_are_sound};
pub use signals::{
    signal_shows_what_is_seen, signals_begin_seen, signals_pass_time_and_restart,
    signals_stay_elsewhere, steps_of_signals_are_moves,
};
pub use steps::{a_client_of_many_makes_a_step, a_node_of_one_link_makes_a_step};
pub use what_stays::{
    only_calls_begin_connections, only_calls_give_and_take, restarts_of_links_are_moves,
};
