//! A station is its nodes. There is no code here but laws.
#![tactic(auto)]

mod contacts;
mod laws;
mod worked;

pub use contacts::{
    a_detector_may_be_told_again, a_point_may_be_told_again,
    a_point_may_be_told_while_it_is_driven, contacts_of_sections_change_no_snapshot,
    noise_may_always_come,
};
pub use laws::{
    a_point_drives_as_its_last_line, a_signal_shows_its_last_line, a_station_is_its_nodes,
    drift_turns_every_reading, every_event_is_one_nodes, the_readings_of_a_life_rise,
    what_is_delivered_left_a_node, what_is_sent_is_what_nodes_say,
    what_nodes_of_true_clocks_show_is_safe, what_the_nodes_show_is_safe,
    what_the_nodes_show_is_seen,
};
pub use worked::wrong_lives_are_refuted;
