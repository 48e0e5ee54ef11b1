//! The controllers and the interlocking as nodes that run as processes of their own, and what a controller's process is before its
//! node is made.
#![tactic(auto)]

mod asked;
mod changes;
mod closing_lines;
mod closings_kept;
mod comparison;
mod contacts;
mod controller_node;
mod controller_steps;
mod counting;
mod detector_node;
mod equipment;
mod interlocking_node;
mod interlocking_steps;
mod keeping;
mod knowledge;
mod laws;
mod opening_node;
mod own_sections;
mod point_node;
mod receivers;
mod saying;
mod signal_node;
mod thing;
mod thing_known;

pub use detector_node::DetectorNode;
pub use equipment::Equipment;
pub use interlocking_node::InterlockingNode;
pub use keeping::Keeping;
pub use opening_node::OpeningNode;
pub use point_node::PointNode;
pub use signal_node::SignalNode;
pub use thing::Thing;

// What crates above need of the crates below.
pub use node_drive;
pub use run_numbers;
pub use simulator_spec;

// The everyday items of the crates below.
pub use node_drive::{
    AnswerText, Fault, Lines, MICROS, Order, ROUND, ROUND_MICROS, SessionFault, Words, decimal,
    hex_word, hexadecimal_or_none, joined_words_are_read_again, name_word, names_are_read_again,
    names_are_words, node_named, point_named, read_event, read_order, read_script_event, recorded,
    route_named, section_named, write_as_taken, write_event,
};
