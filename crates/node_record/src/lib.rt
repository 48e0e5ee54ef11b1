//! What a node's record tells: each datagram that came to the node, and each that it sent, at the reading of its clock, in words
//! or as a capture; and as a chart over these readings what its lines tell of signals, points, sections, routes and links. And
//! where the nodes of a station are found in captures, by an addresses file.
#![tactic(auto)]

mod capture;
mod course;
mod decode;
mod ends;
mod known_told;
mod laws;
mod node_chart;
mod node_ends;
mod node_rows;
mod node_story;
mod order_told;
mod out_file;
mod passage;
mod passed_line;
mod record;
mod record_head;
mod record_line;
mod report_told;
mod texts;
mod told;
mod whole_lines;
mod word_table;

pub use capture::node_capture;
pub use decode::decode_node_text;
pub use ends::{FoundEnds, ends_text};
pub use laws::traffic_is_as_worked_by_hand;
pub use node_chart::{Cut, NodeRecord, chart_node_text};
pub use node_ends::NodeEnds;
pub use out_file::{NodeCaptureOptions, capture_node_to_file};
