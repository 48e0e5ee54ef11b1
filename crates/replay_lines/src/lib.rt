//! The lines of events of a station and their answers, recorded sessions and scripts, and the replay of a session.
#![tactic(auto)]

mod agreement;
mod answers_read;
mod answers_written;
mod laws;
mod line;
mod lines_written;
mod names;
mod operation_words;
mod outset;
mod reply;
mod round_trip;
mod script;
mod session;
mod text;
mod words;

pub use agreement::{Replayed, agrees, replay};
pub use answers_read::read_answer;
pub use answers_written::AnswerText;
pub use laws::{begun_lines_stand_first, names_are_read_again, names_are_words};
pub use line::{SimLine, read_line};
pub use lines_written::{occupancy_verb, write_event};
pub use names::{
    name_word, node_named, point_named, point_word, route_named, route_word, section_named,
    section_word,
};
pub use operation_words::{close_named, move_point, open_named, release};
pub use outset::Begun;
pub use reply::recorded;
pub use round_trip::written_events_are_read_again;
pub use script::read_script;
pub use session::{Entry, read_session};
pub use text::{SessionFault, read_lines};
pub use words::{read_event, read_script_event};

// What crates above need of the crates below.
pub use ixl_spec;
pub use ixl_spec::rasta_core::{MICROS, ROUND, ROUND_MICROS};
pub use ixl_spec::rasta_pdu::{LONGEST_DATAGRAM, Received};
