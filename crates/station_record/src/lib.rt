//! What a recorded session tells, as it is applied again: each datagram that is sent, and each that is delivered or lost, in
//! words; those that are sent, as a capture; and its course over true time as a chart, with what is seen of each lane and
//! each change of it.
#![tactic(auto)]

mod capture;
mod chart;
mod decode;
mod ends;
mod event_lines;
mod fate;
mod happening;
mod lane_list;
mod line;
mod links;
mod out_file;
mod replayed;
mod seen;
mod sent_captured;
mod story;
mod texts;
mod watch;

pub use capture::capture_session;
pub use capture_file::Endpoint;
pub use chart::{Cut, chart_text};
pub use decode::decode_session_text;
pub use fate::Fate;
pub use lane_list::lanes_of;
pub use out_file::{CaptureOptions, capture_to_file};
pub use story::{Story, story_of};

// What crates above need of the crates below.
pub use replay;
pub use station_decode;

// The everyday items of the crates below.
pub use replay::{
    Answer, Aspect, BitRow, BorderId, CLOCK_LIMIT, Checked, ClockSteps, Command, Datagram,
    Detector, DetectorId, Event, Failure, HOLD_TIME, Held, Key, LATEST_CLOCK, LIFETIME,
    LIFETIME_MICROS, LONGEST_DATAGRAM, Layout, MICROS, Millis, Name, Network, Node, NodeId,
    Occupancy, Outbox, Outgoing, Phase, Point, PointId, Position, Protocol, QUIET_TIME, ROUND,
    ROUND_MICROS, RawDatagram, Refusal, Refused, Reply, Role, Route, RouteId, SectionId, SentOn,
    Shown, Side, Signal, SignalId, Snapshot, Stands, Start, Station, Verdict, World, check_text,
    is_intact, is_request, receiver, receiver_of, replay_text, sender_of, sim_text, table_of, tell,
};
pub use station_decode::decode_text;
