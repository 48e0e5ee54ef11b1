//! Lines of events, sessions and scripts, and recorded sessions, applied again to a `World`: what `station sim` and
//! `station replay` do.
#![tactic(auto)]

mod drive;
mod due;
mod laws;
mod line;
mod outset;
mod play;
mod replayed_world;
mod run;
mod session;
mod sim;

pub use laws::{played_worlds_are_safe, stations_lie_as_lines_say, worlds_are_safe};
pub use replayed_world::{first_world, replay};
pub use session::replay_text;
pub use sim::sim_text;

// What crates above need of the crates below.
pub use replay_lines;
pub use replay_lines::{
    AnswerText, Entry, ROUND, Replayed, SessionFault, SimLine, node_named, read_lines, read_script,
    read_session, recorded, write_event,
};
pub use simulator;
pub use station_check;

// The everyday items of the crates below.
pub use simulator::{
    Answer, Aspect, BitRow, BorderId, CLOCK_LIMIT, Checked, ClockSteps, Command, Datagram,
    Detector, DetectorId, Event, HOLD_TIME, Held, Key, LATEST_CLOCK, LIFETIME, LIFETIME_MICROS,
    LONGEST_DATAGRAM, Layout, MICROS, Millis, Name, Network, Node, NodeId, Occupancy, Outbox,
    Outgoing, Phase, Point, PointId, Position, Protocol, QUIET_TIME, ROUND_MICROS, RawDatagram,
    Refusal, Refused, Reply, Role, Route, RouteId, SectionId, SentOn, Shown, Side, Signal,
    SignalId, Snapshot, Stands, Start, Station, Verdict, World, check, is_intact, is_request,
    receiver, receiver_of, sender_of,
};
pub use station_check::{Failure, check_text, table_of, tell};
