//! A station that runs in one process: its layout and its script are judged, each node gets a socket, and the station is driven
//! for some time, while every event is recorded. At the end its picture is told. This is what `station run` does. Or it is
//! driven from a panel, which is what `station panel` does, and what `station draw` does beside its page.
#![tactic(auto)]

mod beside;
mod machine;
mod panel_machine;
mod panel_record;
mod pictured_world;
mod prepared;
mod stoppable;
mod thing;
mod watched;

pub use beside::{Beside, PlayedBeside, attend_alone, panel_beside};
pub use machine::{RunOptions, run};
pub use panel_machine::{Attended, panel};
pub use prepared::{Prepared, StationRun, prepare};
pub use run_files::RunFiles;
pub use station_panel::{Limits, PageAsked, PanelOptions};

// What crates above need of the crates below.
pub use station_record;

// The everyday items of the crates below.
pub use station_record::{
    Aspect, BitRow, BorderId, CLOCK_LIMIT, Checked, Command, Datagram, Detector, DetectorId,
    Failure, Key, LATEST_CLOCK, LIFETIME, LIFETIME_MICROS, LONGEST_DATAGRAM, Layout, MICROS,
    Millis, Name, Node, NodeId, Occupancy, Outbox, Point, PointId, Position, Protocol, QUIET_TIME,
    ROUND, ROUND_MICROS, Role, Route, RouteId, SectionId, Side, Signal, SignalId, Start, Verdict,
    check_text, decode_text, is_intact, is_request, receiver_of, replay_text, sender_of, sim_text,
    table_of, tell,
};
