//! What an interlocking keeps: its table, its controllers, what is locked, and how far each route is.
#![tactic(auto)]

mod closed_things;
mod datagrams_heard;
mod field_calls;
mod first_state;
mod progress;
mod route;
mod route_locks;
mod state;

pub use ixl_spec::key_of;
pub use route::Route;
pub use state::State;

// What crates above need of the crates below.
pub use ixl_known;
pub use ixl_spec;
pub use ixl_table;
pub use release;

// The everyday items of the crates below.
pub use ixl_spec::{
    Aspect, BitRow, BorderId, CLOCK_LIMIT, Checked, Closings, Command, Datagram, Detector,
    DetectorId, HOLD_TIME, Key, LATEST_CLOCK, LIFETIME, LIFETIME_MICROS, LONGEST_DATAGRAM, Layout,
    MICROS, Millis, Name, Named, Node, NodeId, Occupancy, Outbox, Phase, Point, PointId, Position,
    Protocol, QUIET_TIME, ROUND, ROUND_MICROS, Refusal, Role, RouteId, SectionId, Side, Signal,
    SignalId, Start, Thing, Verdict, is_intact, is_request, receiver_of, sender_of,
};
