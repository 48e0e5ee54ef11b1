//! A whole station in one process: every node with its clock, every link, the network between them, where the points stand
//! and which sections are occupied. Events happen to it one after another.
#![tactic(auto)]

mod application;
mod clocked_interlocking;
mod connections;
mod events;
mod found;
mod held;
mod node_steps;
mod parts;
mod picture;
mod refusals;
mod restarts;
mod sight;
mod station;
mod time_limits;
mod words;
mod world;

pub use station::receiver;
pub use world::World;

// What happens to a world, what it answers, and what is seen of it.
pub use simulator_spec::simulator_event::{
    Answer, ClockSteps, Event, Held, NodeId, Outgoing, RawDatagram, Refused, Reply, Shown,
    Snapshot, Stands, Station,
};

// The same for one client and one server.
pub use simulator_pair::{Pair, PairAnswer, PairEvent, PairReply};

// What crates above need of the crates below.
pub use simulator_field;
pub use simulator_pair;
pub use simulator_safety;
pub use simulator_spec;

// The everyday items of the crates below.
pub use simulator_field::{Network, SentOn};
pub use simulator_spec::ixl_spec::control_table::check;
pub use simulator_spec::{
    Aspect, BitRow, BorderId, CLOCK_LIMIT, Checked, Command, Datagram, Detector, DetectorId,
    HOLD_TIME, Key, LATEST_CLOCK, LIFETIME, LIFETIME_MICROS, LONGEST_DATAGRAM, Layout, MICROS,
    Millis, Name, Node, Occupancy, Outbox, Phase, Point, PointId, Position, Protocol, QUIET_TIME,
    ROUND, ROUND_MICROS, Refusal, Role, Route, RouteId, SectionId, Side, Signal, SignalId, Start,
    Verdict, is_intact, is_request, receiver_of, sender_of,
};
