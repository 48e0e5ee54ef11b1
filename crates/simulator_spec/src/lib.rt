//! A whole station as its theorem speaks of it: its nodes with their clocks, the network between them, where the points
//! stand, which sections are occupied, and what each event changes.
#![tactic(auto)]

mod laws;
mod receivers;
mod round;

pub use laws::{
    a_restarted_interlocking_holds, a_station_begins_its_links, an_event_at_no_node_is_refused,
    the_first_world_is_at_rest,
};
pub use receivers::link_of;
pub use round::{FoundDriven, RoundEvent};

// What crates above need of the crates below.
pub use ixl_spec;
pub use object_host;
pub use point_ctl;
pub use signal_ctl;
pub use simulator_event;
pub use tds_ctl;

// The everyday items of the crates below.
pub use ixl_spec::{
    Aspect, BitRow, BorderId, CLOCK_LIMIT, Checked, Command, Datagram, Detector, DetectorId,
    HOLD_TIME, Key, LATEST_CLOCK, LIFETIME, LIFETIME_MICROS, LONGEST_DATAGRAM, Layout, MICROS,
    Millis, Name, Node, NodeId, Occupancy, Outbox, Phase, Point, PointId, Position, Protocol,
    QUIET_TIME, ROUND, ROUND_MICROS, Refusal, Role, Route, RouteId, SectionId, Side, Signal,
    SignalId, Start, Verdict, is_intact, is_request, receiver_of, sender_of,
};
pub use simulator_event::{
    Answer, ClockSteps, Event, Held, RawDatagram, Refused, Reply, Shown, Snapshot, Stands,
};
