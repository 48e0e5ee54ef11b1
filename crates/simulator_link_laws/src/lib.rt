//! What happens to a station is, for each of its links, a list of what can happen to a link. There is no code here but
//! laws.
#![tactic(auto)]

mod events;
mod nodes;
mod restarts;
mod stations;
mod time_and_losses;
mod true_clocks;

pub use events::events_are_those_of_the_links;
pub use nodes::{
    deliveries_may_come, ends_are_those_of_the_nodes, hosts_say_items,
    interlockings_call_their_nodes, links_are_named_by_their_controllers,
};
pub use restarts::restarts_are_those_of_the_links;
pub use stations::{each_link_of_a_station_is_safe, layouts_name_their_links, stations_have_links};
pub use time_and_losses::{a_loss_is_one_of_the_links, time_passes_for_the_links};
pub use true_clocks::true_clocks_keep_links;

// What crates above need of the crates below.
pub use object_host_laws;
pub use simulator_move_laws;
pub use simulator_spec;

// The everyday items of the crates below.
pub use simulator_spec::point_ctl::Point;
pub use simulator_spec::signal_ctl::Signal;
pub use simulator_spec::{
    Answer, Aspect, BitRow, BorderId, CLOCK_LIMIT, Checked, ClockSteps, Datagram, DetectorId,
    Event, Held, Key, LATEST_CLOCK, LIFETIME, LIFETIME_MICROS, LONGEST_DATAGRAM, Layout, MICROS,
    Millis, Name, Node, NodeId, Occupancy, Outbox, PointId, Position, QUIET_TIME, ROUND,
    ROUND_MICROS, RawDatagram, Refused, Reply, Role, RouteId, SectionId, Shown, Side, SignalId,
    Snapshot, Stands, Start, Verdict, is_intact, is_request, receiver_of, sender_of,
};
