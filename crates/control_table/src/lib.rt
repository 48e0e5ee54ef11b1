//! The control table of one station: which layouts are sound, which routes conflict, and which points
//! and sections each route needs.
#![tactic(auto)]

mod checked;
mod conflicts;
mod fault;
mod laws;
mod masks;
mod order;
mod passage;
mod point_release;
mod row;
mod sections;
mod sides;
mod signals;
mod topology;
mod written;

pub use checked::{Checked, check};
pub use fault::{FaultyRoute, TableFault};
pub use laws::{
    a_route_leads_over_its_sections_alone, a_route_leads_over_sections_that_are_there,
    a_route_leads_over_the_sections_of_its_points, conflicts_go_both_ways,
    points_are_required_at_one_side, required_points_are_there,
    required_points_await_a_section_of_the_route, routes_of_one_entry_conflict,
};
pub use masks::RouteMasks;
pub use sides::FlankProtection;

// What crates above need of the crates below.
pub use bit_row;
pub use layout;
pub use layout::{BorderId, DetectorId, PointId, RouteId, SectionId, SignalId, TrackId};
pub use sci_telegram;

// The everyday items of the crates below.
pub use bit_row::BitRow;
pub use layout::{Layout, Node, NodeId};
pub use sci_telegram::{Aspect, Name, Occupancy, Position, Side};
