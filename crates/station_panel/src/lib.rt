//! The engine of a signaller's panel: rounds in which requests are answered, what was asked for happens to a station, and the
//! desk shows the picture of the station after the round.
#![tactic(auto)]

mod asked;
mod attendance;
mod counted;
mod disturbed;
mod ending;
mod faults;
mod log_lines;
mod memory;
mod noting;
mod panel;
mod picture_shown;
mod service;

pub use disturbed::Disturbed;
pub use ending::{Ending, Limits, PanelFault};
pub use noting::Noting;
pub use picture_shown::places;
pub use service::{PanelOptions, Served, serve};

// What a panel is made of.
pub use panel_connections::{Listens, Loopback, tell_address};
pub use panel_desk::node_lines::{Authority, Known, LinkState};
pub use panel_desk::{
    Desk, Mode, PageAsked, PanelLine, Pictured, StandingOrders, Thing as Closable, open_desk,
};

// What crates above need of the crates below.
pub use station_drive;
