//! The controllers of signals, points and detectors for programs in C, in memory that they provide: a static library, which
//! `zendurai_controllers.h` declares. Memory is taken when a controller starts, and never after.
#![tactic(auto)]

mod answers;
mod datagram;
mod detector;
mod drive;
mod handle;
mod held;
mod lamp;
mod link;
mod point;
mod room;
mod sections;
mod setup;
mod signal;

pub use detector::{
    zendurai_detector_empty, zendurai_detector_hear, zendurai_detector_link,
    zendurai_detector_next, zendurai_detector_report, zendurai_detector_start,
    zendurai_detector_tick,
};
pub use drive::DriveOrder;
pub use handle::Handle;
pub use lamp::LampOrder;
pub use point::{
    zendurai_point_done, zendurai_point_empty, zendurai_point_hear, zendurai_point_link,
    zendurai_point_next, zendurai_point_order, zendurai_point_reached, zendurai_point_start,
    zendurai_point_tick,
};
pub use setup::Setup;
pub use signal::{
    zendurai_signal_done, zendurai_signal_empty, zendurai_signal_hear, zendurai_signal_link,
    zendurai_signal_next, zendurai_signal_order, zendurai_signal_start, zendurai_signal_tick,
};
