//! A layout's text as it is written: its TOML, with missing keys and wrong kinds as faults.
#![tactic(auto)]

mod entries;
mod entries_read;
mod fault;
mod limits;
mod steps;
mod text;
mod values;

pub use entries::{
    End, PortName, Station, WrittenDetector, WrittenJoint, WrittenLayout, WrittenPoint,
    WrittenRoute, WrittenSignal, WrittenTrack,
};
pub use fault::{LayoutFault, Place, TableName};
pub use limits::within_limits;
pub use steps::{Step, all, each};
pub use text::{document, written};
