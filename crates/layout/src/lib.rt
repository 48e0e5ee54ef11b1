//! The engineering data of one station, read from a TOML text, and what its faults mean in words of that text.
#![tactic(auto)]

mod detector;
mod doubles;
mod entries;
mod ids;
mod known;
mod laws;
mod names_resolved;
mod node;
mod nodes;
mod port;
mod site;

pub use detector::Detector;
pub use entries::{Exit, Joint, Point, Route, Signal, Track};
pub use ids::{BorderId, DetectorId, NodeId, PointId, RouteId, SectionId, SignalId, TrackId};
pub use laws::{limit_is_the_first_entry_too_many, unknown_name_is_the_first_that_no_entry_has};
pub use layout_text::{End, LayoutFault, Place, Station, TableName};
pub use node::Node;
pub use port::{Element, Port};
pub use site::Layout;
