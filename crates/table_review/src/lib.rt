//! What the table of a layout lacks: the routes that follow from the layout and aren't there, as blocks of its text or
//! written into it, and in words with whatever else a table may be asked about.
#![tactic(auto)]

mod asked;
mod block;
mod completed;
mod fault;
mod insertion;
mod names;
mod places;
mod review;
mod same_routes;
mod slow_key;
mod topology;

pub use asked::{Asked, lacking_text};
pub use block::{Form, add_route};
pub use completed::{Completed, completed_text};
pub use fault::ReviewFault;
pub use review::review_text;
pub use route_derivation::ApproachRule;
pub use slow_key::slow_legs;
pub use topology::layout_or_topology;
