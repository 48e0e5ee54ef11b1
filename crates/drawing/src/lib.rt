//! A picture of shapes in groups, and its one spelling as SVG text.
#![tactic(auto)]

mod escaped;
mod picture;
mod shape;
mod written_picture;
mod written_shape;

pub use picture::{Frame, Group, Picture, Strip};
pub use shape::{Anchor, Mark, Shape, Spot};
pub use written_picture::svg;
