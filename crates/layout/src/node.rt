//! Nodes.

use crate::ids::{DetectorId, PointId, SignalId};

/// The interlocking, or an object controller by its place in its table of the layout.
#[derive(Clone, Copy, Debug, PartialEq, Eq)]
pub enum Node {
    Interlocking,
    Signal(SignalId),
    Point(PointId),
    Detector(DetectorId),
}
