//! Where tracks, points and borders meet.

use crate::ids::{BorderId, PointId, TrackId};
use layout_text::End;

/// What a train passes over.
#[derive(Clone, Copy, Debug, PartialEq, Eq, Hash)]
pub enum Element {
    /// A track.
    Track(TrackId),
    /// A point.
    Point(PointId),
    /// A border, after which the layout ends.
    Border(BorderId),
}

/// A port of an element. A track has the ports `a` and `b`, a point `tip`, `left` and `right`, a
/// border `end`.
#[derive(Clone, Copy, Debug, PartialEq, Eq, Hash)]
pub struct Port {
    /// The element.
    pub element: Element,
    /// Which of its ports it is.
    pub end: End,
}
