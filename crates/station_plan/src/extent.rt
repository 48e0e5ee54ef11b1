//! How far marks reach.

use crate::element_marks::moved;
use crate::thing::{Subject, Thing};
use crate::units::{Units, count};
use drawing::{Anchor, Frame, Mark, Shape, Spot};

/// A part of the plane: empty where the right border lies left of the left one.
#[derive(Clone, Copy)]
pub(crate) struct Extent {
    /// Its left border.
    pub(crate) left: Units,
    /// Its upper border.
    pub(crate) top: Units,
    /// Its right border.
    pub(crate) right: Units,
    /// Its lower border.
    pub(crate) bottom: Units,
}

/// No part of the plane.
pub(crate) const NOWHERE: Extent = Extent {
    left: Units(1_000_000),
    top: Units(1_000_000),
    right: Units(-1_000_000),
    bottom: Units(-1_000_000),
};

/// The borders of a vertical stripe that has all of the plane.
pub(crate) const EVERYWHERE: (Units, Units) = (Units(-1_000_000), Units(1_000_000));

impl Extent {
    /// The part around both.
    pub(crate) fn with(self, other: Extent) -> Extent {
        Extent {
            left: self.left.or_less(other.left),
            top: self.top.or_less(other.top),
            right: self.right.or_more(other.right),
            bottom: self.bottom.or_more(other.bottom),
        }
    }

    /// The same with so much more at each side.
    pub(crate) fn grown(self, by: Units) -> Extent {
        Extent {
            left: self.left - by,
            top: self.top - by,
            right: self.right + by,
            bottom: self.bottom + by,
        }
    }

    /// The same, or the origin where it is empty.
    pub(crate) fn or_origin(self) -> Extent {
        if self.left.0 <= self.right.0 {
            return self;
        }
        Extent {
            left: Units(0),
            top: Units(0),
            right: Units(0),
            bottom: Units(0),
        }
    }

    /// How wide it is.
    pub(crate) fn width(self) -> Units {
        (self.right - self.left).or_more(Units(0))
    }

    /// How high it is.
    pub(crate) fn height(self) -> Units {
        (self.bottom - self.top).or_more(Units(0))
    }

    /// The same as a frame.
    pub(crate) fn frame(self) -> Frame {
        Frame {
            left: self.left.0,
            top: self.top.0,
            width: self.width().0.unsigned_abs(),
            height: self.height().0.unsigned_abs(),
        }
    }
}

/// How far a spot reaches with so much around it.
fn around(spot: Spot, by: Units) -> Extent {
    Extent {
        left: Units(spot.x) - by,
        top: Units(spot.y) - by,
        right: Units(spot.x) + by,
        bottom: Units(spot.y) + by,
    }
}

/// How far spots reach that lines join.
fn all_around(spots: &[Spot]) -> Extent {
    let mut extent = NOWHERE;
    for spot in spots {
        extent = extent.with(around(*spot, Units(3)));
    }
    extent
}

/// How far a text reaches.
fn written(at: Spot, anchor: Anchor, letters: usize) -> Extent {
    let width = crate::labels::LETTER.times(count(letters));
    let x = Units(at.x);
    let left = match anchor {
        Anchor::Start => x,
        Anchor::Middle => x - width.half(),
        Anchor::End => x - width,
    };
    Extent {
        left,
        top: Units(at.y) - Units(9),
        right: left + width,
        bottom: Units(at.y) + Units(3),
    }
}

/// A length that is written without a sign.
fn length(units: u32) -> Units {
    Units(i32::try_from(units).unwrap_or(i32::MAX))
}

/// How far a mark reaches.
pub(crate) fn reach(mark: &Mark) -> Extent {
    match &mark.shape {
        Shape::Line { from, to } => around(*from, Units(3)).with(around(*to, Units(3))),
        Shape::Polyline(spots) | Shape::Polygon(spots) => all_around(spots.as_slice()),
        Shape::Circle { centre, radius } => around(*centre, length(*radius) + Units(1)),
        Shape::Rectangle {
            corner,
            width,
            height,
        } => {
            let end = moved(*corner, length(*width).0, length(*height).0);
            around(*corner, Units(1)).with(around(end, Units(1)))
        }
        Shape::Text { at, anchor, words } => written(*at, *anchor, words.len()),
    }
}

/// How far marks reach that touch a vertical stripe.
pub(crate) fn reach_of_marks(marks: &[Mark], left: Units, right: Units) -> Extent {
    let mut extent = NOWHERE;
    for mark in marks {
        let one = reach(mark);
        if one.left.0 <= right.0 && left.0 <= one.right.0 {
            extent = extent.with(one);
        }
    }
    extent
}

/// How far the things of the plan, or those below it, reach that touch a vertical stripe.
pub(crate) fn reach_of_things(things: &[Thing], below: bool, left: Units, right: Units) -> Extent {
    let mut extent = NOWHERE;
    for thing in things {
        if matches!(thing.subject, Subject::Detector(_)) == below {
            extent = extent
                .with(reach_of_marks(&thing.marks, left, right))
                .with(reach_of_marks(&thing.more, left, right));
        }
    }
    extent
}
