//! What is drawn.

/// A place in a picture, in units: `x` to the right, `y` down.
#[derive(Clone, Copy, PartialEq, Eq)]
pub struct Spot {
    /// How far to the right it lies.
    pub x: i32,
    /// How far down it lies.
    pub y: i32,
}

/// Which part of a text lies at its spot.
#[derive(Clone, Copy)]
pub enum Anchor {
    /// Its first letter.
    Start,
    /// Its middle.
    Middle,
    /// Its last letter.
    End,
}

/// A shape.
pub enum Shape {
    /// A straight line.
    Line {
        /// Where it begins.
        from: Spot,
        /// Where it ends.
        to: Spot,
    },
    /// Straight lines from each spot to the next.
    Polyline(Vec<Spot>),
    /// The same, and from the last spot to the first.
    Polygon(Vec<Spot>),
    /// A circle.
    Circle {
        /// Its centre.
        centre: Spot,
        /// Its radius.
        radius: u32,
    },
    /// A rectangle.
    Rectangle {
        /// Its upper left corner.
        corner: Spot,
        /// How wide it is.
        width: u32,
        /// How high it is.
        height: u32,
    },
    /// A line of text.
    Text {
        /// Where it stands: its base line.
        at: Spot,
        /// Which part of it lies there.
        anchor: Anchor,
        /// What it says.
        words: String,
    },
}

// Written by hand, so that it is proved and compiled here alone.
impl Drop for Shape {
    fn drop(self) {
        match self {
            Self::Line { from: _, to: _ } => {}
            Self::Polyline(_) => {}
            Self::Polygon(_) => {}
            Self::Circle {
                centre: _,
                radius: _,
            } => {}
            Self::Rectangle {
                corner: _,
                width: _,
                height: _,
            } => {}
            Self::Text {
                at: _,
                anchor: _,
                words: _,
            } => {}
        }
    }
}

/// A shape with the class by which a style knows it.
pub struct Mark {
    /// The words of its class.
    pub class: String,
    /// The shape.
    pub shape: Shape,
}

// Written by hand, so that it is proved and compiled here alone.
impl Drop for Mark {
    fn drop(self) {
        let Self { class: _, shape: _ } = self;
    }
}
