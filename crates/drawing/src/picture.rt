//! A picture: shapes in groups, and how they are laid on paper.

use crate::shape::Mark;

/// A part of a plane.
#[derive(Clone, Copy)]
pub struct Frame {
    /// Its left border.
    pub left: i32,
    /// Its upper border.
    pub top: i32,
    /// How wide it is.
    pub width: u32,
    /// How high it is.
    pub height: u32,
}

/// A part of what is drawn, laid somewhere on the paper.
#[derive(Clone, Copy)]
pub struct Strip {
    /// Where on the paper it lies.
    pub at: Frame,
    /// Which part of what is drawn it shows.
    pub shows: Frame,
}

/// Shapes that belong together.
pub struct Group {
    /// The identity, which no other group of a picture should have.
    pub id: String,
    /// The words of its class.
    pub class: String,
    /// What a viewer says of it.
    pub title: String,
    /// Its shapes, the lowest first.
    pub marks: Vec<Mark>,
}

// Written by hand, so that it is proved and compiled here alone.
impl Drop for Group {
    fn drop(self) {
        let Self {
            id: _,
            class: _,
            title: _,
            marks: _,
        } = self;
    }
}

/// A picture. Without strips the paper shows what is drawn as it lies; otherwise each strip shows its part.
pub struct Picture {
    /// What a viewer says of it.
    pub title: String,
    /// Its style, as CSS.
    pub style: String,
    /// The paper.
    pub paper: Frame,
    /// The strips.
    pub strips: Vec<Strip>,
    /// What is drawn, the lowest first.
    pub groups: Vec<Group>,
}

// Written by hand, so that it is proved and compiled here alone.
impl Drop for Picture {
    fn drop(self) {
        let Self {
            title: _,
            style: _,
            paper: _,
            strips: _,
            groups: _,
        } = self;
    }
}
