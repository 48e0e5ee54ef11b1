//! What a plan draws.

use control_table::Name;
use control_table::layout::End;
use drawing::Mark;

/// What a thing in a plan stands for, with its name.
#[derive(Clone, Copy)]
pub enum Subject {
    /// A detection section.
    Section(Name),
    /// A track.
    Track(Name),
    /// A point as a whole: its name.
    Point(Name),
    /// The tip of a point.
    Tip(Name),
    /// The left leg of a point.
    Left(Name),
    /// The right leg of a point.
    Right(Name),
    /// A border.
    Border(Name),
    /// A joint that parts two sections, by the port that is written first: its element, and which of its ports it is.
    Joint(Name, End),
    /// A signal.
    Signal(Name),
    /// A detection controller.
    Detector(Name),
}

/// What is drawn of one subject.
pub struct Thing {
    /// What it stands for.
    pub subject: Subject,
    /// The words of its class for its detection controller and for routes.
    pub marked: String,
    /// The words of its class for what is seen of it.
    pub state: String,
    /// Its symbol and its name.
    pub marks: Vec<Mark>,
    /// What its place adds: where a line ends or goes on elsewhere, the names of sections.
    pub more: Vec<Mark>,
}

// Written by hand, so that it is proved and compiled here alone.
impl Drop for Thing {
    fn drop(self) {
        let Self {
            subject: _,
            marked: _,
            state: _,
            marks: _,
            more: _,
        } = self;
    }
}
