//! The controllers of a station by their places.

/// A controller, by its place among those of its kind.
#[derive(Clone, Copy, Debug)]
pub enum Node {
    Signal(usize),
    Point(usize),
    Detector(usize),
}
