//! The elements of a layout, by numbers: tracks first, then points, then borders, each in table order.

use crate::yard::Place;
use control_table::layout::{Element, End, Port};
use control_table::{BorderId, Layout, PointId, TrackId};

/// How many elements of each kind there are.
#[derive(Clone, Copy)]
pub(crate) struct Numbers {
    tracks: usize,
    points: usize,
    borders: usize,
}

const TRACK_ENDS: [End; 2] = [End::A, End::B];

const POINT_ENDS: [End; 3] = [End::Tip, End::Left, End::Right];

const BORDER_ENDS: [End; 1] = [End::End];

impl Numbers {
    /// The numbers of a layout.
    pub(crate) fn of(layout: &Layout) -> Numbers {
        Numbers {
            tracks: layout.tracks().len(),
            points: layout.points().len(),
            borders: layout.borders().len(),
        }
    }

    /// How many elements there are.
    pub(crate) fn all(self) -> usize {
        self.border(self.borders)
    }

    /// The number of a point.
    pub(crate) fn point(self, point: usize) -> usize {
        self.tracks.saturating_add(point)
    }

    /// The number of a border.
    pub(crate) fn border(self, border: usize) -> usize {
        self.point(self.points).saturating_add(border)
    }

    /// The element of a number.
    pub(crate) fn element(self, number: usize) -> Element {
        if number < self.point(0) {
            Element::Track(TrackId(number))
        } else if number < self.border(0) {
            Element::Point(PointId(number.saturating_sub(self.point(0))))
        } else {
            Element::Border(BorderId(number.saturating_sub(self.border(0))))
        }
    }

    /// The ports of an element.
    pub(crate) fn ends(self, element: usize) -> &'static [End] {
        match self.element(element) {
            Element::Track(_) => &TRACK_ENDS,
            Element::Point(_) => &POINT_ENDS,
            Element::Border(_) => &BORDER_ENDS,
        }
    }

    /// A port by its element's number.
    pub(crate) fn place(self, port: Port) -> Place {
        let element = match port.element {
            Element::Track(track) => track.0,
            Element::Point(point) => self.point(point.0),
            Element::Border(border) => self.border(border.0),
        };
        Place {
            element,
            end: port.end,
        }
    }
}
