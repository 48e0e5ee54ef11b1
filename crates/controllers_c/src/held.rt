//! What a handle holds.

use embedded_host::Embedded;
use point_ctl::Point;
use signal_ctl::Signal;
use tds_ctl::Detection;

/// A controller of one of the kinds.
#[derive(Drop)]
pub enum Kind {
    Signal(Embedded<Signal>),
    Point(Embedded<Point>),
    Detector(Embedded<Detection>),
}

/// What a handle holds: a controller that was started.
#[derive(Drop)]
pub struct Held {
    pub(crate) kind: Kind,
}
