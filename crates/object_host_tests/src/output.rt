//! What an object puts out, as a script tells it.

use object_host::Controller;
use point_ctl::Point;
use rasta_core::Millis;
use sci_telegram::{Aspect, Side};
use signal_ctl::Signal;
use tds_ctl::Detection;

/// What an object puts out at a clock reading.
#[derive(Clone, Copy)]
pub(crate) enum Output {
    /// What a signal shows; restrictive is stop.
    Shown(Aspect),
    /// Where a point is driven, if it is.
    Driven(Option<Side>),
}

/// An object whose output scripts look at.
pub(crate) trait Observed: Controller {
    fn has(&self, now: Millis, output: Output) -> bool;
}

impl Observed for Signal {
    fn has(&self, now: Millis, output: Output) -> bool {
        let Output::Shown(aspect) = output else {
            return false;
        };
        let is_stop = matches!(aspect, Aspect::Stop);
        self.shown(now) == aspect && self.restrictive(now) == is_stop
    }
}

impl Observed for Point {
    fn has(&self, now: Millis, output: Output) -> bool {
        let Output::Driven(side) = output else {
            return false;
        };
        self.drives(now) == side
    }
}

/// A detector puts out nothing.
impl Observed for Detection {
    fn has(&self, _now: Millis, _output: Output) -> bool {
        false
    }
}
