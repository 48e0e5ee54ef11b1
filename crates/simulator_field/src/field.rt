//! What there is beside the interlocking.

use crate::{ClockedController, Network};
use simulator_spec::point_ctl::Point;
use simulator_spec::signal_ctl::Signal;
use simulator_spec::tds_ctl::Detection;
use simulator_spec::{Occupancy, Position};

/// The network, the controllers in the order of the layout, where each point stands, and whether each section is occupied.
pub struct Field {
    pub network: Network,
    pub signals: Vec<ClockedController<Signal>>,
    pub points: Vec<ClockedController<Point>>,
    pub detectors: Vec<ClockedController<Detection>>,
    pub positions: Vec<Position>,
    pub occupancies: Vec<Occupancy>,
}

// Written by hand, so that it is proved and compiled here alone.
impl Drop for Field {
    fn drop(self) {
        let Self {
            network: _,
            signals: _,
            points: _,
            detectors: _,
            positions: _,
            occupancies: _,
        } = self;
    }
}
