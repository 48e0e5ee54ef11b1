// The controllers of a station.

use ixl_state::{Checked, Datagram, Key, Millis, Occupancy, Position};
use object_host::{Controller, Hosted, Input, Sense};
use point_ctl::Point;
use rasta_pdu::Pdu;
use signal_ctl::Signal;
use simulator_field::{new_detector, new_point, new_signal};
use std::alloc::{AllocError, Global};
use tds_ctl::Detection;

/// The controllers of a station.
#[derive(Drop)]
pub struct Controllers {
    signals: Vec<Hosted<Signal>>,
    points: Vec<Hosted<Point>>,
    detectors: Vec<Hosted<Detection>>,
}

/// A controller makes a step, if it may.
fn step_one<C: Controller>(controller: &mut Hosted<C>, now: Millis, input: Input<'_>) {
    if controller.may_step(now) {
        controller.step(now, input);
    }
}

/// What a controller sent in its last step is added.
fn collect<C: Controller>(controller: &mut Hosted<C>, sent: &mut Vec<Datagram>) {
    for _ in 0..controller.outbox().len() {
        if let Some(datagram) = controller.take_first() {
            let _ = sent.push(datagram);
        }
    }
}

/// Controllers make a step each, and what they send is added.
fn step_each<C: Controller>(
    controllers: &mut Vec<Hosted<C>>,
    now: Millis,
    input: Input<'_>,
    sent: &mut Vec<Datagram>,
) {
    for place in 0..controllers.len() {
        step_one(&mut controllers[place], now, input);
        collect(&mut controllers[place], sent);
    }
}

/// The PDU in a datagram.
fn pdu_in(key: &Key, datagram: &Datagram) -> Option<Pdu> {
    match ixl_state::ixl_spec::rasta_pdu::read(key, datagram.as_slice()) {
        Ok(pdu) => Some(pdu),
        Err(_) => None,
    }
}

/// The report that a detector sends as its first section changes.
fn report_of(
    detector: &mut Hosted<Detection>,
    now: Millis,
    key: &Key,
    occupancy: Occupancy,
) -> Option<Pdu> {
    step_one(detector, now, Input::Sense(Sense::Section(0, occupancy)));
    let datagram = detector.take_first()?;
    pdu_in(key, &datagram)
}

/// The controllers of all signals.
fn signals(alloc: Global, table: &Checked) -> Result<Vec<Hosted<Signal>>, AllocError> {
    let mut signals = Vec::new(alloc);
    for entry in table.layout().signals() {
        signals.push(new_signal(alloc, table, entry, 0, 0)?)?;
    }
    Ok(signals)
}

/// The controllers of all points, each of which stands right.
fn points(alloc: Global, table: &Checked) -> Result<Vec<Hosted<Point>>, AllocError> {
    let mut points = Vec::new(alloc);
    for entry in table.layout().points() {
        points.push(new_point(alloc, table, entry, Position::Right, 0, 0)?)?;
    }
    Ok(points)
}

/// The controllers of all detectors, whose sections are clear.
fn detectors(alloc: Global, table: &Checked) -> Result<Vec<Hosted<Detection>>, AllocError> {
    let mut detectors = Vec::new(alloc);
    for entry in table.layout().detectors() {
        detectors.push(new_detector(alloc, table, entry, &[], 0, 0)?)?;
    }
    Ok(detectors)
}

impl Controllers {
    /// All controllers were just made.
    pub fn new(alloc: Global, table: &Checked) -> Result<Controllers, AllocError> {
        let signals = signals(alloc, table)?;
        let points = points(alloc, table)?;
        Ok(Controllers {
            signals,
            points,
            detectors: detectors(alloc, table)?,
        })
    }

    /// All controllers make a step, and what they send is added. A datagram comes to each, and only its receiver takes it.
    pub fn step(&mut self, now: Millis, input: Input<'_>, sent: &mut Vec<Datagram>) {
        step_each(&mut self.signals, now, input, sent);
        step_each(&mut self.points, now, input, sent);
        step_each(&mut self.detectors, now, input, sent);
    }

    /// Of each detector the report that its first section is occupied, and then of each that it is clear again. They are
    /// numbered so that they can come next.
    pub fn reports(&mut self, alloc: Global, now: Millis, key: &Key) -> Vec<Pdu> {
        let mut reports = Vec::new(alloc);
        self.report_all(now, key, Occupancy::Occupied, &mut reports);
        self.report_all(now, key, Occupancy::Clear, &mut reports);
        reports
    }

    /// The first section of each detector changes, and the reports of that are added.
    fn report_all(&mut self, now: Millis, key: &Key, occupancy: Occupancy, reports: &mut Vec<Pdu>) {
        for place in 0..self.detectors.len() {
            if let Some(report) = report_of(&mut self.detectors[place], now, key, occupancy) {
                let _ = reports.push(report);
            }
        }
    }
}
