//! How the controllers of a layout are made.

ghost use Rattle.std.specs.Prelude.{◌≡◌, IfOk, length, map};
ghost use Rattle.std.specs.List.{zip};
ghost use Rattle.simulator_spec.specs.First as first;
ghost use Rattle.simulator_field.specs.Field.{AreAt, AreOf};

use crate::field::Field;
use crate::{ClockedController, Network, new_detector, new_point, new_signal};
use simulator_spec::point_ctl::Point;
use simulator_spec::signal_ctl::Signal;
use simulator_spec::tds_ctl::Detection;
use simulator_spec::{Checked, Occupancy, Position};
use std::alloc::{AllocError, Global};

fn first_signals(
    alloc: Global,
    table: &Checked,
) -> Result<Vec<ClockedController<Signal>>, AllocError>
    ensures { IfOk result (λ v. v.items ≡ map (λ entry. first.first_controller (first.new_signal table.now first.at_zero entry)) table.now.signals) }
{
    let mut signals = Vec::new(alloc);
    for entry in table.layout().signals() {
        let hosted = new_signal(alloc, table, entry, 0, 0)?;
        signals.push(ClockedController::new(hosted, 0))?;
    }
    Ok(signals)
}

fn first_points(
    alloc: Global,
    table: &Checked,
    positions: &[Position],
) -> Result<Vec<ClockedController<Point>>, AllocError>
    requires { length positions.now ≡ length table.now.points }
    ensures { IfOk result (λ v. v.items ≡ map (first.point_standing table.now) (zip table.now.points positions.now)) }
{
    let entries = table.layout().points();
    let mut points = Vec::new(alloc);
    for place in 0..entries.len() {
        let hosted = new_point(alloc, table, &entries[place], positions[place], 0, 0)?;
        points.push(ClockedController::new(hosted, 0))?;
    }
    Ok(points)
}

fn first_detectors(
    alloc: Global,
    table: &Checked,
    occupied: &[Occupancy],
) -> Result<Vec<ClockedController<Detection>>, AllocError>
    ensures { IfOk result (λ v. v.items ≡ map (λ entry. first.first_controller (first.new_detector table.now first.at_zero occupied.now entry)) table.now.detectors) }
{
    let mut detectors = Vec::new(alloc);
    for entry in table.layout().detectors() {
        let hosted = new_detector(alloc, table, entry, occupied, 0, 0)?;
        detectors.push(ClockedController::new(hosted, 0))?;
    }
    Ok(detectors)
}

impl Field {
    /// The controllers of a station as it lies when it is started: each point has its position, and each section its
    /// occupancy. All clocks and first sequence numbers are 0, and nothing was sent.
    pub fn at(
        alloc: Global,
        table: &Checked,
        positions: &[Position],
        occupancies: &[Occupancy],
    ) -> Result<Field, AllocError>
        requires positions { length positions.now ≡ length table.now.points }
        requires occupancies { length occupancies.now ≡ length table.now.sections }
        ensures first { IfOk result (λ field. AreAt table.now (record { positions = positions.now; occupancies = occupancies.now }) field) }
        ensures each { IfOk result (λ field. AreOf table.now field) }
    {
        Ok(Field {
            network: Network::new(alloc),
            signals: first_signals(alloc, table)?,
            points: first_points(alloc, table, positions)?,
            detectors: first_detectors(alloc, table, occupancies)?,
            positions: positions.to_vec(alloc)?,
            occupancies: occupancies.to_vec(alloc)?,
        })
    }
}
