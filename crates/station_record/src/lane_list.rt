//! The lanes of a station.

ghost use Rattle.std.specs.Prelude.{◌≡◌, ◌++◌, IfOk, OnOk};
ghost use Rattle.station_record.specs.Lanes.{lanes_below, lanes_of};

use control_table::Layout;
use lane_chart::{Kind, Lane};
use std::alloc::{AllocError, Global};

/// Adds the lanes of a kind, of so many places.
fn add_lanes(lanes: &mut Vec<Lane>, kind: Kind, count: usize) -> Result<(), AllocError>
    ensures { OnOk result (lanes.new.items ≡ lanes.old.items ++ lanes_below kind count) }
{
    for place in 0..count {
        lanes.push(Lane { kind, place })?;
    }
    Ok(())
}

/// All lanes of a station, each once: those of the field, which show what signals, points and sections do, and those of the
/// interlocking, which show what it keeps.
pub fn lanes_of(alloc: Global, layout: &Layout) -> Result<Vec<Lane>, AllocError>
    ensures { IfOk result (λ lanes. lanes.items ≡ lanes_of layout.now) }
{
    let (signals, points) = (layout.signals().len(), layout.points().len());
    let counts = [
        (Kind::Aspect, signals),
        (Kind::Position, points),
        (Kind::Drive, points),
        (Kind::Section, layout.sections().len()),
        (Kind::Authority, signals),
        (Kind::Route, layout.routes().len()),
        (Kind::SignalLink, signals),
        (Kind::PointLink, points),
        (Kind::DetectorLink, layout.detectors().len()),
    ];
    let mut lanes = Vec::new(alloc);
    for (kind, count) in counts {
        add_lanes(&mut lanes, kind, count)?;
    }
    Ok(lanes)
}
