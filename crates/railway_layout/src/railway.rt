//! A railway.

ghost use Rattle.std.specs.Prelude.{◌≡◌, ◌≢◌, [], Some, false, true, IfErr, IfOk, IsSome, length, map, string_bytes};
ghost use Rattle.railway_layout.specs.Ends.{line_of};
ghost use Rattle.railway_layout.specs.Faults.{railway_faults};
ghost use Rattle.railway_layout.specs.Railway.{IsRailway, IsRefused};
ghost use Rattle.railway_layout.specs.declared.railway.Refused.TheVariants.{OutOfMemory};

use crate::ends::line_of;
use crate::fault::RailwayFault;
use crate::faults::faults;
use crate::found::{RailwayStation, stations};
use crate::line::Line;
use crate::written::{WrittenLine, WrittenRailway};
use std::alloc::{AllocError, AllocFailed, Global};
use std::marker::Model;

/// A railway: stations, and the lines between them. All layouts have sound tables.
#[derive(Drop)]
pub struct Railway {
    stations: Vec<RailwayStation>,
    lines: Vec<Line>,
}

impl Model for Railway {
    ghost use Rattle.railway_layout.specs.States.{RailwayState};

    ghost Value = { RailwayState };

    ghost view = { λ r. record { stations = r.stations.items; lines = r.lines.items } };
}

/// Why there is no railway.
#[derive(Drop)]
pub enum Refused {
    /// All that is wrong: of each station in the order of the text, and then of each line.
    Faults(Vec<RailwayFault>),
    /// Memory ran out.
    OutOfMemory,
}

impl From<AllocError> for Refused {
    ghost from_gives = { λ _ e. e ≡ OutOfMemory };

    fn from(_e: AllocError) -> Refused {
        Refused::OutOfMemory
    }
}

impl<T: Drop> From<AllocFailed<T>> for Refused {
    ghost from_gives = { λ _ e. e ≡ OutOfMemory };

    fn from(_e: AllocFailed<T>) -> Refused {
        Refused::OutOfMemory
    }
}

/// A line whose ends are there.
fn the_line(
    alloc: Global,
    stations: &[RailwayStation],
    written: &WrittenLine,
) -> Result<Line, AllocError>
    requires { IsSome (line_of stations.now written.now) }
    ensures { IfOk result (λ line. line_of stations.now written.now ≡ Some line) }
{
    match line_of(alloc, stations, written)? {
        Some(line) => Ok(line),
        None => unreachable!(),
    }
}

/// The lines of a railway with which nothing is wrong.
fn lines(
    alloc: Global,
    stations: &[RailwayStation],
    written: &[WrittenLine],
) -> Result<Vec<Line>, AllocError>
    requires { railway_faults stations.now written.now ≡ [] }
    ensures { IfOk result (λ v. map (line_of stations.now) written.now ≡ map Some v.items) }
{
    let mut lines = Vec::new(alloc);
    for line in written {
        lines.push(the_line(alloc, stations, line)?)?;
    }
    Ok(lines)
}

/// Whether there is no fault.
fn is_nothing(faults: &[RailwayFault]) -> bool
    ensures none { result ≡ true → faults.now ≡ [] }
    ensures some { result ≡ false → faults.now ≢ [] }
{
    match faults.split_first() {
        Some(_) => false,
        None => true,
    }
}

impl Railway {
    /// Reads a railway whose text was read, where each station is given the text of its layout. It is told all that is wrong, or
    /// else the railway is made. `OutOfMemory` comes only where memory was refused.
    pub fn read(
        alloc: Global,
        written: &WrittenRailway,
        layouts: &[String],
    ) -> Result<Railway, Refused>
        requires { length layouts.now ≡ length written.now.stations }
        ensures railway { IfOk result (IsRailway written.now (map string_bytes layouts.now)) }
        ensures refused { IfErr result (IsRefused written.now (map string_bytes layouts.now)) }
    {
        let stations = stations(alloc, &written.stations, layouts)?;
        let faults = faults(alloc, &stations, &written.lines)?;
        if !is_nothing(&faults) {
            return Err(Refused::Faults(faults));
        }
        let lines = lines(alloc, &stations, &written.lines)?;
        Ok(Railway { stations, lines })
    }

    /// Its stations.
    pub fn stations(&self) -> &[RailwayStation]
        ensures { result.now ≡ self.now.stations }
    {
        &self.stations
    }

    /// Its lines.
    pub fn lines(&self) -> &[Line]
        ensures { result.now ≡ self.now.lines }
    {
        &self.lines
    }
}
