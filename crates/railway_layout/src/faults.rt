//! All that is wrong with a railway: of each station in the order of the text, and then of each line.

ghost use Rattle.std.specs.Prelude.{◌≡◌, ◌<◌, ◌++◌, IfOk, OnOk, length};
ghost use Rattle.railway_layout.specs.Faults.{all_line_faults, all_station_faults, ends_faults, found_faults, has_border, head_faults, is_at, is_at_one_station, is_border_taken, is_called_among, is_line_among, is_name_taken, is_part_told, line_faults, railway_faults, shared_faults, station_faults, tells_of, tells_part};

use crate::end_faults::{add_end, is_name_among};
use crate::fault::{Place, RailwayFault, tell};
use crate::found::{Found, RailwayStation};
use crate::written::{WrittenEnd, WrittenLine};
use control_table::Name;
use std::alloc::{AllocError, Global};

/// Whether one of these stations has this name.
fn is_called_among(stations: &[RailwayStation], name: &Name) -> bool
    ensures { result ≡ is_called_among stations.now name.now }
{
    stations
        .iter()
        .any(|station| station.name.bytes() == name.bytes())
}

/// Adds what is wrong with what a station was found to be.
fn add_found(faults: &mut Vec<RailwayFault>, place: Place, found: &Found) -> Result<(), AllocError>
    ensures { OnOk result (faults.new.items ≡ faults.old.items ++ found_faults place found.now) }
{
    match found {
        Found::Table(_) => Ok(()),
        Found::NoLayout(fault) => tell(faults, true, RailwayFault::Layout(place, *fault)),
        Found::Unsound(fault) => tell(faults, true, RailwayFault::Table(place, *fault)),
    }
}

/// Adds what is wrong with a station.
#[tactic(auto, using(crate::proofs::Added::two_added))]
fn add_station(
    faults: &mut Vec<RailwayFault>,
    stations: &[RailwayStation],
    number: usize,
    station: &RailwayStation,
) -> Result<(), AllocError>
    requires { number < length stations.now }
    ensures { OnOk result (faults.new.items ≡ faults.old.items ++ station_faults stations.now number station.now) }
{
    let place = Place::Station(number + 1);
    let twice = is_called_among(&stations[..number], &station.name);
    tell(faults, twice, RailwayFault::DoubleName(place, station.name))?;
    add_found(faults, place, &station.found)
}

/// Adds what is wrong with the stations.
fn add_stations(
    faults: &mut Vec<RailwayFault>,
    stations: &[RailwayStation],
) -> Result<(), AllocError>
    ensures { OnOk result (faults.new.items ≡ faults.old.items ++ all_station_faults stations.now) }
{
    for (number, station) in stations.iter().enumerate() {
        add_station(faults, stations, number, station)?;
    }
    Ok(())
}

/// Whether two ends are at one border.
fn is_at(end: &WrittenEnd, other: &WrittenEnd) -> bool
    ensures { result ≡ is_at end.now other.now }
{
    other.station.bytes() == end.station.bytes() && other.border.bytes() == end.border.bytes()
}

/// Whether a line has the border of an end.
fn has_border(end: &WrittenEnd, line: &WrittenLine) -> bool
    ensures { result ≡ has_border end.now line.now }
{
    is_at(end, &line.first) || is_at(end, &line.second)
}

/// Whether one of these lines has the border of an end.
fn is_border_taken(lines: &[WrittenLine], end: &WrittenEnd) -> bool
    ensures { result ≡ is_border_taken lines.now end.now }
{
    lines.iter().any(|line| has_border(end, line))
}

/// Whether an end tells a section of the part of another, or of its own.
fn tells_of(end: &WrittenEnd, other: &WrittenEnd) -> bool
    ensures { result ≡ tells_of end.now other.now }
{
    other.station.bytes() == end.station.bytes() && is_name_among(&end.part, &other.clear)
}

/// Whether an end of a line tells a section of the part of an end.
fn tells_part(end: &WrittenEnd, line: &WrittenLine) -> bool
    ensures { result ≡ tells_part end.now line.now }
{
    tells_of(end, &line.first) || tells_of(end, &line.second)
}

/// Whether an end of one of these lines tells a section of the part of an end.
fn is_part_told(lines: &[WrittenLine], end: &WrittenEnd) -> bool
    ensures { result ≡ is_part_told lines.now end.now }
{
    lines.iter().any(|line| tells_part(end, line))
}

/// Whether one of these lines has this name.
fn is_line_among(lines: &[WrittenLine], name: &Name) -> bool
    ensures { result ≡ is_line_among lines.now name.now }
{
    lines.iter().any(|line| line.name.bytes() == name.bytes())
}

/// Whether a station, or one of these lines, has this name.
fn is_name_taken(stations: &[RailwayStation], lines: &[WrittenLine], name: &Name) -> bool
    ensures { result ≡ is_name_taken stations.now lines.now name.now }
{
    is_called_among(stations, name) || is_line_among(lines, name)
}

/// Whether both ends of a line are at one station.
fn is_at_one_station(line: &WrittenLine) -> bool
    ensures { result ≡ is_at_one_station line.now }
{
    line.first.station.bytes() == line.second.station.bytes()
}

/// Adds what is wrong with the name of a line, and with its ends together.
#[tactic(auto, using(crate::proofs::Added::three_added))]
fn add_head(
    faults: &mut Vec<RailwayFault>,
    stations: &[RailwayStation],
    lines: &[WrittenLine],
    number: usize,
    line: &WrittenLine,
) -> Result<(), AllocError>
    requires { number < length lines.now }
    ensures { OnOk result (faults.new.items ≡ faults.old.items ++ head_faults stations.now lines.now number line.now) }
{
    let place = Place::Line(number + 1);
    let taken = is_name_taken(stations, &lines[..number], &line.name);
    tell(faults, taken, RailwayFault::DoubleName(place, line.name))?;
    tell(
        faults,
        is_at_one_station(line),
        RailwayFault::SameStation(place),
    )?;
    let same_id = line.first.id == line.second.id;
    tell(faults, same_id, RailwayFault::DoubleId(place))
}

/// Adds what is wrong with an end of a line beside all other ends.
#[tactic(auto, using(crate::proofs::Added::two_added))]
fn add_shared(
    faults: &mut Vec<RailwayFault>,
    place: Place,
    lines: &[WrittenLine],
    number: usize,
    end: &WrittenEnd,
) -> Result<(), AllocError>
    requires { number < length lines.now }
    ensures { OnOk result (faults.new.items ≡ faults.old.items ++ shared_faults place lines.now number end.now) }
{
    let taken = is_border_taken(&lines[..number], end);
    tell(faults, taken, RailwayFault::DoubleBorder(place))?;
    tell(
        faults,
        is_part_told(lines, end),
        RailwayFault::PartHasClear(place),
    )
}

/// Adds what is wrong with each end of a line.
#[tactic(auto, using(crate::proofs::Added::four_added))]
fn add_ends(
    alloc: Global,
    faults: &mut Vec<RailwayFault>,
    stations: &[RailwayStation],
    lines: &[WrittenLine],
    number: usize,
    line: &WrittenLine,
) -> Result<(), AllocError>
    requires { number < length lines.now }
    ensures { OnOk result (faults.new.items ≡ faults.old.items ++ ends_faults stations.now lines.now number line.now) }
{
    let first = Place::First(number + 1);
    add_shared(faults, first, lines, number, &line.first)?;
    add_end(alloc, faults, stations, first, &line.first)?;
    let second = Place::Second(number + 1);
    add_shared(faults, second, lines, number, &line.second)?;
    add_end(alloc, faults, stations, second, &line.second)
}

/// Adds what is wrong with a line.
#[tactic(auto, using(crate::proofs::Added::two_added))]
fn add_line(
    alloc: Global,
    faults: &mut Vec<RailwayFault>,
    stations: &[RailwayStation],
    lines: &[WrittenLine],
    number: usize,
    line: &WrittenLine,
) -> Result<(), AllocError>
    requires { number < length lines.now }
    ensures { OnOk result (faults.new.items ≡ faults.old.items ++ line_faults stations.now lines.now number line.now) }
{
    add_head(faults, stations, lines, number, line)?;
    add_ends(alloc, faults, stations, lines, number, line)
}

/// Adds what is wrong with the lines.
fn add_lines(
    alloc: Global,
    faults: &mut Vec<RailwayFault>,
    stations: &[RailwayStation],
    lines: &[WrittenLine],
) -> Result<(), AllocError>
    ensures { OnOk result (faults.new.items ≡ faults.old.items ++ all_line_faults stations.now lines.now) }
{
    for (number, line) in lines.iter().enumerate() {
        add_line(alloc, faults, stations, lines, number, line)?;
    }
    Ok(())
}

/// All that is wrong with a railway.
#[tactic(auto, unfolding(crate::specs::Faults::railway_faults))]
pub(crate) fn faults(
    alloc: Global,
    stations: &[RailwayStation],
    lines: &[WrittenLine],
) -> Result<Vec<RailwayFault>, AllocError>
    ensures { IfOk result (λ v. v.items ≡ railway_faults stations.now lines.now) }
{
    let mut faults = Vec::new(alloc);
    add_stations(&mut faults, stations)?;
    add_lines(alloc, &mut faults, stations, lines)?;
    Ok(faults)
}
