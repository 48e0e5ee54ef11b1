//! Places in a railway whose text was read, by the names that stand there.

ghost use Rattle.std.specs.Prelude.{◌≡◌, Some};
ghost use Rattle.railway_check.specs.PlaceWords.{first_called, line_called, place_words, second_called, station_called};

use railway_layout::{Place, WrittenLine, WrittenRailway, WrittenStation};
use std::fmt;

/// The name of a station, which is counted from 1.
fn station_called(stations: &[WrittenStation], number: usize) -> &str
    ensures { result.now ≡ station_called stations.now number }
{
    match stations.get(number.saturating_sub(1)) {
        Some(station) => station.name.as_str(),
        None => "",
    }
}

/// The name of a line.
fn line_called(lines: &[WrittenLine], number: usize) -> &str
    ensures { result.now ≡ line_called lines.now number }
{
    match lines.get(number.saturating_sub(1)) {
        Some(line) => line.name.as_str(),
        None => "",
    }
}

/// The name of the station at which the first end of a line is.
fn first_called(lines: &[WrittenLine], number: usize) -> &str
    ensures { result.now ≡ first_called lines.now number }
{
    match lines.get(number.saturating_sub(1)) {
        Some(line) => line.first.station.as_str(),
        None => "",
    }
}

/// The name of the station at which the second end of a line is.
fn second_called(lines: &[WrittenLine], number: usize) -> &str
    ensures { result.now ≡ second_called lines.now number }
{
    match lines.get(number.saturating_sub(1)) {
        Some(line) => line.second.station.as_str(),
        None => "",
    }
}

/// The words for a place: a station, a line, or a line at one of its stations.
#[derive(Clone, Copy)]
pub(crate) struct PlaceWords<'a> {
    pub(crate) railway: &'a WrittenRailway,
    pub(crate) place: Place,
}

impl<'a> fmt::Display for PlaceWords<'a> {
    ghost output = { λ words. Some (place_words words.railway.now words.place) };

    fn fmt<W: fmt::Write>(&self, f: &mut fmt::Formatter<W>) -> fmt::Result {
        let railway = self.railway;
        match self.place {
            Place::Station(number) => {
                let name = station_called(&railway.stations, number);
                write!(f, "station {name}")
            }
            Place::Line(number) => {
                let name = line_called(&railway.lines, number);
                write!(f, "line {name}")
            }
            Place::First(number) => {
                let name = line_called(&railway.lines, number);
                let station = first_called(&railway.lines, number);
                write!(f, "line {name} at {station}")
            }
            Place::Second(number) => {
                let name = line_called(&railway.lines, number);
                let station = second_called(&railway.lines, number);
                write!(f, "line {name} at {station}")
            }
        }
    }
}
