//! All that the text of a railway writes.

ghost use Rattle.std.specs.Prelude.{◌≡◌, IfOk, map};
ghost use Rattle.toml.specs.Parse.{parse_document};
ghost use Rattle.toml.specs.View.{view, table_view};
ghost use Rattle.railway_layout.specs.Reading.{Gives};
ghost use Rattle.railway_layout.specs.Text.{document_of, end_at, end_field, is_railway, items_at, line_at, lines_in, railway_in, railway_of, station_at, stations_in};

use crate::fault::{Place, TextFault};
use crate::steps::{Step, each};
use crate::values::{array, field, has_key, id_field, name_field, names_field, table, text_field};
use crate::written::{WrittenEnd, WrittenLine, WrittenRailway, WrittenStation};
use std::alloc::{AllocError, Global};
use toml::{Table, Value};

/// The key of the lines, which no layout has.
const LINES: &str = "line";

/// A station.
#[tactic(auto, unfolding(crate::specs::Text::station_at))]
fn station(alloc: Global, number: usize, value: &Value) -> Result<WrittenStation, TextFault>
    ensures { Gives (λ s. s) result (station_at number (view value.now)) }
{
    let place = Place::Station(number);
    let fields = table(value, place)?;
    let name = name_field(fields, "name", place)?;
    let layout = text_field(fields, "layout", place)?;
    let layout = String::from_str(alloc, layout)?;
    Ok(WrittenStation { name, layout })
}

/// One end of a line.
#[tactic(auto, unfolding(crate::specs::Text::end_at))]
fn end(alloc: Global, value: &Value, place: Place) -> Result<WrittenEnd, TextFault>
    ensures { Gives (λ e. e) result (end_at place (view value.now)) }
{
    let fields = table(value, place)?;
    let station = name_field(fields, "station", place)?;
    let border = name_field(fields, "border", place)?;
    let lock = name_field(fields, "lock", place)?;
    let clear = name_field(fields, "clear", place)?;
    let part = names_field(alloc, fields, "part", place)?;
    let id = id_field(fields, "id", place)?;
    Ok(WrittenEnd {
        station,
        border,
        lock,
        clear,
        part,
        id,
    })
}

/// The end of a line under a key that has to be there.
#[tactic(auto, unfolding(crate::specs::Text::end_field))]
fn end_field(alloc: Global, table: &Table, key: &str, place: Place) -> Result<WrittenEnd, TextFault>
    ensures { Gives (λ e. e) result (end_field key.now place (table_view table.now)) }
{
    let value = field(table, key, place)?;
    end(alloc, value, place)
}

/// A line.
#[tactic(auto, unfolding(crate::specs::Text::line_at))]
fn line(alloc: Global, number: usize, value: &Value) -> Result<WrittenLine, TextFault>
    ensures { Gives (λ l. l) result (line_at number (view value.now)) }
{
    let fields = table(value, Place::Line(number))?;
    let name = name_field(fields, "name", Place::Line(number))?;
    let first = end_field(alloc, fields, "first", Place::First(number))?;
    let second = end_field(alloc, fields, "second", Place::Second(number))?;
    Ok(WrittenLine {
        name,
        first,
        second,
    })
}

/// Reads a station.
struct ReadStation;

impl Step for ReadStation {
    ghost use Rattle.railway_layout.specs.Text.{station_at};

    type To = WrittenStation;

    ghost gives = { λ _ n d. station_at n d };

    fn step(
        &self,
        alloc: Global,
        number: usize,
        from: &Value,
    ) -> Result<WrittenStation, TextFault> {
        station(alloc, number, from)
    }
}

/// Reads a line.
struct ReadLine;

impl Step for ReadLine {
    ghost use Rattle.railway_layout.specs.Text.{line_at};

    type To = WrittenLine;

    ghost gives = { λ _ n d. line_at n d };

    fn step(&self, alloc: Global, number: usize, from: &Value) -> Result<WrittenLine, TextFault> {
        line(alloc, number, from)
    }
}

/// The items of the array under a key.
#[tactic(auto, unfolding(crate::specs::Text::items_at))]
fn items<'a>(document: &'a Table, key: &str, place: Place) -> Result<&'a [Value], TextFault>
    ensures { Gives (λ s. map view s.now) result (items_at key.now place (table_view document.now)) }
{
    let value = field(document, key, place)?;
    array(value, place)
}

#[tactic(auto, unfolding(crate::specs::Text::stations_in))]
fn stations(alloc: Global, document: &Table) -> Result<Vec<WrittenStation>, TextFault>
    ensures { Gives (λ v. v.items) result (stations_in (table_view document.now)) }
{
    let items = items(document, "station", Place::Station(0))?;
    each(alloc, &ReadStation, items)
}

#[tactic(auto, unfolding(crate::specs::Text::lines_in))]
fn lines(alloc: Global, document: &Table) -> Result<Vec<WrittenLine>, TextFault>
    ensures { Gives (λ v. v.items) result (lines_in (table_view document.now)) }
{
    let items = items(document, LINES, Place::Line(0))?;
    each(alloc, &ReadLine, items)
}

/// What a document writes.
#[tactic(auto, unfolding(crate::specs::Text::railway_of))]
fn written(alloc: Global, document: &Table) -> Result<WrittenRailway, TextFault>
    ensures { Gives (λ r. r) result (railway_of (table_view document.now)) }
{
    let stations = stations(alloc, document)?;
    let lines = lines(alloc, document)?;
    Ok(WrittenRailway { stations, lines })
}

/// The TOML document that a text is.
fn document(alloc: Global, text: &str) -> Result<Table, TextFault>
    ensures { Gives (λ t. table_view t) result (document_of (parse_document text.now)) }
{
    match toml::table_from_str(alloc, text) {
        Ok(table) => Ok(table),
        Err(fault) if fault.is_memory() => Err(TextFault::OutOfMemory),
        Err(_) => Err(TextFault::Toml),
    }
}

/// Reads what the text of a railway writes: its stations and its lines, all and in order, or the first fault. The text is TOML 1.1.
/// `OutOfMemory` comes only where memory was refused.
#[tactic(auto, unfolding(crate::specs::Text::railway_in))]
pub fn read_text(alloc: Global, text: &str) -> Result<WrittenRailway, TextFault>
    ensures { Gives (λ r. r) result (railway_in text.now) }
{
    let document = document(alloc, text)?;
    written(alloc, &document)
}

/// Whether a text is a railway's, sound or not: it is TOML and has the key `line`, which no layout has. It fails only where memory was
/// refused.
#[tactic(auto, unfolding(crate::specs::Text::is_railway))]
pub fn is_railway(alloc: Global, text: &str) -> Result<bool, AllocError>
    ensures { IfOk result (λ is. is ≡ is_railway text.now) }
{
    match toml::table_from_str(alloc, text) {
        Ok(document) => Ok(has_key(&document, LINES)),
        Err(fault) if fault.is_memory() => Err(AllocError),
        Err(_) => Ok(false),
    }
}
