//! All that the text of a layout writes.

ghost use Rattle.std.specs.Prelude.{codes, map};
ghost use Rattle.toml.specs.View.{view, table_view};
ghost use Rattle.toml.specs.Parse.{parse_document};
ghost use Rattle.layout_text.specs.FirstFault.{Gives};
ghost use Rattle.layout_text.specs.Values.{name_at};
ghost use Rattle.layout_text.specs.Text.{entries_at, items_at, station_in, track_at, point_at, joint_at, signal_at, detector_at, route_at, text_of, document_of};
ghost use Rattle.layout_text.specs.declared.fault.TableName.TheVariants as named;

use crate::entries::{
    Station, WrittenDetector, WrittenJoint, WrittenLayout, WrittenPoint, WrittenRoute,
    WrittenSignal, WrittenTrack,
};
use crate::entries_read::{
    ReadDetector, ReadJoint, ReadName, ReadPoint, ReadRoute, ReadSignal, ReadTrack, station,
};
use crate::fault::{LayoutFault, Place, TableName};
use crate::steps::each;
use crate::values::{array, field};
use sci_telegram::Name;
use std::alloc::Global;
use toml::{Table, Value};

/// The items of the array under a key. The key itself stands at place 0.
#[tactic(auto, unfolding(crate::specs::Text::items_at))]
fn items<'a>(document: &'a Table, key: &str, table: TableName) -> Result<&'a [Value], LayoutFault>
    ensures { Gives (λ s. map view s.now) result (items_at key.now table (table_view document.now)) }
{
    let place = Place { table, entry: 0 };
    let value = field(document, key, place)?;
    array(value, place)
}

/// The station, which is a table of its own.
#[tactic(auto, unfolding(crate::specs::Text::station_in))]
fn the_station(document: &Table) -> Result<Station, LayoutFault>
    ensures { Gives (λ s. s) result (station_in (table_view document.now)) }
{
    let key = Place {
        table: TableName::Station,
        entry: 0,
    };
    let value = field(document, "station", key)?;
    let _ = crate::values::table(value, key)?;
    let place = Place {
        table: TableName::Station,
        entry: 1,
    };
    station(value, place)
}

#[tactic(auto, unfolding(crate::specs::Text::entries_at))]
fn sections(alloc: Global, document: &Table) -> Result<Vec<Name>, LayoutFault>
    ensures { Gives (λ v. v.items) result (entries_at (codes "section") named.Section name_at (table_view document.now)) }
{
    let items = items(document, "section", TableName::Section)?;
    each(alloc, &ReadName, TableName::Section, items)
}

#[tactic(auto, unfolding(crate::specs::Text::entries_at))]
fn tracks(alloc: Global, document: &Table) -> Result<Vec<WrittenTrack>, LayoutFault>
    ensures { Gives (λ v. v.items) result (entries_at (codes "track") named.Track track_at (table_view document.now)) }
{
    let items = items(document, "track", TableName::Track)?;
    each(alloc, &ReadTrack, TableName::Track, items)
}

#[tactic(auto, unfolding(crate::specs::Text::entries_at))]
fn points(alloc: Global, document: &Table) -> Result<Vec<WrittenPoint>, LayoutFault>
    ensures { Gives (λ v. v.items) result (entries_at (codes "point") named.Point point_at (table_view document.now)) }
{
    let items = items(document, "point", TableName::Point)?;
    each(alloc, &ReadPoint, TableName::Point, items)
}

#[tactic(auto, unfolding(crate::specs::Text::entries_at))]
fn borders(alloc: Global, document: &Table) -> Result<Vec<Name>, LayoutFault>
    ensures { Gives (λ v. v.items) result (entries_at (codes "border") named.Border name_at (table_view document.now)) }
{
    let items = items(document, "border", TableName::Border)?;
    each(alloc, &ReadName, TableName::Border, items)
}

#[tactic(auto, unfolding(crate::specs::Text::entries_at))]
fn joints(alloc: Global, document: &Table) -> Result<Vec<WrittenJoint>, LayoutFault>
    ensures { Gives (λ v. v.items) result (entries_at (codes "joint") named.Joint joint_at (table_view document.now)) }
{
    let items = items(document, "joint", TableName::Joint)?;
    each(alloc, &ReadJoint, TableName::Joint, items)
}

#[tactic(auto, unfolding(crate::specs::Text::entries_at))]
fn signals(alloc: Global, document: &Table) -> Result<Vec<WrittenSignal>, LayoutFault>
    ensures { Gives (λ v. v.items) result (entries_at (codes "signal") named.Signal signal_at (table_view document.now)) }
{
    let items = items(document, "signal", TableName::Signal)?;
    each(alloc, &ReadSignal, TableName::Signal, items)
}

#[tactic(auto, unfolding(crate::specs::Text::entries_at))]
fn detectors(alloc: Global, document: &Table) -> Result<Vec<WrittenDetector>, LayoutFault>
    ensures { Gives (λ v. v.items) result (entries_at (codes "detector") named.Detector detector_at (table_view document.now)) }
{
    let items = items(document, "detector", TableName::Detector)?;
    each(alloc, &ReadDetector, TableName::Detector, items)
}

#[tactic(auto, unfolding(crate::specs::Text::entries_at))]
fn routes(alloc: Global, document: &Table) -> Result<Vec<WrittenRoute>, LayoutFault>
    ensures { Gives (λ v. v.items) result (entries_at (codes "route") named.Route route_at (table_view document.now)) }
{
    let items = items(document, "route", TableName::Route)?;
    each(alloc, &ReadRoute, TableName::Route, items)
}

/// All entries, as they are written.
#[tactic(auto, unfolding(crate::specs::Text::text_of))]
pub fn written(alloc: Global, document: &Table) -> Result<WrittenLayout, LayoutFault>
    ensures { Gives (λ l. l) result (text_of (table_view document.now)) }
{
    let station = the_station(document)?;
    let sections = sections(alloc, document)?;
    let tracks = tracks(alloc, document)?;
    let points = points(alloc, document)?;
    let borders = borders(alloc, document)?;
    let joints = joints(alloc, document)?;
    let signals = signals(alloc, document)?;
    let detectors = detectors(alloc, document)?;
    let routes = routes(alloc, document)?;
    Ok(WrittenLayout {
        station,
        sections,
        tracks,
        points,
        borders,
        joints,
        signals,
        detectors,
        routes,
    })
}

/// The TOML document that a text is.
pub fn document(alloc: Global, text: &str) -> Result<Table, LayoutFault>
    ensures { Gives (λ t. table_view t) result (document_of (parse_document text.now)) }
{
    match toml::table_from_str(alloc, text) {
        Ok(table) => Ok(table),
        Err(fault) if fault.is_memory() => Err(LayoutFault::OutOfMemory),
        Err(_) => Err(LayoutFault::Toml),
    }
}
